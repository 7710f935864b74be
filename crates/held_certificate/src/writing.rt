//! The text of a held certificate.

ghost use Rattle.std.specs.Prelude.{◌≡◌, ◌++◌, OnOk, IfOk};
ghost use Rattle.std.specs.List.{concat};
ghost use Rattle.spares_input.specs.Stocks.{IsFor};
ghost use Rattle.held_certificate.specs.Held.{held, IsWellHeld, held_text};

use crate::held::HeldCertificate;
use answers::NoMemory;
use line_text::put_count_line;
use price_certificate::{put_each_stock, text as certificate_text};
use spares_input::{Case, Stocks};
use std::alloc::Global;

/// Writes the lines of the held stocks.
fn put_held(out: &mut Vec<u8>, case: &Case, list: &Stocks) -> Result<(), NoMemory>
    requires { IsFor case.now list.now }
    ensures { OnOk result (out.new.items ≡ out.old.items ++ concat ((held case.now).print list.now)) }
{
    let pairs = case.part_count() as u128 * case.site_count() as u128;
    put_count_line(out, b"held", pairs)?;
    put_each_stock(out, list.as_slice())?;
    Ok(())
}

/// The text of a held certificate: `spares-held,1`, all lines of the certificate with its own `end`, the held stock of
/// each pair, and a second `end`. Want of memory is the only error.
pub fn text(alloc: Global, certificate: &HeldCertificate) -> Result<Vec<u8>, NoMemory>
    requires { IsWellHeld certificate.now }
    ensures { IfOk result (λ bytes. bytes.items ≡ held_text certificate.now) }
{
    let mut out = Vec::new(alloc);
    put_count_line(&mut out, b"spares-held", 1)?;
    let lines = certificate_text(alloc, &certificate.certificate)?;
    out.extend_from_slice(lines.as_slice())?;
    put_held(&mut out, &certificate.certificate.case, &certificate.held)?;
    out.extend_from_slice(b"end\n")?;
    Ok(out)
}
