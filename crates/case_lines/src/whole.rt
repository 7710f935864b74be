//! A whole case.

ghost use Rattle.std.specs.Prelude.{◌≡◌, ◌++◌, Ok, IfOk, OnOk};
ghost use Rattle.line_text.specs.Files.{file_text, file_answer};
ghost use Rattle.case_lines.specs.Grammar.{case_format};

use crate::parts::put_parts;
use crate::rates::put_rates;
use crate::sites::put_sites;
use answers::NoMemory;
use spares_input::Case;
use std::alloc::Global;

/// Writes the lines of a case.
fn put_case(out: &mut Vec<u8>, case: &Case) -> Result<(), NoMemory>
    ensures { OnOk result (out.new.items ≡ out.old.items ++ file_text case_format case.now) }
{
    put_sites(out, case)?;
    put_parts(out, case)?;
    put_rates(out, case)
}

/// The lines of a case: `sites,N` and a line for each site, the depot first; `parts,N` and a line for each part, with
/// `,weights` and a seventh field if some weight isn't 1; and `rates,N` and a line for each pair, by part and then by
/// site. Names are unchanged, and decimals have all their places. Want of memory is the only error.
pub fn write_case(alloc: Global, case: &Case) -> Result<Vec<u8>, NoMemory>
    ensures lines { IfOk result (λ bytes. bytes.items ≡ file_text case_format case.now) }
    ensures again { IfOk result (λ bytes. file_answer case_format bytes.items ≡ Ok case.now) }
{
    // Most lines belong to pairs, with 20 to 60 bytes each.
    let pairs = case.part_count() as usize * case.site_count() as usize;
    let mut out = Vec::with_capacity(alloc, 60 * pairs)?;
    put_case(&mut out, case)?;
    Ok(out)
}
