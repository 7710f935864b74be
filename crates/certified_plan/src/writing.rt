//! The text of a plan's certificate.

ghost use Rattle.std.specs.Prelude.{◌≡◌, IfOk, IfSome};
ghost use Rattle.price_certificate.specs.Certificates.{IsWellFormed};
ghost use Rattle.held_certificate.specs.Held.{IsWellHeld};
ghost use Rattle.certified_plan.specs.Certificates.{text_of};

use answers::NoMemory;
use held_certificate::HeldCertificate;
use price_certificate::Certificate;
use spares_input::Stocks;
use std::alloc::Global;

/// The text of a certificate, with the held stocks if there are any. Want of memory is the only error.
pub fn certificate_text(
    alloc: Global,
    certificate: Certificate,
    held: Option<Stocks>,
) -> Result<Vec<u8>, NoMemory>
    requires certificate { IsWellFormed certificate }
    requires held { IfSome held (λ held. IsWellHeld (record { certificate = certificate; held = held })) }
    ensures { IfOk result (λ bytes. bytes.items ≡ text_of certificate held) }
{
    match held {
        None => price_certificate::text(alloc, &certificate),
        Some(held) => held_certificate::text(alloc, &HeldCertificate { certificate, held }),
    }
}
