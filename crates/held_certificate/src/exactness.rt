//! The laws of held certificates.

ghost use Rattle.std.specs.Prelude.{◌≡◌, ℕ, suc, true, false, List, Ok, Err};
ghost use Rattle.line_text.specs.Files.{IsFirstBad};
ghost use Rattle.line_text.specs.Exact.{IsExact, IsLine};
ghost use Rattle.price_certificate.specs.declared.fault.CertFault.TheVariants as fault;
ghost use Rattle.held_certificate.specs.declared.held.HeldCertificate.{HeldCertificate};
ghost use Rattle.spares_input.specs.declared.fault.CaseFault.{CaseFault};
ghost use Rattle.price_certificate.specs.declared.certificate.Certificate.{Certificate};
ghost use Rattle.price_certificate.specs.Certificates.{cert_text};
ghost use Rattle.held_certificate.specs.Held.{IsWellHeld, HasCaseFault, held_format, held_text, held_of, is_held_form};

/// Text and reading of held certificates are inverse. A bad line is the first bad line. A case fault comes exactly if
/// the lines up to the first `end` have it, whatever follows.
pub fn held_certificates_are_exact()
    ensures exact { IsExact IsLine held_format }
    ensures again { (h : HeldCertificate) → IsWellHeld h → held_of (held_text h) ≡ Ok h }
    ensures its_text { (bytes : List ℕ) (h : HeldCertificate) → held_of bytes ≡ Ok h → bytes ≡ held_text h }
    ensures bad_line { (bytes : List ℕ) (n : ℕ) → held_of bytes ≡ Err (fault.BadLine n)
        → (before : ℕ) × (n ≡ suc before) × IsFirstBad held_format bytes before }
    ensures bad_case { (bytes : List ℕ) (f : CaseFault) → held_of bytes ≡ Err (fault.BadCase f) → HasCaseFault bytes f }
    ensures only_bad_case { (bytes : List ℕ) (f : CaseFault) → HasCaseFault bytes f
        → held_of bytes ≡ Err (fault.BadCase f) }
{}

/// The text of a held certificate begins with its own first line, and the text of any other certificate doesn't.
pub fn forms_are_told_apart()
    ensures held { (h : HeldCertificate) → is_held_form (held_text h) ≡ true }
    ensures plain { (c : Certificate) → is_held_form (cert_text c) ≡ false }
{}

/// Whether bytes begin with the first line of a held certificate, its line feed included.
pub fn is_held_form(bytes: &[u8]) -> bool
    ensures { result ≡ is_held_form bytes.now }
{
    bytes.starts_with(b"spares-held,1\n")
}
