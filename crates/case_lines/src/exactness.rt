//! The laws of a case's lines.

ghost use Rattle.std.specs.Prelude.{◌≡◌, ℕ, suc, true, List, Ok, Err};
ghost use Rattle.line_text.specs.Files.{file_text, file_answer, IsFirstBad};
ghost use Rattle.line_text.specs.Exact.{IsExact, IsLine};
ghost use Rattle.spares_input.specs.Cases.{CaseRows, IsCase};
ghost use Rattle.case_lines.specs.Grammar.{case_format};

/// The lines of a case read as that case, lines that read as a case are its lines, and a refusal names the first bad
/// line. Every case has lines.
pub fn case_lines_are_exact()
    ensures exact { IsExact IsLine case_format }
    ensures valid { (c : CaseRows) → IsCase c → case_format.fits c ≡ true }
    ensures again { (c : CaseRows) → case_format.fits c ≡ true
        → file_answer case_format (file_text case_format c) ≡ Ok c }
    ensures its_text { (bytes : List ℕ) (c : CaseRows) → file_answer case_format bytes ≡ Ok c
        → (case_format.fits c ≡ true) × (bytes ≡ file_text case_format c) }
    ensures first_bad { (bytes : List ℕ) (n : ℕ) → file_answer case_format bytes ≡ Err n
        → (before : ℕ) × (n ≡ suc before) × IsFirstBad case_format bytes before }
{}
