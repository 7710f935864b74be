//! The laws of reading a case's lines.

ghost use Rattle.std.specs.Prelude.{◌≡◌, true, Ok};
ghost use Rattle.spares_input.specs.Cases.{CaseRows, IsCase, frame_rows, case_of};
ghost use Rattle.case_lines.specs.Grammar.{case_format};
ghost use Rattle.case_lines.specs.Framed.{framed};

/// The lines of a case make that same case. Lines whose sites and parts make a frame make a case: their rates break no
/// rule.
pub fn lines_make_cases()
    ensures again { (c : CaseRows) → IsCase c → framed c ≡ Ok c }
    ensures rates { (c : CaseRows) → case_format.fits c ≡ true → framed c ≡ Ok c
        → case_of (frame_rows c) c.rates ≡ Ok c }
{}
