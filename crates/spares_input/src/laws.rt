//! The laws of frames and cases.

ghost use Rattle.std.specs.Prelude.{◌≡◌, None, Ok};
ghost use Rattle.spares_input.specs.Frames.{FrameRows, IsFrame, frame_fault, frame_of};
ghost use Rattle.spares_input.specs.Cases.{CaseRows, IsCase, case_of, frame_rows};

/// The rows of a frame break no rule, and make that same frame again; the same for the rates of a case.
pub fn cases_break_no_rule()
    ensures no_fault { (f : FrameRows) → IsFrame f → frame_fault f.sites f.parts ≡ None }
    ensures frame { (f : FrameRows) → IsFrame f → frame_of f.sites f.parts ≡ Ok f }
    ensures case { (c : CaseRows) → IsCase c → case_of (frame_rows c) c.rates ≡ Ok c }
{}
