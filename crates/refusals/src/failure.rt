//! A refusal on its way to its line.
ghost use Rattle.std.specs.Prelude.{◌≡◌, ◌≤◌, ◌++◌, Some, None, length};
ghost use Rattle.std.specs.Option.{option_map};
ghost use Rattle.refusals.specs.Lines.{line_of_refusal, names_of, no_names, refusal_text, which_text, words_text};
ghost use Rattle.refusals.specs.Causes.{failure_of, stopped};

use crate::line::Line;
use crate::refusal::Refusal;
use answers::Stop;
use spares_input::Frame;
use spares_words::{Which, WordsFault};

/// A refusal with its line. The line is made while the names of the case are known.
#[derive(Drop)]
pub struct Failure {
    pub refusal: Refusal,
    pub line: Line,
}

impl Failure {
    /// A refusal that names no pair of a case.
    pub fn of(refusal: Refusal) -> Failure
        ensures { result ≡ failure_of no_names refusal }
    {
        let line = refusal_line(None, &refusal);
        Failure { refusal, line }
    }

    /// A refusal whose pair has its names in this frame.
    pub fn at(frame: &Frame, refusal: Refusal) -> Failure
        ensures { result ≡ failure_of frame.now refusal }
    {
        let line = refusal_line(Some(frame), &refusal);
        Failure { refusal, line }
    }
}

impl From<Stop<Failure>> for Failure {
    ghost from_gives = { λ stop failure. failure ≡ stopped stop };

    fn from(stop: Stop<Failure>) -> Self {
        match stop {
            Stop::NoMemory => Failure::of(Refusal::NoMemory),
            Stop::Fault(failure) => failure,
        }
    }
}

impl Line {
    /// Appends the fault of words.
    pub(crate) fn put_words(&mut self, fault: WordsFault)
        requires { length self.old ≤ 6 }
        ensures text { self.new ≡ self.old ++ words_text fault }
        ensures short { length self.new ≤ 159 }
    {
        match fault {
            WordsFault::Shape => self.put(b"words"),
            WordsFault::Number(which, _) => {
                self.put(b"number,");
                self.put(which_text(which));
            }
            WordsFault::Range(which) => {
                self.put(b"range,");
                self.put(which_text(which));
            }
        }
    }

    /// Appends the fields of a refusal.
    pub(crate) fn put_refusal(&mut self, frame: Option<&Frame>, refusal: &Refusal)
        requires { length self.old ≤ 6 }
        ensures text { self.new ≡ self.old ++ refusal_text
            (names_of (option_map (λ f. f.now) frame.entry)) refusal.now }
        ensures short { length self.new ≤ 159 }
    {
        match refusal {
            Refusal::Words(fault) => self.put_words(*fault),
            Refusal::ReadFault(file) => self.put_file(b"read,", *file),
            Refusal::TooLong(file) => self.put_file(b"too-long,", *file),
            Refusal::Table(file, fault) => self.put_table(*file, *fault),
            Refusal::Case(fault) => self.put_case(frame, *fault),
            Refusal::Stock(fault) => self.put_stock(frame, *fault),
            Refusal::Rate(fault) => self.put_rate(frame, *fault),
            Refusal::Work(count) => self.put_count(b"work", *count),
            Refusal::Cert(fault) => self.put_certificate(*fault),
            Refusal::Rejected(reject) => self.put_reject(frame, *reject),
            Refusal::Edit(fault) => self.put_edit(*fault),
            Refusal::WriteFault => self.put(b"write"),
            Refusal::NoMemory => self.put(b"memory"),
        }
    }
}

/// The name of a number of the command line.
fn which_text(which: Which) -> &'static [u8]
    ensures text { result.now ≡ which_text which }
    ensures short { length result.now ≤ 9 }
{
    match which {
        Which::Mean => b"mean",
        Which::Stock => b"stock",
        Which::Variance => b"variance",
        Which::Budget => b"budget",
        Which::Bits => b"bits",
        Which::Format => b"format",
        Which::Objective => b"objective",
        Which::Number => b"number",
        Which::Lines => b"lines",
        Which::Target => b"target",
    }
}

/// The line of a refusal: `fault`, the fault and its place, separated by commas, and a line feed. The frame has the
/// names of a pair.
#[tactic(auto, unfolding(crate::specs::Lines::line_of_refusal))]
fn refusal_line(frame: Option<&Frame>, refusal: &Refusal) -> Line
    ensures { result ≡ line_of_refusal (names_of (option_map (λ f. f.now) frame.entry)) refusal.now }
{
    let mut line = Line::new();
    line.put(b"fault,");
    line.put_refusal(frame, refusal);
    line.push(b'\n');
    line
}
