//! The report of a demonstration case.
ghost use Rattle.std.specs.Prelude.{◌≡◌, ◌++◌, IfOk, OnOk};
ghost use Rattle.plan_report.specs.Fits.{FitsSummary};
ghost use Rattle.plan_report.specs.Texts.{case_text, planned_text, summary_text};

use crate::text::{put_down_line, put_number_line, put_span_line, put_up_line};
use answers::NoMemory;
use case_figures::Span;
use fixed_interval::Iv;
use itoa::Buffer;
use std::alloc::Global;

/// The plan of a demonstration case whose certificate was accepted. Bound and gap are in units of 2^-48.
#[derive(Clone, Copy)]
pub struct Summary {
    /// The number from which the case is made.
    pub number: u32,
    /// The count of line units.
    pub lines: u16,
    /// The count of parts.
    pub parts: u32,
    /// In whole money.
    pub budget: u64,
    pub cost: u64,
    /// The weighted expected backorders of the line units at the bases.
    pub total: Iv<48>,
    pub bound: u128,
    pub gap: u128,
}

impl Summary {
    /// Appends the lines of the case.
    fn put_case(&self, text: &mut Vec<u8>) -> Result<(), NoMemory>
        ensures { OnOk result (text.new.items ≡ text.old.items ++ case_text self.now) }
    {
        let mut digits = Buffer::new();
        let number = digits.format(self.number).as_bytes();
        text.extend_from_slice(b"demo,")?;
        put_number_line(text, number, u64::from(self.lines))?;
        put_number_line(text, b"parts", u64::from(self.parts))
    }

    /// Appends the lines of its plan.
    fn put_plan(&self, text: &mut Vec<u8>) -> Result<(), NoMemory>
        requires { FitsSummary self.now }
        ensures { OnOk result (text.new.items ≡ text.old.items ++ planned_text self.now) }
    {
        put_number_line(text, b"budget", self.budget)?;
        put_number_line(text, b"cost", self.cost)?;
        put_span_line(text, b"total", &Span::Bits48(self.total))?;
        put_down_line(text, b"bound", self.bound)?;
        put_up_line(text, b"gap", self.gap)
    }

    /// The lines `demo,NUMBER,LINES`, `parts,COUNT`, `budget,BUDGET`, `cost,COST`, `total,LO,HI`, `bound,X`, `gap,X`
    /// and `accepted`, with 6 decimals: the bound is rounded down, the gap up. Want of memory is the only error.
    pub fn text(&self, alloc: Global) -> Result<Vec<u8>, NoMemory>
        requires { FitsSummary self.now }
        ensures { IfOk result (λ text. text.items ≡ summary_text self.now) }
    {
        let mut text = Vec::new(alloc);
        self.put_case(&mut text)?;
        self.put_plan(&mut text)?;
        text.extend_from_slice(b"accepted\n")?;
        Ok(text)
    }
}
