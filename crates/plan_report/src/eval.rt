//! The report of given stocks.
ghost use Rattle.std.specs.Prelude.{◌≡◌, IfOk};
ghost use Rattle.case_figures.specs.Fits.{FitsPrint};
ghost use Rattle.plan_report.specs.Texts.{eval_text};

use crate::text::{put_figures, put_number_line};
use answers::NoMemory;
use case_figures::Figures;
use std::alloc::Global;

/// The figures of a case at given stocks.
#[derive(Drop)]
pub struct EvalReport {
    /// The binary places of the intervals: 32, 48 or 52.
    pub bits: u8,
    pub figures: Figures,
}

impl EvalReport {
    /// The lines `eval,BITS`, `cost,COST`, `item,PART,SITE,STOCK` with four intervals for each item, `base,SITE,LO,HI`
    /// for each base, `fleet,LO,HI` and `total,LO,HI`. An interval is `LO,HI` with 6 decimals, the lower end rounded
    /// down and the upper end up. Want of memory is the only error.
    pub fn text(&self, alloc: Global) -> Result<Vec<u8>, NoMemory>
        requires { FitsPrint self.now.figures }
        ensures { IfOk result (λ text. text.items ≡ eval_text self.now) }
    {
        let mut text = Vec::new(alloc);
        put_number_line(&mut text, b"eval", self.bits as u64)?;
        put_figures(&mut text, &self.figures)?;
        Ok(text)
    }
}
