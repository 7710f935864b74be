//! The report of a single pipeline.
ghost use Rattle.std.specs.Prelude.{◌≡◌, ◌<◌, ◌^◌, IfOk};
ghost use Rattle.plan_report.specs.Texts.{single_text};

use crate::text::put_span_line;
use answers::NoMemory;
use case_figures::Span;
use fixed_interval::Iv;
use std::alloc::Global;

/// The expected backorders of a single pipeline and the variance of its backorders, in units.
#[derive(Clone, Copy)]
pub struct SingleReport {
    pub backorders: Iv<48>,
    pub spread: Iv<48>,
}

impl SingleReport {
    /// Two lines, `backorders,LO,HI` and `variance,LO,HI`, with 6 decimals, the lower ends rounded down and the upper
    /// ends up. Want of memory is the only error.
    pub fn text(&self, alloc: Global) -> Result<Vec<u8>, NoMemory>
        requires backorders { self.now.backorders.hi < 2 ^ 86 }
        requires spread { self.now.spread.hi < 2 ^ 86 }
        ensures { IfOk result (λ text. text.items ≡ single_text self.now) }
    {
        let mut text = Vec::new(alloc);
        put_span_line(&mut text, b"backorders", &Span::Bits48(self.backorders))?;
        put_span_line(&mut text, b"variance", &Span::Bits48(self.spread))?;
        Ok(text)
    }
}
