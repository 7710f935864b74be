//! The report of an accepted certificate.
ghost use Rattle.std.specs.Prelude.{◌≡◌, ◌++◌, IfOk, OnOk, codes};
ghost use Rattle.plan_report.specs.Fits.{FitsCheck};
ghost use Rattle.plan_report.specs.Texts.{check_text, down_text, line, up_text};

use crate::text::{put_down_line, put_number_line, put_on_hand, put_up_line};
use answers::NoMemory;
use std::alloc::Global;

/// The claims of an accepted certificate, and the cost of its stocks. The upper end and the bound are in units of 2^-48
/// of the aim.
#[derive(Clone, Copy)]
pub struct CheckReport {
    /// 1, or 2 if covers show the floors.
    pub format: u8,
    /// In whole money.
    pub budget: u64,
    /// The cost charged to the budget: of all stocks of the certificate, or of the stocks added to those on hand.
    pub cost: u64,
    /// The cost of the stocks on hand, if some may be held already.
    pub on_hand: Option<u64>,
    /// The aim at the certificate's stocks is at most this.
    pub upper: u128,
    /// No stocks within the budget have an aim below this.
    pub bound: u128,
}

impl CheckReport {
    /// Appends the lines of the upper end and the bound.
    fn put_ends(&self, text: &mut Vec<u8>) -> Result<(), NoMemory>
        requires { FitsCheck self.now }
        ensures { OnOk result (text.new.items ≡ text.old.items
            ++ (line (codes "upper") (up_text self.now.upper) ++ line (codes "bound") (down_text self.now.bound))) }
    {
        put_up_line(text, b"upper", self.upper)?;
        put_down_line(text, b"bound", self.bound)
    }

    /// Appends all lines of the report.
    fn put_text(&self, text: &mut Vec<u8>) -> Result<(), NoMemory>
        requires { FitsCheck self.now }
        ensures { OnOk result (text.new.items ≡ text.old.items ++ check_text self.now) }
    {
        put_number_line(text, b"accepted", u64::from(self.format))?;
        put_number_line(text, b"budget", self.budget)?;
        put_number_line(text, b"cost", self.cost)?;
        put_on_hand(text, self.on_hand)?;
        self.put_ends(text)
    }

    /// The lines `accepted,FORMAT`, `budget,BUDGET`, `cost,COST`, `upper,X` and `bound,X`. If stocks are on hand, the
    /// line `on-hand,COST` follows `cost`. The upper end is rounded up and the bound down, to 6 decimals. Want of
    /// memory is the only error.
    pub fn text(&self, alloc: Global) -> Result<Vec<u8>, NoMemory>
        requires { FitsCheck self.now }
        ensures { IfOk result (λ text. text.items ≡ check_text self.now) }
    {
        let mut text = Vec::new(alloc);
        self.put_text(&mut text)?;
        Ok(text)
    }
}
