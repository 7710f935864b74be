//! The report of the plan of a case.
ghost use Rattle.std.specs.Prelude.{◌≡◌, ◌++◌, IfOk, IfSome, OnOk, codes};
ghost use Rattle.case_figures.specs.Fits.{FitsPrint};
ghost use Rattle.plan_report.specs.Fits.{FitsPlan, IntervalFits, PriceFits};
ghost use Rattle.plan_report.specs.Texts.{
  bounds_text,
  critical_text,
  gains_text,
  loss_text,
  plan_text,
  price_text,
  line,
  steps_text,
};

use crate::text::{
    put_cost, put_down_line, put_line, put_number_line, put_on_hand, put_span_line, put_stocks,
    put_up_line,
};
use answers::NoMemory;
use case_figures::{Figures, Span};
use fixed_interval::{Iv, ratio_down};
use hull::Price;
use spares_input::Name;
use std::alloc::Global;

/// The line unit of the step that doesn't fit the budget, and the cost of the step, in whole money.
#[derive(Clone, Copy)]
pub struct CriticalLine {
    pub part: Name,
    pub cost: u64,
}

/// The figures of a plan's stocks, and their distance from the best. Bound, gap and rounding are in units of 2^-48 of
/// the aim: the total of backorders, or the loss if there is one.
#[derive(Drop)]
pub struct PlanReport {
    /// In whole money.
    pub budget: u64,
    /// Their cost is the cost charged to the budget: of all stocks, or of the stocks added to those on hand.
    pub figures: Figures,
    /// The cost of the stocks on hand, if there is a table of them.
    pub on_hand: Option<u64>,
    /// The aim at these stocks, if it isn't the total of backorders.
    pub loss: Option<Iv<48>>,
    /// No stocks within the budget have an aim below this.
    pub bound: u128,
    /// The upper end of the aim minus the bound.
    pub gap: u128,
    /// No other price has a bound that is higher by more than this.
    pub rounding: u128,
    /// The price that shows the bound.
    pub price: Price,
    /// The cost of the hull choice.
    pub hull: u64,
    /// None if every step fits the budget.
    pub critical: Option<CriticalLine>,
}

/// Appends the line of a loss, if there is one.
fn put_loss(text: &mut Vec<u8>, loss: Option<Iv<48>>) -> Result<(), NoMemory>
    requires { IfSome loss IntervalFits }
    ensures { OnOk result (text.new.items ≡ text.old.items ++ loss_text loss) }
{
    match loss {
        Some(loss) => put_span_line(text, b"loss", &Span::Bits48(loss)),
        None => Ok(()),
    }
}

/// Appends the line of a price with 12 decimals, rounded down.
fn put_price(text: &mut Vec<u8>, price: Price) -> Result<(), NoMemory>
    requires { PriceFits price }
    ensures { OnOk result (text.new.items ≡ text.old.items ++ line (codes "price") (price_text price)) }
{
    let units = u128::from(price.q) * (1 << 48);
    put_line(text, b"price", ratio_down(price.p, units, 12).as_slice())
}

/// Appends the line of the critical step, or `critical,none`.
fn put_critical(text: &mut Vec<u8>, critical: Option<CriticalLine>) -> Result<(), NoMemory>
    ensures { OnOk result (text.new.items ≡ text.old.items ++ critical_text critical) }
{
    let Some(step) = critical else {
        return put_line(text, b"critical", b"none");
    };
    text.extend_from_slice(b"critical,")?;
    put_number_line(text, step.part.as_bytes(), step.cost)
}

impl PlanReport {
    /// Appends the lines from the cost to the loss.
    fn put_gains(&self, text: &mut Vec<u8>) -> Result<(), NoMemory>
        requires figures { FitsPrint self.now.figures }
        requires loss { IfSome self.now.loss IntervalFits }
        ensures { OnOk result (text.new.items ≡ text.old.items ++ gains_text self.now) }
    {
        put_cost(text, &self.figures)?;
        put_on_hand(text, self.on_hand)?;
        put_stocks(text, &self.figures)?;
        put_loss(text, self.loss)
    }

    /// Appends the lines of the bound, the gap and the rounding.
    fn put_bounds(&self, text: &mut Vec<u8>) -> Result<(), NoMemory>
        requires { FitsPlan self.now }
        ensures { OnOk result (text.new.items ≡ text.old.items ++ bounds_text self.now) }
    {
        put_down_line(text, b"bound", self.bound)?;
        put_up_line(text, b"gap", self.gap)?;
        put_up_line(text, b"rounding", self.rounding)
    }

    /// Appends the lines of the price, the hull choice and the critical step.
    fn put_steps(&self, text: &mut Vec<u8>) -> Result<(), NoMemory>
        requires { PriceFits self.now.price }
        ensures { OnOk result (text.new.items ≡ text.old.items ++ steps_text self.now) }
    {
        put_price(text, self.price)?;
        put_number_line(text, b"hull", self.hull)?;
        put_critical(text, self.critical)
    }

    /// The bytes to reserve before the text is put: most lines of items have fewer than 112, and all other lines
    /// together fewer than 4,096.
    pub fn room(&self) -> usize {
        let lines = self.figures.items.len();
        lines.saturating_mul(112).saturating_add(4_096)
    }

    /// Appends the line `plan,BUDGET`, the lines of given stocks from `cost` to `total`, and the lines `bound,X`,
    /// `gap,X`, `rounding,X`, `price,X`, `hull,COST` and `critical,PART,COST` or `critical,none`. The bound is rounded
    /// down, the gap and the rounding up, to 6 decimals; the price is rounded down to 12. If stocks are on hand,
    /// `on-hand,COST` follows `cost`; if there is a loss, `loss,LO,HI` follows `total`. Want of memory is the only
    /// error, and may leave a part of the text.
    pub fn put_text(&self, text: &mut Vec<u8>) -> Result<(), NoMemory>
        requires { FitsPlan self.now }
        ensures { OnOk result (text.new.items ≡ text.old.items ++ plan_text self.now) }
    {
        put_number_line(text, b"plan", self.budget)?;
        self.put_gains(text)?;
        self.put_bounds(text)?;
        self.put_steps(text)
    }

    /// The text that [`put_text`](PlanReport::put_text) appends. Want of memory is the only error.
    pub fn text(&self, alloc: Global) -> Result<Vec<u8>, NoMemory>
        requires { FitsPlan self.now }
        ensures { IfOk result (λ text. text.items ≡ plan_text self.now) }
    {
        let mut text = Vec::with_capacity(alloc, self.room())?;
        self.put_text(&mut text)?;
        Ok(text)
    }
}
