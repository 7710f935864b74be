//! The report of a comparison, and its text.

ghost use Rattle.std.specs.Prelude.{◌≡◌, ◌++◌, All, IfOk, OnOk};
ghost use Rattle.std.specs.List.{flat_map};
ghost use Rattle.plan_report.specs.Fits.{IntervalFits};
ghost use Rattle.metric_compare.specs.Fits.{ComparedFits, FitsComparison};
ghost use Rattle.metric_compare.specs.Texts.{columns_text, compare_text, compared_text, compare_pair_text, totals_text};

use answers::{List, NoMemory};
use fixed_interval::Iv;
use line_text::put_number;
use plan_report::{put_interval, put_number_line};
use spares_input::Name;
use std::alloc::Global;

/// A pair of a part and a site with its stock, its expected backorders, and its expected backorders with Poisson
/// pipelines.
#[derive(Clone, Copy)]
pub struct CompareItem {
    pub part: Name,
    pub site: Name,
    /// 0 to 63.
    pub stock: u8,
    pub backorders: Iv<48>,
    pub poisson: Iv<48>,
}

/// All pairs, by part and then by site, and the weighted totals of the line units' backorders at the bases.
#[derive(Drop)]
pub struct CompareReport {
    pub items: List<CompareItem>,
    pub total: Iv<48>,
    pub poisson_total: Iv<48>,
}

impl CompareReport {
    /// The lines `compare,48`, `item,PART,SITE,STOCK,LO,HI,LO,HI` for each pair and `total,LO,HI,LO,HI`: the model's
    /// ends and then the Poisson ends, with 6 decimals, the lower end rounded down and the upper end up. Want of memory
    /// is the only error.
    pub fn text(&self, alloc: Global) -> Result<Vec<u8>, NoMemory>
        requires { FitsComparison self.now }
        ensures { IfOk result (λ text. text.items ≡ compare_text self.now) }
    {
        let mut text = Vec::new(alloc);
        put_number_line(&mut text, b"compare", 48)?;
        put_items(&mut text, self.items.as_slice())?;
        put_totals(&mut text, self)?;
        Ok(text)
    }
}

/// Appends the two columns.
fn put_columns(text: &mut Vec<u8>, model: &Iv<48>, poisson: &Iv<48>) -> Result<(), NoMemory>
    requires model { IntervalFits model.now }
    requires poisson { IntervalFits poisson.now }
    ensures { OnOk result (text.new.items ≡ text.old.items ++ columns_text model.now poisson.now) }
{
    put_interval(text, model)?;
    text.push(b',')?;
    put_interval(text, poisson)
}

/// Appends the names and the stock of a pair.
fn put_pair(text: &mut Vec<u8>, item: &CompareItem) -> Result<(), NoMemory>
    ensures { OnOk result (text.new.items ≡ text.old.items ++ compare_pair_text item.now) }
{
    text.extend_from_slice(item.part.as_bytes())?;
    text.push(b',')?;
    text.extend_from_slice(item.site.as_bytes())?;
    text.push(b',')?;
    put_number(text, u128::from(item.stock))
}

/// Appends the line of a pair.
fn put_item(text: &mut Vec<u8>, item: &CompareItem) -> Result<(), NoMemory>
    requires { ComparedFits item.now }
    ensures { OnOk result (text.new.items ≡ text.old.items ++ compared_text item.now) }
{
    text.extend_from_slice(b"item,")?;
    put_pair(text, item)?;
    text.push(b',')?;
    put_columns(text, &item.backorders, &item.poisson)?;
    Ok(text.push(b'\n')?)
}

/// Appends the lines of all pairs.
fn put_items(text: &mut Vec<u8>, items: &[CompareItem]) -> Result<(), NoMemory>
    requires { All ComparedFits items.now }
    ensures { OnOk result (text.new.items ≡ text.old.items ++ flat_map compared_text items.now) }
{
    for item in items {
        put_item(text, item)?;
    }
    Ok(())
}

/// Appends the line of the totals.
fn put_totals(text: &mut Vec<u8>, report: &CompareReport) -> Result<(), NoMemory>
    requires { FitsComparison report.now }
    ensures { OnOk result (text.new.items ≡ text.old.items ++ totals_text report.now) }
{
    text.extend_from_slice(b"total,")?;
    put_columns(text, &report.total, &report.poisson_total)?;
    Ok(text.push(b'\n')?)
}
