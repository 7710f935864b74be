//! The pieces of reports' texts.
ghost use Rattle.std.specs.Prelude.{◌≡◌, ◌++◌, ◌∷◌, ◌<◌, ◌^◌, ℕ, All, OnOk};
ghost use Rattle.std.specs.List.{flat_map};
ghost use Rattle.std.specs.Fmt.{decimal};
ghost use Rattle.fixed_interval.specs.Ends.{Ends};
ghost use Rattle.fixed_interval.specs.Text.{fixed_text, last_digits};
ghost use Rattle.case_figures.specs.Fits.{BaseFits, FitsPrint, SpanFits};
ghost use Rattle.case_figures.specs.Spans.{ends, places};
ghost use Rattle.hull.specs.declared.price.Price.{Price};
ghost use Rattle.plan_report.specs.Fits.{UnitsFit};
ghost use Rattle.plan_report.specs.Texts.{
  PrintsAbove,
  PrintsBelow,
  PrintsOutward,
  PrintsPriceBelow,
  PrintsWithin,
  base_text,
  cost_text,
  down_text,
  figures_text,
  interval_text,
  item_text,
  line,
  lower_millionths,
  on_hand_text,
  span_text,
  stocks_text,
  up_text,
  upper_millionths,
};

use crate::item::{ItemLine, put_item};
use answers::NoMemory;
use case_figures::{BaseLine, Figures, Items, Span};
use fixed_interval::Iv;
use itoa::Buffer;
use line_text::{put_count_line, put_fixed};

/// The two printed numbers of an interval enclose the interval. A number printed rounded down is at most itself, and
/// one rounded up is at least itself. If a bound is within a rounding of another, so are their printed forms.
pub fn prints_outward()
    ensures intervals { (f : ℕ) (x : Ends) → PrintsOutward f x }
    ensures spans { (x : Span) → PrintsOutward (places x) (ends x) }
    ensures down { (n : ℕ) → PrintsBelow n }
    ensures up { (n : ℕ) → PrintsAbove n }
    ensures within { (n m rounding : ℕ) → PrintsWithin n m rounding }
    ensures price { (price : Price) → PrintsPriceBelow price }
{}

/// A point and the last 6 decimal digits of a number.
pub(crate) fn decimals(number: u64) -> [u8; 7]
    ensures { result ≡ 46 ∷ last_digits 6 number }
{
    let part = (number % 1_000_000) as u32;
    [
        b'.',
        b'0' + (part / 100_000) as u8,
        b'0' + (part / 10_000 % 10) as u8,
        b'0' + (part / 1_000 % 10) as u8,
        b'0' + (part / 100 % 10) as u8,
        b'0' + (part / 10 % 10) as u8,
        b'0' + (part % 10) as u8,
    ]
}

/// Appends a 64-bit number of millionths with 6 decimals.
fn put_small_millionths(text: &mut Vec<u8>, millionths: u64) -> Result<(), NoMemory>
    ensures { OnOk result (text.new.items ≡ text.old.items ++ fixed_text 6 millionths) }
{
    let mut buffer = Buffer::new();
    text.extend_from_slice(buffer.format(millionths / 1_000_000).as_bytes())?;
    text.extend_from_slice(&decimals(millionths))?;
    Ok(())
}

/// Appends a number of millionths with 6 decimals.
fn put_millionths(text: &mut Vec<u8>, millionths: u128) -> Result<(), NoMemory>
    ensures { OnOk result (text.new.items ≡ text.old.items ++ fixed_text 6 millionths) }
{
    if millionths < 1 << 64 {
        put_small_millionths(text, millionths as u64)
    } else {
        put_fixed(text, 6, millionths)
    }
}

/// The lower end of an interval in millionths, rounded down.
fn lower_millionths<const F: u32>(interval: &Iv<F>) -> u128
    requires { interval.now.hi < 2 ^ 86 }
    ensures { result ≡ lower_millionths F interval.now }
{
    (interval.lo() * 1_000_000) >> F
}

/// The upper end of an interval in millionths, rounded up.
fn upper_millionths<const F: u32>(interval: &Iv<F>) -> u128
    requires { interval.now.hi < 2 ^ 86 }
    ensures { result ≡ upper_millionths F interval.now }
{
    (interval.hi() * 1_000_000).div_ceil(1 << F)
}

/// Appends both ends of an interval with 6 decimals, the lower one rounded down and the upper one up. Want of memory is
/// the only error, and may leave a part of the text.
pub fn put_interval<const F: u32>(text: &mut Vec<u8>, interval: &Iv<F>) -> Result<(), NoMemory>
    requires { interval.now.hi < 2 ^ 86 }
    ensures { OnOk result (text.new.items ≡ text.old.items ++ interval_text F interval.now) }
{
    put_millionths(text, lower_millionths(interval))?;
    text.push(b',')?;
    put_millionths(text, upper_millionths(interval))
}

/// Appends both ends of an interval of any of the three kinds.
fn put_span(text: &mut Vec<u8>, span: &Span) -> Result<(), NoMemory>
    requires { SpanFits span.now }
    ensures { OnOk result (text.new.items ≡ text.old.items ++ span_text span.now) }
{
    match span {
        Span::Bits32(interval) => put_interval(text, interval),
        Span::Bits48(interval) => put_interval(text, interval),
        Span::Bits52(interval) => put_interval(text, interval),
    }
}

/// Appends a line of a name and an interval.
pub(crate) fn put_span_line(text: &mut Vec<u8>, name: &[u8], span: &Span) -> Result<(), NoMemory>
    requires { SpanFits span.now }
    ensures { OnOk result (text.new.items ≡ text.old.items ++ line name.now (span_text span.now)) }
{
    text.extend_from_slice(name)?;
    text.push(b',')?;
    put_span(text, span)?;
    text.push(b'\n')?;
    Ok(())
}

/// Appends a line of a name and a whole number. Want of memory is the only error, and may leave a part of the line.
pub fn put_number_line(text: &mut Vec<u8>, name: &[u8], number: u64) -> Result<(), NoMemory>
    ensures { OnOk result (text.new.items ≡ text.old.items ++ line name.now (decimal number)) }
{
    put_count_line(text, name, number as u128)
}

/// Appends a line of a name and its fields.
pub(crate) fn put_line(text: &mut Vec<u8>, name: &[u8], fields: &[u8]) -> Result<(), NoMemory>
    ensures { OnOk result (text.new.items ≡ text.old.items ++ line name.now fields.now) }
{
    text.extend_from_slice(name)?;
    text.push(b',')?;
    text.extend_from_slice(fields)?;
    text.push(b'\n')?;
    Ok(())
}

/// Appends a line of a name and a number in units of 2^-48, with 6 decimals, rounded down.
pub(crate) fn put_down_line(text: &mut Vec<u8>, name: &[u8], units: u128) -> Result<(), NoMemory>
    requires { UnitsFit units }
    ensures { OnOk result (text.new.items ≡ text.old.items ++ line name.now (down_text units)) }
{
    let number = Iv::<48>::of_ends(units, units);
    put_line(text, name, number.down_text(6).as_slice())
}

/// Appends a line of a name and a number in units of 2^-48, with 6 decimals, rounded up.
pub(crate) fn put_up_line(text: &mut Vec<u8>, name: &[u8], units: u128) -> Result<(), NoMemory>
    requires { UnitsFit units }
    ensures { OnOk result (text.new.items ≡ text.old.items ++ line name.now (up_text units)) }
{
    let number = Iv::<48>::of_ends(units, units);
    put_line(text, name, number.up_text(6).as_slice())
}

/// Appends the line of the cost of the stocks on hand, if there are any.
pub(crate) fn put_on_hand(text: &mut Vec<u8>, on_hand: Option<u64>) -> Result<(), NoMemory>
    ensures { OnOk result (text.new.items ≡ text.old.items ++ on_hand_text on_hand) }
{
    match on_hand {
        Some(cost) => put_number_line(text, b"on-hand", cost),
        None => Ok(()),
    }
}

/// Appends the line of a base.
fn put_base(text: &mut Vec<u8>, base: &BaseLine) -> Result<(), NoMemory>
    requires { BaseFits base.now }
    ensures { OnOk result (text.new.items ≡ text.old.items ++ base_text base.now) }
{
    text.extend_from_slice(b"base,")?;
    put_span_line(text, base.site.as_bytes(), &base.availability)
}

/// Appends the lines of all pairs.
fn put_items(text: &mut Vec<u8>, items: &Items) -> Result<(), NoMemory>
    ensures { OnOk result (text.new.items ≡ text.old.items ++ flat_map item_text items.now) }
{
    let mut line = ItemLine::new();
    for n in 0..items.len() {
        put_item(&mut line, &items.compact(n));
        text.extend_from_slice(line.as_slice())?;
    }
    Ok(())
}

/// Appends the lines of all bases.
fn put_bases(text: &mut Vec<u8>, bases: &[BaseLine]) -> Result<(), NoMemory>
    requires { All BaseFits bases.now }
    ensures { OnOk result (text.new.items ≡ text.old.items ++ flat_map base_text bases.now) }
{
    for base in bases {
        put_base(text, base)?;
    }
    Ok(())
}

/// Appends the line of the cost.
pub(crate) fn put_cost(text: &mut Vec<u8>, figures: &Figures) -> Result<(), NoMemory>
    ensures { OnOk result (text.new.items ≡ text.old.items ++ cost_text figures.now) }
{
    put_number_line(text, b"cost", figures.cost)
}

/// Appends the lines from the items to the total.
pub(crate) fn put_stocks(text: &mut Vec<u8>, figures: &Figures) -> Result<(), NoMemory>
    requires { FitsPrint figures.now }
    ensures { OnOk result (text.new.items ≡ text.old.items ++ stocks_text figures.now) }
{
    put_items(text, &figures.items)?;
    put_bases(text, figures.bases.as_slice())?;
    put_span_line(text, b"fleet", &figures.fleet)?;
    put_span_line(text, b"total", &figures.total)
}

/// Appends the lines from the cost to the total.
pub(crate) fn put_figures(text: &mut Vec<u8>, figures: &Figures) -> Result<(), NoMemory>
    requires { FitsPrint figures.now }
    ensures { OnOk result (text.new.items ≡ text.old.items ++ figures_text figures.now) }
{
    put_cost(text, figures)?;
    put_stocks(text, figures)
}
