//! The line of a pair.
ghost use Rattle.std.specs.Prelude.{◌≡◌, ◌+◌, ◌<◌, ◌≤◌, ◌^◌, ◌++◌, ◌∷◌, [], length};
ghost use Rattle.std.specs.Fmt.{decimal};
ghost use Rattle.fixed_interval.specs.Text.{fixed_text};
ghost use Rattle.fixed_interval.specs.Widths.{IsWidth};
ghost use Rattle.case_figures.specs.Compact.{compact_line};
ghost use Rattle.plan_report.specs.Compact.{compact_text, names_text};
ghost use Rattle.plan_report.specs.Texts.{
  interval_text,
  item_text,
  lower_millionths,
  upper_millionths,
};

use crate::text::decimals;
use case_figures::{CompactItem, ItemRef, Narrow};
use itoa::Buffer;
use line_text::ShortLine;
use spares_input::Name;

/// The line of a pair while it is built: at most 320 bytes.
pub(crate) type ItemLine = ShortLine<320>;

/// The lower end of an interval in millionths, rounded down.
fn lower_millionths<const F: u32>(interval: &Narrow) -> u64
    requires { IsWidth F }
    ensures { result ≡ lower_millionths F interval.now }
{
    ((u128::from(interval.lo()) * 1_000_000) >> F) as u64
}

/// The upper end of an interval in millionths, rounded up.
fn upper_millionths<const F: u32>(interval: &Narrow) -> u64
    requires { IsWidth F }
    ensures { result ≡ upper_millionths F interval.now }
{
    (u128::from(interval.hi()) * 1_000_000).div_ceil(1 << F) as u64
}

/// Puts a whole number.
#[tactic(auto, using(std::proofs::lemmas::Fmt::decimal_digit))]
fn put_whole(line: &mut ItemLine, whole: u64)
    requires { length line.old ≤ 300 }
    ensures text { line.new ≡ line.old ++ decimal whole }
    ensures short { length line.new ≤ length line.old + 20 }
{
    if whole < 10 {
        line.push(b'0' + whole as u8);
    } else {
        let mut buffer = Buffer::new();
        line.put(buffer.format(whole).as_bytes());
    }
}

/// Puts a number of millionths with 6 decimals.
fn put_millionths(line: &mut ItemLine, millionths: u64)
    requires { length line.old ≤ 293 }
    ensures text { line.new ≡ line.old ++ fixed_text 6 millionths }
    ensures short { length line.new ≤ length line.old + 27 }
{
    put_whole(line, millionths / 1_000_000);
    line.put(&decimals(millionths));
}

/// Puts a comma and both ends of an interval with 6 decimals, the lower one rounded down and the upper one up.
fn put_ends<const F: u32>(line: &mut ItemLine, interval: &Narrow)
    requires width { IsWidth F }
    requires room { length line.old ≤ 264 }
    ensures text { line.new ≡ line.old ++ (44 ∷ interval_text F interval.now) }
    ensures short { length line.new ≤ length line.old + 56 }
{
    line.push(b',');
    put_millionths(line, lower_millionths::<F>(interval));
    line.push(b',');
    put_millionths(line, upper_millionths::<F>(interval));
}

/// Puts the four intervals of a pair, each after a comma.
fn put_intervals<const F: u32>(line: &mut ItemLine, compact: &CompactItem)
    requires width { IsWidth F }
    requires room { length line.old ≤ 96 }
    ensures text { line.new ≡ line.old ++ compact_text F compact.now }
    ensures short { length line.new ≤ length line.old + 224 }
{
    put_ends::<F>(line, &compact.mean);
    put_ends::<F>(line, &compact.variance);
    put_ends::<F>(line, &compact.backorders);
    put_ends::<F>(line, &compact.spread);
}

/// Puts a name and a comma.
fn put_name(line: &mut ItemLine, name: &Name)
    requires { length line.old ≤ 295 }
    ensures text { line.new ≡ line.old ++ (name.now ++ 44 ∷ []) }
    ensures short { length line.new ≤ length line.old + 25 }
{
    line.put(name.as_bytes());
    line.push(b',');
}

/// Overwrites the line with the names and the stock of a pair.
fn put_names(line: &mut ItemLine, part: &Name, site: &Name, stock: u8)
    ensures text { line.new ≡ names_text part.now site.now stock }
    ensures short { length line.new ≤ 75 }
{
    line.clear();
    line.put(b"item,");
    put_name(line, part);
    put_name(line, site);
    put_whole(line, u64::from(stock));
}

/// Overwrites the line with the line of a pair.
pub(crate) fn put_item(line: &mut ItemLine, item: &ItemRef<'_>)
    requires { IsWidth item.now.bits }
    ensures { line.new
        ≡ item_text (compact_line item.now.part.now item.now.site.now item.now.bits item.now.compact.now) }
{
    put_names(line, item.part, item.site, item.compact.stock);
    if item.bits == 32 {
        put_intervals::<32>(line, item.compact);
    } else if item.bits == 48 {
        put_intervals::<48>(line, item.compact);
    } else {
        put_intervals::<52>(line, item.compact);
    }
    line.push(b'\n');
}
