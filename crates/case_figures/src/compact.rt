//! The items of a report, stored in few bytes.
ghost use Rattle.std.specs.Prelude.{◌≡◌, ◌<◌, All, get_or, length, map};
ghost use Rattle.fixed_interval.specs.Ends.{InScale};
ghost use Rattle.fixed_interval.specs.Widths.{IsWidth};
ghost use Rattle.family_items.specs.Encloses.{IsSmallItem};
ghost use Rattle.case_figures.specs.Compact.{IsNamedPair, compact_line, compact_of, line_under};
ghost use Rattle.case_figures.specs.Shows.{no_item_line};

use crate::figures::ItemLine;
use crate::narrow::Narrow;
use family_items::Item;
use spares_input::{Name, PartId, SiteId};
use std::marker::Model;

/// A pair of a part and a site, each by its number, with its stock and its four intervals.
#[derive(Clone, Copy, Drop)]
pub struct CompactItem {
    pub part: PartId,
    pub site: SiteId,
    /// 0 to 63.
    pub stock: u8,
    pub mean: Narrow,
    pub variance: Narrow,
    pub backorders: Narrow,
    pub spread: Narrow,
}

impl CompactItem {
    /// The compact form of an item with no end above 256.
    pub fn of<const F: u32>(item: &Item<F>) -> CompactItem
        requires scale { InScale F }
        requires most { IsSmallItem F item.now }
        ensures { result ≡ compact_of item.now }
    {
        CompactItem {
            part: item.part,
            site: item.site,
            stock: item.stock,
            mean: Narrow::of(item.mean),
            variance: Narrow::of(item.variance),
            backorders: Narrow::of(item.backorders),
            spread: Narrow::of(item.spread),
        }
    }
}

/// A borrowed item with the names of its part and site.
#[derive(Clone, Copy)]
pub struct ItemRef<'a> {
    pub part: &'a Name,
    pub site: &'a Name,
    /// The binary places of its intervals: 32, 48 or 52.
    pub bits: u32,
    pub compact: &'a CompactItem,
}

/// The lines of items, modelled as their list. All intervals have the same count of binary places. It stores the
/// numbers of each item and each name once, and builds a line on demand.
#[derive(Drop)]
pub struct Items {
    bits: u32,
    parts: Vec<Name>,
    sites: Vec<Name>,
    compact: Vec<CompactItem>,
}

impl Model for Items {
    ghost use Rattle.std.specs.Prelude.{List, map};
    ghost use Rattle.case_figures.specs.declared.figures.ItemLine.{ItemLine};
    ghost use Rattle.case_figures.specs.Compact.{AreNamed, line_under};

    ghost Value = { List ItemLine };

    ghost view = { λ a. map (line_under a.parts.items a.sites.items a.bits) a.compact.items };

    ghost invariant = { λ a. AreNamed a.bits a.parts.items a.sites.items a.compact.items };
}

impl Items {
    /// The lines of these items, with the names of their parts and sites from these lists, and `F` binary places.
    pub fn of<const F: u32>(parts: Vec<Name>, sites: Vec<Name>, compact: Vec<CompactItem>) -> Items
        requires width { IsWidth F }
        requires pairs { All (IsNamedPair parts.items sites.items) compact.items }
        ensures { result ≡ map (line_under parts.items sites.items F) compact.items }
    {
        Items {
            bits: F,
            parts,
            sites,
            compact,
        }
    }

    /// The count of lines.
    pub fn len(&self) -> usize
        ensures { result ≡ length self.now }
    {
        self.compact.len()
    }

    /// The item of line `n`, borrowed.
    pub fn compact(&self, n: usize) -> ItemRef<'_>
        requires { n < length self.now }
        ensures line { compact_line result.part.now result.site.now result.bits result.compact.now
            ≡ get_or self.now n no_item_line }
        ensures width { IsWidth result.bits }
    {
        let compact = &self.compact[n];
        ItemRef {
            part: &self.parts[compact.part.0 as usize],
            site: &self.sites[compact.site.0 as usize],
            bits: self.bits,
            compact,
        }
    }

    /// Line `n`.
    pub fn get(&self, n: usize) -> ItemLine
        requires { n < length self.now }
        ensures { result ≡ get_or self.now n no_item_line }
    {
        let item = self.compact(n);
        ItemLine {
            part: *item.part,
            site: *item.site,
            stock: item.compact.stock,
            mean: item.compact.mean.span(item.bits),
            variance: item.compact.variance.span(item.bits),
            backorders: item.compact.backorders.span(item.bits),
            spread: item.compact.spread.span(item.bits),
        }
    }
}
