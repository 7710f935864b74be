//! The stocks of a case.

ghost use Rattle.std.specs.Prelude.{◌≡◌, ◌+◌, ◌*◌, ◌%◌, ◌≤◌, ◌<◌, length, map, slice_set, All, Some, IfOk};
ghost use Rattle.std.specs.Option.{option_map};
ghost use Rattle.answers.specs.Answers.{Gives};
ghost use Rattle.spares_input.specs.First.{first};
ghost use Rattle.spares_input.specs.Limits.{most_sites, most_parts};
ghost use Rattle.spares_input.specs.Pairs.{pair_place};
ghost use Rattle.spares_input.specs.Cases.{frame_rows};
ghost use Rattle.spares_input.specs.Stocks.{stock_at, stock_place, stock_fault, stocks_fault, stocks_in_order, stocks_of, cost_of_stocks, AreStocksOf, HasPair, IsFor, IsStockList, IsStockOf, nothing_held};
ghost use Rattle.spares_input.specs.Building.{ArePlaced, StopsAt, vacant, missing_stock_at};

use crate::case::Case;
use crate::fault::StockFault;
use crate::pairs::{pair_at, pair_place, place_in};
use crate::rows::{PartId, SiteId, StockRow};
use answers::{NoMemory, Stop};
use std::alloc::Global;
use std::marker::Model;

/// A number for each pair of a part and a site: by part and then by site.
#[derive(Drop)]
pub struct Stocks {
    list: Vec<u8>,
    sites: u8,
}

impl Model for Stocks {
    ghost use Rattle.spares_input.specs.Stocks.{StockList, IsStockList};

    ghost Value = { StockList };

    ghost view = { λ s. record { sites = s.sites; list = s.list.items } };

    ghost invariant = { λ s. IsStockList (record { sites = s.sites; list = s.list.items }) };
}

impl Stocks {
    /// Stocks of these numbers, with this number of sites.
    pub fn of(list: Vec<u8>, sites: u8) -> Stocks
        requires fewest_sites { 2 ≤ sites }
        requires most_sites { sites ≤ most_sites }
        requires whole { length list.items % sites ≡ 0 }
        ensures { result ≡ record { sites = sites; list = list.items } }
    {
        Stocks { list, sites }
    }

    /// The stocks, by part and then by site.
    pub fn as_slice(&self) -> &[u8]
        ensures list { result.now ≡ self.now.list }
        ensures valid { IsStockList self.now }
    {
        self.list.as_slice()
    }

    /// The stock of a part at a site.
    pub fn get(&self, part: PartId, site: SiteId) -> u8
        requires { HasPair self.now part.0 site.0 }
        ensures { result ≡ stock_at self.now part.0 site.0 }
    {
        self.list[place_in(self.sites, part, site)]
    }

    /// Sets the stock of a part at a site, and no other.
    pub fn set(&mut self, part: PartId, site: SiteId, stock: u8)
        requires { HasPair self.old part.0 site.0 }
        ensures { self.new ≡ record self.old {
          list = slice_set self.old.list
              (pair_place self.old.sites part.0 site.0) stock;
        } }
    {
        let place = place_in(self.sites, part, site);
        self.list[place] = stock;
    }

    /// The sum over all pairs of stock times cost of the part.
    pub fn cost(&self, case: &Case) -> u64
        requires { IsFor case.now self.now }
        ensures { result ≡ cost_of_stocks case.now self.now }
    {
        cost_of(self.list.as_slice(), self.sites as usize, case)
    }
}

/// The sum over all pairs of stock times cost of the part.
fn cost_of(list: &[u8], sites: usize, case: &Case) -> u64
    requires { IsFor case.now (record { sites = sites; list = list.now }) }
    ensures { result ≡ cost_of_stocks case.now (record { sites = sites; list = list.now }) }
{
    let pairs = case.part_count() as usize * sites;
    let mut cost = 0;
    for i in 0..pairs {
        let (part, _) = pair_at(i, sites);
        cost += u64::from(list[i]) * u64::from(case.part(part).cost);
    }
    cost
}

/// The stocks with no unit of any part at any site. Want of memory is the only error.
pub fn nothing_held(alloc: Global, case: &Case) -> Result<Stocks, NoMemory>
    ensures held { IfOk result (λ held. held ≡ nothing_held case.now) }
    ensures stocks { IfOk result (AreStocksOf case.now) }
{
    let sites = case.site_count();
    let pairs = usize::from(case.part_count()) * usize::from(sites);
    let list = vec![in alloc; 0; pairs]?;
    Ok(Stocks::of(list, sites))
}

/// The stocks of these rows. A fault is the first rule that the rows break: a stock above its limit or a second row of
/// a pair, row by row, and then the first pair without a row, by part and then by site.
pub fn stocks_from(
    alloc: Global,
    case: &Case,
    rows: &[StockRow],
) -> Result<Stocks, Stop<StockFault>>
    requires { All (IsStockOf (frame_rows case.now)) rows.now }
    ensures answer { Gives (stocks_of case.now rows.now) result }
    ensures stocks { IfOk result (AreStocksOf case.now) }
{
    let sites = case.site_count();
    let list = stocks_by_pair(alloc, case, rows)?;
    Ok(Stocks { list, sites })
}

/// The stock of each pair in the order of pairs, if the rows break no rule.
fn stocks_by_pair(
    alloc: Global,
    case: &Case,
    rows: &[StockRow],
) -> Result<Vec<u8>, Stop<StockFault>>
    requires { All (IsStockOf (frame_rows case.now)) rows.now }
    ensures fault { StopsAt (stocks_fault case.now rows.now) result }
    ensures stocks { IfOk result (λ v. v.items ≡ stocks_in_order case.now rows.now) }
{
    let places = place_rows(alloc, case, rows)?;
    let sites = case.site_count() as usize;
    stocks_of_places(alloc, places.as_slice(), sites)
}

/// The row of each pair at its place, if no row is above its limit and no two have one pair.
fn place_rows(
    alloc: Global,
    case: &Case,
    rows: &[StockRow],
) -> Result<Vec<Option<StockRow>>, Stop<StockFault>>
    requires { All (IsStockOf (frame_rows case.now)) rows.now }
    ensures fault { StopsAt (first (stock_fault case.now rows.now) (length rows.now)) result }
    ensures placed { IfOk result (λ v. ArePlaced (stock_place (length case.now.sites))
        (length case.now.parts * length case.now.sites) rows.now v.items) }
{
    let sites = case.site_count() as usize;
    let parts = case.part_count() as usize;
    let mut places = vec![in alloc; None; parts * sites]?;
    for k in 0..rows.len() {
        let row = rows[k];
        if row.stock > case.limit(row.part, row.site) {
            return Err(Stop::Fault(StockFault::OverLimit(k as u32 + 2)));
        }
        let place = pair_place(row.part, row.site, sites, parts);
        if places[place].is_some() {
            return Err(Stop::Fault(StockFault::Double(k as u32 + 2)));
        }
        places[place] = Some(row);
    }
    Ok(places)
}

/// The stocks of all places, or the first place without a row.
fn stocks_of_places(
    alloc: Global,
    places: &[Option<StockRow>],
    sites: usize,
) -> Result<Vec<u8>, Stop<StockFault>>
    requires some_sites { 0 < sites }
    requires few_sites { sites ≤ most_sites }
    requires few { length places.now ≤ most_parts * sites }
    ensures fault { StopsAt (first (vacant (missing_stock_at sites) places.now) (length places.now)) result }
    ensures stocks { IfOk result (λ v. map (λ s. Some s) v.items ≡ map (option_map (λ r. r.stock)) places.now) }
{
    let mut list = Vec::new(alloc);
    for i in 0..places.len() {
        match places[i] {
            Some(row) => list.push(row.stock)?,
            None => {
                let (part, site) = pair_at(i, sites);
                return Err(Stop::Fault(StockFault::Missing(part, site)));
            }
        }
    }
    Ok(list)
}
