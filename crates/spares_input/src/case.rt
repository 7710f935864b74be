//! A case: a frame with the rates of each pair.

ghost use Rattle.std.specs.Prelude.{◌≡◌, true, ◌==◌, ◌+◌, ◌*◌, ◌≤◌, ◌<◌, length, map, All, Some, None, IfSome, IfOk, IfErr, is_none};
ghost use Rattle.std.specs.Option.{option_map};
ghost use Rattle.answers.specs.Answers.{Gives};
ghost use Rattle.spares_input.specs.First.{first};
ghost use Rattle.spares_input.specs.Limits.{most_sites, most_parts, most_stock};
ghost use Rattle.spares_input.specs.Rows.{is_line, no_rate, IsSiteRow, IsPartRow, IsRateRow};
ghost use Rattle.spares_input.specs.Frames.{site_at, part_at, line_of, line_units, family_of_line};
ghost use Rattle.spares_input.specs.Pairs.{rows_in_order};
ghost use Rattle.spares_input.specs.Cases.{frame_rows, rate_at, rate_place, double_rate, rates_fault, case_of, without_frame, IsRateOf, IsCase};
ghost use Rattle.spares_input.specs.Edits.{with_rate};
ghost use Rattle.spares_input.specs.Stocks.{limit_at};
ghost use Rattle.spares_input.specs.Building.{ArePlaced, IsPairOf, StopsAt, vacant, missing_rate_at};

use crate::fault::CaseFault;
use crate::frame::Frame;
use crate::pairs::{pair_at, pair_place};
use crate::rows::{PartId, PartRow, RateRow, SiteId, SiteRow};
use answers::Stop;
use std::alloc::Global;
use std::marker::Model;

/// A case, valid by its type: a frame, and one row of rates for each pair of a part and a site.
#[derive(Drop)]
pub struct Case {
    frame: Frame,
    rates: Vec<RateRow>,
}

impl Model for Case {
    ghost use Rattle.spares_input.specs.Cases.{CaseRows, IsCase};

    ghost Value = { CaseRows };

    ghost view = { λ c. record { sites = c.frame.sites; parts = c.frame.parts; rates = c.rates.items } };

    ghost invariant = { λ c. IsCase (record { sites = c.frame.sites; parts = c.frame.parts; rates = c.rates.items }) };
}

impl Case {
    /// The case of a frame and rows of rates. A fault is the first rule that the rows break: a second row of a pair,
    /// row by row, and then the first pair without a row, by part and then by site. A refusal returns the frame
    /// unchanged.
    pub fn build(
        alloc: Global,
        frame: Frame,
        rates: Vec<RateRow>,
    ) -> Result<Case, (Frame, Stop<CaseFault>)>
        requires { All (IsRateOf frame) rates.items }
        ensures answer { Gives (case_of frame rates.items) (without_frame result) }
        ensures frame { IfErr result (λ refusal. refusal.0 ≡ frame) }
    {
        let sites = frame.site_count() as usize;
        let parts = frame.part_count() as usize;
        match rates_by_pair(alloc, rates.as_slice(), sites, parts) {
            Ok(rates) => Ok(Case { frame, rates }),
            Err(stop) => Err((frame, stop)),
        }
    }

    /// The rules of a case, for a proof.
    pub fn invariant(&self)
        ensures valid { IsCase self.now }
    {
        let _opened = &self.frame;
    }

    /// The frame.
    pub fn frame(&self) -> &Frame
        ensures frame { result.now ≡ frame_rows self.now }
        ensures valid { IsCase self.now }
    {
        &self.frame
    }

    /// The number of sites.
    pub fn site_count(&self) -> u8
        ensures count { result ≡ length self.now.sites }
        ensures valid { IsCase self.now }
    {
        self.frame.site_count()
    }

    /// The number of parts.
    pub fn part_count(&self) -> u16
        ensures count { result ≡ length self.now.parts }
        ensures valid { IsCase self.now }
    {
        self.frame.part_count()
    }

    /// The row of a site.
    pub fn site(&self, site: SiteId) -> &SiteRow
        requires { site.0 < length self.now.sites }
        ensures row { result.now ≡ site_at self.now.sites site.0 }
        ensures fields { IsSiteRow result.now }
        ensures depot { result.now.depot ≡ (site.0 == 0) }
    {
        self.frame.site(site)
    }

    /// The row of a part.
    pub fn part(&self, part: PartId) -> &PartRow
        requires { part.0 < length self.now.parts }
        ensures row { result.now ≡ part_at self.now.parts part.0 }
        ensures fields { IsPartRow result.now }
    {
        self.frame.part(part)
    }

    /// The line unit of a shop unit; None exactly for a line unit.
    pub fn parent(&self, part: PartId) -> Option<PartId>
        requires { part.0 < length self.now.parts }
        ensures line { option_map (λ p. p.0) result ≡ line_of self.now.parts part.0 }
        ensures row { IfSome result (λ p. (p.0 < length self.now.parts)
            × (is_line (part_at self.now.parts p.0) ≡ true)) }
        ensures none { is_none result ≡ is_line (part_at self.now.parts part.0) }
    {
        self.frame.parent(part)
    }

    /// The line units, in part order.
    pub fn line_units(&self) -> &[PartId]
        ensures { map (λ p. p.0) result.now ≡ line_units self.now.parts }
    {
        self.frame.line_units()
    }

    /// The family of a line unit: the line unit, and then its shop units in part order. Of a shop unit, it alone.
    pub fn family(&self, line: PartId) -> &[PartId]
        requires { line.0 < length self.now.parts }
        ensures { map (λ p. p.0) result.now ≡ family_of_line self.now.parts line.0 }
    {
        self.frame.family(line)
    }

    /// Whether a part is a line unit.
    pub fn is_line(&self, part: PartId) -> bool
        requires { part.0 < length self.now.parts }
        ensures { result ≡ is_line (part_at self.now.parts part.0) }
    {
        self.frame.is_line(part)
    }

    /// The largest stock of a part at a site, 0 to 63.
    pub fn limit(&self, part: PartId, site: SiteId) -> u8
        requires part { part.0 < length self.now.parts }
        requires site { site.0 < length self.now.sites }
        ensures limit { result ≡ limit_at self.now.parts part.0 site.0 }
        ensures most { result ≤ most_stock }
    {
        self.frame.limit(part, site)
    }

    /// The row of rates of a part at a site.
    pub fn rate(&self, part: PartId, site: SiteId) -> &RateRow
        requires part { part.0 < length self.now.parts }
        requires site { site.0 < length self.now.sites }
        ensures row { result.now ≡ rate_at self.now part.0 site.0 }
        ensures pair { (result.now.part.0 ≡ part.0) × (result.now.site.0 ≡ site.0) }
        ensures fields { IsRateRow (is_line (part_at self.now.parts part.0)) (site.0 == 0) result.now }
    {
        let sites = self.frame.site_count() as usize;
        let parts = self.frame.part_count() as usize;
        &self.rates[pair_place(part, site, sites, parts)]
    }

    /// Replaces the row of a pair, and nothing else.
    pub fn set_rate(&mut self, row: RateRow)
        requires { IsRateOf (frame_rows self.old) row }
        ensures { self.new ≡ with_rate self.old row }
    {
        let sites = self.frame.site_count() as usize;
        let parts = self.frame.part_count() as usize;
        self.rates[pair_place(row.part, row.site, sites, parts)] = row;
    }
}

/// The row of each pair in the order of pairs, if the rows break no rule.
fn rates_by_pair(
    alloc: Global,
    rows: &[RateRow],
    sites: usize,
    parts: usize,
) -> Result<Vec<RateRow>, Stop<CaseFault>>
    requires some_sites { 0 < sites }
    requires few_sites { sites ≤ most_sites }
    requires few_parts { parts ≤ most_parts }
    requires pairs { All (λ r. IsPairOf sites parts r.part r.site) rows.now }
    ensures fault { StopsAt (rates_fault sites (parts * sites) rows.now) result }
    ensures rows { IfOk result (λ v. v.items ≡ rows_in_order (rate_place sites) no_rate (parts * sites) rows.now) }
{
    let places = place_rows(alloc, rows, sites, parts)?;
    rows_of_places(alloc, places.as_slice(), sites)
}

/// The row of each pair at its place, if no two rows have the same pair.
fn place_rows(
    alloc: Global,
    rows: &[RateRow],
    sites: usize,
    parts: usize,
) -> Result<Vec<Option<RateRow>>, Stop<CaseFault>>
    requires few_sites { sites ≤ most_sites }
    requires few_parts { parts ≤ most_parts }
    requires pairs { All (λ r. IsPairOf sites parts r.part r.site) rows.now }
    ensures fault { StopsAt (first (double_rate sites rows.now) (length rows.now)) result }
    ensures placed { IfOk result (λ v. ArePlaced (rate_place sites) (parts * sites) rows.now v.items) }
{
    let mut places = vec![in alloc; None; parts * sites]?;
    for k in 0..rows.len() {
        let row = rows[k];
        let place = pair_place(row.part, row.site, sites, parts);
        if places[place].is_some() {
            return Err(Stop::Fault(CaseFault::DoubleRate(k as u32 + 2)));
        }
        places[place] = Some(row);
    }
    Ok(places)
}

/// The rows of all places, or the first place without one.
fn rows_of_places(
    alloc: Global,
    places: &[Option<RateRow>],
    sites: usize,
) -> Result<Vec<RateRow>, Stop<CaseFault>>
    requires some_sites { 0 < sites }
    requires few_sites { sites ≤ most_sites }
    requires few { length places.now ≤ most_parts * sites }
    ensures fault { StopsAt (first (vacant (missing_rate_at sites) places.now) (length places.now)) result }
    ensures rows { IfOk result (λ v. map (λ r. Some r) v.items ≡ places.now) }
{
    let mut rows = Vec::new(alloc);
    for i in 0..places.len() {
        match places[i] {
            Some(row) => rows.push(row)?,
            None => {
                let (part, site) = pair_at(i, sites);
                return Err(Stop::Fault(CaseFault::MissingRate(part, site)));
            }
        }
    }
    Ok(rows)
}
