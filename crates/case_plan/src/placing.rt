//! The stocks of a case from a vector of each family.

ghost use Rattle.std.specs.Prelude.{◌≡◌, ℕ, ◌*◌, ◌<◌, IfOk, length, slice_index_or};
ghost use Rattle.spares_input.specs.Stocks.{HasPair};
ghost use Rattle.spares_input.specs.declared.rows.PartId.{PartId};
ghost use Rattle.std.specs.List.{AllZip};
ghost use Rattle.spares_input.specs.Stocks.{IsFor};
ghost use Rattle.fleet_model.specs.Rows.{line_units};
ghost use Rattle.step_walk.specs.Prefix.{AreVertices, picked};
ghost use Rattle.price_bounds.specs.Soundness.{stocks_of};
ghost use Rattle.fleet_plan.specs.Families.{HasWidth, vectors_at};
ghost use Rattle.spares_input.specs.Building.{ids};
ghost use Rattle.case_plan.specs.Placing.{IsPlacedAt, IsPlacedFamily};

use crate::numbers::pick_of;
use answers::NoMemory;
use hull::Curve;
use spares_input::{Case, PartId, SiteId, Stocks};
use std::alloc::Global;

/// Writes the stocks of some parts at one site to their pairs.
fn place_site(stocks: &mut Stocks, units: &[PartId], site: SiteId, part: &[u8])
    requires pairs { (i : ℕ) (d : PartId)
        → i < length units.now → HasPair stocks.old (slice_index_or units.now i d).0 site.0 }
    requires count { length part.now ≡ length units.now }
    ensures { IsPlacedAt stocks.old stocks.new (ids units.now) site.0 part.now (length (ids units.now)) }
{
    for i in 0..units.len() {
        stocks.set(units[i], site, part[i]);
    }
}

/// Writes the stocks of some parts at all sites, site by site, to their pairs.
fn place_vector(stocks: &mut Stocks, units: &[PartId], sites: u8, vector: &[u8])
    requires sites { stocks.old.sites ≡ sites }
    requires pairs { (i k : ℕ) (d : PartId)
        → i < length units.now → k < sites → HasPair stocks.old (slice_index_or units.now i d).0 k }
    requires count { length vector.now ≡ sites * length units.now }
    ensures { IsPlacedFamily stocks.old stocks.new (ids units.now) vector.now sites }
{
    let width = units.len();
    for k in 0..sites {
        let start = k as usize * width;
        place_site(stocks, units, SiteId(k), &vector[start..start + width]);
    }
}

/// Stocks with the vector of each family's picked vertex.
pub(crate) fn stocks_of(
    alloc: Global,
    case: &Case,
    curves: &[Curve],
    picks: &[u32],
) -> Result<Stocks, NoMemory>
    requires vertices { AreVertices curves.now picks.now }
    requires widths { AllZip (HasWidth case.now) (line_units case.now) (stocks_of (picked curves.now picks.now)) }
    ensures is_for { IfOk result (IsFor case.now) }
    ensures vectors { IfOk result (λ s. vectors_at case.now s.list ≡ stocks_of (picked curves.now picks.now)) }
{
    let sites = case.site_count();
    let parts = case.part_count();
    let pairs = parts as usize * sites as usize;
    let mut stocks = Stocks::of(vec![in alloc; 0; pairs]?, sites);
    let mut f: usize = 0;
    for p in 0..parts {
        let line = PartId(p);
        if case.is_line(line) {
            let units = case.family(line);
            let point = pick_of(curves, picks, f);
            place_vector(&mut stocks, units, sites, point.stocks.as_slice());
            f += 1;
        }
    }
    Ok(stocks)
}
