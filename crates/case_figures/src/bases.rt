//! The availability of the bases.
ghost use Rattle.std.specs.Prelude.{◌≡◌, ◌-◌, ◌^◌, ◌<◌, ◌≤◌, All, IfOk, length, map};
ghost use Rattle.fixed_interval.specs.Ends.{InScale};
ghost use Rattle.fleet_model.specs.Rows.{bases};
ghost use Rattle.fleet_model.specs.Laws.{IsBase};
ghost use Rattle.availability.specs.Exact.{IsWeighted};
ghost use Rattle.fixed_interval.specs.Widths.{IsWidth};
ghost use Rattle.case_figures.specs.Gathering.{IsFamilyOf, base_line_from, factor_from, weighted_from};

use crate::figures::BaseLine;
use crate::items::span_of;
use answers::NoMemory;
use availability::{Weighted, base_availability, factor};
use family_items::FamilyResult;
use fixed_interval::Iv;
use spares_input::{Case, SiteId};
use std::alloc::Global;

/// The availability factor of a family's line unit at a base.
fn factor_from<const F: u32>(case: &Case, family: &FamilyResult<F>, base: SiteId) -> Iv<F>
    requires family { IsFamilyOf F case.now family.now }
    requires base { IsBase case.now base.0 }
    ensures factor { result ≡ factor_from F case.now base.0 family.now }
    ensures most { result.hi ≤ 2 ^ F }
{
    let item = &family.items.as_slice()[base.0 as usize];
    let systems = case.site(base).systems;
    let per_system = case.part(item.part).per_system;
    factor(item.backorders, systems, per_system)
}

/// The availability factor of each family's line unit at a base.
fn base_factors<const F: u32>(
    alloc: Global,
    case: &Case,
    families: &[FamilyResult<F>],
    base: SiteId,
) -> Result<Vec<Iv<F>>, NoMemory>
    requires families { All (IsFamilyOf F case.now) families.now }
    requires base { IsBase case.now base.0 }
    ensures factors { IfOk result (λ v. v.items ≡ map (factor_from F case.now base.0) families.now) }
    ensures most { IfOk result (λ v. All (λ x. x.hi ≤ 2 ^ F) v.items) }
{
    let mut factors = Vec::with_capacity(alloc, families.len())?;
    for family in families {
        factors.push(factor_from(case, family, base))?;
    }
    Ok(factors)
}

/// The bases in order, each with its availability.
pub(crate) fn weighted_bases<const F: u32>(
    alloc: Global,
    case: &Case,
    families: &[FamilyResult<F>],
) -> Result<Vec<Weighted<F>>, NoMemory>
    requires scale { InScale F }
    requires families { All (IsFamilyOf F case.now) families.now }
    ensures bases { IfOk result (λ v. v.items ≡ map (weighted_from F case.now families.now) (bases case.now)) }
    ensures weighted { IfOk result (λ v. All (IsWeighted F) v.items) }
{
    let mut bases = Vec::new(alloc);
    for k in 1..case.site_count() {
        let base = SiteId(k);
        let factors = base_factors(alloc, case, families, base)?;
        bases.push(Weighted {
            systems: case.site(base).systems,
            value: base_availability(factors.as_slice()),
        })?;
    }
    Ok(bases)
}

/// The availability of each base under the name of its site.
pub(crate) fn base_lines<const F: u32>(
    alloc: Global,
    case: &Case,
    weighted: &[Weighted<F>],
) -> Result<Vec<BaseLine>, NoMemory>
    requires width { IsWidth F }
    requires count { length weighted.now ≡ length case.now.sites - 1 }
    ensures { IfOk result (λ v. v.items ≡ map (base_line_from F case.now weighted.now) (bases case.now)) }
{
    let mut lines = Vec::new(alloc);
    for k in 1..case.site_count() {
        lines.push(BaseLine {
            site: case.site(SiteId(k)).name,
            availability: span_of(weighted[k as usize - 1].value),
        })?;
    }
    Ok(lines)
}
