//! The rates of a case.

ghost use Rattle.std.specs.Prelude.{◌≡◌, ◌*◌, ◌<◌, map, IfOk};
ghost use Rattle.answers.specs.Answers.{Gives};
ghost use Rattle.spares_input.specs.Building.{StopsAt};
ghost use Rattle.demand_rates.specs.Depot.{AreDepotDemands};
ghost use Rattle.demand_rates.specs.Limits.{rate_fault_of};
ghost use Rattle.demand_rates.specs.Waits.{AreAllWaits};
ghost use Rattle.demand_rates.specs.Rates.{all_rates, rates_of, AreRatesOf};

use crate::depot::depot_demands;
use crate::fault::{Place, RateFault};
use crate::kinds::{PairRates, Rates};
use crate::limits::pipeline_fault;
use crate::pairs::pair_rates;
use crate::waits::all_waits;
use answers::Stop;
use spares_input::{Case, pair_at};
use std::alloc::Global;

/// The rates of all pairs, by part and then by site, or the first rule that they break.
fn all_pairs(
    alloc: Global,
    case: &Case,
    demands: &[u128],
    waits: &[Vec<u128>],
) -> Result<Vec<PairRates>, Stop<RateFault>>
    requires demands { AreDepotDemands case.now demands.now }
    requires waits { AreAllWaits case.now (map (λ w. w.items) waits.now) }
    ensures fault { StopsAt (rate_fault_of case.now) result }
    ensures pairs { IfOk result (λ v. v.items ≡ all_rates case.now) }
{
    let sites = case.site_count() as usize;
    let places = case.part_count() as usize * sites;
    let mut pairs = Vec::new(alloc);
    for i in 0..places {
        let (part, site) = pair_at(i, sites);
        let rates = pair_rates(case, part, site, demands, waits);
        if let Some(fault) = pipeline_fault(Place::Pair(part, site), &rates) {
            return Err(Stop::Fault(fault));
        }
        pairs.push(rates)?;
    }
    Ok(pairs)
}

/// The rates of a case, or the first pipeline outside the model's limits: by part and then by site, at each pair in
/// this order.
///
/// - `ThinPipeline` if the demand is above 0 and the direct pipeline is below 1/10,000,000.
/// - `PipelineTooLarge` if the mean without any stock is above 256.
/// - `PipelineRatio` if that mean is above 1024 times the direct pipeline.
pub fn rates(alloc: Global, case: &Case) -> Result<Rates, Stop<RateFault>>
    ensures answer { Gives (rates_of case.now) result }
    // No pair is refused: each number is the model's fraction, and within its limits.
    ensures model { IfOk result (AreRatesOf case.now) }
{
    let demands = depot_demands(alloc, case)?;
    let waits = all_waits(alloc, case)?;
    let pairs = all_pairs(alloc, case, demands.as_slice(), waits.as_slice())?;
    Ok(Rates::of(case.site_count(), pairs))
}
