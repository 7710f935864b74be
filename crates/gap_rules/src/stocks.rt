//! The rule of stocks: their limits, the held stocks, and the cost above them.

ghost use Rattle.std.specs.Prelude.{◌≡◌, ◌∷◌, [], ◌*◌, ◌<◌, IfOk};
ghost use Rattle.spares_input.specs.Building.{StopsAt};
ghost use Rattle.spares_input.specs.First.{first, first_of};
ghost use Rattle.spares_input.specs.Cases.{frame_rows, pair_count};
ghost use Rattle.spares_input.specs.Stocks.{IsFor};
ghost use Rattle.gap_rules.specs.Refusals.{over_limit, below_held, over_budget, case_cost_above};

use answers::Stop;
use check_answers::Reject;
use price_certificate::Certificate;
use spares_input::{Case, Stocks, pair_at};

/// The first stock over its limit, by part and then by site.
fn over_limit(case: &Case, stocks: &Stocks) -> Option<Reject>
    requires { IsFor case.now stocks.now }
    ensures { result ≡ first (over_limit case.now stocks.now) (pair_count (frame_rows case.now)) }
{
    let sites = usize::from(case.site_count());
    let pairs = usize::from(case.part_count()) * sites;
    for i in 0..pairs {
        let (part, site) = pair_at(i, sites);
        let stock = stocks.get(part, site);
        if case.limit(part, site) < stock {
            return Some(Reject::StocksOverLimit { part, site, stock });
        }
    }
    None
}

/// The first stock below the held one, by part and then by site.
fn below_held(case: &Case, held: &Stocks, stocks: &Stocks) -> Option<Reject>
    requires held { IsFor case.now held.now }
    requires stocks { IsFor case.now stocks.now }
    ensures { result ≡ first (below_held case.now held.now stocks.now) (pair_count (frame_rows case.now)) }
{
    let sites = usize::from(case.site_count());
    let pairs = usize::from(case.part_count()) * sites;
    for i in 0..pairs {
        let (part, site) = pair_at(i, sites);
        let stock = stocks.get(part, site);
        if stock < held.get(part, site) {
            return Some(Reject::StocksBelowHeld { part, site, stock });
        }
    }
    None
}

/// The stocks keep their limits and the held stocks, and cost at most the budget above these. Answers this cost.
pub fn stocks_kept(cert: &Certificate, held: &Stocks) -> Result<u64, Stop<Reject>>
    requires stocks { IsFor cert.now.case cert.now.stocks }
    requires held { IsFor cert.now.case held.now }
    ensures fault { StopsAt (first_of (
        first (over_limit cert.now.case cert.now.stocks) (pair_count (frame_rows cert.now.case))
        ∷ first (below_held cert.now.case held.now cert.now.stocks) (pair_count (frame_rows cert.now.case))
        ∷ over_budget cert.now held.now ∷ [])) result }
    ensures cost { IfOk result (λ cost. cost ≡ case_cost_above cert.now.case held.now cert.now.stocks) }
{
    let case = &cert.case;
    if let Some(reject) = over_limit(case, &cert.stocks) {
        return Err(Stop::Fault(reject));
    }
    if let Some(reject) = below_held(case, held, &cert.stocks) {
        return Err(Stop::Fault(reject));
    }
    let cost = cert.stocks.cost(case).saturating_sub(held.cost(case));
    if cert.budget < cost {
        return Err(Stop::Fault(Reject::OverBudget { cost }));
    }
    Ok(cost)
}
