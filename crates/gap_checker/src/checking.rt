//! The check of a certificate.

ghost use Rattle.std.specs.Prelude.{◌≡◌, ◌≤◌, IfOk, length, map};
ghost use Rattle.std.specs.Option.{option_map};
ghost use Rattle.answers.specs.Answers.{Gives};
ghost use Rattle.spares_input.specs.Building.{StopsAt};
ghost use Rattle.spares_input.specs.Limits.{most_parts};
ghost use Rattle.spares_input.specs.Stocks.{AreStocksOf, nothing_held};
ghost use Rattle.fleet_model.specs.Rows.{line_units};
ghost use Rattle.demand_rates.specs.Limits.{rate_fault_of};
ghost use Rattle.demand_rates.specs.Rates.{AreRatesOf};
ghost use Rattle.price_certificate.specs.Certificates.{IsWellFormed};
ghost use Rattle.check_answers.specs.declared.refusal.Reject.TheVariants as reject;
ghost use Rattle.gap_rules.specs.Refusals.{judged};
ghost use Rattle.gap_rules.specs.Scores.{ends_of};

use crate::floors::floors_kept;
use crate::upper::upper_kept;
use answers::Stop;
use check_answers::{Accepted, Reject};
use demand_rates::kinds::Rates;
use demand_rates::rates;
use gap_rules::bound::bound_kept;
use gap_rules::covers::covers_kept;
use gap_rules::stocks::stocks_kept;
use hull::{Plain, Score};
use log_loss::LogLoss;
use price_certificate::{Certificate, Objective};
use spares_input::{Case, PartId, Stocks, nothing_held};
use std::alloc::Global;

/// The rates of a case, or the refusal of the first pipeline that the model can't take.
fn rates_of(alloc: Global, case: &Case) -> Result<Rates, Stop<Reject>>
    ensures fault { StopsAt (option_map reject.Rate (rate_fault_of case.now)) result }
    ensures model { IfOk result (AreRatesOf case.now) }
{
    match rates(alloc, case) {
        Ok(rates) => Ok(rates),
        Err(Stop::NoMemory) => Err(Stop::NoMemory),
        Err(Stop::Fault(fault)) => Err(Stop::Fault(Reject::Rate(fault))),
    }
}

/// The rules of a certificate whose pipelines the model takes, in the order of [`Reject`].
fn judge<S: Score>(
    alloc: Global,
    cert: &Certificate,
    held: &Stocks,
    rates: &Rates,
    lines: &[PartId],
    score: &S,
) -> Result<Accepted, Stop<Reject>>
    requires formed { IsWellFormed cert.now }
    requires held { AreStocksOf cert.now.case held.now }
    requires rates { AreRatesOf cert.now.case rates.now }
    requires lines { map (λ p. p.0) lines.now ≡ line_units cert.now.case }
    requires few { length lines.now ≤ most_parts }
    ensures { Gives (judged S.ends cert.now held.now) result }
{
    covers_kept(alloc, cert, held, lines)?;
    let cost = stocks_kept(cert, held)?;
    floors_kept(alloc, cert, held, rates, lines, score)?;
    upper_kept(alloc, cert, held, rates, lines, score)?;
    bound_kept(cert)?;
    Ok(Accepted {
        bound: cert.bound,
        upper: cert.upper,
        cost,
    })
}

/// Checks a certificate over the held stocks, by a score: its claims, or the first rule that it breaks, in the order of
/// [`Reject`].
///
/// The certificate is well formed, and the held stocks are a list for its case, within the limits. Costs are of the
/// stocks added to them. No table is made before the work is known to be at most 1,000,000 tables; no clause says so.
/// A smaller floor, a larger upper end or a smaller bound than needed is accepted.
pub fn check_within<S: Score>(
    alloc: Global,
    cert: &Certificate,
    held: &Stocks,
    score: &S,
) -> Result<Accepted, Stop<Reject>>
    requires formed { IsWellFormed cert.now }
    requires held { AreStocksOf cert.now.case held.now }
    ensures { Gives (judged S.ends cert.now held.now) result }
{
    cert.case.invariant();
    let rates = rates_of(alloc, &cert.case)?;
    judge(alloc, cert, held, &rates, cert.case.line_units(), score)
}

/// Checks a certificate that has no stocks on hand, by the score of its objective, as [`check_within`] does.
pub fn check(alloc: Global, cert: &Certificate) -> Result<Accepted, Stop<Reject>>
    requires { IsWellFormed cert.now }
    ensures { Gives (judged (ends_of cert.now.objective) cert.now (nothing_held cert.now.case)) result }
{
    let held = nothing_held(alloc, &cert.case)?;
    match cert.objective {
        Objective::Backorders => check_within(alloc, cert, &held, &Plain),
        Objective::LogAvailability => check_within(alloc, cert, &held, &LogLoss),
    }
}
