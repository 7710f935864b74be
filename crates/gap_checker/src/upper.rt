//! The upper end, against the sum of the families' upper ends at the certificate's stocks.

ghost use Rattle.std.specs.Prelude.{◌≡◌, ◌^◌, ◌<◌, ◌≤◌, None, IfOk, length, map};
ghost use Rattle.spares_input.specs.First.{first};
ghost use Rattle.spares_input.specs.Building.{StopsAt};
ghost use Rattle.spares_input.specs.Cases.{frame_rows, pair_count};
ghost use Rattle.spares_input.specs.Limits.{most_parts};
ghost use Rattle.spares_input.specs.Stocks.{IsFor};
ghost use Rattle.fleet_model.specs.Rows.{line_units};
ghost use Rattle.demand_rates.specs.Rates.{AreRatesOf};
ghost use Rattle.family_items.specs.Inputs.{IsLine};
ghost use Rattle.family_points.specs.Vectors.{vector_of};
ghost use Rattle.gap_rules.specs.Refusals.{over_limit, below_held, chosen_point, upper_too_low};

use answers::{NoMemory, Stop};
use check_answers::Reject;
use demand_rates::kinds::Rates;
use family_floors::upper_within;
use family_points::{Bounds, vector_of};
use hull::Score;
use price_certificate::Certificate;
use spares_input::{PartId, Stocks};
use std::alloc::Global;

/// The box of the vector of a family's stocks alone.
fn one_vector(
    alloc: Global,
    cert: &Certificate,
    held: &Stocks,
    line: PartId,
) -> Result<Bounds, NoMemory>
    requires stocks { IsFor cert.now.case cert.now.stocks }
    requires held { IsFor cert.now.case held.now }
    requires is_line { IsLine cert.now.case line.0 }
    ensures { IfOk result (λ bounds. bounds ≡ record {
      held = vector_of cert.now.case line.0 held.now.list;
      low = vector_of cert.now.case line.0 cert.now.stocks.list;
      high = vector_of cert.now.case line.0 cert.now.stocks.list;
    }) }
{
    Ok(Bounds {
        held: vector_of(alloc, &cert.case, line, held)?,
        low: vector_of(alloc, &cert.case, line, &cert.stocks)?,
        high: vector_of(alloc, &cert.case, line, &cert.stocks)?,
    })
}

/// The upper end of a family at the stocks, from the curve of their vector alone.
fn family_upper<S: Score>(
    alloc: Global,
    cert: &Certificate,
    held: &Stocks,
    rates: &Rates,
    line: PartId,
    score: &S,
) -> Result<u128, NoMemory>
    requires stocks { IsFor cert.now.case cert.now.stocks }
    requires held { IsFor cert.now.case held.now }
    requires rates { AreRatesOf cert.now.case rates.now }
    requires is_line { IsLine cert.now.case line.0 }
    requires limited { first (over_limit cert.now.case cert.now.stocks) (pair_count (frame_rows cert.now.case)) ≡ None }
    requires kept { first (below_held cert.now.case held.now cert.now.stocks) (pair_count (frame_rows cert.now.case))
        ≡ None }
    ensures upper { IfOk result (λ hi. hi ≡ (chosen_point S.ends cert.now held.now line.0).hi) }
    ensures most { IfOk result (λ hi. hi ≤ 2 ^ 78) }
{
    let bounds = one_vector(alloc, cert, held, line)?;
    upper_within(alloc, &cert.case, rates, line, &bounds, score)
}

/// The upper end is at least that of the stocks.
pub(crate) fn upper_kept<S: Score>(
    alloc: Global,
    cert: &Certificate,
    held: &Stocks,
    rates: &Rates,
    lines: &[PartId],
    score: &S,
) -> Result<(), Stop<Reject>>
    requires stocks { IsFor cert.now.case cert.now.stocks }
    requires held { IsFor cert.now.case held.now }
    requires rates { AreRatesOf cert.now.case rates.now }
    requires lines { map (λ p. p.0) lines.now ≡ line_units cert.now.case }
    requires few { length lines.now ≤ most_parts }
    requires limited { first (over_limit cert.now.case cert.now.stocks) (pair_count (frame_rows cert.now.case)) ≡ None }
    requires kept { first (below_held cert.now.case held.now cert.now.stocks) (pair_count (frame_rows cert.now.case))
        ≡ None }
    ensures { StopsAt (upper_too_low S.ends cert.now held.now) result }
{
    let mut upper = 0;
    for f in 0..lines.len() {
        upper += family_upper(alloc, cert, held, rates, lines[f], score)?;
    }
    if cert.upper < upper {
        return Err(Stop::Fault(Reject::UpperTooLow {
            claimed: cert.upper,
            upper,
        }));
    }
    Ok(())
}
