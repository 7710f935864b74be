//! The order of each command, from the values of its arguments.
ghost use Rattle.std.specs.Prelude.{◌≡◌, codes, IfOk, Ok};
ghost use Rattle.clap.specs.Words.{first_of, found_of, rows_of};
ghost use Rattle.answers.specs.Answers.{Gives};
ghost use Rattle.spares_words.specs.Order.{
  AreInRange,
  IsInRange,
  check_of,
  compare_of,
  demo_of,
  eval_of,
  order_named,
  plan_of,
  plan_terms_of,
  session_of,
  single_of,
  sweep_of,
  target_of,
};

use crate::commands::CommandName;
use crate::number::{bits, format, lowest_format, number, objective_of, optional, whole, within};
use crate::values::{Names, copied, copied_if_given, names_of, text_of, value_of};
use crate::{Order, Which, WordsFault};
use answers::Stop;
use clap::ArgMatches;
use price_certificate::Terms;
use spares_input::{MOST_BUDGET, MOST_STOCK};
use spares_io::Text;
use std::alloc::Global;

/// The order of `single`.
fn single_order(matches: &ArgMatches<'_>) -> Result<Order, WordsFault>
    ensures order { result ≡ single_of (rows_of (found_of matches.now)) }
    ensures range { IfOk result IsInRange }
{
    let mean = number(Which::Mean, 4, text_of(matches, "mean"))?;
    let variance = optional(Which::Variance, 4, value_of(matches, "variance"))?;
    let stock = whole(
        Which::Stock,
        0,
        MOST_STOCK as u64,
        text_of(matches, "stock"),
    )? as u8;
    Ok(Order::Single {
        mean,
        variance,
        stock,
    })
}

/// The order of `eval`.
fn eval_order(alloc: Global, matches: &ArgMatches<'_>) -> Result<Order, Stop<WordsFault>>
    ensures order { Gives (eval_of (rows_of (found_of matches.now))) result }
    ensures range { IfOk result IsInRange }
{
    let bits = match bits(value_of(matches, "bits")) {
        Ok(bits) => bits,
        Err(fault) => return Err(Stop::Fault(fault)),
    };
    let stocks = copied(alloc, matches, "stocks")?;
    let Names {
        sites,
        parts,
        rates,
    } = names_of(alloc, matches)?;
    Ok(Order::Eval {
        sites,
        parts,
        rates,
        stocks,
        bits,
    })
}

/// The budget, the format and the objective of a plan.
fn plan_terms(matches: &ArgMatches<'_>) -> Result<Terms, WordsFault>
    ensures terms { result ≡ plan_terms_of (rows_of (found_of matches.now)) }
    ensures range { IfOk result (AreInRange (first_of (codes "on-hand") (rows_of (found_of matches.now)))) }
{
    let objective = objective_of(value_of(matches, "objective"));
    let lowest = lowest_format(value_of(matches, "on-hand"), objective);
    let budget = whole(Which::Budget, 0, MOST_BUDGET, text_of(matches, "budget"))?;
    let format = format(lowest, value_of(matches, "format"))?;
    match objective {
        Some(objective) => Ok(Terms {
            budget,
            format,
            objective,
        }),
        None => Err(WordsFault::Range(Which::Objective)),
    }
}

/// The order of `plan`.
fn plan_order(alloc: Global, matches: &ArgMatches<'_>) -> Result<Order, Stop<WordsFault>>
    ensures order { Gives (plan_of (rows_of (found_of matches.now))) result }
    ensures range { IfOk result IsInRange }
{
    let terms = match plan_terms(matches) {
        Ok(terms) => terms,
        Err(fault) => return Err(Stop::Fault(fault)),
    };
    let certificate = copied(alloc, matches, "certificate")?;
    let on_hand = copied_if_given(alloc, matches, "on-hand")?;
    let Names {
        sites,
        parts,
        rates,
    } = names_of(alloc, matches)?;
    Ok(Order::Plan {
        sites,
        parts,
        rates,
        on_hand,
        budget: terms.budget,
        format: terms.format,
        objective: terms.objective,
        certificate,
    })
}

/// The order of `check`.
fn check_order(alloc: Global, matches: &ArgMatches<'_>) -> Result<Order, Stop<WordsFault>>
    ensures order { Gives (check_of (rows_of (found_of matches.now))) result }
    ensures range { IfOk result IsInRange }
{
    let certificate = copied(alloc, matches, "certificate")?;
    Ok(Order::Check { certificate })
}

/// The order of `demo`.
fn demo_order(matches: &ArgMatches<'_>) -> Result<Order, WordsFault>
    ensures order { result ≡ demo_of (rows_of (found_of matches.now)) }
    ensures range { IfOk result IsInRange }
{
    let number = whole(Which::Number, 0, 4_294_967_295, text_of(matches, "number"))? as u32;
    let lines = whole(Which::Lines, 1, 80, text_of(matches, "lines"))? as u16;
    Ok(Order::Demo { number, lines })
}

/// The order of `sweep`.
fn sweep_order(alloc: Global, matches: &ArgMatches<'_>) -> Result<Order, Stop<WordsFault>>
    ensures order { Gives (sweep_of (rows_of (found_of matches.now))) result }
    ensures range { IfOk result IsInRange }
{
    let Names {
        sites,
        parts,
        rates,
    } = names_of(alloc, matches)?;
    Ok(Order::Sweep {
        sites,
        parts,
        rates,
    })
}

/// The order of `target`.
fn target_order(alloc: Global, matches: &ArgMatches<'_>) -> Result<Order, Stop<WordsFault>>
    ensures order { Gives (target_of (rows_of (found_of matches.now))) result }
    ensures range { IfOk result IsInRange }
{
    let most = 10_000_000_000_000;
    let backorders = match within(Which::Target, 4, 0, most, text_of(matches, "backorders")) {
        Ok(backorders) => backorders,
        Err(fault) => return Err(Stop::Fault(fault)),
    };
    let Names {
        sites,
        parts,
        rates,
    } = names_of(alloc, matches)?;
    Ok(Order::Target {
        sites,
        parts,
        rates,
        backorders,
    })
}

/// The order of `session`.
fn session_order(alloc: Global, matches: &ArgMatches<'_>) -> Result<Order, Stop<WordsFault>>
    ensures order { Gives (session_of (rows_of (found_of matches.now))) result }
    ensures range { IfOk result IsInRange }
{
    let edits = copied(alloc, matches, "edits")?;
    let Names {
        sites,
        parts,
        rates,
    } = names_of(alloc, matches)?;
    Ok(Order::Session {
        sites,
        parts,
        rates,
        edits,
    })
}

/// The order of `compare`.
fn compare_order(alloc: Global, matches: &ArgMatches<'_>) -> Result<Order, Stop<WordsFault>>
    ensures order { Gives (compare_of (rows_of (found_of matches.now))) result }
    ensures range { IfOk result IsInRange }
{
    let stocks = copied(alloc, matches, "stocks")?;
    let Names {
        sites,
        parts,
        rates,
    } = names_of(alloc, matches)?;
    Ok(Order::Compare {
        sites,
        parts,
        rates,
        stocks,
    })
}

/// The order, or its fault as a stop.
fn or_stop(order: Result<Order, WordsFault>) -> Result<Order, Stop<WordsFault>>
    ensures { Gives order result }
{
    match order {
        Ok(order) => Ok(order),
        Err(fault) => Err(Stop::Fault(fault)),
    }
}

/// The order of a command.
pub(crate) fn order_named(
    alloc: Global,
    name: CommandName,
    matches: &ArgMatches<'_>,
) -> Result<Order, Stop<WordsFault>>
    ensures order { Gives (order_named name (rows_of (found_of matches.now))) result }
    ensures range { IfOk result IsInRange }
{
    match name {
        CommandName::Single => or_stop(single_order(matches)),
        CommandName::Eval => eval_order(alloc, matches),
        CommandName::Plan => plan_order(alloc, matches),
        CommandName::Check => check_order(alloc, matches),
        CommandName::Demo => or_stop(demo_order(matches)),
        CommandName::Sweep => sweep_order(alloc, matches),
        CommandName::Target => target_order(alloc, matches),
        CommandName::Session => session_order(alloc, matches),
        CommandName::Compare => compare_order(alloc, matches),
    }
}
