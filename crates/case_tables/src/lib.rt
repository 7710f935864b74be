//! The reading of tables: their bytes become a case, its stocks and its rates, or the first refusal, with the names of
//! the case.
#![tactic(auto)]

ghost use Rattle.std.specs.Prelude.{◌≡◌, ◌≤◌, All, IfOk, length};
ghost use Rattle.demand_rates.specs.Rates.{AreRatesOf};
ghost use Rattle.spares_input.specs.Cases.{IsRateOf};
ghost use Rattle.spares_input.specs.Stocks.{AreStocksOf};
ghost use Rattle.answers.specs.Answers.{Gives};
ghost use Rattle.csv_tables.specs.Rest.{table_limit};
ghost use Rattle.csv_tables.specs.Tables.{rows_of};
ghost use Rattle.case_tables.specs.Answers.{Tells, TellsStocked, case_stop};
ghost use Rattle.case_tables.specs.Tables.{accepted_of, case_of_table, case_of_tables, frame_of_tables, rate_rows_of, rates_of_case, stocked_of, stocks_of_table};

use answers::Stop;
use csv_tables::{read_parts, read_rates, read_sites, read_stocks};
use demand_rates::kinds::Rates;
use demand_rates::rates;
use refusals::{Failure, File, Refusal};
use spares_input::{Case, CaseFault, Frame, RateRow, Stocks, stocks_from};
use std::alloc::Global;

/// The frame of two tables.
#[tactic(auto, unfolding(crate::specs::Tables::frame_of_tables))]
fn frame_of(alloc: Global, sites: &[u8], parts: &[u8]) -> Result<Frame, Stop<Failure>>
    requires sites { length sites.now ≤ table_limit }
    requires parts { length parts.now ≤ table_limit }
    ensures { Gives (frame_of_tables sites.now parts.now) result }
{
    let sites = match read_sites(alloc, sites) {
        Ok(rows) => rows,
        Err(Stop::NoMemory) => return Err(Stop::NoMemory),
        Err(Stop::Fault(fault)) => {
            return Err(Stop::Fault(Failure::of(Refusal::Table(File::Sites, fault))));
        }
    };
    let parts = match read_parts(alloc, parts) {
        Ok(rows) => rows,
        Err(Stop::NoMemory) => return Err(Stop::NoMemory),
        Err(Stop::Fault(fault)) => {
            return Err(Stop::Fault(Failure::of(Refusal::Table(File::Parts, fault))));
        }
    };
    match Frame::build(alloc, sites, parts) {
        Ok(frame) => Ok(frame),
        Err(Stop::NoMemory) => Err(Stop::NoMemory),
        Err(Stop::Fault(fault)) => Err(Stop::Fault(Failure::of(Refusal::Case(fault)))),
    }
}

/// The rows of a table of rates.
fn rate_rows(alloc: Global, frame: &Frame, bytes: &[u8]) -> Result<Vec<RateRow>, Stop<Failure>>
    requires { length bytes.now ≤ table_limit }
    ensures answer { Gives (rate_rows_of frame.now bytes.now) (rows_of result) }
    ensures fields { IfOk result (λ rows. All (IsRateOf frame.now) rows.items) }
{
    match read_rates(alloc, bytes, frame) {
        Ok(rows) => Ok(rows),
        Err(Stop::NoMemory) => Err(Stop::NoMemory),
        Err(Stop::Fault(fault)) => {
            let refusal = Refusal::Table(File::Rates, fault);
            Err(Stop::Fault(Failure::at(frame, refusal)))
        }
    }
}

/// A stop of a case, with the line of its fault. The frame has the names of a pair.
fn case_stop(frame: &Frame, stop: Stop<CaseFault>) -> Stop<Failure>
    ensures { result ≡ case_stop frame.now stop }
{
    match stop {
        Stop::NoMemory => Stop::NoMemory,
        Stop::Fault(fault) => Stop::Fault(Failure::at(frame, Refusal::Case(fault))),
    }
}

/// The case of a frame and a table of rates.
#[tactic(auto, unfolding(crate::specs::Tables::case_of_table))]
fn case_in(alloc: Global, frame: Frame, bytes: &[u8]) -> Result<Case, Stop<Failure>>
    requires { length bytes.now ≤ table_limit }
    ensures { Gives (case_of_table frame bytes.now) result }
{
    let rows = rate_rows(alloc, &frame, bytes)?;
    match Case::build(alloc, frame, rows) {
        Ok(case) => Ok(case),
        Err((frame, stop)) => Err(case_stop(&frame, stop)),
    }
}

/// The case of three tables: sites, parts and rates. Its rates may be beyond the limits of the model.
///
/// A refusal is the first in this order: `Table` of the sites, `Table` of the parts, `Case` of the two, `Table` of the
/// rates, or `Case` of the three.
pub fn case_of(
    alloc: Global,
    sites: &[u8],
    parts: &[u8],
    rates: &[u8],
) -> Result<Case, Stop<Failure>>
    requires sites { length sites.now ≤ table_limit }
    requires parts { length parts.now ≤ table_limit }
    requires rates { length rates.now ≤ table_limit }
    ensures { Gives (case_of_tables sites.now parts.now rates.now) result }
{
    let frame = frame_of(alloc, sites, parts)?;
    case_in(alloc, frame, rates)
}

/// The stocks of a case from one more table, which is this file.
#[tactic(auto, unfolding(crate::specs::Tables::stocks_of_table))]
fn stocks_in(alloc: Global, case: &Case, file: File, bytes: &[u8]) -> Result<Stocks, Stop<Failure>>
    requires { length bytes.now ≤ table_limit }
    ensures answer { Gives (stocks_of_table file case.now bytes.now) result }
    ensures stocks { IfOk result (AreStocksOf case.now) }
{
    let rows = match read_stocks(alloc, bytes, case.frame()) {
        Ok(rows) => rows,
        Err(Stop::NoMemory) => return Err(Stop::NoMemory),
        Err(Stop::Fault(fault)) => {
            let refusal = Refusal::Table(file, fault);
            return Err(Stop::Fault(Failure::at(case.frame(), refusal)));
        }
    };
    match stocks_from(alloc, case, rows.as_slice()) {
        Ok(stocks) => Ok(stocks),
        Err(Stop::NoMemory) => Err(Stop::NoMemory),
        Err(Stop::Fault(fault)) => {
            Err(Stop::Fault(Failure::at(case.frame(), Refusal::Stock(fault))))
        }
    }
}

/// The rates of a case, if all are within the limits of the model.
#[tactic(auto, unfolding(crate::specs::Tables::rates_of_case))]
fn rates_of(alloc: Global, case: &Case) -> Result<Rates, Stop<Failure>>
    ensures answer { Gives (rates_of_case case.now) result }
    ensures model { IfOk result (AreRatesOf case.now) }
{
    match rates(alloc, case) {
        Ok(rates) => Ok(rates),
        Err(Stop::NoMemory) => Err(Stop::NoMemory),
        Err(Stop::Fault(fault)) => {
            Err(Stop::Fault(Failure::at(case.frame(), Refusal::Rate(fault))))
        }
    }
}

/// A case with its rates, which are within the limits of the model.
#[derive(Drop)]
pub struct AcceptedCase {
    pub case: Case,
    pub rates: Rates,
}

/// The case of three tables: sites, parts and rates, with its rates.
///
/// A refusal is the first in this order: `Table` of the sites, `Table` of the parts, `Case` of the two, `Table` of the
/// rates, `Case` of the three, or `Rate` if a pipeline is beyond the limits of the model.
#[tactic(auto, unfolding(crate::specs::Tables::accepted_of))]
pub fn accepted_of(
    alloc: Global,
    sites: &[u8],
    parts: &[u8],
    rates: &[u8],
) -> Result<AcceptedCase, Stop<Failure>>
    requires sites { length sites.now ≤ table_limit }
    requires parts { length parts.now ≤ table_limit }
    requires rates { length rates.now ≤ table_limit }
    ensures answer { Tells (accepted_of sites.now parts.now rates.now) result }
    ensures rates { IfOk result (λ given. AreRatesOf given.case given.rates) }
{
    let case = case_of(alloc, sites, parts, rates)?;
    let rates = rates_of(alloc, &case)?;
    Ok(AcceptedCase { case, rates })
}

/// A case with its rates, which are within the limits of the model, and stocks, which are within the case's limits.
#[derive(Drop)]
pub struct Stocked {
    pub case: Case,
    pub stocks: Stocks,
    pub rates: Rates,
}

/// The case of three tables with the stocks of a fourth, which is this file.
///
/// A refusal is the first in this order: the refusals of a case, then `Table` of this file or `Stock`, then `Rate`.
#[tactic(auto, unfolding(crate::specs::Tables::stocked_of))]
pub fn stocked_of(
    alloc: Global,
    sites: &[u8],
    parts: &[u8],
    rates: &[u8],
    file: File,
    stocks: &[u8],
) -> Result<Stocked, Stop<Failure>>
    requires sites { length sites.now ≤ table_limit }
    requires parts { length parts.now ≤ table_limit }
    requires rates { length rates.now ≤ table_limit }
    requires stocks { length stocks.now ≤ table_limit }
    ensures answer { TellsStocked (stocked_of file sites.now parts.now rates.now stocks.now) result }
    ensures rates { IfOk result (λ given. AreRatesOf given.case given.rates) }
    ensures stocks { IfOk result (λ given. AreStocksOf given.case given.stocks) }
{
    let case = case_of(alloc, sites, parts, rates)?;
    let stocks = stocks_in(alloc, &case, file, stocks)?;
    let rates = rates_of(alloc, &case)?;
    Ok(Stocked {
        case,
        stocks,
        rates,
    })
}
