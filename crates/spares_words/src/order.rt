//! The order of a command line.
use exact_ratio::{Decimal, NumberFault};
use price_certificate::Objective;
use spares_io::Text;

/// A number of the command line.
#[derive(Clone, Copy, PartialEq, Eq)]
pub enum Which {
    /// `MEAN`, with up to 4 decimals.
    Mean,
    /// `STOCK`, a whole number from 0 to 63.
    Stock,
    /// `--variance V`, with up to 4 decimals.
    Variance,
    /// `--budget N`, a whole number from 0 to 10^15.
    Budget,
    /// `--bits 32`, `48` or `52`.
    Bits,
    /// `NUMBER`, a whole number from 0 to 4,294,967,295.
    Number,
    /// `LINES`, a whole number from 1 to 80.
    Lines,
    /// `--format 1` or `2`.
    Format,
    /// `--backorders X`, with up to 4 decimals, from 0 to 1,000,000,000.
    Target,
    /// `--objective backorders` or `log-availability`.
    Objective,
}

/// The reason why the words of a command line are no order.
#[derive(Clone, Copy, PartialEq, Eq)]
pub enum WordsFault {
    /// The first word names no command, or the command doesn't take the words after it.
    Shape,
    /// The text of an argument is no number, has too many decimals, or is too large for any number.
    Number(Which, NumberFault),
    /// A number that is outside its range.
    Range(Which),
}

/// The order of a command line: a command with its values.
#[derive(Drop)]
pub enum Order {
    /// `single MEAN STOCK [--variance V]`: the backorders of one pipeline. Mean and variance are in units with 4
    /// decimals; the stock is at most 63 units. The default variance is the mean.
    Single {
        mean: Decimal,
        variance: Option<Decimal>,
        stock: u8,
    },
    /// `eval --sites F --parts F --rates F --stocks F [--bits N]`: the figures of a case at given stocks. The texts are
    /// the names of its four tables. Intervals have 32, 48 or 52 bits; the default is 48.
    Eval {
        sites: Text,
        parts: Text,
        rates: Text,
        stocks: Text,
        bits: u8,
    },
    /// `plan --sites F --parts F --rates F [--on-hand F] --budget N [--format N] [--objective NAME] --certificate F`:
    /// the best stocks for at most this money, 0 to 10^15, and the file name for a certificate that shows how good they
    /// are. With a table of stocks on hand the plan only adds to them. The default objective is backorders. The format
    /// of the certificate is 1 or 2: 2 with stocks on hand or with the loss of availability, and otherwise 1 by
    /// default.
    Plan {
        sites: Text,
        parts: Text,
        rates: Text,
        on_hand: Option<Text>,
        budget: u64,
        format: u8,
        objective: Objective,
        certificate: Text,
    },
    /// `check --certificate F`: whether a certificate shows its claims.
    Check {
        certificate: Text,
    },
    /// `demo NUMBER LINES`: a case of 1 to 80 line units, made from this number, planned and checked.
    Demo {
        number: u32,
        lines: u16,
    },
    /// `sweep --sites F --parts F --rates F`: the budgets at which the best stocks change, with their backorders.
    Sweep {
        sites: Text,
        parts: Text,
        rates: Text,
    },
    /// `target --sites F --parts F --rates F --backorders X`: the cost of at most this number of backorders, 0 to
    /// 1,000,000,000 with 4 decimals.
    Target {
        sites: Text,
        parts: Text,
        rates: Text,
        backorders: Decimal,
    },
    /// `session --sites F --parts F --rates F --edits F`: the plans that a file of edits asks for, in order.
    Session {
        sites: Text,
        parts: Text,
        rates: Text,
        edits: Text,
    },
    /// `compare --sites F --parts F --rates F --stocks F`: the backorders of a case at given stocks, beside those with
    /// Poisson pipelines.
    Compare {
        sites: Text,
        parts: Text,
        rates: Text,
        stocks: Text,
    },
}
