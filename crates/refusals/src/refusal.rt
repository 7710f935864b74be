//! Refusals.

use case_edits::EditFault;
use check_answers::Reject;
use csv_tables::TableFault;
use demand_rates::RateFault;
use price_certificate::CertFault;
use spares_input::{CaseFault, StockFault};
use spares_words::WordsFault;

/// A file that a command names.
#[derive(Clone, Copy)]
pub enum File {
    /// The table of sites.
    Sites,
    /// The table of parts.
    Parts,
    /// The table of rates.
    Rates,
    /// The table of stocks.
    Stocks,
    /// The table of stocks on hand.
    OnHand,
    /// The certificate of a plan.
    Certificate,
    /// The edits of a session.
    Edits,
}

/// The reason why a command was refused.
#[derive(Clone, Copy)]
pub enum Refusal {
    /// The words aren't a command, or a number among them is bad.
    Words(WordsFault),
    /// A file wasn't read: the shelf failed, or has no file of this name.
    ReadFault(File),
    /// A file has too many bytes: a table or edits more than 4,194,304, a certificate more than 16,777,216.
    TooLong(File),
    /// A table breaks its format.
    Table(File, TableFault),
    /// The sites, parts and rates break a rule of a case.
    Case(CaseFault),
    /// The stocks break a rule of the case.
    Stock(StockFault),
    /// A pipeline is beyond the limits of the model.
    Rate(RateFault),
    /// The count of tables for the curves of the case, which is more than 1,000,000.
    Work(u64),
    /// The bytes are no certificate.
    Cert(CertFault),
    /// The first rule that a certificate breaks.
    Rejected(Reject),
    /// The first fault of the edits.
    Edit(EditFault),
    /// The certificate wasn't written, or at most a part of the report was put out.
    WriteFault,
    /// There was no memory.
    NoMemory,
}
