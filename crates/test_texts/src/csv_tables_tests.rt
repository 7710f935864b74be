//! Worked cases, and each refusal by one change of a file.

ghost use Rattle.std.specs.Prelude.{◌≤◌, ◌↔◌, IsTrue, IfOk, length};
ghost use Rattle.spares_input.specs.Stocks.{IsFor};
ghost use Rattle.csv_tables.specs.Rest.{table_limit};

use answers::{NoMemory, Stop};
use csv_tables::{TABLE_LIMIT, TableFault, read_parts, read_rates, read_sites, read_stocks};
use exact_ratio::NumberFault;
use spares_input::{Case, CaseFault, Frame, PartId, SiteId, StockFault, Stocks, stocks_from};
use std::alloc::Global;
use std::test::Fail;

const SITES: &str = "site,kind,systems,ship_days\nD,depot,,\nB,base,12,10\n";

const PARTS: &str = "part,parent,cost,per_system,max_depot,max_base\nL,,100,1,2,3\n";

const RATES: &str = "part,site,demand,repair_here,share,repair_days\nL,D,,,,20\nL,B,36.5,0,,0\n";

const STOCKS: &str = "part,site,stock\nL,D,0\nL,B,0\n";

#[derive(Clone, Copy, PartialEq, Eq)]
enum File {
    Sites,
    Parts,
    Rates,
    Stocks,
}

/// The reason why files are no case or no stocks.
#[derive(Clone, Copy, Drop, PartialEq, Eq)]
enum Refusal {
    NoMemory,
    Table(TableFault),
    Case(CaseFault),
    Stock(StockFault),
}

fn of_table(stop: Stop<TableFault>) -> Refusal {
    match stop {
        Stop::NoMemory => Refusal::NoMemory,
        Stop::Fault(fault) => Refusal::Table(fault),
    }
}

fn of_case(stop: Stop<CaseFault>) -> Refusal {
    match stop {
        Stop::NoMemory => Refusal::NoMemory,
        Stop::Fault(fault) => Refusal::Case(fault),
    }
}

fn of_stocks(stop: Stop<StockFault>) -> Refusal {
    match stop {
        Stop::NoMemory => Refusal::NoMemory,
        Stop::Fault(fault) => Refusal::Stock(fault),
    }
}

/// Whether a file is short enough for a table.
fn is_short(bytes: &[u8]) -> bool
    ensures { IsTrue result ↔ length bytes.now ≤ table_limit }
{
    bytes.len() <= TABLE_LIMIT
}

fn frame_in(alloc: Global, sites: &[u8], parts: &[u8]) -> Result<Frame, Refusal> {
    if !is_short(sites) || !is_short(parts) {
        return Err(Refusal::NoMemory);
    }
    let sites = read_sites(alloc, sites).map_err(of_table)?;
    let parts = read_parts(alloc, parts).map_err(of_table)?;
    Frame::build(alloc, sites, parts).map_err(of_case)
}

fn case_in(alloc: Global, sites: &[u8], parts: &[u8], rates: &[u8]) -> Result<Case, Refusal> {
    let frame = frame_in(alloc, sites, parts)?;
    if !is_short(rates) {
        return Err(Refusal::NoMemory);
    }
    let rates = read_rates(alloc, rates, &frame).map_err(of_table)?;
    match Case::build(alloc, frame, rates) {
        Ok(case) => Ok(case),
        Err((_, stop)) => Err(of_case(stop)),
    }
}

fn stocks_in(alloc: Global, case: &Case, stocks: &[u8]) -> Result<Stocks, Refusal>
    ensures { IfOk result (IsFor case.now) }
{
    if !is_short(stocks) {
        return Err(Refusal::NoMemory);
    }
    let rows = read_stocks(alloc, stocks, case.frame()).map_err(of_table)?;
    match stocks_from(alloc, case, rows.as_slice()) {
        Ok(stocks) => Ok(stocks),
        Err(stop) => Err(of_stocks(stop)),
    }
}

/// A text with its first `old` replaced by `new`.
fn changed(alloc: Global, text: &str, old: &str, new: &str) -> Result<Vec<u8>, NoMemory> {
    let mut bytes = Vec::new(alloc);
    match text.split_once(old) {
        Some((front, back)) => {
            bytes.extend_from_slice(front.as_bytes())?;
            bytes.extend_from_slice(new.as_bytes())?;
            bytes.extend_from_slice(back.as_bytes())?;
        }
        None => bytes.extend_from_slice(text.as_bytes())?,
    }
    Ok(bytes)
}

#[derive(Clone, Copy)]
struct Change {
    file: File,
    old: &'static str,
    new: &'static str,
    wanted: Refusal,
}

/// A file of case A.
fn text_of(file: File) -> &'static str {
    match file {
        File::Sites => SITES,
        File::Parts => PARTS,
        File::Rates => RATES,
        File::Stocks => STOCKS,
    }
}

/// A file of case A, or these bytes if it is the one that is changed.
fn bytes_of<'a>(file: File, changed: File, bytes: &'a [u8]) -> &'a [u8] {
    if file == changed {
        bytes
    } else {
        text_of(file).as_bytes()
    }
}

/// The refusal of the files of case A, one of which has these bytes.
fn refusal_with(alloc: Global, changed: File, bytes: &[u8]) -> Option<Refusal> {
    let sites = bytes_of(File::Sites, changed, bytes);
    let parts = bytes_of(File::Parts, changed, bytes);
    let rates = bytes_of(File::Rates, changed, bytes);
    match case_in(alloc, sites, parts, rates) {
        Err(refusal) => Some(refusal),
        Ok(case) => {
            let stocks = stocks_in(alloc, &case, bytes_of(File::Stocks, changed, bytes));
            drop(case);
            stocks.err()
        }
    }
}

fn refusal_of(alloc: Global, change: &Change) -> Result<Option<Refusal>, NoMemory> {
    let bytes = changed(alloc, text_of(change.file), change.old, change.new)?;
    Ok(refusal_with(alloc, change.file, bytes.as_slice()))
}

/// A change refused with a table's fault.
macro_rules! table {
    ($file:expr, $old:expr, $new:expr, $fault:expr $(,)?) => {
        Change {
            file: $file,
            old: $old,
            new: $new,
            wanted: Refusal::Table($fault),
        }
    };
}

/// A change refused with the fault of a number in a table.
macro_rules! number {
    ($file:expr, $old:expr, $new:expr, $row:expr, $column:expr, $fault:expr $(,)?) => {
        Change {
            file: $file,
            old: $old,
            new: $new,
            wanted: Refusal::Table(TableFault::BadNumber {
                row: $row,
                column: $column,
                fault: $fault,
            }),
        }
    };
}

/// A change refused with a case's fault.
macro_rules! case {
    ($file:expr, $old:expr, $new:expr, $fault:expr $(,)?) => {
        Change {
            file: $file,
            old: $old,
            new: $new,
            wanted: Refusal::Case($fault),
        }
    };
}

/// A change of the stocks that is refused.
macro_rules! stock {
    ($old:expr, $new:expr, $fault:expr $(,)?) => {
        Change {
            file: File::Stocks,
            old: $old,
            new: $new,
            wanted: Refusal::Stock($fault),
        }
    };
}

/// The index of the first change without its refusal.
fn first_wrong(alloc: Global, changes: &[Change]) -> Result<Option<usize>, NoMemory> {
    for i in 0..changes.len() {
        if refusal_of(alloc, &changes[i])? != Some(changes[i].wanted) {
            return Ok(Some(i));
        }
    }
    Ok(None)
}

/// Changes of the table of sites.
const WRONG_SITES: [Change; 24] = [
    table!(File::Sites, SITES, "", TableFault::NoHeader),
    table!(File::Sites, SITES, "\n\n", TableFault::NoHeader),
    table!(
        File::Sites,
        ",ship_days",
        "",
        TableFault::FieldCount { row: 1, found: 3 },
    ),
    table!(
        File::Sites,
        "kind",
        "kinds",
        TableFault::Header { column: 2 },
    ),
    table!(
        File::Sites,
        ",12,10",
        ",12",
        TableFault::FieldCount { row: 3, found: 3 },
    ),
    table!(
        File::Sites,
        "\nD",
        "\n \nD",
        TableFault::FieldCount { row: 2, found: 1 },
    ),
    table!(
        File::Sites,
        "D,",
        "\"D,\",",
        TableFault::BadName { row: 2, column: 1 },
    ),
    table!(
        File::Sites,
        "D,",
        "123456789012345678901234x,",
        TableFault::BadName { row: 2, column: 1 },
    ),
    table!(File::Sites, "base", "Base", TableFault::BadKind { row: 3 }),
    table!(
        File::Sites,
        "depot,",
        "depot,1",
        TableFault::FieldNotEmpty { row: 2, column: 3 },
    ),
    table!(
        File::Sites,
        "12",
        "",
        TableFault::FieldEmpty { row: 3, column: 3 },
    ),
    table!(
        File::Sites,
        "12",
        "0",
        TableFault::OutOfRange { row: 3, column: 3 },
    ),
    table!(
        File::Sites,
        "12",
        "10001",
        TableFault::OutOfRange { row: 3, column: 3 },
    ),
    table!(
        File::Sites,
        ",10",
        ",10000",
        TableFault::OutOfRange { row: 3, column: 4 },
    ),
    number!(
        File::Sites,
        "12",
        "18446744073709551616",
        3,
        3,
        NumberFault::TooLarge,
    ),
    number!(File::Sites, "12", "1e3", 3, 3, NumberFault::BadByte(1)),
    number!(File::Sites, "12", ".", 3, 3, NumberFault::Empty),
    number!(File::Sites, "12", "1.5", 3, 3, NumberFault::TooManyPlaces),
    table!(
        File::Sites,
        "B,base,12,10\n",
        "a,base,,\nb,base,,\n",
        TableFault::FieldEmpty { row: 3, column: 3 },
    ),
    case!(File::Sites, "B,", "D,", CaseFault::DoubleSite(3)),
    case!(
        File::Sites,
        "base,12,10",
        "depot,,",
        CaseFault::TwoDepots(3),
    ),
    case!(
        File::Sites,
        "D,depot,,\nB,base,12,10\n",
        "",
        CaseFault::NoDepot,
    ),
    case!(File::Sites, "D,depot,,\n", "", CaseFault::NoDepot),
    case!(File::Sites, "B,base,12,10\n", "", CaseFault::NoBase),
];

#[test]
fn refuses_sites(rt: HostRuntime) -> Result<(), Fail> {
    assert_eq!(rt; first_wrong(rt.alloc(), WRONG_SITES.as_slice()), Ok(None));
    Ok(())
}

/// Changes of the table of parts.
const WRONG_PARTS: [Change; 15] = [
    table!(
        File::Parts,
        "base\n",
        "base,weight,x\n",
        TableFault::FieldCount { row: 1, found: 8 },
    ),
    table!(
        File::Parts,
        "base\n",
        "base,weights\n",
        TableFault::Header { column: 7 },
    ),
    table!(
        File::Parts,
        "base\n",
        "base,weight\n",
        TableFault::FieldCount { row: 2, found: 6 },
    ),
    table!(
        File::Parts,
        "base\nL,,100,1,2,3",
        "base,weight\nL,,100,1,2,3,0",
        TableFault::OutOfRange { row: 2, column: 7 },
    ),
    table!(
        File::Parts,
        "base\nL,,100,1,2,3",
        "base,weight\nL,,100,1,2,3,",
        TableFault::FieldEmpty { row: 2, column: 7 },
    ),
    table!(
        File::Parts,
        "base\nL,,100,1,2,3",
        "base,weight\nL,,100,1,2,3,3\nS,L,1,,0,0,1",
        TableFault::FieldNotEmpty { row: 3, column: 7 },
    ),
    table!(
        File::Parts,
        ",3\n",
        ",64\n",
        TableFault::OutOfRange { row: 2, column: 6 },
    ),
    table!(
        File::Parts,
        "100",
        "0",
        TableFault::OutOfRange { row: 2, column: 3 },
    ),
    table!(
        File::Parts,
        "100",
        "100000001",
        TableFault::OutOfRange { row: 2, column: 3 },
    ),
    table!(
        File::Parts,
        ",1,2",
        ",,2",
        TableFault::FieldEmpty { row: 2, column: 4 },
    ),
    table!(
        File::Parts,
        "3\n",
        "3\nS,L,1,1,0,0\n",
        TableFault::FieldNotEmpty { row: 3, column: 4 },
    ),
    case!(
        File::Parts,
        "3\n",
        "3\nL,,100,1,2,3\n",
        CaseFault::DoublePart(3),
    ),
    case!(
        File::Parts,
        "3\n",
        "3\nS,X,1,,0,0\n",
        CaseFault::UnknownParent(3),
    ),
    case!(
        File::Parts,
        "3\n",
        "3\nS,L,1,,0,0\nT,S,1,,0,0\n",
        CaseFault::ParentNotLine(4),
    ),
    case!(
        File::Parts,
        "3\n",
        "3\na,L,1,,0,0\nb,L,1,,0,0\nc,L,1,,0,0\nd,L,1,,0,0\ne,L,1,,0,0\nf,L,1,,0,0\ng,L,1,,0,0\nh,L,1,,0,0\ni,L,1,,0,0\n",
        CaseFault::TooManyShopUnits(11),
    ),
];

#[test]
fn refuses_parts(rt: HostRuntime) -> Result<(), Fail> {
    assert_eq!(rt; first_wrong(rt.alloc(), WRONG_PARTS.as_slice()), Ok(None));
    Ok(())
}

/// Changes of the tables of rates and of stocks.
const WRONG_RATES_AND_STOCKS: [Change; 16] = [
    table!(
        File::Rates,
        "L,B",
        "K,B",
        TableFault::UnknownPart { row: 3 },
    ),
    table!(
        File::Rates,
        "L,B",
        "L,C",
        TableFault::UnknownSite { row: 3 },
    ),
    table!(
        File::Rates,
        "36.5,0,,0\n",
        "36.",
        TableFault::FieldCount { row: 3, found: 3 },
    ),
    table!(
        File::Rates,
        "36.5,0,,0\n",
        "36.5,0,,",
        TableFault::FieldEmpty { row: 3, column: 6 },
    ),
    table!(
        File::Rates,
        "36.5,0,,",
        "36.5,0,1,",
        TableFault::FieldNotEmpty { row: 3, column: 5 },
    ),
    table!(
        File::Rates,
        "36.5",
        "100000.0001",
        TableFault::OutOfRange { row: 3, column: 3 },
    ),
    table!(
        File::Rates,
        "36.5,0",
        "36.5,1.0001",
        TableFault::OutOfRange { row: 3, column: 4 },
    ),
    number!(File::Rates, "36.5", "1e3", 3, 3, NumberFault::BadByte(1)),
    number!(
        File::Rates,
        "36.5",
        "36.50001",
        3,
        3,
        NumberFault::TooManyPlaces,
    ),
    case!(
        File::Rates,
        "L,B,36.5,0,,0\n",
        "",
        CaseFault::MissingRate(PartId(0), SiteId(1)),
    ),
    case!(
        File::Rates,
        "L,B,36.5,0,,0\n",
        "L,B,36.5,0,,0\nL,B,36.5,0,,0\n",
        CaseFault::DoubleRate(4),
    ),
    table!(
        File::Stocks,
        "L,D,0",
        "L,D,64",
        TableFault::OutOfRange { row: 2, column: 3 },
    ),
    stock!("L,D,0", "L,D,3", StockFault::OverLimit(2)),
    stock!("L,B,0", "L,D,3", StockFault::OverLimit(3)),
    stock!("L,B,0", "L,D,2", StockFault::Double(3)),
    stock!("L,B,0\n", "", StockFault::Missing(PartId(0), SiteId(1))),
];

#[test]
fn refuses_rates_and_stocks(rt: HostRuntime) -> Result<(), Fail> {
    assert_eq!(rt;
        first_wrong(rt.alloc(), WRONG_RATES_AND_STOCKS.as_slice()),
        Ok(None)
    );
    Ok(())
}

/// The numbers of a row of rates: demand, repair here, share and days.
fn numbers_at(case: &Case, part: u16, site: u8) -> Option<(u32, u16, u16, u32)> {
    if part >= case.part_count() || site >= case.site_count() {
        return None;
    }
    let row = case.rate(PartId(part), SiteId(site));
    Some((row.demand, row.repair_here, row.share, row.repair_days))
}

/// The fields of a site: its name, systems and days of shipment.
fn site_at(case: &Case, site: u8) -> Option<(&[u8], u32, u32)> {
    if site >= case.site_count() {
        return None;
    }
    let row = case.site(SiteId(site));
    Some((row.name.as_bytes(), row.systems, row.ship))
}

/// The fields of a part: cost, count per system, weight, and its limits at the depot and at a base.
fn part_at(case: &Case, part: u16) -> Option<(u32, u32, u8, u8, u8)> {
    if part >= case.part_count() || case.site_count() < 2 {
        return None;
    }
    let id = PartId(part);
    let row = case.part(id);
    Some((
        row.cost,
        row.per_system,
        row.weight,
        case.limit(id, SiteId(0)),
        case.limit(id, SiteId(1)),
    ))
}

fn is_case_a(case: &Case) -> bool {
    site_at(case, 0) == Some((b"D".as_slice(), 0, 0))
        && site_at(case, 1) == Some((b"B".as_slice(), 12, 1000))
        && part_at(case, 0) == Some((100, 1, 1, 2, 3))
        && part_at(case, 1) == None
        && numbers_at(case, 0, 0) == Some((0, 0, 0, 2000))
        && numbers_at(case, 0, 1) == Some((365_000, 0, 0, 0))
}

/// Whether these files are case A.
fn give_case_a(alloc: Global, sites: &[u8], parts: &[u8], rates: &[u8]) -> bool {
    let Ok(case) = case_in(alloc, sites, parts, rates) else {
        return false;
    };
    let is_given = is_case_a(&case);
    drop(case);
    is_given
}

// A byte order mark, CRLF, the bases before the depot, quotes, blanks and empty lines change nothing.
#[test]
fn reads_case_a(rt: HostRuntime) -> Result<(), Fail> {
    let alloc = rt.alloc();
    assert!(rt; give_case_a(alloc, SITES.as_bytes(), PARTS.as_bytes(), RATES.as_bytes()));
    assert!(rt;
        give_case_a(
            alloc,
            b"\xEF\xBB\xBFsite, kind ,systems,\tship_days\r\n\r\n B ,\"base\",12,10.00\r\n\"D\",depot,,\r\n",
            b"part,parent,cost,per_system,max_depot,max_base,weight\n\n\"L\",  ,100,1.,2,3,1",
            b"\"part\",site,demand,repair_here,share,repair_days\r\nL,B, 36.5 ,.0,\t,0\rL,D,,,,20",
        )
    );
    Ok(())
}

// A byte that no name may have, and more rows than a table may have.
#[test]
fn refuses_bytes_and_rows(rt: HostRuntime) -> Result<(), Fail> {
    let alloc = rt.alloc();
    let name = frame_in(
        alloc,
        SITES.as_bytes(),
        b"part,parent,cost,per_system,max_depot,max_base\nL\xFF,,100,1,2,3\n",
    );
    assert!(rt;
        is_refused(
            name,
            Refusal::Table(TableFault::BadName { row: 2, column: 1 })
        )
    );
    let rows = frame_in(
        alloc,
        b"site,kind,systems,ship_days\na,depot,,\n,,,\nb,base,1,1\nc,base,1,1\nd,base,1,1\ne,base,1,1\n",
        PARTS.as_bytes(),
    );
    assert!(rt;
        is_refused(
            rows,
            Refusal::Table(TableFault::BadName { row: 3, column: 1 })
        )
    );
    let mut many = Vec::from_slice(alloc, b"site,kind,systems,ship_days\n")?;
    for _ in 0..17 {
        many.extend_from_slice(b"B,base,1,1\n")?;
    }
    let many = frame_in(alloc, many.as_slice(), PARTS.as_bytes());
    assert!(rt; is_refused(many, Refusal::Table(TableFault::TooManyRows)));
    Ok(())
}

fn is_refused(answer: Result<Frame, Refusal>, wanted: Refusal) -> bool {
    match answer {
        Ok(_) => false,
        Err(refusal) => refusal == wanted,
    }
}

fn is_case_b(case: &Case) -> bool {
    part_at(case, 0) == Some((1000, 2, 1, 1, 1))
        && part_at(case, 1) == Some((200, 0, 0, 1, 1))
        && numbers_at(case, 1, 0) == Some((0, 0, 4000, 2000))
        && numbers_at(case, 1, 1) == Some((0, 2500, 4000, 500))
}

/// The cost of these stocks of a case, or their refusal.
fn cost_of(alloc: Global, case: &Case, stocks: &[u8]) -> Result<u64, Refusal> {
    let stocks = stocks_in(alloc, case, stocks)?;
    Ok(stocks.cost(case))
}

#[test]
fn reads_case_b(rt: HostRuntime) -> Result<(), Fail> {
    let alloc = rt.alloc();
    let case = case_in(
        alloc,
        b"site,kind,systems,ship_days\nD,depot,,\nB,base,10,5\n",
        b"part,parent,cost,per_system,max_depot,max_base\nL,,1000,2,1,1\nS,L,200,,1,1\n",
        b"part,site,demand,repair_here,share,repair_days\nL,D,,,,10\nL,B,36.5,0.5,,5\nS,D,,,0.4,20\nS,B,,0.25,0.4,5\n",
    );
    let case = case.ok().expect(&rt, "case B");
    let is_read = is_case_b(&case);
    let cost = cost_of(
        alloc,
        &case,
        b"part,site,stock\nS,D,1\nL,D,0\nL,B,1\nS,B,0\n",
    );
    drop(case);
    assert!(rt; is_read);
    assert!(rt; cost == Ok(1200));
    Ok(())
}

/// A table of a depot and 15 bases.
fn many_sites(alloc: Global) -> Result<String, Fail> {
    let mut sites = String::from_str(alloc, "site,kind,systems,ship_days\n0,depot,,\n")?;
    for site in 1..16u32 {
        sites.push_str(format!(in alloc; "{site},base,10000,9999.99\n")?.as_str())?;
    }
    Ok(sites)
}

/// A table of 2,000 line units.
fn many_parts(alloc: Global) -> Result<String, Fail> {
    let mut parts = String::from_str(alloc, "part,parent,cost,per_system,max_depot,max_base\n")?;
    for part in 0..2000u32 {
        parts.push_str(format!(in alloc; "part number {part},,100000000,100,63,63\n")?.as_str())?;
    }
    Ok(parts)
}

/// Adds the rates of a line unit at each of these bases.
fn add_rates(alloc: Global, rates: &mut String, part: u32) -> Result<(), Fail> {
    rates.push_str(format!(in alloc; "part number {part},0,,,,9999.99\n")?.as_str())?;
    for site in 1..16u32 {
        rates.push_str(format!(in alloc;
            "part number {part},{site},100000.0000,0.9999,,9999.99\n"
        )?.as_str())?;
    }
    Ok(())
}

/// The rates of all these line units at all these sites.
fn many_rates(alloc: Global) -> Result<String, Fail> {
    let mut rates = String::from_str(alloc, "part,site,demand,repair_here,share,repair_days\n")?;
    for part in 0..2000u32 {
        add_rates(alloc, &mut rates, part)?;
    }
    Ok(rates)
}

// 2,000 parts and 32,000 rates.
#[test]
fn reads_large_files(rt: HostRuntime) -> Result<(), Fail> {
    let alloc = rt.alloc();
    let (sites, parts, rates) = (many_sites(alloc)?, many_parts(alloc)?, many_rates(alloc)?);
    let case = case_in(alloc, sites.as_bytes(), parts.as_bytes(), rates.as_bytes());
    let case = case.ok().expect(&rt, "the large case");
    let last = numbers_at(&case, 1999, 15);
    drop(case);
    assert!(rt; last == Some((1_000_000_000, 9999, 0, 999_999)));
    Ok(())
}
