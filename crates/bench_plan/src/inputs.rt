//! Files, and the case of three of them.

ghost use Rattle.std.specs.Prelude.{◌<◌, ◌≤◌, ◌^◌, IfOk, length};
ghost use Rattle.csv_tables.specs.Rest.{table_limit};

use anyhow::anyhow;
use csv_tables::{TABLE_LIMIT, read_parts, read_rates, read_sites};
use spares_input::{Case, Frame};
use spares_io::{FileShelf, Shelf};
use std::alloc::Global;

/// The bytes of a file, of at most `limit` bytes.
pub fn bytes_of(rt: &HostRuntime, name: &str, limit: usize) -> anyhow::Result<Vec<u8>>
    requires { limit < 2 ^ 32 }
    ensures { IfOk result (λ bytes. length bytes.items ≤ limit) }
{
    let mut shelf = FileShelf::new(rt);
    let mut bytes = Vec::new(rt.alloc());
    match shelf.read(name, limit, &mut bytes) {
        Ok(()) => Ok(bytes),
        Err(_) => Err(anyhow!("a file can't be read")),
    }
}

/// The case of the bytes of three tables, if they are one.
fn case_in(alloc: Global, sites: &[u8], parts: &[u8], rates: &[u8]) -> Option<Case>
    requires sites { length sites.now ≤ table_limit }
    requires parts { length parts.now ≤ table_limit }
    requires rates { length rates.now ≤ table_limit }
{
    let sites = read_sites(alloc, sites).ok()?;
    let parts = read_parts(alloc, parts).ok()?;
    let frame = Frame::build(alloc, sites, parts).ok()?;
    let rates = read_rates(alloc, rates, &frame).ok()?;
    Case::build(alloc, frame, rates).ok()
}

/// The case of three tables.
pub fn case_of(rt: &HostRuntime, sites: &str, parts: &str, rates: &str) -> anyhow::Result<Case> {
    let sites = bytes_of(rt, sites, TABLE_LIMIT)?;
    let parts = bytes_of(rt, parts, TABLE_LIMIT)?;
    let rates = bytes_of(rt, rates, TABLE_LIMIT)?;
    match case_in(
        rt.alloc(),
        sites.as_slice(),
        parts.as_slice(),
        rates.as_slice(),
    ) {
        Some(case) => Ok(case),
        None => Err(anyhow!("the tables give no case")),
    }
}
