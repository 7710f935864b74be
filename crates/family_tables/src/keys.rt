//! Tables by their keys.

ghost use Rattle.std.specs.Prelude.{◌≡◌, IfSome, is_some, map, position};
ghost use Rattle.std.specs.List.{All};
ghost use Rattle.family_tables.specs.Kept.{IsKept, is_among, is_key, moments_at, table_at};

use answers::List;
use depot_pipeline::Moments;
use family_numbers::numbers::Numbers;
use moment_table::kinds::Table;
use spares_input::SiteId;

/// The key of a table: a place in the family, a site, and the stocks on which the pair's pipeline depends.
#[derive(Drop)]
pub(crate) struct Key {
    pub(crate) place: usize,
    pub(crate) site: SiteId,
    pub(crate) stocks: List<u8>,
}

/// A pipeline with its key and its table.
#[derive(Drop)]
pub(crate) struct Kept<const F: u32> {
    pub(crate) key: Key,
    pub(crate) moments: Moments<F>,
    pub(crate) table: Table<F>,
}

/// Whether a key has this place, this site and these stocks.
fn is_key(key: &Key, place: usize, site: SiteId, stocks: &[u8]) -> bool
    ensures { result ≡ is_key key.now place site.0 stocks.now }
{
    key.place == place && key.site.0 == site.0 && key.stocks.as_slice() == stocks
}

/// The index of the table with this key.
fn place_of<const F: u32>(
    kept: &[Kept<F>],
    place: usize,
    site: SiteId,
    stocks: &[u8],
) -> Option<usize>
    ensures { result ≡ position (λ x. is_key x.key place site.0 stocks.now) kept.now }
{
    for n in 0..kept.len() {
        if is_key(&kept[n].key, place, site, stocks) {
            return Some(n);
        }
    }
    None
}

/// What is kept under this key, if anything.
pub(crate) fn kept_at<'a, const F: u32>(
    numbers: &Numbers<F>,
    kept: &'a [Kept<F>],
    place: usize,
    site: SiteId,
    stocks: &[u8],
) -> Option<&'a Kept<F>>
    requires { All (IsKept F numbers.now) kept.now }
    ensures found { is_some result ≡ is_among (map (λ x. x.key) kept.now) place site.0 stocks.now }
    ensures moments { IfSome result (λ y. y.now.moments ≡ moments_at F numbers.now place site.0 stocks.now) }
    ensures table { IfSome result (λ y. y.now.table ≡ table_at F numbers.now place site.0 stocks.now) }
{
    match place_of(kept, place, site, stocks) {
        Some(n) => Some(&kept[n]),
        None => None,
    }
}
