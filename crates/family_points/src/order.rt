//! The choices of stocks at each base in order of cost, which doesn't depend on the depot's stocks.

ghost use Rattle.std.specs.Prelude.{◌≡◌, ◌<◌, ◌++◌, ◌∷◌, IfOk, All, get_or, [], length, map};
ghost use Rattle.std.specs.List.Sorted.{IsNonDecreasingBy, IsPermutation};
ghost use Rattle.fleet_model.specs.Laws.{IsBase};
ghost use Rattle.family_points.specs.declared.order.ShopVector.{ShopVector};
ghost use Rattle.family_points.specs.Inputs.{line_stocks, shop_vectors};
ghost use Rattle.family_points.specs.Choices.{AreBases, IsBaseOf, IsChoice, IsShopVector, choice_stocks, turned_stocks};

use crate::family::{Family, joined};
use answers::{List, NoMemory};
use spares_input::SiteId;
use std::alloc::Global;

/// Stocks of the shop units at a base.
#[derive(Drop)]
pub struct ShopVector {
    /// Their cost together with the line unit's least stock there, as far as the stocks exceed those held.
    pub cost: u64,
    /// The stocks, in part order.
    pub stocks: List<u8>,
}

/// A choice of stocks at a base.
#[derive(Drop)]
pub struct Choice {
    /// Its cost, as far as its stocks exceed those held.
    pub cost: u64,
    /// The number of the shop units' vector of stocks.
    pub shops: usize,
    /// The stock of the line unit.
    pub line: u8,
}

/// The choices at a base, which don't depend on the depot's stocks.
#[derive(Drop)]
pub struct Base {
    /// All vectors of the shop units' stocks, in dictionary order.
    pub shops: Vec<ShopVector>,
    /// All choices by rising cost.
    pub order: Vec<Choice>,
}

/// The `n`-th vector of the shop units' stocks at a base, with its cost.
fn shops_at(
    alloc: Global,
    family: &Family<'_>,
    site: SiteId,
    number: u64,
) -> Result<ShopVector, NoMemory>
    requires site { IsBase family.now.case site.0 }
    requires within { number < length (shop_vectors family.now site.0) }
    ensures stocks { IfOk result (λ s. s.stocks ≡ get_or (shop_vectors family.now site.0) number []) }
    ensures costs { IfOk result (IsShopVector family.now site.0) }
{
    family.invariant();
    let low = family.line_low(site);
    family.invariant_at(site);
    let stocks = family.shop_vector(alloc, site, number)?;
    let whole = joined(alloc, low, stocks.as_slice())?;
    let cost = family.cost(site, whole.as_slice());
    Ok(ShopVector {
        cost,
        stocks: List::of(stocks),
    })
}

/// All vectors of the shop units' stocks at a base.
fn shops_of_base(
    alloc: Global,
    family: &Family<'_>,
    site: SiteId,
) -> Result<Vec<ShopVector>, NoMemory>
    requires { IsBase family.now.case site.0 }
    ensures stocks { IfOk result (λ v. map (λ (s : ShopVector). s.stocks) v.items ≡ shop_vectors family.now site.0) }
    ensures costs { IfOk result (λ v. All (IsShopVector family.now site.0) v.items) }
{
    let count = family.shop_count(site);
    let mut shops = Vec::with_capacity(alloc, count as usize)?;
    for n in 0..count {
        shops.push(shops_at(alloc, family, site, n)?)?;
    }
    Ok(shops)
}

/// Appends the choices with the shop units' vector `shops`, one for each stock of the line unit.
fn put_choices(
    choices: &mut Vec<Choice>,
    family: &Family<'_>,
    site: SiteId,
    shops: &ShopVector,
    place: usize,
) -> Result<(), NoMemory>
    requires site { IsBase family.now.case site.0 }
    requires shops { IsShopVector family.now site.0 shops.now }
    requires place { place < length (shop_vectors family.now site.0) }
    requires here { shops.now.stocks ≡ get_or (shop_vectors family.now site.0) place [] }
    requires choices { All (IsChoice family.now site.0) choices.old.items }
    ensures stocks { IfOk result (λ _. map (choice_stocks family.now site.0) choices.new.items
        ≡ map (choice_stocks family.now site.0) choices.old.items
        ++ map (λ s. s ∷ shops.now.stocks) (line_stocks family.now site.0)) }
    ensures choices { IfOk result (λ _. All (IsChoice family.now site.0) choices.new.items) }
{
    family.invariant();
    let low = family.line_low(site);
    let high = family.line_high(site);
    let each = family.line_cost();
    for s in low..high + 1 {
        let cost = shops.cost + u64::from(s - low) * each;
        choices.push(Choice {
            cost,
            shops: place,
            line: s,
        })?;
    }
    Ok(())
}

/// All choices at a base, by the shop units' vector.
fn choices_of(
    alloc: Global,
    family: &Family<'_>,
    site: SiteId,
    shops: &[ShopVector],
) -> Result<Vec<Choice>, NoMemory>
    requires site { IsBase family.now.case site.0 }
    requires stocks { map (λ (s : ShopVector). s.stocks) shops.now ≡ shop_vectors family.now site.0 }
    requires costs { All (IsShopVector family.now site.0) shops.now }
    ensures stocks { IfOk result
        (λ v. map (choice_stocks family.now site.0) v.items ≡ turned_stocks family.now site.0) }
    ensures choices { IfOk result (λ v. All (IsChoice family.now site.0) v.items) }
{
    let lines = usize::from(family.line_high(site) - family.line_low(site)) + 1;
    let mut choices = Vec::with_capacity(alloc, shops.len().saturating_mul(lines))?;
    for n in 0..shops.len() {
        put_choices(&mut choices, family, site, &shops[n], n)?;
    }
    Ok(choices)
}

/// Sorts choices by cost.
fn in_order(mut choices: Vec<Choice>) -> Vec<Choice>
    ensures permutation { IsPermutation choices.items result.items }
    ensures sorted { IsNonDecreasingBy (λ v. v.cost) result.items }
{
    choices.sort_unstable_by_key(|v| v.cost);
    choices
}

/// The choices at a base.
fn base_of(alloc: Global, family: &Family<'_>, site: SiteId) -> Result<Base, NoMemory>
    requires { IsBase family.now.case site.0 }
    ensures { IfOk result (IsBaseOf family.now site.0) }
{
    let shops = shops_of_base(alloc, family, site)?;
    let choices = choices_of(alloc, family, site, shops.as_slice())?;
    let order = in_order(choices);
    Ok(Base { shops, order })
}

/// The choices at each base, the first base first.
pub fn bases_of(alloc: Global, family: &Family<'_>) -> Result<Vec<Base>, NoMemory>
    ensures { IfOk result (λ v. AreBases family.now v.items) }
{
    family.invariant();
    let mut bases = Vec::with_capacity(alloc, usize::from(family.sites()))?;
    for j in 1..family.sites() {
        let base = base_of(alloc, family, SiteId(j))?;
        bases.push(base)?;
    }
    Ok(bases)
}
