//! The texts of sweeps and targets.
ghost use Rattle.std.specs.Prelude.{◌≡◌, ◌++◌, All, IfOk, IfSome, OnOk};
ghost use Rattle.std.specs.List.{flat_map};
ghost use Rattle.plan_report.specs.Fits.{PriceFits};
ghost use Rattle.budget_sweep.specs.Fits.{PointFits, SweepFits, TargetFits};
ghost use Rattle.budget_sweep.specs.Texts.{
  least_text,
  point_text,
  next_price_text,
  reach_text,
  state_text,
  sweep_text,
  target_text,
};

use crate::report::{SweepPoint, SweepReport, TargetReport};
use answers::NoMemory;
use fixed_interval::{Iv, ratio_down};
use hull::Price;
use line_text::{put_fixed, put_number};
use plan_report::{put_interval, put_number_line};
use std::alloc::Global;

/// Appends the cost and both ends of a state.
fn put_state(text: &mut Vec<u8>, point: &SweepPoint) -> Result<(), NoMemory>
    requires { PointFits point.now }
    ensures { OnOk result (text.new.items ≡ text.old.items ++ state_text point.now) }
{
    put_number(text, u128::from(point.cost))?;
    text.push(b',')?;
    put_interval(text, &Iv::<48>::of_ends(point.lo, point.hi))
}

/// Appends a price with 12 decimals, rounded down, or `none`.
fn put_price(text: &mut Vec<u8>, price: Option<Price>) -> Result<(), NoMemory>
    requires { IfSome price PriceFits }
    ensures { OnOk result (text.new.items ≡ text.old.items ++ next_price_text price) }
{
    match price {
        Some(price) => {
            let decimals = ratio_down(price.p, u128::from(price.q) << 48, 12);
            Ok(text.extend_from_slice(decimals.as_slice())?)
        }
        None => Ok(text.extend_from_slice(b"none")?),
    }
}

/// Appends the line of a state.
fn put_point(text: &mut Vec<u8>, point: &SweepPoint) -> Result<(), NoMemory>
    requires { PointFits point.now }
    ensures { OnOk result (text.new.items ≡ text.old.items ++ point_text point.now) }
{
    text.extend_from_slice(b"point,")?;
    put_state(text, point)?;
    text.push(b',')?;
    put_price(text, point.price)?;
    Ok(text.push(b'\n')?)
}

/// Appends the lines of all states.
fn put_points(text: &mut Vec<u8>, points: &[SweepPoint]) -> Result<(), NoMemory>
    requires { All PointFits points.now }
    ensures { OnOk result (text.new.items ≡ text.old.items ++ flat_map point_text points.now) }
{
    for point in points {
        put_point(text, point)?;
    }
    Ok(())
}

/// Appends the line of the state that reaches a target.
fn put_reach(text: &mut Vec<u8>, reach: &Option<SweepPoint>) -> Result<(), NoMemory>
    requires { IfSome reach.now PointFits }
    ensures { OnOk result (text.new.items ≡ text.old.items ++ reach_text reach.now) }
{
    text.extend_from_slice(b"reach,")?;
    match reach {
        Some(point) => put_state(text, point)?,
        None => text.extend_from_slice(b"none")?,
    }
    Ok(text.push(b'\n')?)
}

/// Appends the line of the least cost of a target.
fn put_least(text: &mut Vec<u8>, least: Option<u64>) -> Result<(), NoMemory>
    ensures { OnOk result (text.new.items ≡ text.old.items ++ least_text least) }
{
    match least {
        Some(cost) => put_number_line(text, b"at-least", cost),
        None => Ok(text.extend_from_slice(b"at-least,none\n")?),
    }
}

impl SweepReport {
    /// A line `sweep,COUNT`, and a line `point,COST,LO,HI,PRICE` for each state: both ends with 6 decimals, the lower
    /// one rounded down and the upper one up, and the price with 12 decimals, rounded down, or `none`. Want of memory
    /// is the only error.
    pub fn text(&self, alloc: Global) -> Result<Vec<u8>, NoMemory>
        requires { SweepFits self.now }
        ensures { IfOk result (λ text. text.items ≡ sweep_text self.now) }
    {
        let mut text = Vec::new(alloc);
        put_number_line(&mut text, b"sweep", self.points.as_slice().len() as u64)?;
        put_points(&mut text, self.points.as_slice())?;
        Ok(text)
    }
}

impl TargetReport {
    /// Three lines: `target,X` with 4 decimals, `reach,COST,LO,HI` or `reach,none`, and `at-least,COST` or
    /// `at-least,none`. The ends are rounded as in a sweep. Want of memory is the only error.
    pub fn text(&self, alloc: Global) -> Result<Vec<u8>, NoMemory>
        requires { TargetFits self.now }
        ensures { IfOk result (λ text. text.items ≡ target_text self.now) }
    {
        let mut text = Vec::new(alloc);
        text.extend_from_slice(b"target,")?;
        put_fixed(&mut text, 4, u128::from(self.target.units))?;
        text.push(b'\n')?;
        put_reach(&mut text, &self.reach)?;
        put_least(&mut text, self.at_least)?;
        Ok(text)
    }
}
