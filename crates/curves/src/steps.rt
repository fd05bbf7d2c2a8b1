// Lists of steps, as the stepped offer and the stepped cost hold them.
ghost use Rattle.std.specs.Prelude.{◌≡◌, ◌<◌, ◌≤◌, length, take, IfOk};
ghost use Rattle.curves.specs.Limits.{read_energy, read_kwh, read_count};
ghost use Rattle.curves.specs.Prices.{BeforeDearer};
ghost use Rattle.curves.specs.Refusals.{price_falls, widths_fit, prices_fit, padded_steps, table_made};
ghost use Rattle.curves.specs.Steps.{step_price, read_from, price_read, steps_of, LevelAt};

use crate::limits::{MAX_KWH, MAX_PRICE, read_energy, read_kwh};
use crate::refusals::CurveRefusal;

/// The most steps of a curve.
pub const MAX_STEPS: usize = 10;

/// A number of kWh and the price of each of them.
#[derive(Clone, Copy, Debug, Default, PartialEq, Eq)]
pub struct Step {
    /// In kWh; outside 1 to 2,000,000 it is read as the nearest of these.
    pub width: u32,
    /// In rial per MWh; over 10,000,000 it is read as 10,000,000.
    pub price: u32,
}

/// 1 to 10 steps in fixed memory, in order from kWh 1 on. The price of the last one goes on without end.
#[derive(Clone, Copy)]
pub struct StepTable {
    /// How many of the places are in use; 0 is read as 1, and over 10 as 10.
    pub count: u32,
    /// The steps in use, and behind them places that are not read.
    pub steps: [Step; MAX_STEPS],
}

// The price of a kWh, and a later kWh, or the same, up to which it stays.
#[derive(Clone, Copy)]
pub(crate) struct Level {
    pub price: u32,
    pub end: u32,
}

impl Step {
    // The step's price as it is read after a step of the price `before`: where prices rise, at least that.
    fn price_read(self, rises: bool, before: u32) -> u32
        ensures { result ≡ price_read rises before self }
    {
        let price = self.price.min(MAX_PRICE);
        if rises { price.max(before) } else { price }
    }
}

// Whether a price is under the one before it.
fn price_falls(list: &[Step]) -> bool
    ensures { result ≡ price_falls 0 list.now }
{
    !list.is_sorted_by_key(|step| step.price)
}

// Whether every width is from 1 to 2,000,000.
fn widths_fit(list: &[Step]) -> bool
    ensures { result ≡ widths_fit list.now }
{
    list.iter().all(|step| (1..=MAX_KWH).contains(&step.width))
}

// Whether no price is over 10,000,000.
fn prices_fit(list: &[Step]) -> bool
    ensures { result ≡ prices_fit list.now }
{
    list.iter().all(|step| step.price <= MAX_PRICE)
}

// The list in a table's places, and steps of width 0 and price 0 behind it.
fn padded(list: &[Step]) -> [Step; MAX_STEPS]
    requires { length list.now ≤ 10 }
    ensures { result ≡ padded_steps list.now }
{
    let mut steps = [Step::default(); MAX_STEPS];
    steps[..list.len()].copy_from_slice(list);
    steps
}

// The price of a kWh by a list of steps as it is read, and how far it goes on.
pub(crate) fn level_in(steps: &[Step], rises: bool, kwh: u32) -> Level
    ensures { LevelAt (step_price (read_from rises 0 steps.now)) (read_kwh kwh) result }
{
    let at = read_kwh(kwh);
    let mut start = 0u32;
    let mut price = 0u32;
    for step in steps {
        price = step.price_read(rises, price);
        let width = read_kwh(step.width);
        if at - start <= width {
            let end = (start + width).min(MAX_KWH);
            return Level { price, end };
        }
        start += width;
    }
    Level {
        price,
        end: MAX_KWH,
    }
}

// How many of the first `energy` kWh come before the first step that costs more than `price`, by a list of steps as it
// is read. It is one walk along the steps; from stretch to stretch, each look-up would begin at the first step again.
fn count_in(steps: &[Step], rises: bool, energy: u32, price: u32) -> u32
    ensures { BeforeDearer (step_price (read_from rises 0 steps.now)) (read_energy energy) price result }
{
    let energy = read_energy(energy);
    let mut done = 0u32;
    let mut last = 0u32;
    for step in steps {
        last = step.price_read(rises, last);
        if last > price {
            return done;
        }
        let width = read_kwh(step.width);
        if energy - done <= width {
            return energy;
        }
        done += width;
    }
    energy
}

impl StepTable {
    // The table of a list of steps, or the list's refusal.
    pub(crate) fn make(list: &[Step], rises: bool) -> Result<StepTable, CurveRefusal>
        ensures answer { result ≡ table_made rises list.now }
        ensures meaning { IfOk result (λ t. steps_of rises t ≡ list.now) }
    {
        if list.is_empty()
            || list.len() > MAX_STEPS
            || !widths_fit(list)
            || rises && price_falls(list)
        {
            return Err(CurveRefusal::Steps);
        }
        if !prices_fit(list) {
            return Err(CurveRefusal::Price);
        }
        let count = list.len() as u32;
        Ok(StepTable {
            count,
            steps: padded(list),
        })
    }

    // The steps in use.
    fn used(&self) -> &[Step]
        ensures { result.now ≡ take (read_count self.now.count) self.now.steps }
    {
        let count = (self.count as usize).clamp(1, MAX_STEPS);
        &self.steps[..count]
    }

    // The price of a kWh, and how far it goes on.
    pub(crate) fn level(&self, rises: bool, kwh: u32) -> Level
        ensures { LevelAt (step_price (steps_of rises self.now)) (read_kwh kwh) result }
    {
        level_in(self.used(), rises, kwh)
    }

    // How many of the first `energy` kWh come before the first that costs more than `price`.
    pub(crate) fn count_before_dearer(&self, rises: bool, energy: u32, price: u32) -> u32
        ensures { BeforeDearer (step_price (steps_of rises self.now)) (read_energy energy) price result }
    {
        count_in(self.used(), rises, energy, price)
    }
}
