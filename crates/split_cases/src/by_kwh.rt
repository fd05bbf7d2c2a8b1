// The second calculation: each kWh on its own, without offers.
use crate::cases::{Case, PlainUnit};
use crate::outcomes::Outcome;
use std::alloc::{AllocError, Global};
use std::iter::{repeat, repeat_n};

// A kWh within its unit's limit; such kWh are ordered as they are taken.
#[derive(PartialEq, Eq, PartialOrd, Ord, Clone, Copy)]
struct Kwh {
    price: u32,
    unit: usize,
    place: usize,
}

impl Outcome {
    /// The outcome of taking one kWh after the other: the cheapest first, then by unit and by place within the unit.
    pub(crate) fn by_kwh(heap: Global, case: &Case) -> Result<Outcome, AllocError> {
        let mut left = all_kwh(heap, case.units.as_slice())?;
        left.sort()?;
        let mut outcome = Outcome {
            amounts: vec![in heap; 0u32; case.units.len()]?,
            cost: 0,
            uncovered: case.share,
        };
        for kwh in left.iter().take(case.share as usize) {
            outcome.take_kwh(kwh);
        }
        Ok(outcome)
    }

    fn take_kwh(&mut self, kwh: &Kwh) {
        if let Some(amount) = self.amounts.get_mut(kwh.unit) {
            *amount = amount.saturating_add(1);
        }
        self.cost = self.cost.saturating_add(kwh.price as u64);
        self.uncovered = self.uncovered.saturating_sub(1);
    }
}

fn all_kwh(heap: Global, units: &[PlainUnit]) -> Result<Vec<Kwh>, AllocError> {
    let mut all = Vec::new(heap);
    for (unit, plain) in units.iter().enumerate() {
        add_kwh(&mut all, unit, plain)?;
    }
    Ok(all)
}

// Adds the kWh within the limit of a unit.
fn add_kwh(all: &mut Vec<Kwh>, unit: usize, plain: &PlainUnit) -> Result<(), AllocError> {
    let last = plain.steps.last().map_or(0, |step| step.price);
    let prices = plain
        .steps
        .iter()
        .flat_map(|step| repeat_n(step.price, step.width as usize))
        .chain(repeat(last))
        .take(plain.limit as usize);
    all.extend(
        prices
            .enumerate()
            .map(|(place, price)| Kwh { price, unit, place }),
    )
}
