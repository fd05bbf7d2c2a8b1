// Pseudo-random groups: plain lists of steps, and limits.
use comparing::Random;
use curves::Step;
use std::alloc::{AllocError, Global};

/// A unit of a group.
#[derive(Drop)]
pub struct PlainUnit {
    /// Its limit, in kWh.
    pub limit: u32,
    /// Its offer's steps; the price of the last one goes on without end.
    pub steps: Vec<Step>,
}

/// A group and a share to split over it.
#[derive(Drop)]
pub struct Case {
    /// The group's units, in order.
    pub units: Vec<PlainUnit>,
    /// The share, in kWh.
    pub share: u32,
}

impl Case {
    /// A group of 1 to 12 units, with 1 to `most_steps` steps each.
    pub(crate) fn make(
        heap: Global,
        random: &mut Random,
        most_steps: u32,
    ) -> Result<Case, AllocError> {
        // With four steps, no price is over 8 times this.
        let price_unit = if random.below(4) == 0 { 1_000_000 } else { 100 };
        let count = random.below(12) + 1;
        let units: Vec<PlainUnit> = (0..count)
            .map(|_| -> Result<PlainUnit, AllocError> {
                let limit = any_limit(random);
                let steps = any_steps(heap, random, most_steps, price_unit)?;
                Ok(PlainUnit { limit, steps })
            })
            .try_collect(heap)?;
        let share = any_share(random, units.as_slice());
        Ok(Case { units, share })
    }

    /// The limits in a list of their own, beside the offers, as the split takes them.
    pub(crate) fn limits(&self, heap: Global) -> Result<Vec<u32>, AllocError> {
        self.units.iter().map(|unit| unit.limit).collect(heap)
    }
}

// From 0 to 60, and more often 0 than any other.
fn any_limit(random: &mut Random) -> u32 {
    if random.below(6) == 0 {
        0
    } else {
        random.below(61)
    }
}

// Steps of few prices, which never fall.
fn any_steps(
    heap: Global,
    random: &mut Random,
    most_steps: u32,
    price_unit: u32,
) -> Result<Vec<Step>, AllocError> {
    let mut level = random.below(3);
    let count = random.below(most_steps).saturating_add(1);
    (0..count)
        .map(|_| {
            let width = random.below(20) + 1;
            let price = level.saturating_mul(price_unit);
            level = level.saturating_add(random.below(3));
            Step { width, price }
        })
        .collect(heap)
}

// From 0 to a little over the sum of the limits; one in eight is just the sum.
fn any_share(random: &mut Random, units: &[PlainUnit]) -> u32 {
    let sum = units
        .iter()
        .fold(0u32, |sum, unit| sum.saturating_add(unit.limit));
    if random.below(8) == 0 {
        sum
    } else {
        random.below(sum.saturating_add(6))
    }
}
