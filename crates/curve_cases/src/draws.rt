// Pseudo-random curves, with fields that are often outside their limits.
use crate::by_kwh::ByKwh;
use comparing::Random;
use curves::{Step, StepTable, Stepped, Tariff};
use std::alloc::{AllocError, Global};
use std::array;

// Rates and ceilings at their limits, or past them.
const PRICES: [u32; 5] = [0, 1, 10_000_000, 10_000_001, u32::MAX];

/// A rate that isn't drawn at a limit or past it is below this, in rial per MWh; it may exceed the highest price too.
pub(crate) const RATES_END: u32 = 12_000_000;

/// A curve with no other curve below it.
pub trait Drawn: ByKwh + Drop {
    /// One with pseudo-random fields, often outside their limits.
    fn draw(random: &mut Random) -> Self;
}

impl<const RISES: bool> Drawn for Stepped<RISES> {
    fn draw(random: &mut Random) -> Stepped<RISES> {
        Stepped {
            table: any_table(random),
        }
    }
}

impl Drawn for Tariff {
    fn draw(random: &mut Random) -> Tariff {
        Tariff {
            rate: any_price(random, RATES_END),
        }
    }
}

// Steps with prices that rise from `level` on, but for one field in `odds` at a limit or past it.
#[derive(Drop)]
struct StepSource {
    odds: u32,
    level: u32,
}

impl StepSource {
    fn next(&mut self, random: &mut Random) -> Step {
        self.level = self.level.saturating_add(any_rise(random));
        let widths = [0, 1_999_900, 2_000_000, 2_000_001, u32::MAX];
        let width = one_in(self.odds, random, &widths, |random| random.below(20) + 1);
        let prices = [0, 777, 10_000_000, 10_000_001, u32::MAX];
        let price = one_in(self.odds, random, &prices, |_| self.level);
        Step { width, price }
    }
}

// One time in `odds` a number at a limit or past it, else any other.
fn one_in<F: FnOnce(&mut Random) -> u32>(
    odds: u32,
    random: &mut Random,
    limits: &[u32],
    any_other: F,
) -> u32
    requires { F.IsAlwaysCallable any_other }
{
    if random.below(odds) == 0 {
        random.one_of(limits)
    } else {
        any_other(random)
    }
}

// How much dearer the next step is: mostly little, and often 0.
fn any_rise(random: &mut Random) -> u32 {
    match random.below(12) {
        0 => random.below(3_000_000),
        1..=3 => 0,
        _ => random.below(1000),
    }
}

fn any_table(random: &mut Random) -> StepTable {
    let level = random.one_of(&[0, 0, 0, 0, 9_999_000]);
    let mut source = StepSource { odds: 5, level };
    let steps = array::from_fn(|_| source.next(random));
    let counts = [0, 1, 10, 11, u32::MAX];
    let count = one_in(4, random, &counts, |random| random.below(10) + 1);
    StepTable { count, steps }
}

/// A list of 0 to 12 steps: one in five with many fields outside their limits, and two in five with few.
pub(crate) fn any_list(heap: Global, random: &mut Random) -> Result<Vec<Step>, AllocError> {
    let odds = random.one_of(&[5, 40, 40, u32::MAX, u32::MAX]);
    let level = random.one_of(&[0, 0, 0, 0, 9_999_000]);
    let mut source = StepSource { odds, level };
    let count = random.below(13);
    (0..count).map(|_| source.next(random)).collect(heap)
}

/// A price at its limits or past them, or one below `end`.
pub(crate) fn any_price(random: &mut Random, end: u32) -> u32 {
    one_in(2, random, &PRICES, |random| random.below(end))
}

/// How many kWh of a modified curve are free: at a limit or past it, or below 130.
pub(crate) fn any_free(random: &mut Random) -> u32 {
    let limits = [0, 120, 1_999_950, 2_000_000, u32::MAX];
    one_in(2, random, &limits, |random| random.below(130))
}
