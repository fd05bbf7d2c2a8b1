// What the calls and the rows of a pseudo-random hour are drawn from.
use book::{BookRefusal, Header};
use comparing::Random;
use std::alloc::Global;

// How many plants or buyers an hour has.
const SIZES: [u32; 16] = [0, 1, 1, 1, 1, 2, 2, 2, 2, 3, 3, 3, 3, 4, 4, 4];

/// The numbers that an hour's calls are drawn by.
#[derive(Drop)]
pub struct Source {
    /// Where the lists that are drawn stand.
    pub heap: Global,
    /// The pseudo-random numbers.
    pub random: Random,
    /// Energies are below this, in kWh.
    pub energy: u32,
    /// A price is 0 to 8 times this, in rial per MWh.
    pub price: u32,
    /// Opportunity payments are below this, in rial.
    pub gain: u32,
    /// Penalties are below this, in rial.
    pub penalty: u32,
    /// The tariff's rate, in rial per MWh.
    pub rate: u32,
    /// How many plants there are.
    pub plants: u32,
    /// How many buyers there are.
    pub buyers: u32,
    /// How many competitive units are added, but for late ones.
    pub competitive: u32,
    /// How many guaranteed units are added, but for late ones.
    pub guaranteed: u32,
}

impl Source {
    pub(crate) fn new(heap: Global, number: u32) -> Source {
        let mut random = Random::new(number as u64);
        let large = number % 13 == 0;
        let units = if large { 3 } else { 7 };
        let energy = random.one_of(&[30, 160, 160, 400]);
        let price = random.one_of(&[1, 100, 100, 1_250_000]);
        let gain = random.one_of(&[1, 60, 100_000_001]);
        let penalty = random.one_of(&[1, 1, 60, 100_000_001]);
        let rate = any_multiple(&mut random, price);
        let plants = random.one_of(&SIZES);
        let buyers = random.one_of(&SIZES);
        let competitive = random.below(units);
        let guaranteed = random.below(units);
        Source {
            heap,
            random,
            energy: if large { 2_000_001 } else { energy },
            price,
            gain,
            penalty,
            rate,
            plants,
            buyers,
            competitive,
            guaranteed,
        }
    }

    pub(crate) fn header(&mut self) -> Result<Header, BookRefusal> {
        let ceiling = self.random.one_of(&[0, 300, 1_000, 10_000_000]);
        let coefficient = self.random.one_of(&[0, 9_000, 10_000, 50_000]);
        let base = self.random.one_of(&[0, 200, 777, 1_000_000]);
        let saving = self.random.one_of(&[0, 30, 45, 10_000_000]);
        Header::new(ceiling, coefficient, base, saving, self.rate)
    }

    /// A price of a step, or a rate.
    pub(crate) fn any_price(&mut self) -> u32 {
        any_multiple(&mut self.random, self.price)
    }
}

// 0 to 8 times this price.
fn any_multiple(random: &mut Random, price: u32) -> u32 {
    random.below(9).saturating_mul(price)
}
