// The offers and the price rows of a pseudo-random hour.
use crate::calls::step;
use crate::failures::Failure;
use crate::source::Source;
use book::PriceRow;
use curves::{Step, Stepped, Tariff};
use std::alloc::AllocError;

/// A row that closing or settling takes for a unit.
pub trait Drawn: Drop {
    /// Draws one.
    fn draw(source: &mut Source) -> Result<Self, Failure>;
}

impl<const RISES: bool> Drawn for Stepped<RISES> {
    fn draw(source: &mut Source) -> Result<Stepped<RISES>, Failure> {
        let steps = if RISES {
            source.rising_steps()?
        } else {
            source.any_steps()?
        };
        Ok(Stepped::new(steps.as_slice())?)
    }
}

impl Drawn for Tariff {
    fn draw(source: &mut Source) -> Result<Tariff, Failure> {
        let rate = match source.random.below(2) {
            0 => source.rate,
            _ => source.any_price(),
        };
        Ok(Tariff::new(rate)?)
    }
}

impl<O: Drawn, C: Drawn> Drawn for PriceRow<O, C> {
    fn draw(source: &mut Source) -> Result<PriceRow<O, C>, Failure> {
        Ok(PriceRow {
            offer: O::draw(source)?,
            cost: C::draw(source)?,
        })
    }
}

impl Source {
    // One to four steps, each with the next of these prices.
    fn steps<F: FnMut(&mut Source) -> u32>(&mut self, mut price: F) -> Result<Vec<Step>, AllocError>
        requires { F.IsAlwaysCallable price }
    {
        let mut steps = Vec::new(self.heap);
        for _ in 0..self.random.below(4) + 1 {
            let width = self.random.below(self.energy / 3).saturating_add(1);
            steps.push(step(width, price(self)))?;
        }
        Ok(steps)
    }

    // Steps whose prices never fall.
    fn rising_steps(&mut self) -> Result<Vec<Step>, AllocError> {
        let mut level = self.random.below(3);
        self.steps(|source| {
            let price = level.saturating_mul(source.price);
            level = level.saturating_add(source.random.below(3));
            price
        })
    }

    // Steps whose prices may fall.
    fn any_steps(&mut self) -> Result<Vec<Step>, AllocError> {
        self.steps(Source::any_price)
    }

    // How many rows a group of so many units has: now and then too few, else enough for a late unit too.
    fn row_count(&mut self, units: u32) -> u32 {
        match self.random.below(4) {
            0 => self.random.below(units.saturating_add(1)),
            1 => units.saturating_add(3),
            _ => units.saturating_add(1),
        }
    }

    /// Draws the rows of a group of so many units.
    pub(crate) fn draw_rows<R: Drawn>(&mut self, units: u32) -> Result<Vec<R>, Failure> {
        let heap = self.heap;
        let count = self.row_count(units);
        (0..count).map(|_| R::draw(self)).try_collect(heap)
    }
}
