// The second calculation: the price of each kWh on its own, from the plain fields of a curve.
use curves::{Curve, Modified, Raised, Step, StepTable, Stepped, Tariff};
use std::alloc::{AllocError, Global};

// The limits are written again here, so that this calculation takes nothing from the curves but their fields.
/// The last kWh of a curve.
pub const LAST_KWH: u32 = 2_000_000;

/// The highest price, in rial per MWh.
pub const TOP_PRICE: u32 = 10_000_000;

/// How many kWh are calculated together.
pub const WINDOW: u32 = 120;

/// A curve that the second calculation has prices for.
pub trait ByKwh: Curve {
    /// The prices of the 120 kWh after the first `skipped`, in rial per MWh; an error where memory runs out.
    fn by_kwh(&self, heap: Global, skipped: u32) -> Result<Vec<u32>, AllocError>;
}

impl<const RISES: bool> ByKwh for Stepped<RISES> {
    fn by_kwh(&self, heap: Global, skipped: u32) -> Result<Vec<u32>, AllocError> {
        let steps = read_steps(heap, &self.table, RISES)?;
        expanded(heap, steps.as_slice(), skipped)
    }
}

impl ByKwh for Tariff {
    fn by_kwh(&self, heap: Global, _skipped: u32) -> Result<Vec<u32>, AllocError> {
        vec![in heap; self.rate.min(TOP_PRICE); WINDOW as usize]
    }
}

impl<'a, C: ByKwh> ByKwh for Modified<'a, C> {
    fn by_kwh(&self, heap: Global, skipped: u32) -> Result<Vec<u32>, AllocError> {
        let mut prices = self.below.by_kwh(heap, skipped)?;
        let free = self.free.saturating_sub(skipped);
        for price in prices.iter_mut().take(free as usize) {
            *price = 0;
        }
        Ok(prices)
    }
}

// Twelve tenths of a price are the price and a fifth of it.
impl<'a, C: ByKwh> ByKwh for Raised<'a, C> {
    fn by_kwh(&self, heap: Global, skipped: u32) -> Result<Vec<u32>, AllocError> {
        let mut prices = self.below.by_kwh(heap, skipped)?;
        let ceiling = self.ceiling.min(TOP_PRICE);
        for price in prices.iter_mut() {
            *price = price.saturating_add(*price / 5).min(ceiling);
        }
        Ok(prices)
    }
}

// The steps in use, each field outside its limits read as the nearest within.
fn read_steps(heap: Global, table: &StepTable, rises: bool) -> Result<Vec<Step>, AllocError> {
    let count = (table.count as usize).max(1);
    let mut lowest = 0u32;
    table
        .steps
        .iter()
        .take(count)
        .map(|step| {
            let width = step.width.clamp(1, LAST_KWH);
            let price = step.price.min(TOP_PRICE).max(lowest);
            if rises {
                lowest = price;
            }
            Step { width, price }
        })
        .collect(heap)
}

/// The prices of the 120 kWh after the first `skipped`, by steps within their limits.
pub(crate) fn expanded(heap: Global, steps: &[Step], skipped: u32) -> Result<Vec<u32>, AllocError> {
    let mut prices = Vec::new(heap);
    let mut end = 0u32;
    for step in steps {
        end = end.saturating_add(step.width);
        let among = end.saturating_sub(skipped).min(WINDOW);
        prices.resize(among as usize, step.price)?;
    }
    // The price of the last step goes on.
    let last = steps.last().map_or(0, |step| step.price);
    prices.resize(WINDOW as usize, last)?;
    Ok(prices)
}
