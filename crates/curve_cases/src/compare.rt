// Compares what curves answer with the prices of the second calculation.
use crate::by_kwh::{ByKwh, LAST_KWH, WINDOW};
use crate::draws::{Drawn, any_free, any_price};
use comparing::{Random, Tally};
use curves::{Curve, Modified, Raised};
use std::alloc::{AllocError, Global};

/// How many kWh come before the last 120.
pub const FAR: u32 = LAST_KWH - WINDOW;

// A ceiling that isn't drawn at a limit or past it is below this, in rial per MWh.
const CEILINGS_END: u32 = 6_000;

/// What was found of the curves of one kind, and of modified and raised curves over them.
#[derive(Clone, Copy, Default)]
pub struct KindTally {
    /// The curves themselves.
    pub own: Tally,
    /// Modified curves over them.
    pub modified: Tally,
    /// Raised curves over them.
    pub raised: Tally,
    /// Modified curves over those raised curves.
    pub both: Tally,
}

/// Compares pseudo-random curves of one kind, and modified and raised curves over them.
pub(crate) fn compare_kind<C: Drawn>(heap: Global, curves: u32) -> Result<KindTally, AllocError> {
    let mut random = Random::new(1);
    let mut tally = KindTally::default();
    for _ in 0..curves {
        let own = C::draw(&mut random);
        let free = any_free(&mut random);
        let ceiling = any_price(&mut random, CEILINGS_END);
        tally.compare(heap, &own, free, ceiling)?;
    }
    Ok(tally)
}

impl KindTally {
    fn compare<C: ByKwh>(
        &mut self,
        heap: Global,
        own: &C,
        free: u32,
        ceiling: u32,
    ) -> Result<(), AllocError> {
        self.own.note(same_curve(heap, own)?);
        let modified = Modified { free, below: own };
        self.modified.note(same_curve(heap, &modified)?);
        let raised = Raised {
            ceiling,
            below: own,
        };
        self.raised.note(same_curve(heap, &raised)?);
        let both = Modified {
            free,
            below: &raised,
        };
        self.both.note(same_curve(heap, &both)?);
        Ok(())
    }
}

fn same_curve<C: ByKwh>(heap: Global, curve: &C) -> Result<bool, AllocError> {
    let near = curve.by_kwh(heap, 0)?;
    let far = curve.by_kwh(heap, FAR)?;
    Ok(same_prices(curve, near.as_slice(), far.as_slice()) && same_outside(curve))
}

/// Whether a curve has these prices for its first and its last 120 kWh.
pub(crate) fn same_prices<C: Curve>(curve: &C, near: &[u32], far: &[u32]) -> bool {
    curve.cost(0) == 0 && same_window(curve, 0, near) && same_window(curve, FAR, far)
}

// Prices, costs and stretch ends of the 120 kWh after the first `skipped`.
fn same_window<C: Curve>(curve: &C, skipped: u32, prices: &[u32]) -> bool {
    let mut total = curve.cost(skipped);
    let numbers = skipped.saturating_add(1)..LAST_KWH + 1;
    prices.len() == WINDOW as usize
        && prices.iter().enumerate().zip(numbers).all(|((i, price), kwh)| {
            total = total.saturating_add(*price as u64);
            curve.price(kwh) == *price
                && curve.cost(kwh) == total
                && stretch_fits(kwh, curve.stretch_end(kwh), prices, i)
        })
}

// Whether the kWh from `kwh` up to `end` have one price; that of `kwh` stands at `place`.
fn stretch_fits(kwh: u32, end: u32, prices: &[u32], place: usize) -> bool {
    let Some([price, later @ ..]) = prices.get(place..) else {
        return false;
    };
    if end < kwh || end > LAST_KWH {
        return false;
    }
    let count = later.len().min((end - kwh) as usize);
    later[..count].iter().all(|each| each == price)
}

// Whether numbers outside the limits are read as the nearest within.
fn same_outside<C: Curve>(curve: &C) -> bool {
    same_kwh(curve, 0, 1)
        && same_kwh(curve, LAST_KWH + 1, LAST_KWH)
        && same_kwh(curve, u32::MAX, LAST_KWH)
        && curve.cost(LAST_KWH + 1) == curve.cost(LAST_KWH)
        && curve.cost(u32::MAX) == curve.cost(LAST_KWH)
}

fn same_kwh<C: Curve>(curve: &C, given: u32, read: u32) -> bool {
    curve.price(given) == curve.price(read) && curve.stretch_end(given) == curve.stretch_end(read)
}
