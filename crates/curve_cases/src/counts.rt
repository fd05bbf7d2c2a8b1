// Compares the counts of offers with counting kWh one by one.
use crate::by_kwh::LAST_KWH;
use crate::draws::Drawn;
use comparing::{Tally, compare};
use curves::Offer;
use std::alloc::{AllocError, Global};

/// Compares the counts of pseudo-random offers of one kind.
pub(crate) fn compare_counts<O: Drawn + Offer>(
    heap: Global,
    offers: u32,
) -> Result<Tally, AllocError> {
    compare(
        heap,
        2,
        offers,
        |heap, random| -> Result<bool, AllocError> {
            let offer = O::draw(random);
            let prices = offer.by_kwh(heap, 0)?;
            let priced = Priced { offer, prices };
            Ok(priced.same_counts() && same_far_counts(&priced.offer))
        },
    )
}

// An offer, and the prices of its first 120 kWh by the second calculation.
#[derive(Drop)]
pub(crate) struct Priced<O> {
    pub offer: O,
    pub prices: Vec<u32>,
}

impl<O: Offer> Priced<O> {
    // Whether the counts are the same for every tenth number of kWh up to 120.
    pub(crate) fn same_counts(&self) -> bool {
        (0..13).map(|tens| tens * 10).all(|energy| {
            self.same_at_prices(energy)
                && self.same_count(energy, 0)
                && self.same_count(energy, u32::MAX)
        })
    }

    // Whether the counts are the same at the price of each kWh and just under it.
    fn same_at_prices(&self, energy: u32) -> bool {
        self.prices.iter().all(|price| {
            self.same_count(energy, *price) && self.same_count(energy, price.saturating_sub(1))
        })
    }

    fn same_count(&self, energy: u32, price: u32) -> bool {
        let prices = self.prices.as_slice();
        let first = &prices[..prices.len().min(energy as usize)];
        let count = first.iter().fold(0u32, |count, each| {
            count.saturating_add(u32::from(*each <= price))
        });
        self.offer.count_at_most(energy, price) == count
    }
}

// Whether all kWh count at the last one's price, and a number over 2,000,000 counts as 2,000,000.
fn same_far_counts<O: Offer>(offer: &O) -> bool {
    let top = offer.price(LAST_KWH);
    let under_top = offer.count_at_most(LAST_KWH, top.saturating_sub(1));
    offer.count_at_most(LAST_KWH, top) == LAST_KWH
        && offer.count_at_most(LAST_KWH + 1, top) == LAST_KWH
        && offer.count_at_most(u32::MAX, u32::MAX) == LAST_KWH
        && offer.count_at_most(LAST_KWH + 1, top.saturating_sub(1)) == under_top
        && offer.count_at_most(u32::MAX, top.saturating_sub(1)) == under_top
}
