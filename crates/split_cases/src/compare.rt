// Compares over many groups, and counts those that differ.
use crate::cases::Case;
use crate::failures::Failure;
use crate::offers::{FromSteps, offers_of};
use crate::outcomes::Outcome;
use crate::single::Single;
use comparing::{Tally, compare};
use curves::{Curve, Offer, SteppedOffer};
use std::alloc::Global;

/// Compares the split over one kind of offer with the second calculation.
pub(crate) fn compare_splits<O: FromSteps>(
    heap: Global,
    groups: u32,
    most_steps: u32,
) -> Result<Tally, Failure> {
    compare(heap, 1, groups, |heap, random| -> Result<bool, Failure> {
        let case = Case::make(heap, random, most_steps)?;
        let offers = offers_of::<O>(heap, &case)?;
        let split = Outcome::of_offers(heap, &case, offers.as_slice())?;
        Ok(split == Outcome::by_kwh(heap, &case)?)
    })
}

/// Compares the costs and counts of stepped offers with those of the same offers in single kWh.
pub(crate) fn compare_curves(heap: Global, groups: u32, most_steps: u32) -> Result<Tally, Failure> {
    compare(heap, 2, groups, |heap, random| -> Result<bool, Failure> {
        let case = Case::make(heap, random, most_steps)?;
        let stepped = offers_of::<SteppedOffer>(heap, &case)?;
        let single = offers_of::<Single>(heap, &case)?;
        Ok(same_curves(stepped.as_slice(), single.as_slice()))
    })
}

fn same_curves(stepped: &[SteppedOffer], single: &[Single]) -> bool {
    stepped
        .iter()
        .zip(single.iter())
        .all(|(a, b)| same_curve(a, b))
}

// Whether both cost the same up to each kWh, and count the same at each price of a kWh and just under it.
pub(crate) fn same_curve(stepped: &SteppedOffer, single: &Single) -> bool {
    (1..90).all(|kwh| {
        let price = stepped.price(kwh);
        stepped.cost(kwh) == single.cost(kwh)
            && same_count(stepped, single, price)
            && same_count(stepped, single, price.saturating_sub(1))
    })
}

fn same_count(stepped: &SteppedOffer, single: &Single, price: u32) -> bool {
    stepped.count_at_most(90, price) == single.count_at_most(90, price)
}
