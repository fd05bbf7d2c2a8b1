// What a split gives.
use crate::cases::Case;
use allocation::{split, total_cost};
use curves::Offer;
use std::alloc::{AllocError, Global};

/// What a share's split over a group comes to.
#[derive(PartialEq, Drop)]
pub struct Outcome {
    /// The kWh of each unit.
    pub amounts: Vec<u32>,
    /// What they cost, in thousandths of a rial.
    pub cost: u64,
    /// The kWh of the share that stay uncovered.
    pub uncovered: u32,
}

impl Outcome {
    /// The outcome of the split over these offers.
    pub(crate) fn of_offers<O: Offer>(
        heap: Global,
        case: &Case,
        offers: &[O],
    ) -> Result<Outcome, AllocError> {
        let limits = case.limits(heap)?;
        // No amount is this high, so one that is not written shows.
        let mut amounts = vec![in heap; u32::MAX; limits.len()]?;
        let uncovered = split(
            offers,
            limits.as_slice(),
            case.share,
            amounts.as_mut_slice(),
        );
        let cost = total_cost(offers, amounts.as_slice());
        Ok(Outcome {
            amounts,
            cost,
            uncovered,
        })
    }
}
