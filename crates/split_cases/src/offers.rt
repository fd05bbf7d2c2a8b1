// Offers made from lists of steps.
use crate::cases::Case;
use crate::failures::Failure;
use curves::{CurveRefusal, Offer, Step, SteppedOffer, Tariff};
use std::alloc::Global;

/// An offer that a list of steps makes.
pub trait FromSteps: Offer + Drop {
    /// The offer of these steps, or the refusal of making it.
    fn from_steps(steps: &[Step]) -> Result<Self, CurveRefusal>;
}

impl FromSteps for SteppedOffer {
    fn from_steps(steps: &[Step]) -> Result<SteppedOffer, CurveRefusal> {
        SteppedOffer::new(steps)
    }
}

// The rate is the price of the last step.
impl FromSteps for Tariff {
    fn from_steps(steps: &[Step]) -> Result<Tariff, CurveRefusal> {
        Tariff::new(steps.last().map_or(0, |step| step.price))
    }
}

/// The offer of each unit.
pub(crate) fn offers_of<O: FromSteps>(heap: Global, case: &Case) -> Result<Vec<O>, Failure> {
    case.units
        .iter()
        .map(|unit| -> Result<O, Failure> { Ok(O::from_steps(unit.steps.as_slice())?) })
        .try_collect(heap)
}
