// The stepped offer and the stepped cost.
ghost use Rattle.std.specs.Prelude.{◌≡◌, IfOk};
ghost use Rattle.curves.specs.KindLaws.{stepped_bounded, stepped_offer_rises};
ghost use Rattle.curves.specs.Kinds.{stepped_price};
ghost use Rattle.curves.specs.Steps.{steps_of};
ghost use Rattle.curves.specs.Refusals.{stepped_made};

use crate::refusals::CurveRefusal;
use crate::steps::{Step, StepTable};
use crate::traits::{Curve, Offer};

/// A curve in steps. Where `RISES`, a price under the one before it is read as that one.
#[derive(Clone, Copy)]
pub struct Stepped<const RISES: bool> {
    /// The steps; whatever they hold, they are read as 1 to 10 steps within the limits.
    pub table: StepTable,
}

/// An offer in steps: its prices never fall.
pub type SteppedOffer = Stepped<true>;

/// A cost curve in steps: its prices may fall.
pub type SteppedCost = Stepped<false>;

impl<const RISES: bool> Stepped<RISES> {
    /// The curve of a list of steps, in order from kWh 1 on. Refused with `CurveRefusal::Steps` for 0 or over 10 steps,
    /// a width outside 1 to 2,000,000 or, where `RISES`, a price under the one before it; else with
    /// `CurveRefusal::Price` for a price over 10,000,000.
    pub fn new(list: &[Step]) -> Result<Stepped<RISES>, CurveRefusal>
        ensures answer { result ≡ stepped_made RISES list.now }
        ensures meaning { IfOk result (λ c. steps_of RISES c.table ≡ list.now) }
    {
        let table = StepTable::make(list, RISES)?;
        Ok(Stepped { table })
    }
}

impl<const RISES: bool> Curve for Stepped<RISES> {
    ghost prices = { stepped_price RISES };

    ghost bounded = { stepped_bounded RISES };

    fn price(&self, kwh: u32) -> u32 {
        self.table.level(RISES, kwh).price
    }

    fn stretch_end(&self, kwh: u32) -> u32 {
        self.table.level(RISES, kwh).end
    }
}

impl Offer for SteppedOffer {
    ghost rises = { stepped_offer_rises };

    fn count_at_most(&self, energy: u32, price: u32) -> u32 {
        self.table.count_before_dearer(true, energy, price)
    }
}
