// A stepped offer whose stretches are single kWh.
ghost use Rattle.split_cases.specs.Singles.{single_price, single_bounded, single_rises};

use crate::offers::FromSteps;
use curves::{Curve, CurveRefusal, MAX_KWH, Offer, Step, SteppedOffer};

/// An offer with the prices of the offer below, each kWh being a stretch.
#[derive(Clone, Copy)]
pub struct Single {
    /// The offer below.
    pub below: SteppedOffer,
}

impl Curve for Single {
    ghost prices = { single_price };

    ghost bounded = { single_bounded };

    fn price(&self, kwh: u32) -> u32 {
        self.below.price(kwh)
    }

    fn stretch_end(&self, kwh: u32) -> u32 {
        kwh.clamp(1, MAX_KWH)
    }
}

impl Offer for Single {
    ghost rises = { single_rises };

    // Counts kWh by kWh.
    fn count_at_most(&self, energy: u32, price: u32) -> u32 {
        let energy = energy.min(MAX_KWH);
        (0..energy)
            .find(|done| self.price(*done + 1) > price)
            .unwrap_or(energy)
    }
}

impl FromSteps for Single {
    fn from_steps(steps: &[Step]) -> Result<Single, CurveRefusal> {
        let below = SteppedOffer::new(steps)?;
        Ok(Single { below })
    }
}
