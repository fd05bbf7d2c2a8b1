// The tariff: an offer with one rate.
ghost use Rattle.std.specs.Prelude.{◌≡◌, ℕ, IfOk};
ghost use Rattle.curves.specs.KindLaws.{tariff_bounded, tariff_rises};
ghost use Rattle.curves.specs.Kinds.{tariff_price};
ghost use Rattle.curves.specs.Refusals.{tariff_made};

use crate::limits::{MAX_KWH, MAX_PRICE, read_energy};
use crate::refusals::CurveRefusal;
use crate::traits::{Curve, Offer};

/// An offer with one rate for every kWh.
#[derive(Clone, Copy)]
pub struct Tariff {
    /// In rial per MWh; over 10,000,000 it is read as 10,000,000.
    pub rate: u32,
}

impl Tariff {
    /// The tariff of a rate. Refused with `CurveRefusal::Price` for a rate over 10,000,000.
    pub fn new(rate: u32) -> Result<Tariff, CurveRefusal>
        ensures answer { result ≡ tariff_made rate }
        ensures meaning { IfOk result (λ t. (k : ℕ) → tariff_price t k ≡ rate) }
    {
        if rate > MAX_PRICE {
            return Err(CurveRefusal::Price);
        }
        Ok(Tariff { rate })
    }
}

impl Curve for Tariff {
    ghost prices = { tariff_price };

    ghost bounded = { tariff_bounded };

    fn price(&self, _kwh: u32) -> u32 {
        self.rate.min(MAX_PRICE)
    }

    fn stretch_end(&self, _kwh: u32) -> u32 {
        MAX_KWH
    }
}

impl Offer for Tariff {
    ghost rises = { tariff_rises };

    // At one rate it is all or nothing.
    fn count_at_most(&self, energy: u32, price: u32) -> u32 {
        if self.price(1) > price {
            0
        } else {
            read_energy(energy)
        }
    }
}
