// A curve whose first kWh are free, over another curve.
ghost use Rattle.curves.specs.KindLaws.{modified_bounded};
ghost use Rattle.curves.specs.Kinds.{modified_price};

use crate::limits::{MAX_KWH, read_kwh};
use crate::traits::Curve;

/// A curve whose first `free` kWh cost nothing; each later kWh costs what that same kWh costs by the curve below.
#[derive(Drop)]
pub struct Modified<'a, C: Curve> {
    /// How many kWh are free, from kWh 1 on; from 2,000,000 on every kWh is.
    pub free: u32,
    /// The curve that prices the later kWh, of any kind.
    pub below: &'a C,
}

impl<'a, C: Curve> Curve for Modified<'a, C> {
    ghost prices = { λ m. modified_price m.free (C.Curve.prices m.below.now) };

    ghost bounded = { λ m. modified_bounded m.free (C.Curve.prices m.below.now) (C.Curve.bounded m.below.now) };

    fn price(&self, kwh: u32) -> u32 {
        if read_kwh(kwh) <= self.free {
            0
        } else {
            self.below.price(kwh)
        }
    }

    fn stretch_end(&self, kwh: u32) -> u32 {
        if read_kwh(kwh) <= self.free {
            self.free.min(MAX_KWH)
        } else {
            self.below.stretch_end(kwh)
        }
    }
}
