// A curve dearer than another curve, up to a ceiling.
ghost use Rattle.curves.specs.KindLaws.{raised_bounded};
ghost use Rattle.curves.specs.Kinds.{raised_price};

use crate::limits::MAX_PRICE;
use crate::traits::Curve;

/// A curve by which each kWh costs twelve tenths of its price by the curve below, the fraction dropped, and at most the
/// ceiling.
#[derive(Drop)]
pub struct Raised<'a, C: Curve> {
    /// The hour's ceiling, in rial per MWh; over 10,000,000 it is read as 10,000,000.
    pub ceiling: u32,
    /// The curve whose prices are raised, of any kind.
    pub below: &'a C,
}

impl<'a, C: Curve> Curve for Raised<'a, C> {
    ghost prices = { λ r. raised_price r.ceiling (C.Curve.prices r.below.now) };

    ghost bounded = { λ r. raised_bounded r.ceiling (C.Curve.prices r.below.now) };

    fn price(&self, kwh: u32) -> u32 {
        let raised = self.below.price(kwh) as u64 * 12 / 10;
        let ceiling = self.ceiling.min(MAX_PRICE);
        raised.min(ceiling as u64) as u32
    }

    fn stretch_end(&self, kwh: u32) -> u32 {
        self.below.stretch_end(kwh)
    }
}
