// Why a list of steps or a rate is refused.
ghost use Rattle.std.specs.Prelude.{◌≡◌, Some};
ghost use Rattle.curves.specs.Refusals.{refusal_number, refusal_text};

use crate::limits::{MAX_KWH, MAX_PRICE};
use crate::steps::MAX_STEPS;
use std::error::Error;
use std::fmt;

/// Why a list of steps or a rate makes no curve.
#[derive(Clone, Copy, Debug, PartialEq, Eq)]
pub enum CurveRefusal {
    /// 0 or over 10 steps, a width outside 1 to 2,000,000 kWh, or, in a stepped offer, a price under the one before it.
    Steps = 8,
    /// A price or a rate over 10,000,000 rial per MWh.
    Price = 9,
}

impl CurveRefusal {
    /// The refusal's number in the table of refusals: 8 for `Steps`, 9 for `Price`.
    pub fn number(self) -> u32
        ensures { result ≡ refusal_number self }
    {
        self as u32
    }
}

// Written out, so that the contract says what the text is.
impl fmt::Display for CurveRefusal {
    ghost output = { λ refusal. Some (refusal_text refusal) };

    fn fmt<W: fmt::Write>(&self, f: &mut fmt::Formatter<W>) -> fmt::Result {
        let number = self.number();
        match self {
            CurveRefusal::Steps => {
                write!(
                    f,
                    "refused with {number}: not 1 to {MAX_STEPS} steps, a width not 1 to {MAX_KWH}, or a price that falls"
                )
            }
            CurveRefusal::Price => write!(f, "refused with {number}: a price over {MAX_PRICE}"),
        }
    }
}

impl Error for CurveRefusal {}
