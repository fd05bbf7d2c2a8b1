// Price curves and offers: what each kilowatt-hour costs, in rial per MWh.
#![tactic(auto)]

mod limits;
mod modified_curve;
mod raised_curve;
mod refusals;
mod stepped;
mod steps;
mod tariff;
mod traits;

pub use limits::{MAX_KWH, MAX_PRICE};
pub use modified_curve::Modified;
pub use raised_curve::Raised;
pub use refusals::CurveRefusal;
pub use stepped::{Stepped, SteppedCost, SteppedOffer};
pub use steps::{MAX_STEPS, Step, StepTable};
pub use tariff::Tariff;
pub use traits::{Curve, Offer};
