// The figures of an hour's settlement, each a function of values. Money is in thousandths of a rial, energy in kWh,
// prices in rial per MWh, and losses and internal consumption in hundredths of a percent.
#![tactic(auto)]

mod payments;
mod readings;
mod reference;
mod shares;
mod support;

pub use payments::{PaidUnit, competitive_payment, guaranteed_payment};
pub use readings::{CompetitiveEnergies, Control};
pub use reference::{bill, limit};
pub use shares::{group_one_share, running_share, weight};
pub use support::{day_support, rate, support_cost};
