// The least-cost split of a contract group's share over its units.
#![tactic(auto)]

mod example;
mod fill;
mod group;
mod merit;

pub use example::worked_example;
pub use fill::split;
pub use group::{MAX_UNITS, total_cost};
