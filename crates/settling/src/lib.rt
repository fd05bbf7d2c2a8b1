// Settling a closed hour: the figures of its units, plants and buyers.
#![tactic(auto)]

mod buyers;
mod differences;
mod header;
mod plants;
mod rows;
mod settling;
mod totals;
mod units;

pub use header::Header;
pub use rows::PriceRow;
pub use settling::settle;
