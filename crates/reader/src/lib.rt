// Reads an hour file into a book, call by call.
#![tactic(auto)]

mod calls;
mod hours;
mod kept;
mod reached;
mod reading;
mod rows;
mod units;

pub use reached::{FileHour, Reached};
pub use reading::read_hour;
