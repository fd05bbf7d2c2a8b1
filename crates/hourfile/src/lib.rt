// The hour file: its words, its records and its faults.
#![tactic(auto)]

mod calls;
mod faults;
mod reader;
mod reading;
mod records;
mod steps;
mod words;

pub use faults::{Cause, FileFault};
pub use reader::Reader;
pub use reading::{MOST_BYTES, PlacedRecord};
pub use records::Record;
pub use steps::stepped;
pub use words::{Word, value_at};
