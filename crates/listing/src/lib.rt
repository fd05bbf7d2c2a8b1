// The listing of a settled hour.
#![tactic(auto)]

mod errors;
mod files;
mod line;
mod listed;
mod rows;
mod shown;
mod sink;
mod text;

pub use errors::ShortBuffer;
pub use files::list_hour;
pub use listed::Listed;
pub use shown::{fault_line, printed};
pub use sink::LONGEST_LISTING;
pub use text::{listing, write_listing};
