// An hour of the book, from opening to release.
#![tactic(auto)]

mod book;
mod calls;
mod closed;
mod open;
mod run;
mod settled;

pub use book::Book;
pub use calls::{CallAnswer, Hour, HourCall, Turn, run_calls};
pub use closed::ClosedHour;
pub use open::OpenHour;
pub use run::{Calls, run_closed, run_open, run_settled};
pub use settled::SettledHour;
pub use settling::{Header, PriceRow};
pub use table::{
    Adjustments, BookRefusal, BuyerFigures, Entry, GuaranteedReading, HourFigures, PlantFigures,
    Reading, UnitFigures, UnitReading, UnitRefusal,
};
