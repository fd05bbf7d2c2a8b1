// The book's table: what is entered, how it is closed, and what is read.
#![tactic(auto)]

mod calls;
mod closing;
mod entries;
mod groups;
mod limits;
mod readings;
mod records;
mod refusals;
mod rows;

pub use entries::Entry;
pub use groups::Group;
pub use readings::Reading;
pub use records::{
    Adjustments, BUYERS, Buyer, BuyerFigures, COMMITMENTS, Commitment, GuaranteedReading,
    HourFigures, PLANTS, Plant, PlantFigures, Table, UNITS, UnitFigures, UnitReading, UnitRecord,
    UnitTable,
};
pub use refusals::{BookRefusal, UnitRefusal};
pub use rows::Rows;
