// The price rows that are kept while a file is read.
ghost use Rattle.std.specs.Prelude.{◌≡◌, ◌≤◌, length};

use book::PriceRow;
use curves::{SteppedCost, SteppedOffer};
use table::UNITS;

/// The offer and the cost curve of a competitive unit.
pub type UnitRow = PriceRow<SteppedOffer, SteppedCost>;

/// The rows of the competitive units, in the order of their numbers.
#[derive(Drop)]
pub struct UnitRows {
    pub(crate) count: usize,
    pub(crate) rows: [UnitRow; UNITS],
    ghost few: { count ≤ 128 },
    ghost long: { length rows ≡ 128 },
}
