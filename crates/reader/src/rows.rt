// The price rows that a file's competitive units bring.
ghost use Rattle.std.specs.Prelude.{◌≡◌, ◌≤◌, ◌<◌, ◌++◌, ◌∷◌, ◌+◌, [], map, take};
ghost use Rattle.reader.specs.Rows.{rows_of, offers_of};

use crate::kept::{UnitRow, UnitRows};
use curves::{MAX_STEPS, Step, StepTable, Stepped, SteppedOffer};
use std::array;
use table::UNITS;

// What stands for the curve of a unit in a place that no row has taken: no step is in use.
fn blank<const RISES: bool>() -> Stepped<RISES> {
    let steps = [Step::default(); MAX_STEPS];
    Stepped {
        table: StepTable { count: 0, steps },
    }
}

impl UnitRows {
    /// No rows.
    pub(crate) fn new() -> UnitRows
        ensures rows { rows_of result ≡ [] }
        ensures count { result.count ≡ 0 }
    {
        let row = UnitRow {
            offer: blank(),
            cost: blank(),
        };
        UnitRows {
            count: 0,
            rows: [row; UNITS],
        }
    }

    /// The rows that are kept.
    pub(crate) fn kept(&self) -> &[UnitRow]
        ensures { result.now ≡ rows_of self.now }
    {
        &self.rows[..self.count]
    }

    /// Keeps one row more. Where 128 are kept there is no room for it, and nothing changes.
    pub(crate) fn add(&mut self, row: UnitRow)
        ensures rows { self.old.count < 128 → rows_of self.new ≡ rows_of self.old ++ (row ∷ []) }
        ensures count { self.old.count < 128 → self.new.count ≡ self.old.count + 1 }
        ensures full { 128 ≤ self.old.count → self.new ≡ self.old }
    {
        if self.count < UNITS {
            self.rows[self.count] = row;
            self.count += 1;
        }
    }

    /// The offers of the rows, in an array's first places; those behind them are of no unit.
    pub(crate) fn offers(&self) -> [SteppedOffer; UNITS]
        ensures { take self.now.count result ≡ offers_of (rows_of self.now) }
    {
        array::from_fn(|place| self.rows[place].offer)
    }
}
