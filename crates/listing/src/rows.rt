// The rows of a settled hour.
ghost use Rattle.std.specs.Prelude.{◌≡◌};
ghost use Rattle.listing.specs.Rows.{row_in};

use book::{BuyerFigures, PlantFigures, SettledHour, UnitFigures};

/// The kinds of rows, in the order of the listing, which has a line for each row, by rising number.
#[derive(Clone, Copy, PartialEq)]
pub enum Kind {
    Competitive,
    Guaranteed,
    Plants,
    Buyers,
}

/// A row of a settled hour, with its number from 1 on.
#[derive(Clone, Copy)]
pub enum Row {
    Competitive { number: u8, figures: UnitFigures },
    Guaranteed { number: u8, figures: UnitFigures },
    Plant { number: u8, figures: PlantFigures },
    Buyer { number: u8, figures: BuyerFigures },
}

impl Row {
    /// The row of this kind and number, if there is one.
    pub(crate) fn of(hour: &SettledHour, kind: Kind, number: u8) -> Option<Row>
        ensures { result ≡ row_in kind number hour.now.book.now.table }
    {
        let row = match kind {
            Kind::Competitive => {
                let figures = hour.unit(1, number.into()).ok()?;
                Row::Competitive { number, figures }
            }
            Kind::Guaranteed => {
                let figures = hour.unit(2, number.into()).ok()?;
                Row::Guaranteed { number, figures }
            }
            Kind::Plants => {
                let figures = hour.plant(number.into()).ok()?;
                Row::Plant { number, figures }
            }
            Kind::Buyers => {
                let figures = hour.buyer(number.into()).ok()?;
                Row::Buyer { number, figures }
            }
        };
        Some(row)
    }
}
