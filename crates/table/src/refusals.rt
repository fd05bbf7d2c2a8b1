// Why a call on the book is turned down.
ghost use Rattle.std.specs.Prelude.{◌≡◌, Some};
ghost use Rattle.table.specs.Refusals.{refusal_number, unit_refusal_number, refusal_text, unit_refusal_text};
ghost use Rattle.table.specs.declared.refusals.UnitRefusal.TheVariants.{Book, Rows};

use curves::CurveRefusal;
use std::error::Error;
use std::fmt;

/// A refusal of the book: a row of the table of refusals (docs/refusals.md). It prints as `refused with N`.
#[derive(Clone, Copy, Debug, PartialEq)]
pub enum BookRefusal {
    /// No plant of that number was entered.
    NoPlant = 1,
    /// No unit of that number was entered in the group, or there is no such group.
    NoUnit = 2,
    /// No buyer of that number was entered.
    NoBuyer = 3,
    /// No room is left for a further plant, unit, buyer or commitment.
    Full = 4,
    /// A loss or an internal consumption is over 2,000 hundredths of a percent.
    Percentage = 5,
    /// A unit's energy over 2,000,000 kWh, a use over 50,000,000 kWh, or a volume that isn't from 1 to 20,000,000 kWh.
    Energy = 6,
    /// The plant's commitments would pass 20,000,000 kWh.
    Commitments = 7,
    /// A number of a header is over its limit, or an adjustment over 100,000,000 rial.
    Price = 9,
    /// α or β is over 1, a maintenance day over 400, or an exit minute over 1,439.
    OutsideSet = 10,
    /// UL energy is over accepted and lost energy together.
    Limited = 11,
}

impl BookRefusal {
    /// The refusal's number in the table of refusals, 1 to 7 or 9 to 11.
    pub fn number(self) -> u32
        ensures { result ≡ refusal_number self }
    {
        self as u32
    }
}

/// Why a unit with its price rows is turned down. It prints as the refusal within.
#[derive(Clone, Copy, Debug, PartialEq)]
pub enum UnitRefusal {
    /// The book's: 1, 4, 5 or 6.
    Book(BookRefusal),
    /// Its rows could not be made: 8 or 9.
    Rows(CurveRefusal),
}

impl UnitRefusal {
    /// The number of the refusal within.
    pub fn number(self) -> u32
        ensures { result ≡ unit_refusal_number self }
    {
        match self {
            UnitRefusal::Book(refusal) => refusal.number(),
            UnitRefusal::Rows(refusal) => refusal.number(),
        }
    }
}

impl From<BookRefusal> for UnitRefusal {
    ghost from_gives = { λ book result. result ≡ Book book };

    fn from(book: BookRefusal) -> UnitRefusal {
        UnitRefusal::Book(book)
    }
}

impl From<CurveRefusal> for UnitRefusal {
    ghost from_gives = { λ rows result. result ≡ Rows rows };

    fn from(rows: CurveRefusal) -> UnitRefusal {
        UnitRefusal::Rows(rows)
    }
}

impl fmt::Display for BookRefusal {
    ghost output = { λ refusal. Some (refusal_text (refusal_number refusal)) };

    fn fmt<W: fmt::Write>(&self, f: &mut fmt::Formatter<W>) -> fmt::Result {
        let number = self.number();
        write!(f, "refused with {number}")
    }
}

impl Error for BookRefusal {}

impl fmt::Display for UnitRefusal {
    ghost output = { λ refusal. Some (unit_refusal_text refusal) };

    fn fmt<W: fmt::Write>(&self, f: &mut fmt::Formatter<W>) -> fmt::Result {
        match self {
            UnitRefusal::Book(refusal) => write!(f, "{refusal}"),
            UnitRefusal::Rows(refusal) => write!(f, "{refusal}"),
        }
    }
}

impl Error for UnitRefusal {}
