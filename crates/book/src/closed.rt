// The closed hour: it takes readings and settling.
ghost use Rattle.std.specs.Prelude.{◌≡◌};
ghost use Rattle.settling.specs.Figures.{pay_by};
ghost use Rattle.book.specs.Hours.{rows_by};
ghost use Rattle.book.specs.Taken.{ReadingTaken, ReadingsTaken, SettlesBy, SettledFrom};

use crate::book::Book;
use crate::settled::SettledHour;
use curves::{Curve, Offer};
use settling::{Header, PriceRow, settle};
use table::{BookRefusal, GuaranteedReading, Reading, UnitReading};

/// A closed hour: each plant's commitments are split over its units. It takes readings and settling, and borrows the
/// book. Refusals are named below in the order in which they are looked for, and the first that applies is answered.
#[derive(Drop)]
pub struct ClosedHour<'b> {
    pub(crate) book: &'b mut Book,
    pub(crate) header: Header,
}

impl<'b> ClosedHour<'b> {
    /// The header that the hour was opened with.
    pub fn header(&self) -> Header
        ensures { result ≡ self.now.header }
    {
        self.header
    }

    /// Takes a reading: answers the number of its unit or buyer, or the first refusal that applies (`Reading` has those
    /// of each). The book then holds it in place of an earlier one; a refused one changes nothing.
    pub fn read(&mut self, reading: Reading) -> Result<u32, BookRefusal>
        ensures { ReadingTaken reading result self.old self.new }
    {
        self.book.table.read(reading)
    }

    /// Takes the reading of a competitive unit, by its number in group 1, and answers that number. Refused with 2, 6,
    /// 9, 10 or 11. It replaces the unit's earlier reading whole; a refused one changes nothing.
    pub fn read_competitive(&mut self, unit: u32, reading: UnitReading) -> Result<u32, BookRefusal>
        ensures { ReadingTaken (Reading.Competitive unit reading) result self.old self.new }
    {
        self.read(Reading::Competitive { unit, reading })
    }

    /// Takes the reading of a guaranteed unit, by its number in group 2, and answers that number. Refused with 2, 6 or
    /// 10. It replaces the unit's earlier reading whole; a refused one changes nothing.
    pub fn read_guaranteed(
        &mut self,
        unit: u32,
        reading: GuaranteedReading,
    ) -> Result<u32, BookRefusal>
        ensures { ReadingTaken (Reading.Guaranteed unit reading) result self.old self.new }
    {
        self.read(Reading::Guaranteed { unit, reading })
    }

    /// Takes a buyer's use, kWh, and answers the buyer's number. Refused with 3, then with 6 where the use is over
    /// 50,000,000. It replaces an earlier one; a refused one changes nothing.
    pub fn read_use(&mut self, buyer: u32, used: u32) -> Result<u32, BookRefusal>
        ensures { ReadingTaken (Reading.Use buyer used) result self.old self.new }
    {
        self.read(Reading::Use { buyer, used })
    }

    /// Takes readings in turn, as `read` does. What each answers is written at its place of the caller's `answers`;
    /// readings past the end of the answers are taken all the same.
    pub fn read_all(&mut self, readings: &[Reading], answers: &mut [Result<u32, BookRefusal>])
        ensures { ReadingsTaken readings.now answers.old answers.new self.old self.new }
    {
        self.book.table.read_all(readings, answers);
    }

    // Writes every figure into the book that the hour borrows.
    pub(crate) fn write_figures<O: Offer, C: Curve, G: Offer>(
        &mut self,
        rows: &[PriceRow<O, C>],
        offers: &[G],
    )
        ensures settled { SettledFrom (pay_by O.Curve.prices C.Curve.prices rows.now G.Curve.prices offers.now) self.old self.new.book.now.table }
        ensures book { self.new.book.ghost_name ≡ self.old.book.ghost_name }
    {
        settle(&mut self.book.table, &self.header, rows, offers);
    }

    /// Settles the hour: the book then holds every figure. Unit n has its price row (`rows`, group 1) or its offer
    /// (`offers`, group 2) at place n - 1, and is paid 0 without one. The slices are only read. Can't be turned down.
    pub fn settle<O: Offer, C: Curve, G: Offer>(
        mut self,
        rows: &[PriceRow<O, C>],
        offers: &[G],
    ) -> SettledHour<'b>
        ensures law { SettlesBy (rows_by O.Curve.prices C.Curve.prices rows.now G.Curve.prices offers.now) self.entry result }
        ensures settled { SettledFrom (pay_by O.Curve.prices C.Curve.prices rows.now G.Curve.prices offers.now) self.entry result.book.now.table }
    {
        self.write_figures(rows, offers);
        let book = self.book;
        SettledHour { book }
    }
}
