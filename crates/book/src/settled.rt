// The settled hour: it answers questions.
ghost use Rattle.std.specs.Prelude.{◌≡◌};
ghost use Rattle.book.specs.Questions.{unit_answer, plant_answer, buyer_answer};

use crate::book::Book;
use table::{BookRefusal, BuyerFigures, Group, HourFigures, PlantFigures, UnitFigures};

/// A settled hour: it answers questions about its figures, and borrows the book for reading.
#[derive(Drop)]
pub struct SettledHour<'b> {
    pub(crate) book: &'b Book,
}

impl<'b> SettledHour<'b> {
    /// The figures of a unit, by its group and its number in the group. Refused with 2 where the group is neither 1 nor
    /// 2, or no unit has that number.
    pub fn unit(&self, group: u32, number: u32) -> Result<UnitFigures, BookRefusal>
        ensures { result ≡ unit_answer group number self.now.book.now.table }
    {
        let units = self.book.table.units(Group::try_from(group)?);
        let place = units.place(number).ok_or(BookRefusal::NoUnit)?;
        Ok(units.rows[place].figures)
    }

    /// The figures of a plant, by its number. Refused with 1 where no plant has it.
    pub fn plant(&self, number: u32) -> Result<PlantFigures, BookRefusal>
        ensures { result ≡ plant_answer number self.now.book.now.table }
    {
        let plants = &self.book.table.plants;
        let place = plants.place(number).ok_or(BookRefusal::NoPlant)?;
        Ok(plants.rows[place].figures)
    }

    /// The figures of a buyer, by its number. Refused with 3 where no buyer has it.
    pub fn buyer(&self, number: u32) -> Result<BuyerFigures, BookRefusal>
        ensures { result ≡ buyer_answer number self.now.book.now.table }
    {
        let buyers = &self.book.table.buyers;
        let place = buyers.place(number).ok_or(BookRefusal::NoBuyer)?;
        Ok(buyers.rows[place].figures)
    }

    /// The figures of the hour. Can't be turned down.
    pub fn hour(&self) -> HourFigures
        ensures { result ≡ self.now.book.now.table.figures }
    {
        self.book.table.figures
    }

    /// Lets the hour go; the book may then open another.
    pub fn release(self) {}
}
