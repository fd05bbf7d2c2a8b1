// How each refusal prints.
use crate::report::Report;
use book::{BookRefusal, UnitRefusal};
use curves::CurveRefusal;
use std::alloc::AllocError;

const BOOK: [BookRefusal; 10] = [
    BookRefusal::NoPlant,
    BookRefusal::NoUnit,
    BookRefusal::NoBuyer,
    BookRefusal::Full,
    BookRefusal::Percentage,
    BookRefusal::Energy,
    BookRefusal::Commitments,
    BookRefusal::Price,
    BookRefusal::OutsideSet,
    BookRefusal::Limited,
];

const LISTS: [CurveRefusal; 2] = [CurveRefusal::Steps, CurveRefusal::Price];

impl Report {
    /// The text of each refusal of the book and of a list, and of each as that of a unit with its rows.
    pub(crate) fn refusal_texts(&mut self) -> Result<(), AllocError> {
        self.line("case refusal texts")?;
        for refusal in BOOK {
            self.line(refusal)?;
            self.line(UnitRefusal::Book(refusal))?;
        }
        for refusal in LISTS {
            self.line(refusal)?;
            self.line(UnitRefusal::Rows(refusal))?;
        }
        Ok(())
    }
}
