// What is wrong with an hour file, and where.
ghost use Rattle.std.specs.Prelude.{◌≡◌, Some};
ghost use Rattle.hourfile.specs.Faults.{cause_number, cause_layer, unit_cause, fault_text};
ghost use Rattle.hourfile.specs.declared.faults.Cause.TheVariants.{Book, Steps};

use curves::CurveRefusal;
use std::error::Error;
use std::fmt;
use table::{BookRefusal, UnitRefusal};

/// What is wrong with an hour file, without the place. The numbers are those of docs/refusals.md.
#[derive(Clone, Copy, Debug, PartialEq)]
pub enum Cause {
    /// 12: the records end, and the hour isn't settled.
    Ended,
    /// 13: the caller's buffer has too little room for the listing.
    ShortBuffer,
    /// 14: the file has over 65,536 bytes, or isn't made of whole words.
    Length,
    /// 15: no whole record stands there: it is cut off, has no kind from 1 to 14, or not the count of its kind.
    Malformed,
    /// 16: a whole record that may not stand there, such as a reading before close.
    Misplaced,
    /// 1 to 7 and 9 to 11: the book refuses the record's call.
    Book(BookRefusal),
    /// 8 or 9: a step list of a competitive unit is refused.
    Steps(CurveRefusal),
}

/// A fault of an hour file: what is wrong, and where.
#[derive(Clone, Copy, Debug, PartialEq)]
pub struct FileFault {
    /// What is wrong.
    pub cause: Cause,
    /// Where, in bytes from the file's start: the record's first byte, or that of a value in a head's place; for 12 and
    /// 13 the file's length, for 14 it is 0.
    pub place: u32,
}

impl Cause {
    /// The number of the refusal or fault, 1 to 16.
    pub fn number(self) -> u32
        ensures { result ≡ cause_number self }
    {
        match self {
            Cause::Ended => 12,
            Cause::ShortBuffer => 13,
            Cause::Length => 14,
            Cause::Malformed => 15,
            Cause::Misplaced => 16,
            Cause::Book(refusal) => refusal.number(),
            Cause::Steps(refusal) => refusal.number(),
        }
    }

    /// The layer that found it: `F` the file, `B` the book, `O` the step lists of offers and cost curves.
    pub fn layer(self) -> char
        ensures { result ≡ cause_layer self }
    {
        match self {
            Cause::Book(_) => 'B',
            Cause::Steps(_) => 'O',
            _ => 'F',
        }
    }
}

impl FileFault {
    /// The same fault at another place, in bytes from the file's start.
    pub fn at(self, place: u32) -> FileFault
        ensures { result ≡ record { cause = self.cause; place = place } }
    {
        FileFault { place, ..self }
    }
}

// A cause alone says no place: it is 0 until the reader sets that of the record (`FileFault::at`).
impl From<Cause> for FileFault {
    ghost from_gives = { λ cause fault. fault ≡ record { cause = cause; place = 0 } };

    fn from(cause: Cause) -> FileFault {
        FileFault { cause, place: 0 }
    }
}

impl From<BookRefusal> for FileFault {
    ghost from_gives = { λ refusal fault. fault ≡ record { cause = Book refusal; place = 0 } };

    fn from(refusal: BookRefusal) -> FileFault {
        Cause::Book(refusal).into()
    }
}

impl From<CurveRefusal> for FileFault {
    ghost from_gives = { λ refusal fault. fault ≡ record { cause = Steps refusal; place = 0 } };

    fn from(refusal: CurveRefusal) -> FileFault {
        Cause::Steps(refusal).into()
    }
}

impl From<UnitRefusal> for FileFault {
    ghost from_gives = { λ refusal fault. fault ≡ record { cause = unit_cause refusal; place = 0 } };

    fn from(refusal: UnitRefusal) -> FileFault {
        match refusal {
            UnitRefusal::Book(refusal) => refusal.into(),
            UnitRefusal::Rows(refusal) => refusal.into(),
        }
    }
}

/// `R`, the layer, the number and the place with one blank between, as hourlist prints a fault; no line feed.
impl fmt::Display for FileFault {
    ghost output = { λ fault. Some (fault_text fault) };

    fn fmt<W: fmt::Write>(&self, f: &mut fmt::Formatter<W>) -> fmt::Result {
        let layer = self.cause.layer();
        let number = self.cause.number();
        write!(f, "R {layer} {number} {}", self.place)
    }
}

impl Error for FileFault {}
