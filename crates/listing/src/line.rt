// The lines of a listing.
ghost use Rattle.std.specs.Prelude.{◌≡◌, ◌+◌, ◌≤◌, ◌++◌, length, codes, Some, OnOk};
ghost use Rattle.std.specs.Fmt.{decimal};
ghost use Rattle.table.specs.Texts.{unit_text, plant_text, buyer_text};
ghost use Rattle.listing.specs.Listing.{line_of, hour_line};
ghost use Rattle.listing.specs.Rooms.{line_room};

use crate::rows::Row;
use crate::sink::Sink;
use book::{BuyerFigures, HourFigures, PlantFigures, UnitFigures};
use itoa::{Buffer, Integer};

// Writes a number and what stands behind it.
fn push_number<S: Sink, I: Integer>(text: &mut S, n: I, behind: &str) -> Result<(), S::Error>
    requires room { length (S.bytes text.old) + I.MAX_STR_LEN + length behind.now ≤ 19745 }
    ensures bytes { OnOk result (S.bytes text.new ≡ S.bytes text.old ++ (I.text n ++ behind.now)) }
    ensures room { OnOk result (length (S.bytes text.new) ≤ length (S.bytes text.old) + I.MAX_STR_LEN + length behind.now) }
{
    text.push(Buffer::new().format(n))?;
    text.push(behind)
}

// Writes the line of a unit that begins with these letters.
fn push_unit<S: Sink>(
    text: &mut S,
    letters: &str,
    number: u8,
    figures: UnitFigures,
) -> Result<(), S::Error>
    requires letters { length letters.now ≡ 4 }
    requires room { length (S.bytes text.old) + 51 ≤ 19745 }
    ensures bytes { OnOk result (S.bytes text.new ≡ S.bytes text.old ++ (letters.now ++ (decimal number ++ (codes " " ++ (unit_text figures ++ codes "\n"))))) }
    ensures room { OnOk result (length (S.bytes text.new) ≤ length (S.bytes text.old) + 51) }
{
    text.push(letters)?;
    push_number(text, number, " ")?;
    push_number(text, figures.allocated, " ")?;
    push_number(text, figures.billed, " ")?;
    push_number(text, figures.payment, "\n")
}

fn push_plant<S: Sink>(text: &mut S, number: u8, figures: PlantFigures) -> Result<(), S::Error>
    requires room { length (S.bytes text.old) + 111 ≤ 19745 }
    ensures bytes { OnOk result (S.bytes text.new ≡ S.bytes text.old ++ (codes "P " ++ (decimal number ++ (codes " " ++ (plant_text figures ++ codes "\n"))))) }
    ensures room { OnOk result (length (S.bytes text.new) ≤ length (S.bytes text.old) + 111) }
{
    text.push("P ")?;
    push_number(text, number, " ")?;
    push_number(text, figures.committed, " ")?;
    push_number(text, figures.allocated, " ")?;
    push_number(text, figures.run, " ")?;
    push_number(text, figures.support, " ")?;
    push_number(text, figures.rate, " ")?;
    push_number(text, figures.cost, "\n")
}

fn push_buyer<S: Sink>(text: &mut S, number: u8, figures: BuyerFigures) -> Result<(), S::Error>
    requires room { length (S.bytes text.old) + 48 ≤ 19745 }
    ensures bytes { OnOk result (S.bytes text.new ≡ S.bytes text.old ++ (codes "B " ++ (decimal number ++ (codes " " ++ (buyer_text figures ++ codes "\n"))))) }
    ensures room { OnOk result (length (S.bytes text.new) ≤ length (S.bytes text.old) + 48) }
{
    text.push("B ")?;
    push_number(text, number, " ")?;
    push_number(text, figures.share, " ")?;
    push_number(text, figures.net, "\n")
}

impl Row {
    /// Writes the line of the row.
    pub(crate) fn write<S: Sink>(self, text: &mut S) -> Result<(), S::Error>
        requires room { length (S.bytes text.old) + line_room self ≤ 19745 }
        ensures bytes { OnOk result (S.bytes text.new ≡ S.bytes text.old ++ line_of (Some self)) }
        ensures room { OnOk result (length (S.bytes text.new) ≤ length (S.bytes text.old) + line_room self) }
    {
        match self {
            Row::Competitive { number, figures } => push_unit(text, "U C ", number, figures),
            Row::Guaranteed { number, figures } => push_unit(text, "U G ", number, figures),
            Row::Plant { number, figures } => push_plant(text, number, figures),
            Row::Buyer { number, figures } => push_buyer(text, number, figures),
        }
    }
}

/// Writes the line of the hour.
pub(crate) fn push_hour<S: Sink>(text: &mut S, figures: HourFigures) -> Result<(), S::Error>
    requires room { length (S.bytes text.old) + 65 ≤ 19745 }
    ensures bytes { OnOk result (S.bytes text.new ≡ S.bytes text.old ++ hour_line figures) }
{
    text.push("H ")?;
    push_number(text, figures.billed, " ")?;
    push_number(text, figures.committed, " ")?;
    push_number(text, figures.unassigned, "\n")
}
