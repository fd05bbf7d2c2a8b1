// The calls that records make on an hour.
ghost use Rattle.std.specs.Prelude.{◌≡◌};
ghost use Rattle.hourfile.specs.Words.{words};
ghost use Rattle.settling.specs.Headers.{checked};
ghost use Rattle.settling.specs.Settled.{Settled};
ghost use Rattle.hourfile.specs.Format.{plain};
ghost use Rattle.hourfile.specs.Calls.{entry_of, reading_of};
ghost use Rattle.reader.specs.Holds.{tariffs, ClosedBy, pay_of};
ghost use Rattle.reader.specs.Progress.{header_of};
ghost use Rattle.reader.specs.Calls.{EntryMade, UnitMade, ReadingMade};
ghost use Rattle.reader.specs.Rows.{rows_of};

use crate::kept::UnitRows;
use crate::units::unit_row;
use book::{BookRefusal, ClosedHour, Header, OpenHour, SettledHour};
use curves::Tariff;
use hourfile::{Cause, FileFault, Record, Word, value_at};
use table::UNITS;

/// The header of a record's values, or its refusal, 9.
pub(crate) fn header_of(values: &[Word]) -> Result<Header, BookRefusal>
    ensures { result ≡ checked (header_of (words values.now)) }
{
    Header::new(
        value_at(values, 0),
        value_at(values, 1),
        value_at(values, 2),
        value_at(values, 3),
        value_at(values, 4),
    )
}

/// Makes the entry of a record; one that is no entry is misplaced.
pub(crate) fn enter(hour: &mut OpenHour, given: &Record) -> Result<(), FileFault>
    ensures { EntryMade (entry_of (plain given.now)) result hour.old hour.new }
{
    let entry = given.entry().ok_or(Cause::Misplaced)?;
    hour.enter(entry)?;
    Ok(())
}

/// Adds the competitive unit of a record's values, and keeps its row. Where either is refused nothing changes.
pub(crate) fn enter_unit(
    hour: &mut OpenHour,
    rows: &mut UnitRows,
    values: &[Word],
) -> Result<(), FileFault>
    ensures { UnitMade (words values.now) result hour.old hour.new rows.old rows.new }
{
    let made = unit_row(values);
    let plant = value_at(values, 0);
    let declared = value_at(values, 1);
    let internal = value_at(values, 2);
    let (_, row) = hour.add_priced(plant, declared, internal, made)?;
    rows.add(row);
    Ok(())
}

/// Takes the reading of a record; one that is no reading is misplaced.
pub(crate) fn read(hour: &mut ClosedHour, given: &Record) -> Result<(), FileFault>
    ensures { ReadingMade (reading_of (plain given.now)) result hour.old hour.new }
{
    let reading = given.reading().ok_or(Cause::Misplaced)?;
    hour.read(reading)?;
    Ok(())
}

// Each guaranteed unit's offer: the header's tariff.
fn tariffs(header: &Header) -> [Tariff; UNITS]
    ensures { result ≡ tariffs header.now }
{
    let rate = header.tariff();
    [Tariff { rate }; UNITS]
}

/// Closes the hour by the offers of its rows, and by the header's tariff for each guaranteed unit.
pub(crate) fn close<'b>(hour: OpenHour<'b>, rows: &UnitRows) -> ClosedHour<'b>
    ensures closed { ClosedBy hour.entry.header (rows_of rows.now) hour.entry.book.now.table result.book.now.table }
    ensures header { result.header ≡ hour.entry.header }
{
    let header = hour.header();
    let offers = rows.offers();
    hour.close(&offers[..rows.count], &tariffs(&header))
}

/// Settles the hour by its rows, and by the header's tariff for each guaranteed unit.
pub(crate) fn settle<'b>(hour: ClosedHour<'b>, rows: &UnitRows) -> SettledHour<'b>
    ensures { Settled hour.entry.header (pay_of hour.entry.header (rows_of rows.now)) hour.entry.book.now.table result.book.now.table }
{
    let header = hour.header();
    hour.settle(rows.kept(), &tariffs(&header))
}
