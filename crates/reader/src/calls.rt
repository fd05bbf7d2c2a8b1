// One record is one call: where it leads.
ghost use Rattle.std.specs.Prelude.{◌≡◌};
ghost use Rattle.hourfile.specs.Format.{plain};
ghost use Rattle.reader.specs.Progress.{Made, Progress};
ghost use Rattle.reader.specs.Progress.Progress.{Unopened, Opened, Closed};
ghost use Rattle.reader.specs.Reached.{Takes};
ghost use Rattle.reader.specs.declared.kept.UnitRows.{UnitRows};

use crate::hours::{close, enter, enter_unit, header_of, read, settle};
use crate::kept::UnitRows;
use crate::reached::Reached;
use book::{Book, ClosedHour, OpenHour};
use hourfile::{Cause, FileFault, Record};

// The first record: a header opens an empty hour, and any other is misplaced.
fn first<'b>(book: &'b mut Book, given: &Record) -> (Reached<'b>, Result<(), FileFault>)
    ensures { (rows : UnitRows) → Takes Unopened (plain given.now) (Reached.Unopened book.entry) rows result.1 result.0 rows }
{
    let Record::Header(values) = given else {
        return (Reached::Unopened(book), Err(Cause::Misplaced.into()));
    };
    match header_of(values) {
        Ok(header) => (Reached::Open(book.open(header)), Ok(())),
        Err(refusal) => (Reached::Unopened(book), Err(refusal.into())),
    }
}

// A record on an open hour: close, a competitive unit with its rows, or another entry.
fn on_open<'b>(
    mut hour: OpenHour<'b>,
    rows: &mut UnitRows,
    given: &Record,
) -> (Reached<'b>, Result<(), FileFault>)
    ensures { (m : Made) → Takes (Opened m) (plain given.now) (Reached.Open hour.entry) rows.old result.1 result.0 rows.new }
{
    match given {
        Record::Close(_) => (Reached::Closed(close(hour, rows)), Ok(())),
        Record::CompetitiveUnit(values) => {
            let end = enter_unit(&mut hour, rows, values);
            (Reached::Open(hour), end)
        }
        _ => {
            let end = enter(&mut hour, given);
            (Reached::Open(hour), end)
        }
    }
}

// A record on a closed hour: settle, or a reading.
fn on_closed<'b>(
    mut hour: ClosedHour<'b>,
    rows: &UnitRows,
    given: &Record,
) -> (Reached<'b>, Result<(), FileFault>)
    ensures { (m : Made) → Takes (Closed m) (plain given.now) (Reached.Closed hour.entry) rows.now result.1 result.0 rows.now }
{
    if let Record::Settle(_) = given {
        return (Reached::Settled(settle(hour, rows)), Ok(()));
    }
    let end = read(&mut hour, given);
    (Reached::Closed(hour), end)
}

impl<'b> Reached<'b> {
    /// Makes the call of a record: where it leads, and what turned it down, at place 0 until the caller sets the
    /// record's.
    pub(crate) fn take(
        self,
        rows: &mut UnitRows,
        given: &Record,
    ) -> (Reached<'b>, Result<(), FileFault>)
        ensures { (p : Progress) → Takes p (plain given.now) self.entry rows.old result.1 result.0 rows.new }
    {
        match self {
            Reached::Unopened(book) => first(book, given),
            Reached::Open(hour) => on_open(hour, rows, given),
            Reached::Closed(hour) => on_closed(hour, rows, given),
            Reached::Settled(hour) => (Reached::Settled(hour), Err(Cause::Misplaced.into())),
        }
    }
}
