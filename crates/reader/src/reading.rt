// Reads the records of a file, call by call.
ghost use Rattle.std.specs.Prelude.{◌≡◌, List, length};
ghost use Rattle.table.specs.declared.records.Table.{Table};
ghost use Rattle.hourfile.specs.Format.{Plain};
ghost use Rattle.hourfile.specs.Reading.{rest_of};
ghost use Rattle.reader.specs.Outcome.{FileOf, read_on, records_read, outcome, end_fault, end_of};
ghost use Rattle.reader.specs.Progress.{Progress};
ghost use Rattle.reader.specs.Progress.Progress.{Unopened};
ghost use Rattle.reader.specs.Read.{FileRead};
ghost use Rattle.reader.specs.Reached.{BookHolds};

use crate::kept::UnitRows;
use crate::reached::{FileHour, Reached};
use book::Book;
use hourfile::{Cause, FileFault, Reader};

impl Reached<'_> {
    // The end of the file at a place: fault 12, if the hour isn't settled.
    fn ended(&self, place: u32) -> Result<(), FileFault>
        ensures { (t : Table) (p : Progress) → BookHolds t p self.now → result ≡ end_of (end_fault place p) }
    {
        match self {
            Reached::Settled(_) => Ok(()),
            _ => Err(FileFault {
                cause: Cause::Ended,
                place,
            }),
        }
    }
}

// Makes the calls of the records in turn, up to the first fault.
fn read_records<'b>(reader: &mut Reader, book: &'b mut Book) -> FileHour<'b>
    ensures { FileRead book.old.table (read_on (length (rest_of reader.old).words) (rest_of reader.old) Unopened) result }
{
    let mut rows = UnitRows::new();
    let mut reached = Reached::Unopened(book);
    let end = loop {
        match reader.next() {
            Err(fault) => break Err(fault),
            Ok(None) => break reached.ended(reader.place()),
            Ok(Some(placed)) => {
                let (next, outcome) = reached.take(&mut rows, &placed.record);
                reached = next;
                if let Err(fault) = outcome {
                    break Err(fault.at(placed.place));
                }
            }
        }
    };
    FileHour { reached, end }
}

/// Reads a file of the caller's into a book of the caller's: makes the calls of its records in turn, up to the first
/// fault. The hour that is given back borrows the book until it is let go; before a header is accepted the book is as
/// it was.
pub fn read_hour<'b>(book: &'b mut Book, file: &[u8]) -> FileHour<'b>
    ensures read { FileRead book.old.table (outcome file.now) result }
    // Where a list of records spells the file, it is read as these, one call each.
    ensures records { (rs : List Plain) → FileOf rs file.now → outcome file.now ≡ records_read 0 Unopened rs }
{
    match Reader::new(file) {
        Ok(mut reader) => read_records(&mut reader, book),
        Err(fault) => FileHour {
            reached: Reached::Unopened(book),
            end: Err(fault),
        },
    }
}
