// Lists an hour file: from its first byte to the listing's last.
ghost use Rattle.std.specs.Prelude.{◌≡◌, min, length};
ghost use Rattle.listing.specs.Printed.{OneListing};
ghost use Rattle.reader.specs.Outcome.{outcome};
ghost use Rattle.listing.specs.Files.{HourListed, ReachedListed, FileEndsExactly, ended, list_end};

use crate::errors::ShortBuffer;
use crate::listed::Listed;
use crate::text::write_listing;
use book::Book;
use hourfile::{Cause, FileFault, MOST_BYTES};
use reader::{FileHour, Reached, read_hour};

// The length of a file, as a place; a file that is too long counts as the longest.
pub(crate) fn length_of(file: &[u8]) -> u32
    ensures { result ≡ min (length file.now) 65536 }
{
    file.len().min(MOST_BYTES) as u32
}

// The fault of a file of so many bytes that ends before settle.
pub(crate) fn ended(place: u32) -> FileFault
    ensures { result ≡ ended place }
{
    FileFault {
        cause: Cause::Ended,
        place,
    }
}

// What writing the listing of a file of so many bytes answers: a buffer that is too short is 13 at the file's length.
fn list_end(end: Result<usize, ShortBuffer>, place: u32) -> Result<usize, FileFault>
    ensures { result ≡ list_end end place }
{
    match end {
        Ok(length) => Ok(length),
        Err(ShortBuffer) => Err(FileFault {
            cause: Cause::ShortBuffer,
            place,
        }),
    }
}

// Lists the hour that a file of so many bytes led to, if it is settled.
fn list_reached(reached: &Reached, place: u32, out: &mut [u8]) -> Result<usize, FileFault>
    ensures { ReachedListed reached.now place out.old result out.new }
{
    match reached {
        Reached::Settled(hour) => list_end(write_listing(hour, out), place),
        Reached::Unopened(_) | Reached::Open(_) | Reached::Closed(_) => Err(ended(place)),
    }
}

/// Reads a file into a book and writes the listing of its hour at the start of `out`; the bytes behind it stay. At a
/// fault, 13 too, `out` stays as it was. Book, file and buffer are the caller's; the hour that is given back borrows
/// the book. A buffer of `LONGEST_LISTING` bytes is never too short.
pub fn list_hour<'b>(book: &'b mut Book, file: &[u8], out: &mut [u8]) -> Listed<'b>
    ensures listed { HourListed book.old.table file.now out.old result out.new }
    ensures exactly { FileEndsExactly (outcome file.now).fault result.reached (length file.now) out.old result.end }
    ensures one { OneListing (outcome file.now).progress }
{
    let FileHour { reached, end } = read_hour(book, file);
    let end = match end {
        Ok(()) => list_reached(&reached, length_of(file), out),
        Err(fault) => Err(fault),
    };
    Listed { reached, end }
}
