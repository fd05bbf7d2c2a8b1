// The text of a settled hour.
ghost use Rattle.std.specs.Prelude.{◌≡◌, ◌+◌, ◌≤◌, [], ◌++◌, length, IfOk, OnOk};
ghost use Rattle.std.specs.String.{string_bytes};
ghost use Rattle.listing.specs.Listing.{lines_of, listing_of, ListingWritten, ShortExactly};
ghost use Rattle.listing.specs.Rooms.{rows_room};

use crate::errors::ShortBuffer;
use crate::line::push_hour;
use crate::rows::{Kind, Row};
use crate::sink::{Sink, Text};
use book::SettledHour;
use std::alloc::{AllocError, Global};

// The most rows of a kind: the units of a group.
const MOST_ROWS: u8 = 128;

// Writes the lines of the rows of a kind.
fn write_rows<S: Sink>(text: &mut S, hour: &SettledHour, kind: Kind) -> Result<(), S::Error>
    requires room { length (S.bytes text.old) + rows_room kind ≤ 19745 }
    ensures rows { OnOk result (S.bytes text.new ≡ S.bytes text.old ++ lines_of kind hour.now.book.now.table) }
    ensures room { OnOk result (length (S.bytes text.new) ≤ length (S.bytes text.old) + rows_room kind) }
{
    for number in 1..=MOST_ROWS {
        let Some(row) = Row::of(hour, kind, number) else {
            return Ok(());
        };
        row.write(text)?;
    }
    Ok(())
}

// Writes the listing into an empty text.
fn write_hour<S: Sink>(text: &mut S, hour: &SettledHour) -> Result<(), S::Error>
    requires empty { S.bytes text.old ≡ [] }
    ensures { OnOk result (S.bytes text.new ≡ listing_of hour.now.book.now.table) }
{
    write_rows(text, hour, Kind::Competitive)?;
    write_rows(text, hour, Kind::Guaranteed)?;
    write_rows(text, hour, Kind::Plants)?;
    write_rows(text, hour, Kind::Buyers)?;
    push_hour(text, hour.hour())
}

/// The listing of a settled hour, on the heap and the caller's. `Err` is want of memory.
pub fn listing(heap: Global, hour: &SettledHour) -> Result<String, AllocError>
    ensures { IfOk result (λ text. string_bytes text ≡ listing_of hour.now.book.now.table) }
{
    let mut text = String::new(heap);
    write_hour(&mut text, hour)?;
    Ok(text)
}

/// Writes the listing of a settled hour at a buffer's start, and answers its length in bytes; the bytes behind it stay.
/// `Err` is 13: the buffer is shorter than the listing, and stays as it was. It needs no heap.
pub fn write_listing(hour: &SettledHour, out: &mut [u8]) -> Result<usize, ShortBuffer>
    ensures written { ListingWritten (listing_of hour.now.book.now.table) out.old result out.new }
    ensures exactly { ShortExactly (listing_of hour.now.book.now.table) out.old result }
    ensures longest { length (listing_of hour.now.book.now.table) ≤ 19745 }
{
    let mut text = Text::new();
    let Ok(()) = write_hour(&mut text, hour);
    let bytes = text.as_bytes();
    if out.len() < bytes.len() {
        return Err(ShortBuffer);
    }
    out[..bytes.len()].copy_from_slice(bytes);
    Ok(bytes.len())
}
