// What hourlist prints.
ghost use Rattle.std.specs.Prelude.{◌≡◌, IfOk};
ghost use Rattle.std.specs.String.{string_bytes};
ghost use Rattle.listing.specs.Printed.{fault_line, HourShown, IsPrinted};

use crate::files::{ended, length_of};
use crate::text::listing;
use book::Book;
use hourfile::FileFault;
use reader::{FileHour, Reached, read_hour};
use std::alloc::{AllocError, Global};

/// The line of a fault, `R Y n p` and a line feed, on the heap and the caller's. `Err` is want of memory.
pub fn fault_line(heap: Global, fault: FileFault) -> Result<String, AllocError>
    ensures { IfOk result (λ line. string_bytes line ≡ fault_line fault) }
{
    format!(in heap; "{fault}\n")
}

// What is printed where reading a file of so many bytes found no fault: the listing, since the hour is then settled.
fn hour_shown(heap: Global, reached: &Reached, place: u32) -> Result<String, AllocError>
    ensures { IfOk result (λ text. HourShown reached.now place (string_bytes text)) }
{
    match reached {
        Reached::Settled(hour) => listing(heap, hour),
        Reached::Unopened(_) | Reached::Open(_) | Reached::Closed(_) => {
            fault_line(heap, ended(place))
        }
    }
}

/// What hourlist prints for a file: the listing of its settled hour, or the line of its first fault, which is never 13.
/// The text is on the heap and the caller's, and the book its own. `Err` is want of memory.
pub fn printed(heap: Global, file: &[u8]) -> Result<String, AllocError>
    ensures { IfOk result (λ text. IsPrinted file.now (string_bytes text)) }
{
    let mut book = Book::new();
    let FileHour { reached, end } = read_hour(&mut book, file);
    match end {
        Ok(()) => hour_shown(heap, &reached, length_of(file)),
        Err(fault) => fault_line(heap, fault),
    }
}
