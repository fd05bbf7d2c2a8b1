// Whole lists of calls, made in turn on a book. What they lead to depends on the accepted ones alone.
ghost use Rattle.std.specs.Prelude.{◌≡◌, ⊤};
ghost use Rattle.std.specs.Borrow.{sem, follows_so};
ghost use mathlib.Core.Option.{none};
ghost use Rattle.book.specs.contracts.book.Book.{the_row};
ghost use Rattle.settling.specs.Figures.{pay_by};
ghost use Rattle.book.specs.Hours.{rows_by, IsOpen};
ghost use Rattle.book.specs.Law.{entered, EntriesJudged, ReadingsJudged, RowsOf};
ghost use Rattle.book.specs.Runs.{entries_in, RunClosingLaw, RunSettledLaw, RunOnlyFigures, RunClosed, RunSettled};

use crate::book::Book;
use crate::closed::ClosedHour;
use crate::open::OpenHour;
use crate::settled::SettledHour;
use curves::{Curve, Offer};
use settling::{Header, PriceRow};
use table::{BookRefusal, Entry, Reading};

/// The calls of an hour up to its readings. The slices are the caller's, and only read; the offer of unit n is at place
/// n - 1 of its group's.
#[derive(Drop)]
pub struct Calls<'c, O, G> {
    /// Entries, taken in turn.
    pub entries: &'c [Entry],
    /// Offers of the competitive units, for closing.
    pub offers: &'c [O],
    /// Offers of the guaranteed units, for closing.
    pub guaranteed: &'c [G],
    /// Readings, taken in turn once the hour is closed.
    pub readings: &'c [Reading],
}

/// Opens an empty hour, whatever the book held, and takes entries in turn. What each answers is written into the
/// caller's `answers` as far as there is room. When the hour is let go, the book holds what the hour held.
pub fn run_open<'b>(
    book: &'b mut Book,
    header: Header,
    entries: &[Entry],
    answers: &mut [Result<u32, BookRefusal>],
) -> OpenHour<'b>
    ensures judged { EntriesJudged entries.now answers.old answers.new }
    ensures stands { IsOpen header (entered entries.now) result }
    ensures book { result.book.ghost_name ≡ book.entry.ghost_name }
{
    let mut hour = book.open(header);
    hour.enter_all(entries, answers);
    hour
}

/// Opens an empty hour, takes entries in turn, closes, and takes readings in turn; answers are written as far as there
/// is room. The law of a closed hour then holds, by the accepted entries alone. When the hour is let go, the book holds
/// what the hour held.
pub fn run_closed<'b, O: Offer, G: Offer>(
    book: &'b mut Book,
    header: Header,
    calls: &Calls<O, G>,
    entry_answers: &mut [Result<u32, BookRefusal>],
    reading_answers: &mut [Result<u32, BookRefusal>],
) -> ClosedHour<'b>
    ensures judged { EntriesJudged calls.now.entries.now entry_answers.old entry_answers.new }
    ensures read { ReadingsJudged calls.now.entries.now calls.now.readings.now reading_answers.old reading_answers.new }
    ensures law { RunClosingLaw O.Curve.prices G.Curve.prices calls.now result.book.now.table }
    ensures stands { RunClosed O.Curve.prices G.Curve.prices calls.now header result }
    ensures book { result.book.ghost_name ≡ book.entry.ghost_name }
{
    let open = run_open(book, header, calls.entries, entry_answers);
    let mut hour = open.close(calls.offers, calls.guaranteed);
    hour.read_all(calls.readings, reading_answers);
    hour
}

/// Opens an empty hour, takes entries in turn, closes, takes readings in turn, and settles by `rows` (group 1) and
/// `offers` (group 2); answers are written as far as there is room. The law of a settled hour then holds, by the
/// accepted calls alone. The book holds what the hour holds.
pub fn run_settled<'b, O: Offer, G: Offer, P: Offer, C: Curve, H: Offer>(
    book: &'b mut Book,
    header: Header,
    calls: &Calls<O, G>,
    entry_answers: &mut [Result<u32, BookRefusal>],
    reading_answers: &mut [Result<u32, BookRefusal>],
    rows: &[PriceRow<P, C>],
    offers: &[H],
) -> SettledHour<'b>
    ensures judged { EntriesJudged calls.now.entries.now entry_answers.old entry_answers.new }
    ensures read { ReadingsJudged calls.now.entries.now calls.now.readings.now reading_answers.old reading_answers.new }
    ensures law { RunSettledLaw O.Curve.prices G.Curve.prices calls.now header (pay_by P.Curve.prices C.Curve.prices rows.now H.Curve.prices offers.now header) result.book.now.table }
    ensures rows { RowsOf (entries_in calls.now) result.book.now.table }
    ensures only { RunOnlyFigures O.Curve.prices G.Curve.prices calls.now header (pay_by P.Curve.prices C.Curve.prices rows.now H.Curve.prices offers.now header) result.book.now.table }
    ensures stands { RunSettled O.Curve.prices G.Curve.prices calls.now header (rows_by P.Curve.prices C.Curve.prices rows.now H.Curve.prices offers.now) result }
    ensures* book { sem 𝓛 (follows_so the_row the_row book.entry.ghost_name none (λ _ _. ⊤) (λ v. v ≡ result.book.now)) }
{
    let mut hour = run_closed(book, header, calls, entry_answers, reading_answers);
    hour.write_figures(rows, offers);
    SettledHour { book }
}
