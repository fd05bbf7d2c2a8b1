// What a book holds once its hour is let go or released: what the hour held.
ghost use Rattle.std.specs.Prelude.{◌≡◌};
ghost use Rattle.book.specs.Hours.{rows_by, OpenTable};
ghost use Rattle.book.specs.Law.{entered};
ghost use Rattle.book.specs.Runs.{RunClosed};
ghost use Rattle.hour_client.specs.Lent.{ClosedLeft, SettledLeft, Left, state_of};
ghost use Rattle.book.specs.States.{call_by};

use book::{
    Book, Calls, ClosedHour, Entry, Header, Hour, PriceRow, Turn, run_calls, run_closed,
    run_settled,
};
use curves::{Curve, Offer};

/// Enters a list of entries, and lets the open hour go: the book holds the accepted entries.
pub(crate) fn entered(book: &mut Book, header: Header, entries: &[Entry])
    ensures { OpenTable (entered entries.now) book.new.table }
{
    let mut hour = book.open(header);
    hour.enter_all(entries, &mut []);
}

// Makes the calls of a closed hour: opening, the entries, closing and the readings.
fn close<'b, O: Offer, G: Offer>(
    book: &'b mut Book,
    header: Header,
    calls: &Calls<O, G>,
) -> ClosedHour<'b>
    ensures stands { RunClosed O.Curve.prices G.Curve.prices calls.now header result }
    ensures book { result.book.ghost_name ≡ book.entry.ghost_name }
{
    let mut open = book.open(header);
    open.enter_all(calls.entries, &mut []);
    let mut closed = open.close(calls.offers, calls.guaranteed);
    closed.read_all(calls.readings, &mut []);
    closed
}

/// Makes the calls of a closed hour one after another, and lets the hour go.
pub(crate) fn closed_by_calls<O: Offer, G: Offer>(
    book: &mut Book,
    header: Header,
    calls: &Calls<O, G>,
)
    ensures { ClosedLeft O.Curve.prices G.Curve.prices calls.now book.new.table }
{
    let _hour = close(book, header, calls);
}

/// Makes the calls of a closed hour by `run_closed`, and lets the hour go.
pub(crate) fn closed<O: Offer, G: Offer>(book: &mut Book, header: Header, calls: &Calls<O, G>)
    ensures { ClosedLeft O.Curve.prices G.Curve.prices calls.now book.new.table }
{
    let _hour = run_closed(book, header, calls, &mut [], &mut []);
}

/// Makes the calls of a settled hour by `run_settled`, and releases the hour.
pub(crate) fn settled<O: Offer, G: Offer, P: Offer, C: Curve, H: Offer>(
    book: &mut Book,
    header: Header,
    calls: &Calls<O, G>,
    rows: &[PriceRow<P, C>],
    offers: &[H],
)
    ensures { SettledLeft O.Curve.prices G.Curve.prices calls.now header (rows_by P.Curve.prices C.Curve.prices rows.now H.Curve.prices offers.now) book.new.table }
{
    let hour = run_settled(book, header, calls, &mut [], &mut [], rows, offers);
    hour.release();
}

/// Makes a list of calls in whatever order, and lets the hour go or releases it.
pub(crate) fn made<O: Offer, G: Offer, P: Offer, C: Curve, H: Offer>(
    book: &mut Book,
    header: Header,
    turns: &mut [Turn<O, G, P, C, H>],
)
    ensures { Left header (state_of (call_by O.Curve.prices G.Curve.prices P.Curve.prices C.Curve.prices H.Curve.prices) turns.old) book.new.table }
{
    match run_calls(book, header, turns) {
        Hour::Open(hour) => {}
        Hour::Closed(hour) => {}
        Hour::Settled(hour) => hour.release(),
    }
}
