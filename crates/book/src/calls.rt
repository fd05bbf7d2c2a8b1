// Any list of calls of an hour, in whatever order.
ghost use Rattle.std.specs.Prelude.{◌≡◌};
ghost use Rattle.book.specs.States.{call_by, answer_by, CallMade, CallsMade, Borrows};

use crate::book::Book;
use crate::closed::ClosedHour;
use crate::open::OpenHour;
use crate::settled::SettledHour;
use curves::{Curve, Offer};
use settling::{Header, PriceRow};
use table::{BookRefusal, Entry, Reading};

/// A call of an hour. Its slices are the caller's, and only read; what a unit has in one is at place n - 1, where n is
/// its number in its group.
#[derive(Clone, Copy)]
pub enum HourCall<'c, O, G, P, C, H> {
    /// An entry, which an open hour takes.
    Enter(Entry),
    /// Closing, which an open hour takes.
    Close {
        /// Offers of the competitive units.
        offers: &'c [O],
        /// Offers of the guaranteed units.
        guaranteed: &'c [G],
    },
    /// A reading, which a closed hour takes.
    Read(Reading),
    /// Settling, which a closed hour takes.
    Settle {
        /// Price rows of the competitive units.
        rows: &'c [PriceRow<P, C>],
        /// Offers of the guaranteed units.
        offers: &'c [H],
    },
}

/// What a call of an hour is told.
#[derive(Clone, Copy, Debug, PartialEq)]
pub enum CallAnswer {
    /// The number of the row that an accepted entry or reading made or changed, from 1.
    Number(u32),
    /// The hour is closed, or settled.
    Done,
    /// An entry or a reading is turned down, and nothing is changed.
    Refused(BookRefusal),
    /// The hour doesn't take such a call in its state, and nothing is changed.
    OutOfTurn,
}

/// A call of a list, with what it is told.
#[derive(Clone, Copy)]
pub struct Turn<'c, O, G, P, C, H> {
    /// Stays as it is when it is made.
    pub call: HourCall<'c, O, G, P, C, H>,
    /// Written when the call is made.
    pub answer: Option<CallAnswer>,
}

impl<'c, O, G, P, C, H> Turn<'c, O, G, P, C, H> {
    /// A call that is to be made, without an answer.
    pub fn new(call: HourCall<'c, O, G, P, C, H>) -> Turn<'c, O, G, P, C, H>
        ensures call { result.call ≡ call.entry }
        ensures answer { result.answer ≡ None }
    {
        Turn { call, answer: None }
    }
}

/// An hour in the state that its calls have led to.
#[derive(Drop)]
pub enum Hour<'b> {
    /// Not closed.
    Open(OpenHour<'b>),
    /// Closed and not settled.
    Closed(ClosedHour<'b>),
    /// Settled.
    Settled(SettledHour<'b>),
}

// What a call is told where it is an entry or a reading of that answer.
fn told(answer: Result<u32, BookRefusal>) -> CallAnswer
    ensures { result ≡ answer_by answer }
{
    match answer {
        Ok(number) => CallAnswer::Number(number),
        Err(refusal) => CallAnswer::Refused(refusal),
    }
}

impl<'b> OpenHour<'b> {
    // An open hour takes entries and closing.
    fn make<O: Offer, G: Offer, P: Offer, C: Curve, H: Offer>(
        mut self,
        call: &HourCall<O, G, P, C, H>,
    ) -> (Hour<'b>, CallAnswer)
        ensures { CallMade (call_by O.Curve.prices G.Curve.prices P.Curve.prices C.Curve.prices H.Curve.prices call.now) (Hour.Open self.entry) result.0 result.1 }
    {
        match call {
            HourCall::Enter(entry) => {
                let answer = told(self.enter(*entry));
                (Hour::Open(self), answer)
            }
            HourCall::Close { offers, guaranteed } => {
                (
                    Hour::Closed(self.close(offers, guaranteed)),
                    CallAnswer::Done,
                )
            }
            _ => (Hour::Open(self), CallAnswer::OutOfTurn),
        }
    }
}

impl<'b> ClosedHour<'b> {
    // A closed hour takes readings and settling.
    fn make<O: Offer, G: Offer, P: Offer, C: Curve, H: Offer>(
        mut self,
        call: &HourCall<O, G, P, C, H>,
    ) -> (Hour<'b>, CallAnswer)
        ensures { CallMade (call_by O.Curve.prices G.Curve.prices P.Curve.prices C.Curve.prices H.Curve.prices call.now) (Hour.Closed self.entry) result.0 result.1 }
    {
        match call {
            HourCall::Read(reading) => {
                let answer = told(self.read(*reading));
                (Hour::Closed(self), answer)
            }
            HourCall::Settle { rows, offers } => {
                (Hour::Settled(self.settle(rows, offers)), CallAnswer::Done)
            }
            _ => (Hour::Closed(self), CallAnswer::OutOfTurn),
        }
    }
}

impl<'b> Hour<'b> {
    // Makes one call. A settled hour takes none.
    fn make<O: Offer, G: Offer, P: Offer, C: Curve, H: Offer>(
        self,
        call: &HourCall<O, G, P, C, H>,
    ) -> (Hour<'b>, CallAnswer)
        ensures { CallMade (call_by O.Curve.prices G.Curve.prices P.Curve.prices C.Curve.prices H.Curve.prices call.now) self.entry result.0 result.1 }
    {
        match self {
            Hour::Open(hour) => hour.make(call),
            Hour::Closed(hour) => hour.make(call),
            Hour::Settled(hour) => (Hour::Settled(hour), CallAnswer::OutOfTurn),
        }
    }
}

/// Opens an empty hour, whatever the book held, and makes the calls of the caller's `turns` one after another. What
/// each is told is written beside it; one that is refused or out of turn changes nothing. When an open or a closed hour
/// is let go, the book holds what the hour held.
pub fn run_calls<'b, O: Offer, G: Offer, P: Offer, C: Curve, H: Offer>(
    book: &'b mut Book,
    header: Header,
    turns: &mut [Turn<O, G, P, C, H>],
) -> Hour<'b>
    ensures made { CallsMade (call_by O.Curve.prices G.Curve.prices P.Curve.prices C.Curve.prices H.Curve.prices) header turns.old turns.new result }
    ensures book { Borrows book.entry.ghost_name result }
{
    let mut hour = Hour::Open(book.open(header));
    for turn in turns.iter_mut() {
        let (next, answer) = hour.make(&turn.call);
        hour = next;
        turn.answer = Some(answer);
    }
    hour
}
