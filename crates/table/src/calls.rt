// Calls made in turn, with what each answers written down.
ghost use Rattle.std.specs.Prelude.{◌≡◌, ℕ, ◌<◌, length, Ok, Result, ◌≢◌, slice_index_or};
ghost use Rattle.table.specs.Effects.{after_calls};
ghost use Rattle.table.specs.Turns.{Answered};
ghost use Rattle.table.specs.declared.records.Table.{Table};
ghost use Rattle.table.specs.declared.refusals.BookRefusal.{BookRefusal};

use crate::records::Table;
use crate::refusals::BookRefusal;

/// A call on a table: an entry or a reading.
pub(crate) trait Call: Copy {
    // What it answers on a table, and what it makes of the table.
    ghost answer: { Self → Table → Result ℕ BookRefusal };

    ghost after: { Self → Table → Table };

    fn make(self, table: &mut Table) -> Result<u32, BookRefusal>
        ensures answer { result ≡ answer self table.old }
        ensures after { table.new ≡ after self table.old };
}

// Writes the answer of the call at a place, if there is room for it.
fn note(answers: &mut [Result<u32, BookRefusal>], place: usize, answer: Result<u32, BookRefusal>)
    ensures long { length answers.new ≡ length answers.old }
    ensures here { place < length answers.old → slice_index_or answers.new place (Ok 0) ≡ answer }
    ensures others { (k : ℕ) → (k ≢ place) → slice_index_or answers.new k (Ok 0) ≡ slice_index_or answers.old k (Ok 0) }
{
    if place < answers.len() {
        answers[place] = answer;
    }
}

impl Table {
    // Makes calls in turn, and writes down what each answers, as far as there is room. Calls past the end of the
    // answers are made all the same.
    pub(crate) fn make_all<C: Call>(
        &mut self,
        calls: &[C],
        answers: &mut [Result<u32, BookRefusal>],
    )
        ensures after { self.new ≡ after_calls C.after calls.now self.old }
        ensures answered { (d : C) → Answered C.answer C.after d calls.now self.old answers.old answers.new }
    {
        for (place, call) in calls.iter().enumerate() {
            note(answers, place, call.make(self));
        }
    }
}
