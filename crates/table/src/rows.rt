// Rows in an array of fixed length: the engine has no heap.
ghost use Rattle.std.specs.Prelude.{◌≡◌, ◌+◌, ◌*◌, ◌<◌, min, length, take, IfSome, OnOk};
ghost use Rattle.table.specs.Effects.{passes};
ghost use Rattle.table.specs.Entries.{room_rows, row_place};
ghost use Rattle.table.specs.Rows.{added};

use crate::refusals::BookRefusal;

/// Rows of one kind, of which the first `count` are entered. The row of number n, from 1, is at place n - 1.
#[derive(Clone, Copy)]
pub struct Rows<T, const N: usize> {
    /// How many are entered; over `N` is read as `N`.
    pub count: usize,
    /// Room for `N` rows, those that are entered first.
    pub rows: [T; N],
}

impl<T: Copy, const N: usize> Rows<T, N> {
    // Rows of which none is entered.
    pub(crate) fn empty(rows: [T; N]) -> Rows<T, N>
        ensures { result ≡ record { count = 0; rows = rows } }
    {
        Rows { count: 0, rows }
    }

    /// The rows that are entered, at most `N`, lent for reading.
    pub fn entered(&self) -> &[T]
        ensures value { result.now ≡ take (min self.now.count N) self.now.rows }
        ensures few { length result.now ≡ min self.now.count N }
    {
        &self.rows[..self.count.min(N)]
    }

    // What turns a further row down: that there is no room for it.
    pub(crate) fn check_room(&self) -> Result<(), BookRefusal>
        ensures value { result ≡ passes (room_rows self.now.count N) }
        ensures fits { OnOk result (self.now.count < N) }
    {
        if self.count >= N {
            return Err(BookRefusal::Full);
        }
        Ok(())
    }

    // Adds a row behind those that are entered, and answers its number.
    pub(crate) fn add(&mut self, row: T) -> u32
        requires { (self.old.count < N) × (self.old.count < 4294967295) }
        ensures number { result ≡ self.old.count + 1 }
        ensures after { self.new ≡ added row self.old }
    {
        self.rows[self.count] = row;
        self.count += 1;
        self.count as u32
    }

    /// The place, below `N`, of the row of a number, from 1; `None` where no such row is entered.
    pub fn place(&self, number: u32) -> Option<usize>
        ensures place { result ≡ row_place number (min self.now.count N) }
        ensures fits { IfSome result (λ place. place < N) }
    {
        let place = (number as usize).checked_sub(1)?;
        (place < self.entered().len()).then_some(place)
    }
}
