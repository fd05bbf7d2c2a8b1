// The book: one hour at a time.
ghost use Rattle.std.specs.Prelude.{◌≡◌, []};
ghost use Rattle.book.specs.Hours.{IsOpen};
ghost use Rattle.table.specs.History.{empty_table};

use crate::open::OpenHour;
use settling::Header;
use table::Table;

/// A book with room for one hour: 32 plants, 128 units of each group, 64 buyers and 768 commitments.
#[derive(Drop)]
pub struct Book {
    pub(crate) table: Table,
}

impl Book {
    /// A book in which nothing is entered.
    pub fn new() -> Book
        ensures { result.table ≡ empty_table }
    {
        let table = Table::empty();
        Book { table }
    }

    /// Opens an empty hour of a header, whatever the book held. The hour borrows the book until it is let go or
    /// released. Can't be turned down.
    #[tactic(auto, using(crate::proofs::Hours::empty_open))]
    pub fn open<'b>(&'b mut self, header: Header) -> OpenHour<'b>
        ensures empty { result.book.now.table ≡ empty_table }
        ensures header { result.header ≡ header }
        ensures book { result.book.ghost_name ≡ self.entry.ghost_name }
        ensures stands { IsOpen header [] result }
    {
        self.table = Table::empty();
        OpenHour { book: self, header }
    }
}
