// The open hour: it takes entries and closing.
ghost use Rattle.std.specs.Prelude.{◌≡◌};
ghost use Rattle.table.specs.Closing.{Closed};
ghost use Rattle.book.specs.Hours.{offers_by};
ghost use Rattle.book.specs.Taken.{EntryTaken, PricedTaken, EntriesTaken, ClosesBy};

use crate::book::Book;
use crate::closed::ClosedHour;
use curves::{CurveRefusal, Offer};
use settling::Header;
use table::{BookRefusal, Entry, UnitRefusal};

/// An open hour: it takes entries and closing, and borrows the book. An entry after closing doesn't build. Refusals are
/// named below in the order in which they are looked for, and the first that applies is answered.
#[derive(Drop)]
pub struct OpenHour<'b> {
    pub(crate) book: &'b mut Book,
    pub(crate) header: Header,
}

impl<'b> OpenHour<'b> {
    /// The header that the hour was opened with.
    pub fn header(&self) -> Header
        ensures { result ≡ self.now.header }
    {
        self.header
    }

    /// Takes an entry: answers the number of the row that it made or changed, or the first refusal that applies
    /// (`Entry` has those of each). The book then holds it; a refused one changes nothing.
    pub fn enter(&mut self, entry: Entry) -> Result<u32, BookRefusal>
        ensures { EntryTaken entry result self.old self.new }
    {
        self.book.table.enter(entry)
    }

    /// Adds a plant with its loss to the reference point (L), hundredths of a percent, and answers its number, from 1.
    /// Refused with 4 where there are 32 plants, then with 5 where the loss is over 2,000; nothing is then added.
    pub fn add_plant(&mut self, loss: u32) -> Result<u32, BookRefusal>
        ensures { EntryTaken (Entry.AddPlant loss) result self.old self.new }
    {
        self.enter(Entry::AddPlant { loss })
    }

    /// Adds a competitive unit of a plant, with its declared gross energy, kWh, and internal consumption (ρ),
    /// hundredths of a percent; answers its number in group 1. Refused with 1 (no such plant), 4 (128 units), 5 (ρ over
    /// 2,000) or 6 (energy over 2,000,000); nothing is then added.
    pub fn add_competitive(
        &mut self,
        plant: u32,
        declared: u32,
        internal: u32,
    ) -> Result<u32, BookRefusal>
        ensures { EntryTaken (Entry.AddCompetitive plant declared internal) result self.old self.new }
    {
        self.enter(Entry::AddCompetitive {
            plant,
            declared,
            internal,
        })
    }

    /// Adds a competitive unit that comes with the outcome of making its price rows, and hands these back with its
    /// number. Refused with 1, 4, 5 or 6 as `add_competitive`, then with the outcome's 8 or 9; nothing is then added,
    /// and the rows are dropped. The book doesn't keep the rows: the caller hands them to closing and settling.
    pub fn add_priced<R: Drop>(
        &mut self,
        plant: u32,
        declared: u32,
        internal: u32,
        rows: Result<R, CurveRefusal>,
    ) -> Result<(u32, R), UnitRefusal>
        ensures { PricedTaken plant declared internal rows result self.old self.new }
    {
        self.book.table.add_priced(plant, declared, internal, rows)
    }

    /// Adds a guaranteed unit of a plant, with its declared and seasonal gross energy, kWh, its internal consumption
    /// (ρ), hundredths of a percent, and β as `feeds`, 0 or 1; answers its number in group 2. Refused with 1, 4, 5 or 6
    /// as `add_competitive`, or with 10 (β over 1); nothing is then added.
    pub fn add_guaranteed(
        &mut self,
        plant: u32,
        declared: u32,
        seasonal: u32,
        internal: u32,
        feeds: u32,
    ) -> Result<u32, BookRefusal>
        ensures { EntryTaken (Entry.AddGuaranteed plant declared seasonal internal feeds) result self.old self.new }
    {
        self.enter(Entry::AddGuaranteed {
            plant,
            declared,
            seasonal,
            internal,
            feeds,
        })
    }

    /// Corrects the declared gross energy, kWh, of a unit of group 1 or 2, and answers its number. Refused with 2 (no
    /// such group or unit) or 6 (energy over 2,000,000); nothing is then changed.
    pub fn correct(&mut self, group: u32, unit: u32, declared: u32) -> Result<u32, BookRefusal>
        ensures { EntryTaken (Entry.Correct group unit declared) result self.old self.new }
    {
        self.enter(Entry::Correct {
            group,
            unit,
            declared,
        })
    }

    /// Puts a unit of group 1 or 2 aside, so that it doesn't count at closing, and answers its number; it may be aside
    /// already. Refused with 2 (no such group or unit); nothing is then changed.
    pub fn put_aside(&mut self, group: u32, unit: u32) -> Result<u32, BookRefusal>
        ensures { EntryTaken (Entry.PutAside group unit) result self.old self.new }
    {
        self.enter(Entry::PutAside { group, unit })
    }

    /// Takes a unit of group 1 or 2 back that was put aside, and answers its number; it need not be aside. Refused with
    /// 2 (no such group or unit); nothing is then changed.
    pub fn take_back(&mut self, group: u32, unit: u32) -> Result<u32, BookRefusal>
        ensures { EntryTaken (Entry.TakeBack group unit) result self.old self.new }
    {
        self.enter(Entry::TakeBack { group, unit })
    }

    /// Adds a buyer with its loss, hundredths of a percent, and answers its number, from 1. Refused with 4 where there
    /// are 64 buyers, then with 5 where the loss is over 2,000; nothing is then added.
    pub fn add_buyer(&mut self, loss: u32) -> Result<u32, BookRefusal>
        ensures { EntryTaken (Entry.AddBuyer loss) result self.old self.new }
    {
        self.enter(Entry::AddBuyer { loss })
    }

    /// Sells a volume of a plant's energy, kWh, ahead to a buyer, and answers the commitment's number, from 1. Refused
    /// with 1 (no such plant), 3 (no such buyer), 4 (768 commitments), 6 (volume 0 or over 20,000,000) or 7 (the
    /// plant's commitments would pass 20,000,000); nothing is then added.
    pub fn commit(&mut self, plant: u32, buyer: u32, volume: u32) -> Result<u32, BookRefusal>
        ensures { EntryTaken (Entry.Commit plant buyer volume) result self.old self.new }
    {
        self.enter(Entry::Commit {
            plant,
            buyer,
            volume,
        })
    }

    /// Takes entries in turn, as `enter` does. What each answers is written at its place of the caller's `answers`;
    /// entries past the end of the answers are taken all the same.
    pub fn enter_all(&mut self, entries: &[Entry], answers: &mut [Result<u32, BookRefusal>])
        ensures { EntriesTaken entries.now answers.old answers.new self.old self.new }
    {
        self.book.table.enter_all(entries, answers);
    }

    /// Closes the hour: splits each plant's commitments over its units. Unit n has its offer at place n - 1 of `offers`
    /// (group 1) or of `guaranteed` (group 2), and doesn't count without one. The slices are only read. The book then
    /// holds what each unit is allocated and each plant's run support. Can't be turned down.
    pub fn close<O: Offer, G: Offer>(self, offers: &[O], guaranteed: &[G]) -> ClosedHour<'b>
        ensures closed { Closed O.Curve.prices offers.now G.Curve.prices guaranteed.now self.entry.book.now.table result.book.now.table }
        ensures header { result.header ≡ self.entry.header }
        ensures book { result.book.ghost_name ≡ self.entry.book.ghost_name }
        ensures stands { ClosesBy (offers_by O.Curve.prices offers.now G.Curve.prices guaranteed.now) self.entry result }
    {
        self.book.table.close(offers, guaranteed);
        ClosedHour {
            book: self.book,
            header: self.header,
        }
    }
}
