// Entries of an open hour: what turns one down, and what it changes.
ghost use Rattle.std.specs.Prelude.{◌≡◌, ◌+◌, ◌-◌, ◌*◌, ◌<◌, ◌≤◌, min, true, false, List, length, Ok, Err, OnOk, IfOk, slice_index};
ghost use Rattle.table.specs.Effects.{answer_of, after_entry, after_entries, priced_answer, after_priced, unless, passes, in_group};
ghost use Rattle.table.specs.Groups.{units_of, with_units};
ghost use Rattle.table.specs.EntriesCount.{EntriesCount};
ghost use Rattle.table.specs.History.{Proper, Stands, accepted};
ghost use Rattle.table.specs.Rows.{added_unit, changed, moved};
ghost use Rattle.table.specs.Turns.{EntriesAnswered};
ghost use Rattle.table.specs.Entries.{view_of, added_rows, new_unit_rows, commit_rows, unit_rows};

use crate::calls::Call;
use crate::groups::Group;
use crate::limits::{MAX_ENERGY, MAX_PERCENTAGE, MAX_VOLUME};
use crate::records::{Buyer, Commitment, Plant, Table, UnitRecord};
use crate::refusals::{BookRefusal, UnitRefusal};
use crate::rows::Rows;
use curves::CurveRefusal;

/// An entry of an open hour. Plants, units and buyers go by their numbers, from 1. Any number may be given in any
/// field: the first refusal of those named here that applies turns the entry down.
#[derive(Clone, Copy)]
pub enum Entry {
    /// A new plant; refused with 4 or 5.
    AddPlant {
        /// Loss to the reference point (L), hundredths of a percent, at most 2,000.
        loss: u32,
    },
    /// A new competitive unit; refused with 1, 4, 5 or 6.
    AddCompetitive {
        /// Number of its plant.
        plant: u32,
        /// Declared gross energy, kWh, at most 2,000,000.
        declared: u32,
        /// Internal consumption (ρ), hundredths of a percent, at most 2,000.
        internal: u32,
    },
    /// A new guaranteed unit; refused with 1, 4, 5, 6 or 10.
    AddGuaranteed {
        /// Number of its plant.
        plant: u32,
        /// Declared gross energy, kWh, at most 2,000,000.
        declared: u32,
        /// Seasonal gross energy, kWh, at most 2,000,000.
        seasonal: u32,
        /// Internal consumption (ρ), hundredths of a percent, at most 2,000.
        internal: u32,
        /// β: 1 if it delivers to the distribution grid, else 0.
        feeds: u32,
    },
    /// Another declared gross energy of a unit; refused with 2 or 6.
    Correct {
        /// 1 competitive, 2 guaranteed.
        group: u32,
        /// Number of the unit in its group.
        unit: u32,
        /// Declared gross energy, kWh, at most 2,000,000.
        declared: u32,
    },
    /// A unit is put aside, so that it doesn't count at closing; refused with 2.
    PutAside {
        /// 1 competitive, 2 guaranteed.
        group: u32,
        /// Number of the unit in its group.
        unit: u32,
    },
    /// A unit is taken back, so that it counts; refused with 2.
    TakeBack {
        /// 1 competitive, 2 guaranteed.
        group: u32,
        /// Number of the unit in its group.
        unit: u32,
    },
    /// A new buyer; refused with 4 or 5.
    AddBuyer {
        /// Loss, hundredths of a percent, at most 2,000.
        loss: u32,
    },
    /// Energy that a plant sells ahead to a buyer; refused with 1, 3, 4, 6 or 7.
    Commit {
        /// Number of the plant.
        plant: u32,
        /// Number of the buyer.
        buyer: u32,
        /// Energy, kWh, from 1 to 20,000,000; a plant's volumes come to at most 20,000,000.
        volume: u32,
    },
}

// What turns down one more row with a loss.
fn check_added<T: Copy, const N: usize>(rows: &Rows<T, N>, loss: u32) -> Result<(), BookRefusal>
    ensures value { result ≡ passes (added_rows (min rows.now.count N) N loss) }
    ensures fits { OnOk result (rows.now.count < N) }
{
    rows.check_room()?;
    if loss > MAX_PERCENTAGE {
        return Err(BookRefusal::Percentage);
    }
    Ok(())
}

impl Table {
    // What turns a new unit of a group down.
    fn check_unit(&self, group: Group, unit: &UnitRecord) -> Result<(), BookRefusal>
        ensures value { result ≡ passes (new_unit_rows (min self.now.plants.count 32) (min (units_of group self.now).count 128) unit.now) }
        ensures fits { OnOk result ((units_of group self.now).count < 128) }
    {
        self.plants.place(unit.plant).ok_or(BookRefusal::NoPlant)?;
        self.units(group).check_room()?;
        if unit.internal > MAX_PERCENTAGE {
            return Err(BookRefusal::Percentage);
        }
        if unit.declared > MAX_ENERGY || unit.seasonal.is_some_and(|energy| energy > MAX_ENERGY) {
            return Err(BookRefusal::Energy);
        }
        if unit.feeds > 1 {
            return Err(BookRefusal::OutsideSet);
        }
        Ok(())
    }

    // What turns a commitment down; else the place of its plant.
    fn check_commitment(&self, commitment: &Commitment) -> Result<usize, BookRefusal>
        ensures value { result ≡ unless (commit_rows (view_of self.now) commitment.now.plant commitment.now.buyer commitment.now.volume) Err (Ok (commitment.now.plant - 1)) }
        ensures fits { IfOk result (λ place. (self.now.commitments.count < 768) × ((place < 32) × (slice_index self.now.sold place + commitment.now.volume ≤ 20000000))) }
    {
        let place = self
            .plants
            .place(commitment.plant)
            .ok_or(BookRefusal::NoPlant)?;
        self.buyers
            .place(commitment.buyer)
            .ok_or(BookRefusal::NoBuyer)?;
        self.commitments.check_room()?;
        let volume = commitment.volume;
        if volume == 0 || volume > MAX_VOLUME {
            return Err(BookRefusal::Energy);
        }
        if self.sold[place].saturating_add(volume) > MAX_VOLUME {
            return Err(BookRefusal::Commitments);
        }
        Ok(place)
    }

    fn add_plant(&mut self, loss: u32) -> Result<u32, BookRefusal>
        ensures answer { result ≡ answer_of (Entry.AddPlant loss) self.old }
        ensures after { self.new ≡ after_entry (Entry.AddPlant loss) self.old }
    {
        check_added(&self.plants, loss)?;
        Ok(self.plants.add(Plant::new(loss)))
    }

    fn add_buyer(&mut self, loss: u32) -> Result<u32, BookRefusal>
        ensures answer { result ≡ answer_of (Entry.AddBuyer loss) self.old }
        ensures after { self.new ≡ after_entry (Entry.AddBuyer loss) self.old }
    {
        check_added(&self.buyers, loss)?;
        Ok(self.buyers.add(Buyer::new(loss)))
    }

    fn add_unit(&mut self, group: Group, unit: UnitRecord) -> Result<u32, BookRefusal>
        ensures answer { result ≡ unless (new_unit_rows (min self.old.plants.count 32) (min (units_of group self.old).count 128) unit) Err (Ok ((units_of group self.old).count + 1)) }
        ensures after { self.new ≡ unless (new_unit_rows (min self.old.plants.count 32) (min (units_of group self.old).count 128) unit) (λ _. self.old) (with_units group (added_unit unit (units_of group self.old)) self.old) }
    {
        self.check_unit(group, &unit)?;
        Ok(self.units_mut(group).add_unit(unit))
    }

    /// Adds a competitive unit that comes with the outcome of making its price rows, and hands these back with its
    /// number. Refused with 1, 4, 5 or 6, then with the outcome's 8 or 9; nothing is then added. The table doesn't keep
    /// the rows.
    pub fn add_priced<R: Drop>(
        &mut self,
        plant: u32,
        declared: u32,
        internal: u32,
        rows: Result<R, CurveRefusal>,
    ) -> Result<(u32, R), UnitRefusal>
        ensures answer { result ≡ priced_answer plant declared internal rows self.old }
        ensures after { self.new ≡ after_priced plant declared internal rows self.old }
    {
        let unit = UnitRecord::competitive(plant, declared, internal);
        self.check_unit(Group::Competitive, &unit)?;
        let made = rows?;
        Ok((self.competitive.add_unit(unit), made))
    }

    fn commit(&mut self, plant: u32, buyer: u32, volume: u32) -> Result<u32, BookRefusal>
        ensures answer { result ≡ answer_of (Entry.Commit plant buyer volume) self.old }
        ensures after { self.new ≡ after_entry (Entry.Commit plant buyer volume) self.old }
    {
        let commitment = Commitment {
            plant,
            buyer,
            volume,
        };
        let place = self.check_commitment(&commitment)?;
        self.sold[place] += volume;
        Ok(self.commitments.add(commitment))
    }

    fn correct(&mut self, group: u32, unit: u32, declared: u32) -> Result<u32, BookRefusal>
        ensures answer { result ≡ answer_of (Entry.Correct group unit declared) self.old }
        ensures after { self.new ≡ after_entry (Entry.Correct group unit declared) self.old }
    {
        let group = Group::try_from(group)?;
        let place = self.units(group).place(unit).ok_or(BookRefusal::NoUnit)?;
        if declared > MAX_ENERGY {
            return Err(BookRefusal::Energy);
        }
        self.units_mut(group)
            .change(place, |unit| unit.correct(declared));
        Ok(unit)
    }

    // Puts a unit aside or takes it back.
    fn move_aside(&mut self, group: u32, unit: u32, aside: bool) -> Result<u32, BookRefusal>
        ensures answer { result ≡ unless (unit_rows (view_of self.old) group unit) Err (Ok unit) }
        ensures after { self.new ≡ unless (unit_rows (view_of self.old) group unit) (λ _. self.old) (in_group group (changed (moved aside) unit) self.old) }
    {
        let group = Group::try_from(group)?;
        let place = self.units(group).place(unit).ok_or(BookRefusal::NoUnit)?;
        self.units_mut(group)
            .change(place, |unit| unit.move_aside(aside));
        Ok(unit)
    }

    /// Takes an entry: answers the number of the row that it made or changed, or the first refusal that applies
    /// (`Entry` has those of each). A refused entry changes nothing.
    pub fn enter(&mut self, entry: Entry) -> Result<u32, BookRefusal>
        ensures answer { result ≡ answer_of entry self.old }
        ensures after { self.new ≡ after_entry entry self.old }
    {
        match entry {
            Entry::AddPlant { loss } => self.add_plant(loss),
            Entry::AddCompetitive {
                plant,
                declared,
                internal,
            } => {
                let added = UnitRecord::competitive(plant, declared, internal);
                self.add_unit(Group::Competitive, added)
            }
            Entry::AddGuaranteed {
                plant,
                declared,
                seasonal,
                internal,
                feeds,
            } => {
                let added = UnitRecord::new(plant, declared, Some(seasonal), internal, feeds);
                self.add_unit(Group::Guaranteed, added)
            }
            Entry::Correct {
                group,
                unit,
                declared,
            } => self.correct(group, unit, declared),
            Entry::PutAside { group, unit } => self.move_aside(group, unit, true),
            Entry::TakeBack { group, unit } => self.move_aside(group, unit, false),
            Entry::AddBuyer { loss } => self.add_buyer(loss),
            Entry::Commit {
                plant,
                buyer,
                volume,
            } => self.commit(plant, buyer, volume),
        }
    }

    /// Takes entries in turn; the refused ones change nothing. The answer of each is written at its place of `answers`,
    /// and those past its end are not written down.
    pub fn enter_all(&mut self, entries: &[Entry], answers: &mut [Result<u32, BookRefusal>])
        ensures after { self.new ≡ after_entries entries.now self.old }
        ensures answered { EntriesAnswered entries.now self.old answers.old answers.new }
        ensures stands { (h : List Entry) → Stands h self.old → Stands (accepted h entries.now) self.new }
        ensures counts { (h : List Entry) → Proper h → EntriesCount (accepted h entries.now) }
    {
        self.make_all(entries, answers);
    }
}

impl Call for Entry {
    ghost answer = { answer_of };

    ghost after = { after_entry };

    fn make(self, table: &mut Table) -> Result<u32, BookRefusal> {
        table.enter(self)
    }
}
