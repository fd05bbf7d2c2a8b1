// Readings of a closed hour: what turns one down, and what it changes.
ghost use Rattle.std.specs.Prelude.{◌≡◌, ◌+◌, ◌<◌, min, List, length, Ok, Err};
ghost use Rattle.table.specs.Effects.{unless, passes};
ghost use Rattle.table.specs.Entries.{view_of};
ghost use Rattle.table.specs.Groups.{units_of, with_units};
ghost use Rattle.table.specs.Metered.{Metered, accepted_readings};
ghost use Rattle.table.specs.ReadingsCount.{ReadingsCount};
ghost use Rattle.table.specs.Rows.{read_unit};
ghost use Rattle.table.specs.Turns.{ReadingsAnswered};
ghost use Rattle.table.specs.Readings.{greatest_energy, greatest_control, greatest_adjustment, outside, measured_rows, competitive_reading_rows, reading_answer, after_reading, after_readings};

use crate::calls::Call;
use crate::groups::Group;
use crate::limits::{MAX_ADJUSTMENT, MAX_DAY, MAX_ENERGY, MAX_MINUTE, MAX_USE};
use crate::records::{Adjustments, GuaranteedReading, Table, UnitReading};
use crate::refusals::BookRefusal;
use settlement::{CompetitiveEnergies, Control};

/// A reading of a closed hour, by the number of its unit or buyer. Any number may be given in any field: the first
/// refusal of those named here that applies turns the reading down.
#[derive(Clone, Copy)]
pub enum Reading {
    /// What a buyer used; refused with 3 or 6.
    Use {
        /// Number of the buyer.
        buyer: u32,
        /// Energy, kWh, at most 50,000,000.
        used: u32,
    },
    /// Of a competitive unit; refused with 2, 6, 9, 10 or 11.
    Competitive {
        /// Number of the unit in group 1.
        unit: u32,
        /// Its 17 fields.
        reading: UnitReading,
    },
    /// Of a guaranteed unit; refused with 2, 6 or 10.
    Guaranteed {
        /// Number of the unit in group 2.
        unit: u32,
        /// Its 9 fields.
        reading: GuaranteedReading,
    },
}

fn greatest_energy(e: &CompetitiveEnergies) -> u32
    ensures { result ≡ greatest_energy e.now }
{
    e.net
        .max(e.accepted)
        .max(e.lost)
        .max(e.limited)
        .max(e.executed)
}

fn greatest_control(c: &Control) -> u32
    ensures { result ≡ greatest_control c.now }
{
    c.p_act
        .max(c.type2)
        .max(c.type3)
        .max(c.type5)
        .max(c.type6)
        .max(c.type8)
}

fn is_outside(c: &Control) -> bool
    ensures { result ≡ outside c.now }
{
    c.day > MAX_DAY || c.minute > MAX_MINUTE
}

impl Adjustments {
    fn greatest(&self) -> u32
        ensures { result ≡ greatest_adjustment self.now }
    {
        self.opportunity.max(self.planning).max(self.cooperation)
    }
}

impl UnitReading {
    // What turns the reading down, whichever unit it is of.
    fn check(&self) -> Result<(), BookRefusal>
        ensures { result ≡ passes (measured_rows self.now) }
    {
        if greatest_energy(&self.energies).max(greatest_control(&self.control)) > MAX_ENERGY {
            return Err(BookRefusal::Energy);
        }
        if self.adjustments.greatest() > MAX_ADJUSTMENT {
            return Err(BookRefusal::Price);
        }
        if self.energies.asked > 1 || is_outside(&self.control) {
            return Err(BookRefusal::OutsideSet);
        }
        let offered = self.energies.accepted as u64 + self.energies.lost as u64;
        if self.energies.limited as u64 > offered {
            return Err(BookRefusal::Limited);
        }
        Ok(())
    }
}

impl Table {
    fn read_unit(
        &mut self,
        group: Group,
        unit: u32,
        reading: UnitReading,
    ) -> Result<u32, BookRefusal>
        ensures answer { result ≡ unless (competitive_reading_rows (min (units_of group self.old).count 128) unit reading) Err (Ok unit) }
        ensures after { self.new ≡ unless (competitive_reading_rows (min (units_of group self.old).count 128) unit reading) (λ _. self.old) (with_units group (read_unit reading unit (units_of group self.old)) self.old) }
    {
        let place = self.units(group).place(unit).ok_or(BookRefusal::NoUnit)?;
        reading.check()?;
        self.units_mut(group)
            .change(place, |unit| unit.read(reading));
        Ok(unit)
    }

    fn read_use(&mut self, buyer: u32, used: u32) -> Result<u32, BookRefusal>
        ensures answer { result ≡ reading_answer (Reading.Use buyer used) self.old }
        ensures after { self.new ≡ after_reading (Reading.Use buyer used) self.old }
    {
        let place = self.buyers.place(buyer).ok_or(BookRefusal::NoBuyer)?;
        if used > MAX_USE {
            return Err(BookRefusal::Energy);
        }
        self.buyers.rows[place].read(used);
        Ok(buyer)
    }

    /// Takes a reading: answers the number of its unit or buyer, or the first refusal that applies (`Reading` has those
    /// of each). It replaces an earlier one whole; a refused one changes nothing.
    pub fn read(&mut self, reading: Reading) -> Result<u32, BookRefusal>
        ensures answer { result ≡ reading_answer reading self.old }
        ensures after { self.new ≡ after_reading reading self.old }
    {
        match reading {
            Reading::Competitive { unit, reading } => {
                self.read_unit(Group::Competitive, unit, reading)
            }
            Reading::Guaranteed { unit, reading } => {
                self.read_unit(Group::Guaranteed, unit, reading.kept())
            }
            Reading::Use { buyer, used } => self.read_use(buyer, used),
        }
    }

    /// Takes readings in turn; the refused ones change nothing. The answer of each is written at its place of
    /// `answers`, and those past its end are not written down.
    pub fn read_all(&mut self, readings: &[Reading], answers: &mut [Result<u32, BookRefusal>])
        ensures after { self.new ≡ after_readings readings.now self.old }
        ensures answered { ReadingsAnswered readings.now self.old answers.old answers.new }
        ensures metered { (rs : List Reading) → Metered rs self.old → Metered (accepted_readings (view_of self.old) rs readings.now) self.new }
        ensures counts { (rs : List Reading) → ReadingsCount (accepted_readings (view_of self.old) rs readings.now) }
    {
        self.make_all(readings, answers);
    }
}

impl Call for Reading {
    ghost answer = { reading_answer };

    ghost after = { after_reading };

    fn make(self, table: &mut Table) -> Result<u32, BookRefusal> {
        table.read(self)
    }
}
