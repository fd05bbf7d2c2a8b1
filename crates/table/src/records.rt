// The records of the book's table, in arrays of fixed length: the engine has no heap.
ghost use Rattle.std.specs.Prelude.{◌≡◌, ◌+◌, ◌<◌, ◌≤◌, ◌*◌, None, [], slice_index_or, Some};
ghost use Rattle.table.specs.History.{Stands, empty_table};
ghost use Rattle.table.specs.Rows.{closed_figures, new_plant, new_unit, new_buyer, added_unit, corrected, moved, changed, with_reading, kept_reading, read_use};
ghost use Rattle.table.specs.Texts.{unit_text, plant_text, buyer_text, hour_text};
ghost use Rattle.table.specs.declared.records.UnitRecord.{UnitRecord};
ghost use Rattle.std.specs.Fn.{FnOnceReturnsAtMut};

use crate::rows::Rows;
use settlement::{CompetitiveEnergies, Control};
use std::fmt;

/// How many plants a book has room for; one more is refused with 4.
pub const PLANTS: usize = 32;

/// How many units of one contract group a book has room for, over all plants; one more is refused with 4.
pub const UNITS: usize = 128;

/// How many buyers a book has room for; one more is refused with 4.
pub const BUYERS: usize = 64;

/// How many commitments a book has room for; one more is refused with 4.
pub const COMMITMENTS: usize = 768;

/// What closing and settling find for a plant. It prints as its fields in order, a blank between.
#[derive(Clone, Copy, Debug, Default, PartialEq)]
pub struct PlantFigures {
    /// Its commitments (T), kWh, at most 20,000,000.
    pub committed: u32,
    /// What its units of both groups are allocated (ΣCo), kWh, at most its commitments.
    pub allocated: u32,
    /// Run support, kWh: what of its commitments no unit is allocated.
    pub run: u32,
    /// Final support, kWh: run and day support together.
    pub support: u64,
    /// Rate of its support, rial per MWh, at most 1,000,000,000.
    pub rate: u32,
    /// Cost of its support, thousandths of a rial; never negative.
    pub cost: u128,
}

/// What closing and settling find for a unit. It prints as its fields in order, a blank between.
#[derive(Clone, Copy, Debug, Default, PartialEq)]
pub struct UnitFigures {
    /// What it gets of its plant's commitments (Co), kWh, at most 2,000,000.
    pub allocated: u32,
    /// Billed energy (Bill), kWh, at most 2,000,000.
    pub billed: u32,
    /// What it is paid, thousandths of a rial, without adjustments; never negative.
    pub payment: u64,
}

/// What settling finds for a buyer. It prints as its fields in order, a blank between.
#[derive(Clone, Copy, Debug, Default, PartialEq)]
pub struct BuyerFigures {
    /// Its share of the hour's billed energy, kWh.
    pub share: u64,
    /// Net purchase, kWh: its share less its commitments; may be negative.
    pub net: i64,
}

/// What settling finds for the hour. It prints as its fields in order, a blank between.
#[derive(Clone, Copy, Debug, Default, PartialEq)]
pub struct HourFigures {
    /// The billed energy of all units, kWh.
    pub billed: u64,
    /// All commitments, kWh.
    pub committed: u64,
    /// Billed energy that falls to no buyer, kWh: all of it where no buyer has a weight, else 0.
    pub unassigned: u64,
}

/// Money beside a competitive unit's payment, in whole rial. One over 100,000,000 is refused with 9.
#[derive(Clone, Copy, Default)]
pub struct Adjustments {
    /// Opportunity payment, rial, at most 100,000,000.
    pub opportunity: u32,
    /// Planning penalty, rial, at most 100,000,000.
    pub planning: u32,
    /// Non-cooperation penalty, rial, at most 100,000,000.
    pub cooperation: u32,
}

/// A competitive unit's reading. A guaranteed unit's is kept as one too, with all but net energy and `control` 0.
#[derive(Clone, Copy, Default)]
pub struct UnitReading {
    /// Energies, each at most 2,000,000 kWh, with UL at most accepted and lost together; and α, 0 or 1.
    pub energies: CompetitiveEnergies,
    /// Adjustments, each at most 100,000,000 rial.
    pub adjustments: Adjustments,
    /// P_Act and the deviations, each at most 2,000,000 kWh; maintenance day, 0 to 400; exit minute, 0 to 1,439.
    pub control: Control,
}

/// A guaranteed unit's reading.
#[derive(Clone, Copy, Default)]
pub struct GuaranteedReading {
    /// Net energy, kWh, at most 2,000,000.
    pub net: u32,
    /// P_Act and the deviations, each at most 2,000,000 kWh; maintenance day, 0 to 400; exit minute, 0 to 1,439.
    pub control: Control,
}

/// A plant that was entered.
#[derive(Clone, Copy, Default)]
pub struct Plant {
    /// Loss to the reference point (L), hundredths of a percent, at most 2,000.
    pub loss: u32,
    /// Zeros until closing and settling write them.
    pub figures: PlantFigures,
}

/// A unit of either group that was entered.
#[derive(Clone, Copy, Default)]
pub struct UnitRecord {
    /// Number of its plant, from 1.
    pub plant: u32,
    /// Declared gross energy, kWh, at most 2,000,000, after its last correction.
    pub declared: u32,
    /// Seasonal gross energy of a guaranteed unit, kWh, at most 2,000,000; a competitive unit has none.
    pub seasonal: Option<u32>,
    /// Internal consumption (ρ), hundredths of a percent, at most 2,000.
    pub internal: u32,
    /// β: 1 if it delivers to the distribution grid, else 0; 0 of a competitive unit.
    pub feeds: u32,
    /// Whether it is put aside, so that it doesn't count at closing.
    pub aside: bool,
    /// Its last accepted reading; without one, settling reads zeros.
    pub reading: Option<UnitReading>,
    /// Zeros until closing and settling write them.
    pub figures: UnitFigures,
}

/// A buyer that was entered.
#[derive(Clone, Copy, Default)]
pub struct Buyer {
    /// Loss, hundredths of a percent, at most 2,000.
    pub loss: u32,
    /// Its last accepted use, kWh, at most 50,000,000; without one, settling reads 0.
    pub used: Option<u32>,
    /// Zeros until settling.
    pub figures: BuyerFigures,
}

/// Energy that a plant sells ahead to a buyer.
#[derive(Clone, Copy, Default)]
pub struct Commitment {
    /// Number of the plant, from 1.
    pub plant: u32,
    /// Number of the buyer, from 1.
    pub buyer: u32,
    /// Energy, kWh, from 1 to 20,000,000.
    pub volume: u32,
}

// Every program prints figures by these texts.
impl fmt::Display for UnitFigures {
    ghost output = { λ u. Some (unit_text u) };

    fn fmt<W: fmt::Write>(&self, f: &mut fmt::Formatter<W>) -> fmt::Result {
        write!(f, "{} {} {}", self.allocated, self.billed, self.payment)
    }
}

impl fmt::Display for PlantFigures {
    ghost output = { λ p. Some (plant_text p) };

    fn fmt<W: fmt::Write>(&self, f: &mut fmt::Formatter<W>) -> fmt::Result {
        write!(
            f,
            "{} {} {} {} {} {}",
            self.committed, self.allocated, self.run, self.support, self.rate, self.cost
        )
    }
}

impl fmt::Display for BuyerFigures {
    ghost output = { λ b. Some (buyer_text b) };

    fn fmt<W: fmt::Write>(&self, f: &mut fmt::Formatter<W>) -> fmt::Result {
        write!(f, "{} {}", self.share, self.net)
    }
}

impl fmt::Display for HourFigures {
    ghost output = { λ h. Some (hour_text h) };

    fn fmt<W: fmt::Write>(&self, f: &mut fmt::Formatter<W>) -> fmt::Result {
        write!(f, "{} {} {}", self.billed, self.committed, self.unassigned)
    }
}

impl PlantFigures {
    // The figures of closing: what of the commitments is no run support is allocated.
    pub(crate) fn closed(committed: u32, run: u32) -> PlantFigures
        ensures { result ≡ closed_figures committed run }
    {
        let allocated = committed.saturating_sub(run);
        PlantFigures {
            committed,
            allocated,
            run,
            ..PlantFigures::default()
        }
    }
}

impl GuaranteedReading {
    // The reading as a unit of either group keeps it.
    pub(crate) fn kept(&self) -> UnitReading
        ensures { result ≡ kept_reading self.now }
    {
        UnitReading {
            energies: CompetitiveEnergies {
                net: self.net,
                ..CompetitiveEnergies::default()
            },
            adjustments: Adjustments::default(),
            control: self.control,
        }
    }
}

impl Plant {
    /// A plant without figures.
    pub(crate) fn new(loss: u32) -> Plant
        ensures { result ≡ new_plant loss }
    {
        Plant {
            loss,
            ..Plant::default()
        }
    }
}

impl UnitRecord {
    /// A unit as it is entered: not aside, and without reading or figures.
    pub(crate) fn new(
        plant: u32,
        declared: u32,
        seasonal: Option<u32>,
        internal: u32,
        feeds: u32,
    ) -> UnitRecord
        ensures { result ≡ new_unit plant declared seasonal internal feeds }
    {
        UnitRecord {
            plant,
            declared,
            seasonal,
            internal,
            feeds,
            ..UnitRecord::default()
        }
    }

    /// A competitive unit as it is entered.
    pub(crate) fn competitive(plant: u32, declared: u32, internal: u32) -> UnitRecord
        ensures { result ≡ new_unit plant declared None internal 0 }
    {
        UnitRecord::new(plant, declared, None, internal, 0)
    }

    // The seasonal energy stays, and with it a guaranteed unit's limit.
    pub(crate) fn correct(&mut self, declared: u32)
        ensures { self.new ≡ corrected declared self.old }
    {
        self.declared = declared;
    }

    pub(crate) fn move_aside(&mut self, aside: bool)
        ensures { self.new ≡ moved aside self.old }
    {
        self.aside = aside;
    }

    pub(crate) fn read(&mut self, reading: UnitReading)
        ensures { self.new ≡ with_reading reading self.old }
    {
        self.reading = Some(reading);
    }
}

impl UnitTable {
    // Adds a unit behind those that are entered, and answers its number. What was read for that number stays.
    pub(crate) fn add_unit(&mut self, unit: UnitRecord) -> u32
        requires { self.old.count < 128 }
        ensures number { result ≡ self.old.count + 1 }
        ensures after { self.new ≡ added_unit unit self.old }
    {
        let reading = self.rows[self.count].reading;
        self.add(UnitRecord { reading, ..unit })
    }

    /// Lends the record of the unit at a place to a function that changes it: that record and no other.
    pub(crate) fn change<F: FnOnce(&mut UnitRecord)>(&mut self, place: usize, change: F)
        requires place { place < 128 }
        requires callable { F.IsAlwaysCallable change }
        ensures { (u : UnitRecord) × FnOnceReturnsAtMut F.FnOnce change (slice_index_or self.old.rows place (new_unit 0 0 None 0 0)) tt u × (self.new ≡ changed (λ _. u) (place + 1) self.old) }
    {
        change(&mut self.rows[place]);
    }
}

impl Buyer {
    /// A buyer whose use was not read.
    pub(crate) fn new(loss: u32) -> Buyer
        ensures { result ≡ new_buyer loss }
    {
        Buyer {
            loss,
            ..Buyer::default()
        }
    }

    pub(crate) fn read(&mut self, used: u32)
        ensures { self.new ≡ read_use used self.old }
    {
        self.used = Some(used);
    }
}

/// The units of one group, over all plants, at most 128.
pub type UnitTable = Rows<UnitRecord, UNITS>;

/// What an hour holds. The row of number n of a kind is at place n - 1.
#[derive(Drop)]
pub struct Table {
    /// At most 32 plants.
    pub plants: Rows<Plant, PLANTS>,
    /// The units of group 1, at most 128.
    pub competitive: UnitTable,
    /// The units of group 2, at most 128.
    pub guaranteed: UnitTable,
    /// At most 64 buyers.
    pub buyers: Rows<Buyer, BUYERS>,
    /// At most 768 commitments.
    pub commitments: Rows<Commitment, COMMITMENTS>,
    /// What each plant has sold, by its place: the sum of its commitments, kWh, at most 20,000,000. Kept beside them,
    /// so that a further one need not add them all up again.
    pub sold: [u32; PLANTS],
    /// Zeros until settling.
    pub figures: HourFigures,
}

impl Table {
    /// A table in which nothing is entered: every count is 0.
    pub fn empty() -> Table
        ensures value { result ≡ empty_table }
        ensures stands { Stands [] result }
    {
        let units = Rows::empty([UnitRecord::default(); UNITS]);
        Table {
            plants: Rows::empty([Plant::default(); PLANTS]),
            competitive: units,
            guaranteed: units,
            buyers: Rows::empty([Buyer::default(); BUYERS]),
            commitments: Rows::empty([Commitment::default(); COMMITMENTS]),
            sold: [0; PLANTS],
            figures: HourFigures::default(),
        }
    }
}
