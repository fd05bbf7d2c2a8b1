// The calls that records stand for.
ghost use Rattle.std.specs.Prelude.{◌≡◌, ◌≤◌};
ghost use Rattle.hourfile.specs.Words.{words};
ghost use Rattle.hourfile.specs.Format.{plain};
ghost use Rattle.hourfile.specs.Calls.{entry_of, change_of, reading_of, control_at, unit_reading};

use crate::records::Record;
use crate::words::{Word, value_at};
use settlement::{CompetitiveEnergies, Control};
use table::{Adjustments, Entry, GuaranteedReading, Reading, UnitReading};

// The control part of a reading, whose eight fields begin at a place.
fn control_at(values: &[Word], place: usize) -> Control
    requires { place ≤ 7 }
    ensures { result ≡ control_at (words values.now) place }
{
    Control {
        p_act: value_at(values, place),
        type2: value_at(values, place + 1),
        type3: value_at(values, place + 2),
        type5: value_at(values, place + 3),
        type6: value_at(values, place + 4),
        type8: value_at(values, place + 5),
        day: value_at(values, place + 6),
        minute: value_at(values, place + 7),
    }
}

// A competitive unit's reading, behind the unit's number.
fn unit_reading(values: &[Word]) -> UnitReading
    ensures { result ≡ unit_reading (words values.now) }
{
    UnitReading {
        energies: CompetitiveEnergies {
            net: value_at(values, 1),
            accepted: value_at(values, 2),
            lost: value_at(values, 3),
            limited: value_at(values, 4),
            executed: value_at(values, 5),
            asked: value_at(values, 6),
        },
        adjustments: Adjustments {
            opportunity: value_at(values, 15),
            planning: value_at(values, 16),
            cooperation: value_at(values, 17),
        },
        control: control_at(values, 7),
    }
}

impl Record<'_> {
    /// The entry of a record of kind 2 or 4 to 9; none for any other. A competitive unit (kind 3) is added with its two
    /// step lists, which `stepped` reads.
    pub fn entry(&self) -> Option<Entry>
        ensures { result ≡ entry_of (plain self.now) }
    {
        let entry = match self {
            Record::Plant(v) => Entry::AddPlant {
                loss: value_at(v, 0),
            },
            Record::GuaranteedUnit(v) => Entry::AddGuaranteed {
                plant: value_at(v, 0),
                declared: value_at(v, 1),
                seasonal: value_at(v, 2),
                internal: value_at(v, 3),
                feeds: value_at(v, 4),
            },
            Record::Buyer(v) => Entry::AddBuyer {
                loss: value_at(v, 0),
            },
            Record::Commit(v) => Entry::Commit {
                plant: value_at(v, 0),
                buyer: value_at(v, 1),
                volume: value_at(v, 2),
            },
            _ => return self.change(),
        };
        Some(entry)
    }

    // The entry of a record of kind 7 to 9, which changes a unit.
    fn change(&self) -> Option<Entry>
        ensures { result ≡ change_of (plain self.now) }
    {
        let entry = match self {
            Record::Correct(v) => Entry::Correct {
                group: value_at(v, 0),
                unit: value_at(v, 1),
                declared: value_at(v, 2),
            },
            Record::PutAside(v) => Entry::PutAside {
                group: value_at(v, 0),
                unit: value_at(v, 1),
            },
            Record::TakeBack(v) => Entry::TakeBack {
                group: value_at(v, 0),
                unit: value_at(v, 1),
            },
            _ => return None,
        };
        Some(entry)
    }

    /// The reading of a record of kind 11 to 13, with its values as they stand; none for any other.
    pub fn reading(&self) -> Option<Reading>
        ensures { result ≡ reading_of (plain self.now) }
    {
        let reading = match self {
            Record::CompetitiveReading(v) => Reading::Competitive {
                unit: value_at(v, 0),
                reading: unit_reading(v),
            },
            Record::GuaranteedReading(v) => Reading::Guaranteed {
                unit: value_at(v, 0),
                reading: GuaranteedReading {
                    net: value_at(v, 1),
                    control: control_at(v, 2),
                },
            },
            Record::BuyerReading(v) => Reading::Use {
                buyer: value_at(v, 0),
                used: value_at(v, 1),
            },
            _ => return None,
        };
        Some(reading)
    }
}
