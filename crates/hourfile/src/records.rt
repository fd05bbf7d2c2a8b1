// The records of an hour file.
ghost use Rattle.std.specs.Prelude.{◌≡◌};
ghost use Rattle.std.specs.Option.{option_map};
ghost use Rattle.hourfile.specs.Words.{words};
ghost use Rattle.hourfile.specs.Format.{plain, record_of, shaped, unit_fits};

use crate::words::{Word, all_values, value_at};

/// A record by its kind. It holds its values, the words behind its head, as they lie in the file. Energies are in kWh,
/// prices and rates in rial per MWh, losses and ρ in hundredths of a percent; docs/hour.md has all fields.
#[derive(Clone, Copy)]
pub enum Record<'f> {
    /// Kind 1, the header, 5 values: ceiling, CPF, BAR, saving, rate.
    Header(&'f [Word]),
    /// Kind 2, a new plant, 1 value: its loss.
    Plant(&'f [Word]),
    /// Kind 3, a new competitive unit, an even number of values, at least 4 + 2 × n: plant, declared gross, ρ, n, then
    /// n steps of the offer, then the steps of the cost curve; a step is its width and its price.
    CompetitiveUnit(&'f [Word]),
    /// Kind 4, a new guaranteed unit, 5 values: plant, declared gross, seasonal gross, ρ, β.
    GuaranteedUnit(&'f [Word]),
    /// Kind 5, a new buyer, 1 value: its loss.
    Buyer(&'f [Word]),
    /// Kind 6, a commitment, 3 values: plant, buyer, volume.
    Commit(&'f [Word]),
    /// Kind 7, a correction, 3 values: group, unit, new declared gross.
    Correct(&'f [Word]),
    /// Kind 8, a unit that is put aside, 2 values: group, unit.
    PutAside(&'f [Word]),
    /// Kind 9, a unit that is taken back, 2 values: group, unit.
    TakeBack(&'f [Word]),
    /// Kind 10, closing, no value.
    Close(&'f [Word]),
    /// Kind 11, a competitive unit's reading, 18 values: unit; net, accepted, lost, UL, executed gross energy; α;
    /// P_Act; deviations of types 2, 3, 5, 6, 8; day, minute; opportunity payment, planning and non-cooperation
    /// penalty.
    CompetitiveReading(&'f [Word]),
    /// Kind 12, a guaranteed unit's reading, 10 values: unit; net energy; P_Act; deviations of types 2, 3, 5, 6, 8;
    /// day, minute.
    GuaranteedReading(&'f [Word]),
    /// Kind 13, a buyer's reading, 2 values: buyer, use.
    BuyerReading(&'f [Word]),
    /// Kind 14, settling, no value.
    Settle(&'f [Word]),
}

// Whether a competitive unit can have these values: four, then at least as many steps as the fourth says.
fn unit_fits(values: &[Word]) -> bool
    ensures { result ≡ unit_fits (words values.now) }
{
    let count = values.len();
    count >= 4 && count.is_multiple_of(2) && value_at(values, 3) as u64 * 2 <= count as u64 - 4
}

impl<'f> Record<'f> {
    /// The record of a kind with these words after its head, if each is a value and they are as many as the kind asks.
    pub(crate) fn new(kind: u32, values: &'f [Word]) -> Option<Record<'f>>
        ensures { option_map plain result ≡ record_of kind (words values.now) }
    {
        if !all_values(values) {
            return None;
        }
        Record::shaped(kind, values)
    }

    // The record of a kind with these values, if they are as many as the kind asks.
    fn shaped(kind: u32, values: &'f [Word]) -> Option<Record<'f>>
        ensures { option_map plain result ≡ shaped kind (words values.now) }
    {
        match (kind, values.len()) {
            (1, 5) => Some(Record::Header(values)),
            (2, 1) => Some(Record::Plant(values)),
            (3, _) if unit_fits(values) => Some(Record::CompetitiveUnit(values)),
            (4, 5) => Some(Record::GuaranteedUnit(values)),
            (5, 1) => Some(Record::Buyer(values)),
            (6, 3) => Some(Record::Commit(values)),
            (7, 3) => Some(Record::Correct(values)),
            (8, 2) => Some(Record::PutAside(values)),
            (9, 2) => Some(Record::TakeBack(values)),
            (10, 0) => Some(Record::Close(values)),
            (11, 18) => Some(Record::CompetitiveReading(values)),
            (12, 10) => Some(Record::GuaranteedReading(values)),
            (13, 2) => Some(Record::BuyerReading(values)),
            (14, 0) => Some(Record::Settle(values)),
            _ => None,
        }
    }
}
