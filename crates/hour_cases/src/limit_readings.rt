// Readings on both sides of each limit, in one hour.
use crate::calls::{guaranteed_reading, read_competitive, read_guaranteed, read_use, unit_reading};
use crate::reading_draws::{COMPETITIVE_FIELDS, Field, GUARANTEED_FIELDS};
use book::{GuaranteedReading, Reading, UnitReading};
use std::alloc::AllocError;
use std::array;

// A reading in which these fields are set, and the others 0.
fn with<R: Default + Drop, F: FnOnce(&mut R)>(set: F) -> R
    requires { F.IsAlwaysCallable set }
{
    let mut reading = R::default();
    set(&mut reading);
    reading
}

/// The reading of a competitive unit in which these fields are set.
pub(crate) fn competitive_with<F: FnOnce(&mut UnitReading)>(unit: u32, set: F) -> Reading
    requires { F.IsAlwaysCallable set }
{
    read_competitive(unit, with(set))
}

/// The reading of a guaranteed unit in which these fields are set.
pub(crate) fn guaranteed_with<F: FnOnce(&mut GuaranteedReading)>(unit: u32, set: F) -> Reading
    requires { F.IsAlwaysCallable set }
{
    read_guaranteed(unit, with(set))
}

// Readings of units and buyers that are there, and of others: there are 4 competitive and 7 guaranteed units, and 2
// buyers.
fn by_number(readings: &mut Vec<Reading>) -> Result<(), AllocError> {
    for number in [0, 1, 2, 3, 4, 5, 7, 8] {
        readings.push(read_competitive(number, UnitReading::default()))?;
        readings.push(read_guaranteed(number, GuaranteedReading::default()))?;
        readings.push(read_use(number, 0))?;
    }
    Ok(())
}

/// Fields that are 0 but for the one at this place.
pub(crate) fn only<const N: usize>(place: usize, value: u32) -> [u32; N] {
    array::from_fn(|at| if at == place { value } else { 0 })
}

// For each field a reading with it at its limit, and one with it over the limit.
fn field_limits<R: Fn(usize, u32) -> Reading>(
    readings: &mut Vec<Reading>,
    kinds: &[Field],
    read: R,
) -> Result<(), AllocError>
    requires { R.IsAlwaysCallable read }
{
    for (place, kind) in kinds.iter().enumerate() {
        readings.push(read(place, kind.most()))?;
        readings.push(read(place, kind.most() + 1))?;
    }
    Ok(())
}

// A reading of one field; its lost energy covers any UL energy, so that only the field's own limit turns it down.
fn competitive_limit(place: usize, value: u32) -> Reading {
    let mut reading = unit_reading(only(place, value));
    reading.energies.lost = reading.energies.lost.max(2_000_000);
    read_competitive(1, reading)
}

fn guaranteed_limit(place: usize, value: u32) -> Reading {
    read_guaranteed(1, guaranteed_reading(only(place, value)))
}

// UL energy beside accepted and lost energy, and a buyer's use.
fn other_limits(readings: &mut Vec<Reading>) -> Result<(), AllocError> {
    for limited in [10, 11] {
        readings.push(competitive_with(1, |r| {
            r.energies.accepted = 5;
            r.energies.lost = 5;
            r.energies.limited = limited;
        }))?;
    }
    readings.push(competitive_with(1, |r| {
        r.energies.accepted = 2_000_000;
        r.energies.lost = 2_000_000;
        r.energies.limited = 2_000_000;
    }))?;
    for used in [0, 50_000_001, 50_000_000] {
        readings.push(read_use(1, used))?;
    }
    Ok(())
}

// Readings to which two rows of refusals apply: the first is answered.
fn against_two_rows(readings: &mut Vec<Reading>) -> Result<(), AllocError> {
    readings.extend(&[
        competitive_with(5, |r| r.energies.net = 2_000_001),
        competitive_with(1, |r| {
            r.energies.net = 2_000_001;
            r.adjustments.planning = 100_000_001;
        }),
        competitive_with(1, |r| r.energies.limited = 2_000_001),
        competitive_with(1, |r| {
            r.energies.asked = 2;
            r.adjustments.opportunity = 100_000_001;
        }),
        competitive_with(1, |r| {
            r.energies.limited = 1;
            r.control.minute = 1_440;
        }),
        competitive_with(1, |r| {
            r.energies.limited = 1;
            r.adjustments.cooperation = 100_000_001;
        }),
        guaranteed_with(8, |r| r.control.day = 401),
        guaranteed_with(1, |r| {
            r.control.p_act = 2_000_001;
            r.control.day = 401;
        }),
        read_use(3, 50_000_001),
    ])
}

/// Readings within the limits. The one of buyer 2 is refused where there is no such buyer.
pub(crate) fn last_readings(readings: &mut Vec<Reading>) -> Result<(), AllocError> {
    readings.extend(&[
        competitive_with(1, |r| {
            r.energies.net = 130;
            r.energies.accepted = 110;
            r.energies.limited = 20;
            r.control.p_act = 30;
        }),
        guaranteed_with(1, |r| {
            r.net = 90;
            r.control.p_act = 10;
        }),
        read_use(2, 7),
    ])
}

/// All readings of the hour.
pub(crate) fn limit_readings(readings: &mut Vec<Reading>) -> Result<(), AllocError> {
    by_number(readings)?;
    field_limits(readings, &COMPETITIVE_FIELDS, competitive_limit)?;
    field_limits(readings, &GUARANTEED_FIELDS, guaranteed_limit)?;
    other_limits(readings)?;
    against_two_rows(readings)?;
    last_readings(readings)
}
