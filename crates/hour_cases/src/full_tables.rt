// Full tables: rows past the last of each, and readings of all units and buyers.
use crate::calls::{
    buyer, commit, competitive, correct, guaranteed, plant, put_aside, read_use, take_back,
};
use crate::limit_readings::{competitive_with, guaranteed_with};
use book::{Entry, Reading};
use std::alloc::AllocError;

// There is room for 32 plants and 64 buyers.
fn sites(entries: &mut Vec<Entry>) -> Result<(), AllocError> {
    for number in 0..65 {
        entries.push(plant(number * 30))?;
        entries.push(buyer(number * 30))?;
    }
    entries.extend(&[plant(2_001), buyer(2_001)])
}

// There is room for 128 units of each group.
fn units(entries: &mut Vec<Entry>) -> Result<(), AllocError> {
    for number in 0..129 {
        let feeds = number % 2;
        entries.push(competitive(number % 32 + 1, number + 1, number * 15))?;
        entries.push(guaranteed(number % 31 + 1, number + 1, number, number * 7, feeds))?;
    }
    entries.extend(&[
        competitive(33, 5, 0),
        competitive(1, 5, 2_001),
        competitive(1, 2_000_001, 0),
        guaranteed(33, 5, 5, 0, 0),
        guaranteed(1, 5, 5, 2_001, 0),
        guaranteed(1, 5, 5, 0, 2),
    ])
}

// There is room for 768 commitments.
fn commitments(entries: &mut Vec<Entry>) -> Result<(), AllocError> {
    for number in 0..769 {
        entries.push(commit(number % 32 + 1, number % 63 + 1, number % 19 + 1))?;
    }
    entries.extend(&[
        commit(1, 1, 0),
        commit(1, 65, 1),
        commit(33, 1, 1),
        commit(33, 65, 0),
    ])
}

// Changes of the last units, and of those past them.
fn changes(entries: &mut Vec<Entry>) -> Result<(), AllocError> {
    entries.extend(&[
        correct(1, 128, 200),
        put_aside(2, 128),
        correct(1, 129, 5),
        put_aside(2, 129),
        take_back(2, 129),
    ])
}

/// The entries that fill all tables.
pub(crate) fn full_entries(entries: &mut Vec<Entry>) -> Result<(), AllocError> {
    sites(entries)?;
    units(entries)?;
    commitments(entries)?;
    changes(entries)
}

/// Readings of every unit and every buyer, and of those past the last.
pub(crate) fn full_readings(readings: &mut Vec<Reading>) -> Result<(), AllocError> {
    for number in 1..130 {
        readings.push(competitive_with(number, |r| {
            r.energies.net = 2 * number;
            r.energies.accepted = number;
            r.control.p_act = number % 7;
        }))?;
        readings.push(guaranteed_with(number, |r| {
            r.net = number;
            r.control.p_act = number % 5;
        }))?;
        readings.push(read_use(number, number))?;
    }
    Ok(())
}
