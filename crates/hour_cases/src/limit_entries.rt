// Entries on both sides of each limit, in one hour.
use crate::calls::{buyer, commit, competitive, correct, guaranteed, plant, put_aside, take_back};
use book::Entry;
use std::alloc::AllocError;

fn before_the_first_rows(entries: &mut Vec<Entry>) -> Result<(), AllocError> {
    entries.extend(&[
        competitive(1, 5, 0),
        guaranteed(1, 5, 5, 0, 0),
        correct(1, 1, 5),
        correct(2, 1, 5),
        put_aside(1, 1),
        put_aside(2, 1),
        take_back(1, 1),
        take_back(2, 1),
        commit(1, 1, 5),
        plant(2_001),
        plant(2_000),
        commit(1, 1, 5),
        buyer(2_001),
        buyer(2_000),
    ])
}

fn competitive_units(entries: &mut Vec<Entry>) -> Result<(), AllocError> {
    entries.extend(&[
        competitive(0, 5, 0),
        competitive(1, 5, 0),
        competitive(2, 5, 0),
        competitive(1, 5, 2_000),
        competitive(1, 5, 2_001),
        competitive(1, 0, 0),
        competitive(1, 2_000_000, 0),
        competitive(1, 2_000_001, 0),
    ])
}

fn guaranteed_units(entries: &mut Vec<Entry>) -> Result<(), AllocError> {
    entries.extend(&[
        guaranteed(0, 5, 5, 0, 0),
        guaranteed(1, 5, 5, 0, 0),
        guaranteed(2, 5, 5, 0, 0),
        guaranteed(1, 5, 5, 2_000, 0),
        guaranteed(1, 5, 5, 2_001, 0),
        guaranteed(1, 0, 5, 0, 0),
        guaranteed(1, 2_000_000, 5, 0, 0),
        guaranteed(1, 2_000_001, 5, 0, 0),
        guaranteed(1, 5, 0, 0, 0),
        guaranteed(1, 5, 2_000_000, 0, 0),
        guaranteed(1, 5, 2_000_001, 0, 0),
        guaranteed(1, 5, 5, 0, 1),
        guaranteed(1, 5, 5, 0, 2),
    ])
}

// There are now 4 competitive and 7 guaranteed units.
fn changes(entries: &mut Vec<Entry>, group: u32) -> Result<(), AllocError> {
    for unit in [0, 1, 4, 5, 7, 8] {
        entries.push(correct(group, unit, 6))?;
        entries.push(put_aside(group, unit))?;
        entries.push(take_back(group, unit))?;
    }
    Ok(())
}

fn corrections(entries: &mut Vec<Entry>) -> Result<(), AllocError> {
    for gross in [0, 2_000_000, 2_000_001, 40] {
        entries.push(correct(1, 1, gross))?;
        entries.push(correct(2, 1, gross))?;
    }
    Ok(())
}

fn commitments(entries: &mut Vec<Entry>) -> Result<(), AllocError> {
    entries.extend(&[
        commit(0, 1, 1),
        commit(1, 1, 1),
        commit(2, 1, 1),
        commit(1, 0, 1),
        commit(1, 2, 1),
        commit(1, 1, 0),
        commit(1, 1, 20_000_001),
        commit(1, 1, 19_999_998),
        commit(1, 1, 2),
        commit(1, 1, 1),
        commit(1, 1, 1),
        commit(1, 1, 20_000_001),
        plant(0),
        commit(2, 1, 20_000_000),
        buyer(0),
        commit(2, 2, 1),
    ])
}

// Entries to which two rows of refusals apply: the first is answered.
fn against_two_rows(entries: &mut Vec<Entry>) -> Result<(), AllocError> {
    entries.extend(&[
        commit(0, 0, 0),
        commit(3, 3, 1),
        commit(1, 3, 0),
        competitive(3, 2_000_001, 2_001),
        competitive(1, 2_000_001, 2_001),
        guaranteed(3, 5, 5, 2_001, 2),
        guaranteed(1, 2_000_001, 5, 2_001, 2),
        guaranteed(1, 5, 2_000_001, 0, 2),
        correct(3, 1, 2_000_001),
        correct(1, 5, 2_000_001),
    ])
}

/// All entries of the hour.
pub(crate) fn limit_entries(entries: &mut Vec<Entry>) -> Result<(), AllocError> {
    before_the_first_rows(entries)?;
    competitive_units(entries)?;
    guaranteed_units(entries)?;
    for group in 0..4 {
        changes(entries, group)?;
    }
    corrections(entries)?;
    commitments(entries)?;
    against_two_rows(entries)
}
