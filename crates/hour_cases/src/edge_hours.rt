// An hour with units that have no row, and with net energies at their limit.
use crate::calls::{buyer, commit, competitive, guaranteed, plant, read_use};
use crate::failures::Failure;
use crate::fixed_hours::plan_with_rows;
use crate::limit_readings::{competitive_with, guaranteed_with};
use crate::runs::Cases;
use book::{Entry, Reading};
use std::alloc::AllocError;

const MOST_KWH: u32 = 2_000_000;

// The second unit of each group has no row, and each guaranteed unit feeds the distribution grid.
fn entries(entries: &mut Vec<Entry>) -> Result<(), AllocError> {
    entries.extend(&[
        plant(0),
        plant(200),
        buyer(0),
        competitive(1, 40, 0),
        competitive(1, 60, 0),
        guaranteed(1, 30, 20, 0, 1),
        guaranteed(2, 50, 50, 0, 1),
        commit(1, 1, 70),
        commit(2, 1, 15),
    ])
}

// Net energies at their limit and over it, with a loss and without. There is no unit 3.
fn readings(readings: &mut Vec<Reading>) -> Result<(), AllocError> {
    readings.extend(&[
        competitive_with(1, |r| {
            r.energies.net = MOST_KWH;
            r.energies.accepted = 100;
        }),
        competitive_with(1, |r| r.energies.net = MOST_KWH + 1),
        competitive_with(2, |r| r.energies.net = MOST_KWH),
        competitive_with(3, |r| r.energies.net = MOST_KWH + 1),
        guaranteed_with(1, |r| r.net = MOST_KWH),
        guaranteed_with(2, |r| r.net = MOST_KWH),
        guaranteed_with(2, |r| r.net = MOST_KWH + 1),
        guaranteed_with(3, |r| r.net = MOST_KWH + 1),
        read_use(1, 7),
    ])
}

impl Cases {
    pub(crate) fn units_without_rows(&mut self) -> Result<(), Failure> {
        self.report.line("case units without rows")?;
        let mut plan = plan_with_rows(self.heap, 1)?;
        entries(&mut plan.entries)?;
        readings(&mut plan.readings)?;
        plan.asked.extend(&[1, 2, 3])?;
        self.run_by_name(&plan)
    }
}
