// Hours in which mixed-up tables, numbers or orders change an answer: one group full and the other not, four different
// counts, and put aside, correct and take back in several orders, with units and buyers that are read again.
use crate::calls::{
    buyer, commit, competitive, correct, guaranteed, plant, put_aside, read_use, step, take_back,
};
use crate::failures::Failure;
use crate::fixed_hours::plan_with_rows;
use crate::limit_readings::{competitive_with, guaranteed_with};
use crate::runs::{Cases, enter_by_name};
use book::{Entry, PriceRow, Reading};
use curves::{CurveRefusal, Step, SteppedCost, SteppedOffer};
use std::alloc::AllocError;

type UnitRow = PriceRow<SteppedOffer, SteppedCost>;

// 128 units of one group, one of the other, and then a further one of each.
fn full_group(entries: &mut Vec<Entry>, one: Entry, other: Entry) -> Result<(), AllocError> {
    entries.extend(&[plant(0), plant(0), plant(0), buyer(0)])?;
    for _ in 0..128 {
        entries.push(one)?;
    }
    entries.extend(&[other, one, other])
}

// Calls that name a plant, a buyer and a unit of each group. Where the plant or the buyer is there, a later row turns
// the call down.
fn naming_to(entries: &mut Vec<Entry>, most: u32) -> Result<(), AllocError> {
    for number in 0..=most {
        entries.extend(&[
            competitive(number, 5, 2_001),
            guaranteed(number, 5, 5, 2_001, 0),
            commit(number, 1, 0),
            commit(1, number, 0),
            correct(1, number, number.saturating_add(40)),
            put_aside(1, number),
            take_back(1, number),
            put_aside(2, number),
            correct(2, number, number.saturating_add(60)),
            take_back(2, number),
        ])?;
    }
    Ok(())
}

// Entries by which each of four tables in turn is the longest; in between, calls name each number.
fn counted_entries(entries: &mut Vec<Entry>) -> Result<(), AllocError> {
    entries.extend(&[plant(0), plant(100), plant(200), plant(300)])?;
    entries.extend(&[buyer(0), buyer(200), buyer(400)])?;
    entries.extend(&[
        competitive(4, 30, 100),
        guaranteed(3, 20, 25, 0, 1),
        guaranteed(3, 20, 25, 0, 1),
    ])?;
    naming_to(entries, 5)?;
    for plant in 1..5 {
        entries.push(competitive(plant, 30, 200))?;
    }
    naming_to(entries, 6)?;
    for plant in 1..5 {
        entries.push(guaranteed(plant, 20, 30, 300, 0))?;
    }
    naming_to(entries, 7)?;
    entries.extend(&[buyer(0), buyer(300), buyer(600), buyer(900)])?;
    naming_to(entries, 8)?;
    entries.extend(&[
        commit(4, 7, 90),
        commit(1, 5, 40),
        commit(4, 4, 31),
        commit(2, 6, 77),
    ])
}

// Readings of the numbers 0 to 8 in each table.
fn counted_readings(readings: &mut Vec<Reading>) -> Result<(), AllocError> {
    for number in 0..9 {
        readings.push(competitive_with(number, |r| {
            r.energies.net = 10 * number;
            r.energies.accepted = 9 * number;
            r.control.p_act = number;
        }))?;
        readings.push(guaranteed_with(number, |r| {
            r.net = 11 * number;
            r.control.p_act = 2 * number;
        }))?;
        readings.push(read_use(number, 13 * number))?;
    }
    Ok(())
}

// Plants, buyers and units of both groups among each other.
fn added(entries: &mut Vec<Entry>) -> Result<(), AllocError> {
    entries.extend(&[
        buyer(0),
        plant(500),
        buyer(1_000),
        plant(1_000),
        buyer(0),
        plant(2_000),
        buyer(500),
        guaranteed(1, 45, 0, 0, 1),
        competitive(2, 90, 0),
        guaranteed(1, 30, 20, 300, 0),
        competitive(1, 50, 100),
        guaranteed(1, 40, 25, 0, 1),
        competitive(1, 70, 0),
        guaranteed(2, 20, 20, 0, 0),
        competitive(1, 60, 0),
        guaranteed(3, 8, 8, 2_000, 1),
        competitive(3, 8, 2_000),
        guaranteed(1, 33, 33, 0, 0),
    ])
}

// Changes after which competitive unit 4 is aside.
fn competitive_changes(entries: &mut Vec<Entry>) -> Result<(), AllocError> {
    entries.extend(&[
        put_aside(1, 1),
        correct(1, 1, 50),
        take_back(1, 1),
        correct(1, 2, 20),
        correct(1, 2, 55),
        correct(1, 3, 90),
        correct(1, 3, 65),
        put_aside(1, 3),
        take_back(1, 3),
        put_aside(1, 4),
        correct(1, 4, 80),
        put_aside(1, 4),
        put_aside(2, 4),
        take_back(2, 4),
        put_aside(1, 5),
        take_back(1, 5),
        take_back(1, 2),
    ])
}

// Changes after which guaranteed unit 6 is aside. The last four are turned down.
fn guaranteed_changes(entries: &mut Vec<Entry>) -> Result<(), AllocError> {
    entries.extend(&[
        put_aside(2, 2),
        correct(2, 2, 60),
        take_back(2, 2),
        put_aside(2, 3),
        take_back(2, 3),
        correct(2, 3, 10),
        take_back(2, 6),
        correct(2, 6, 50),
        put_aside(2, 6),
        correct(1, 6, 5),
        put_aside(2, 7),
        correct(1, 1, 2_000_001),
        correct(3, 1, 5),
    ])
}

fn sold(entries: &mut Vec<Entry>) -> Result<(), AllocError> {
    entries.extend(&[
        commit(1, 1, 60),
        commit(1, 4, 40),
        commit(2, 2, 30),
        commit(2, 4, 26),
        commit(3, 3, 12),
        commit(4, 1, 5),
    ])
}

// The reading of a competitive unit: net, accepted, lost and UL energy, P_Act and the opportunity payment.
fn produced(unit: u32, energies: [u32; 4], p_act: u32, opportunity: u32) -> Reading {
    let [net, accepted, lost, limited] = energies;
    competitive_with(unit, |r| {
        r.energies.net = net;
        r.energies.accepted = accepted;
        r.energies.lost = lost;
        r.energies.limited = limited;
        r.control.p_act = p_act;
        r.adjustments.opportunity = opportunity;
    })
}

// The reading of a guaranteed unit: net energy and P_Act.
fn measured(unit: u32, net: u32, p_act: u32) -> Reading {
    guaranteed_with(unit, |r| {
        r.net = net;
        r.control.p_act = p_act;
    })
}

// Readings that later ones replace.
fn read_first(readings: &mut Vec<Reading>) -> Result<(), AllocError> {
    readings.extend(&[
        measured(1, 50, 10),
        read_use(1, 100),
        produced(1, [70, 65, 0, 0], 40, 3),
        read_use(2, 40),
        measured(1, 20, 44),
        read_use(1, 60),
        read_use(4, 9),
        produced(1, [30, 20, 0, 0], 41, 5),
    ])
}

fn competitive_last(readings: &mut Vec<Reading>) -> Result<(), AllocError> {
    readings.extend(&[
        produced(1, [100, 60, 20, 10], 12, 1),
        competitive_with(2, |r| {
            r.energies.net = 60;
            r.energies.accepted = 10;
            r.energies.lost = 30;
            r.energies.limited = 20;
            r.control.p_act = 10;
            r.control.type6 = 30;
            r.control.day = 1;
        }),
        produced(3, [50, 33, 0, 0], 10, 0),
        produced(4, [30, 14, 6, 10], 5, 0),
        competitive_with(5, |r| {
            r.energies.net = 20;
            r.energies.executed = 16;
            r.energies.asked = 1;
        }),
    ])
}

fn guaranteed_last(readings: &mut Vec<Reading>) -> Result<(), AllocError> {
    readings.extend(&[
        measured(1, 30, 6),
        guaranteed_with(2, |r| {
            r.net = 10;
            r.control.p_act = 10;
            r.control.type6 = 10;
            r.control.day = 2;
            r.control.minute = 780;
        }),
        measured(3, 10, 10),
        measured(4, 7, 9),
        measured(5, 8, 3),
        measured(6, 10, 7),
    ])
}

fn uses_last(readings: &mut Vec<Reading>) -> Result<(), AllocError> {
    readings.extend(&[
        read_use(1, 80),
        read_use(2, 25),
        read_use(3, 33),
        read_use(4, 0),
    ])
}

// Readings that are turned down, and so replace nothing.
fn turned_down(readings: &mut Vec<Reading>) -> Result<(), AllocError> {
    readings.extend(&[
        guaranteed_with(1, |r| {
            r.net = 8;
            r.control.p_act = 4;
            r.control.day = 401;
        }),
        read_use(1, 50_000_001),
        produced(3, [7, 2, 0, 3], 0, 0),
        read_use(5, 9),
        produced(6, [1, 0, 0, 0], 0, 0),
        measured(7, 1, 0),
    ])
}

fn unit_row(offer: &[Step], cost: &[Step]) -> Result<UnitRow, CurveRefusal> {
    Ok(PriceRow {
        offer: SteppedOffer::new(offer)?,
        cost: SteppedCost::new(cost)?,
    })
}

// By the offer kWh 63, 69, 70, 71, 72 and 73 have a price of their own.
fn steep_row() -> Result<UnitRow, CurveRefusal> {
    let offer = [
        step(62, 100),
        step(1, 110),
        step(5, 120),
        step(1, 130),
        step(1, 140),
        step(1, 150),
        step(1, 160),
        step(1, 170),
        step(10, 180),
    ];
    unit_row(&offer, &[step(100, 1_000)])
}

fn unit_rows() -> Result<[UnitRow; 5], CurveRefusal> {
    Ok([
        steep_row()?,
        unit_row(
            &[step(18, 300), step(1, 400), step(1, 500), step(40, 600)],
            &[step(30, 700), step(30, 350)],
        )?,
        unit_row(
            &[step(33, 200), step(60, 490)],
            &[step(40, 60), step(60, 210)],
        )?,
        unit_row(&[step(50, 100)], &[step(50, 80)])?,
        unit_row(&[step(3, 300), step(5, 450)], &[step(10, 250)])?,
    ])
}

impl Cases {
    fn group_full(&mut self, one: Entry, other: Entry) -> Result<(), Failure> {
        let mut plan = plan_with_rows(self.heap, 0)?;
        full_group(&mut plan.entries, one, other)?;
        plan.opened(&mut self.book, &mut self.report, enter_by_name)?;
        Ok(())
    }

    fn four_counts(&mut self) -> Result<(), Failure> {
        let mut plan = plan_with_rows(self.heap, 6)?;
        counted_entries(&mut plan.entries)?;
        counted_readings(&mut plan.readings)?;
        plan.asked.extend(&[0, 1, 2, 3, 4, 5, 6, 7, 8])?;
        self.run_by_name(&plan)
    }

    fn orders(&mut self) -> Result<(), Failure> {
        let mut plan = plan_with_rows(self.heap, 6)?;
        added(&mut plan.entries)?;
        competitive_changes(&mut plan.entries)?;
        guaranteed_changes(&mut plan.entries)?;
        sold(&mut plan.entries)?;
        read_first(&mut plan.readings)?;
        competitive_last(&mut plan.readings)?;
        guaranteed_last(&mut plan.readings)?;
        uses_last(&mut plan.readings)?;
        turned_down(&mut plan.readings)?;
        let rows = unit_rows()?;
        plan.rows.clear();
        plan.rows.extend(&rows)?;
        plan.offers.clear();
        plan.offers.extend(&rows.map(|row| row.offer))?;
        plan.asked.extend(&[0, 3, 4, 5, 6, 7])?;
        self.run_at_once(&plan)
    }

    /// Runs the hours in which mixed-up tables, numbers or orders change an answer.
    pub(crate) fn told_apart(&mut self) -> Result<(), Failure> {
        let (one, two) = (competitive(1, 5, 0), guaranteed(1, 5, 5, 0, 0));
        self.report.line("case competitive units full")?;
        self.group_full(one, two)?;
        self.report.line("case guaranteed units full")?;
        self.group_full(two, one)?;
        self.report.line("case four counts")?;
        self.four_counts()?;
        self.report.line("case orders")?;
        self.orders()
    }
}
