// Fixed hours: calls on both sides of the limits, full tables, and a book that is used again.
use crate::calls::{buyer, commit, competitive, guaranteed, plant, read_use, step};
use crate::failures::Failure;
use crate::full_tables::{full_entries, full_readings};
use crate::limit_entries::limit_entries;
use crate::limit_readings::{last_readings, limit_readings};
use crate::runs::{Cases, Plan, enter_by_name, read_by_name};
use book::{Header, PriceRow};
use curves::{SteppedCost, SteppedOffer, Tariff};
use std::alloc::Global;

const TARIFF: Tariff = Tariff { rate: 400 };

/// An hour without calls, with so many equal rows for each group.
pub(crate) fn plan_with_rows(heap: Global, count: usize) -> Result<Plan<Tariff, Tariff>, Failure> {
    let offer = SteppedOffer::new(&[step(100, 300), step(100, 500)])?;
    let cost = SteppedCost::new(&[step(100, 350)])?;
    Ok(Plan {
        header: Header::new(1_000, 10_000, 200, 30, 400)?,
        entries: Vec::new(heap),
        offers: vec![in heap; offer; count]?,
        guaranteed: vec![in heap; TARIFF; count]?,
        readings: Vec::new(heap),
        rows: vec![in heap; PriceRow { offer, cost }; count]?,
        paid: vec![in heap; TARIFF; count]?,
        asked: Vec::new(heap),
    })
}

// A small hour that is not read yet.
fn small_plan(heap: Global) -> Result<Plan<Tariff, Tariff>, Failure> {
    let mut plan = plan_with_rows(heap, 1)?;
    plan.entries.extend(&[
        plant(0),
        buyer(0),
        competitive(1, 40, 0),
        guaranteed(1, 30, 30, 0, 1),
        commit(1, 1, 90),
    ])?;
    Ok(plan)
}

impl Cases {
    fn nothing(&mut self) -> Result<(), Failure> {
        let mut plan = plan_with_rows(self.heap, 0)?;
        plan.asked.extend(&[0, 1])?;
        self.run_by_name(&plan)
    }

    fn limits(&mut self) -> Result<(), Failure> {
        self.report.line("case limits")?;
        let mut plan = plan_with_rows(self.heap, 8)?;
        limit_entries(&mut plan.entries)?;
        limit_readings(&mut plan.readings)?;
        plan.asked.extend(&[0, 1, 2, 3, 4, 5, 7, 8, u32::MAX])?;
        self.run_by_name(&plan)
    }

    fn full_tables(&mut self) -> Result<(), Failure> {
        self.report.line("case full tables")?;
        let mut plan = plan_with_rows(self.heap, 130)?;
        full_entries(&mut plan.entries)?;
        full_readings(&mut plan.readings)?;
        plan.asked.extend(&[1, 32, 33, 64, 65, 128, 129])?;
        self.run_at_once(&plan)
    }

    fn no_units(&mut self) -> Result<(), Failure> {
        self.report.line("case plant without units")?;
        let mut plan = plan_with_rows(self.heap, 0)?;
        plan.entries
            .extend(&[plant(0), buyer(0), commit(1, 1, 50)])?;
        plan.readings.push(read_use(1, 7))?;
        self.run_one_by_one(&plan)
    }

    fn small_hour(&mut self) -> Result<(), Failure> {
        self.report.line("case small hour")?;
        let mut plan = small_plan(self.heap)?;
        last_readings(&mut plan.readings)?;
        self.run_one_by_one(&plan)
    }

    fn nothing_read(&mut self) -> Result<(), Failure> {
        let plan = small_plan(self.heap)?;
        self.run_one_by_one(&plan)
    }

    fn open_hour_let_go(&mut self) -> Result<(), Failure> {
        self.report.line("case open hour let go")?;
        let plan = small_plan(self.heap)?;
        plan.opened(&mut self.book, &mut self.report, enter_by_name)?;
        self.report.line("hour after it")?;
        self.nothing_read()
    }

    // The small hour is let go once it is closed and read, and another follows.
    fn closed_hour_let_go(&mut self) -> Result<(), Failure> {
        self.report.line("case closed hour let go")?;
        let mut plan = small_plan(self.heap)?;
        last_readings(&mut plan.readings)?;
        let open = plan.opened(&mut self.book, &mut self.report, enter_by_name)?;
        plan.closed(open, &mut self.report, read_by_name)?;
        self.report.line("hour after it")?;
        self.nothing_read()
    }

    /// All fixed hours, on one book. No hour shows anything of those before it.
    pub(crate) fn fixed_hours(&mut self) -> Result<(), Failure> {
        self.report.line("case nothing entered")?;
        self.nothing()?;
        self.limits()?;
        self.full_tables()?;
        self.report.line("case nothing entered again")?;
        self.nothing()?;
        self.no_units()?;
        self.small_hour()?;
        self.report.line("case nothing read")?;
        self.nothing_read()?;
        self.open_hour_let_go()?;
        self.closed_hour_let_go()?;
        self.told_apart()
    }
}
