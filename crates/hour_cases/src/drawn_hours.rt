// Pseudo-random hours, each drawn from its number.
use crate::failures::Failure;
use crate::row_draws::Drawn;
use crate::runs::{Cases, Plan};
use crate::source::Source;
use curves::{Offer, SteppedOffer, Tariff};
use std::alloc::Global;

/// Draws an hour with these kinds of guaranteed offers, at closing and at settling.
pub(crate) fn drawn_plan<G: Offer + Drawn, S: Offer + Drawn>(
    heap: Global,
    number: u32,
) -> Result<Plan<G, S>, Failure> {
    let mut source = Source::new(heap, number);
    let competitive = source.competitive;
    let guaranteed = source.guaranteed;
    Ok(Plan {
        header: source.header()?,
        entries: source.draw_entries()?,
        offers: source.draw_rows(competitive)?,
        guaranteed: source.draw_rows(guaranteed)?,
        readings: source.draw_readings()?,
        rows: source.draw_rows(competitive)?,
        paid: source.draw_rows(guaranteed)?,
        asked: Vec::new(heap),
    })
}

impl Cases {
    // Draws and runs one hour. Its number says in which of three ways, and so does the report, which begins with it.
    fn run_drawn<G: Offer + Drawn, S: Offer + Drawn>(
        &mut self,
        number: u32,
    ) -> Result<(), Failure> {
        self.report.line(format_args!("hour {number}"))?;
        let plan = drawn_plan::<G, S>(self.heap, number)?;
        match number % 3 {
            0 => self.run_at_once(&plan),
            1 => self.run_one_by_one(&plan),
            _ => self.run_by_name(&plan),
        }
    }

    /// Draws and runs one hour. Its number says of what kinds its guaranteed offers are.
    pub(crate) fn drawn_hour(&mut self, number: u32) -> Result<(), Failure> {
        match number % 4 {
            0 => self.run_drawn::<Tariff, Tariff>(number),
            1 => self.run_drawn::<SteppedOffer, SteppedOffer>(number),
            2 => self.run_drawn::<SteppedOffer, Tariff>(number),
            _ => self.run_drawn::<Tariff, SteppedOffer>(number),
        }
    }
}
