// Lists of calls in whatever order: those of drawn hours, with others out of turn among them.
use crate::drawn_hours::drawn_plan;
use crate::failures::Failure;
use crate::report::Report;
use crate::row_draws::Drawn;
use crate::runs::{Cases, Plan};
use book::{CallAnswer, Hour, HourCall, Reading, Turn, run_calls};
use curves::{Offer, SteppedCost, SteppedOffer, Tariff};
use std::alloc::{AllocError, Global};

type PlanCall<'p, G, S> = HourCall<'p, SteppedOffer, G, SteppedOffer, SteppedCost, S>;

type PlanTurn<'p, G, S> = Turn<'p, SteppedOffer, G, SteppedOffer, SteppedCost, S>;

// In which state a list of calls leaves the hour.
#[derive(Clone, Copy, PartialEq)]
enum End {
    Settled,
    Closed,
    Open,
}

impl End {
    fn of(number: u32) -> End {
        match number % 3 {
            0 => End::Settled,
            1 => End::Closed,
            _ => End::Open,
        }
    }
}

// One call more of a list.
fn push<'p, G: Drop, S: Drop>(
    turns: &mut Vec<PlanTurn<'p, G, S>>,
    call: PlanCall<'p, G, S>,
) -> Result<(), AllocError> {
    turns.push(Turn::new(call))?;
    Ok(())
}

fn push_readings<'p, G: Drop, S: Drop>(
    turns: &mut Vec<PlanTurn<'p, G, S>>,
    readings: &[Reading],
) -> Result<(), AllocError> {
    for reading in readings {
        push(turns, HourCall::Read(*reading))?;
    }
    Ok(())
}

impl<G: Offer + Drop, S: Offer + Drop> Plan<G, S> {
    fn close(&self) -> PlanCall<'_, G, S> {
        HourCall::Close {
            offers: self.offers.as_slice(),
            guaranteed: self.guaranteed.as_slice(),
        }
    }

    fn settle(&self) -> PlanCall<'_, G, S> {
        HourCall::Settle {
            rows: self.rows.as_slice(),
            offers: self.paid.as_slice(),
        }
    }

    // The calls up to closing: a reading out of turn, the entries, and settling out of turn.
    fn push_open<'p>(&'p self, turns: &mut Vec<PlanTurn<'p, G, S>>) -> Result<(), AllocError> {
        push_readings(turns, &self.readings[..self.readings.len().min(1)])?;
        for entry in &self.entries {
            push(turns, HourCall::Enter(*entry))?;
        }
        push(turns, self.settle())
    }

    // An entry once the hour is closed, which is out of turn: the first one again.
    fn push_late_entry<'p>(
        &'p self,
        turns: &mut Vec<PlanTurn<'p, G, S>>,
    ) -> Result<(), AllocError> {
        if let Some(entry) = self.entries.first() {
            push(turns, HourCall::Enter(*entry))?;
        }
        Ok(())
    }

    // Closing, then an entry and a closing without offers out of turn, and the readings.
    fn push_closed<'p>(&'p self, turns: &mut Vec<PlanTurn<'p, G, S>>) -> Result<(), AllocError> {
        push(turns, self.close())?;
        self.push_late_entry(turns)?;
        let again = HourCall::Close {
            offers: &[],
            guaranteed: &[],
        };
        push(turns, again)?;
        push_readings(turns, &self.readings)
    }

    // Settling, and a call of each kind out of turn.
    fn push_settled<'p>(&'p self, turns: &mut Vec<PlanTurn<'p, G, S>>) -> Result<(), AllocError> {
        push(turns, self.settle())?;
        push_readings(turns, &self.readings[..self.readings.len().min(1)])?;
        let again = HourCall::Settle {
            rows: &[],
            offers: &[],
        };
        push(turns, again)?;
        push(turns, self.close())?;
        self.push_late_entry(turns)
    }

    fn turns(&self, heap: Global, end: End) -> Result<Vec<PlanTurn<'_, G, S>>, AllocError> {
        let mut turns = Vec::new(heap);
        self.push_open(&mut turns)?;
        if end != End::Open {
            self.push_closed(&mut turns)?;
        }
        if end == End::Settled {
            self.push_settled(&mut turns)?;
        }
        Ok(turns)
    }
}

impl Report {
    fn told(&mut self, answer: CallAnswer) -> Result<(), AllocError> {
        match answer {
            CallAnswer::Number(number) => self.line(number),
            CallAnswer::Done => self.line("done"),
            CallAnswer::Refused(refusal) => self.line(format_args!("R {}", refusal.number())),
            CallAnswer::OutOfTurn => self.line("out of turn"),
        }
    }

    fn state(&mut self, hour: &Hour) -> Result<(), AllocError> {
        match hour {
            Hour::Open(_) => self.line("open"),
            Hour::Closed(_) => self.line("closed"),
            Hour::Settled(_) => self.line("settled"),
        }
    }

    // The state that the hour has reached, and the listing of a settled one. The hour is let go.
    fn reached(&mut self, hour: Hour) -> Result<(), AllocError> {
        self.state(&hour)?;
        match hour {
            Hour::Settled(settled) => self.settled(settled, &[]),
            _ => Ok(()),
        }
    }
}

impl Cases {
    fn run_mixed<G: Offer + Drawn, S: Offer + Drawn>(
        &mut self,
        number: u32,
    ) -> Result<(), Failure> {
        self.report.line(format_args!("mixed hour {number}"))?;
        let plan = drawn_plan::<G, S>(self.heap, number)?;
        let mut turns = plan.turns(self.heap, End::of(number))?;
        let hour = run_calls(&mut self.book, plan.header, turns.as_mut_slice());
        for turn in &turns {
            if let Some(answer) = turn.answer {
                self.report.told(answer)?;
            }
        }
        Ok(self.report.reached(hour)?)
    }

    /// Draws an hour, and runs its calls with others out of turn among them.
    pub(crate) fn mixed_hour(&mut self, number: u32) -> Result<(), Failure> {
        match number % 4 {
            0 => self.run_mixed::<Tariff, Tariff>(number),
            1 => self.run_mixed::<SteppedOffer, SteppedOffer>(number),
            2 => self.run_mixed::<SteppedOffer, Tariff>(number),
            _ => self.run_mixed::<Tariff, SteppedOffer>(number),
        }
    }
}
