// Runs the calls of an hour on a book: all at once, each as a value, or each by the method of its name.
use crate::calls::Answer;
use crate::failures::Failure;
use crate::report::Report;
use book::{Book, Calls, ClosedHour, Entry, Header, OpenHour, PriceRow, Reading, run_settled};
use curves::{Offer, SteppedCost, SteppedOffer};
use std::alloc::{AllocError, Global};

/// The calls of an hour, and the numbers that the settled hour is asked about.
#[derive(Drop)]
pub struct Plan<G, S> {
    /// The header that the hour is opened with.
    pub header: Header,
    /// The entries, in turn.
    pub entries: Vec<Entry>,
    /// The competitive units' offers at closing.
    pub offers: Vec<SteppedOffer>,
    /// The guaranteed units' offers at closing.
    pub guaranteed: Vec<G>,
    /// The readings, in turn.
    pub readings: Vec<Reading>,
    /// The competitive units' price rows at settling.
    pub rows: Vec<PriceRow<SteppedOffer, SteppedCost>>,
    /// The guaranteed units' offers at settling.
    pub paid: Vec<S>,
    /// The numbers of plants, buyers and units that are asked about.
    pub asked: Vec<u32>,
}

/// The book that all hours of the cases are settled on, and what they answer.
#[derive(Drop)]
pub struct Cases {
    /// Where lists and the report stand.
    pub heap: Global,
    /// The book of all hours, one after another.
    pub book: Book,
    /// What was answered so far.
    pub report: Report,
}

/// Makes an entry by the method of its name.
pub(crate) fn enter_by_name(hour: &mut OpenHour, entry: Entry) -> Answer {
    match entry {
        Entry::AddPlant { loss } => hour.add_plant(loss),
        Entry::AddCompetitive {
            plant,
            declared,
            internal,
        } => hour.add_competitive(plant, declared, internal),
        Entry::AddGuaranteed {
            plant,
            declared,
            seasonal,
            internal,
            feeds,
        } => hour.add_guaranteed(plant, declared, seasonal, internal, feeds),
        Entry::Correct {
            group,
            unit,
            declared,
        } => hour.correct(group, unit, declared),
        Entry::PutAside { group, unit } => hour.put_aside(group, unit),
        Entry::TakeBack { group, unit } => hour.take_back(group, unit),
        Entry::AddBuyer { loss } => hour.add_buyer(loss),
        Entry::Commit {
            plant,
            buyer,
            volume,
        } => hour.commit(plant, buyer, volume),
    }
}

/// Makes a reading by the method of its name.
pub(crate) fn read_by_name(hour: &mut ClosedHour, reading: Reading) -> Answer {
    match reading {
        Reading::Competitive { unit, reading } => hour.read_competitive(unit, reading),
        Reading::Guaranteed { unit, reading } => hour.read_guaranteed(unit, reading),
        Reading::Use { buyer, used } => hour.read_use(buyer, used),
    }
}

impl<G: Offer + Drop, S: Offer + Drop> Plan<G, S> {
    /// Opens the hour and makes its entries in turn.
    pub(crate) fn opened<'b, E: Fn(&mut OpenHour, Entry) -> Answer>(
        &self,
        book: &'b mut Book,
        report: &mut Report,
        enter: E,
    ) -> Result<OpenHour<'b>, AllocError>
        requires { E.IsAlwaysCallable enter }
    {
        let mut hour = book.open(self.header);
        for entry in &self.entries {
            report.outcome(enter(&mut hour, *entry))?;
        }
        Ok(hour)
    }

    /// Closes the hour and makes its readings in turn.
    pub(crate) fn closed<'b, R: Fn(&mut ClosedHour, Reading) -> Answer>(
        &self,
        open: OpenHour<'b>,
        report: &mut Report,
        read: R,
    ) -> Result<ClosedHour<'b>, AllocError>
        requires { R.IsAlwaysCallable read }
    {
        let mut hour = open.close(self.offers.as_slice(), self.guaranteed.as_slice());
        for reading in &self.readings {
            report.outcome(read(&mut hour, *reading))?;
        }
        Ok(hour)
    }

    fn calls(&self) -> Calls<'_, SteppedOffer, G> {
        Calls {
            entries: self.entries.as_slice(),
            offers: self.offers.as_slice(),
            guaranteed: self.guaranteed.as_slice(),
            readings: self.readings.as_slice(),
        }
    }
}

impl Cases {
    pub(crate) fn new(heap: Global) -> Cases {
        Cases {
            heap,
            book: Book::new(),
            report: Report::new(heap),
        }
    }

    /// Runs an hour by the call that makes a whole list of calls. Writes down what the calls answer, the listing of the
    /// settled hour, and what it answers about the numbers asked.
    pub(crate) fn run_at_once<G: Offer + Drop, S: Offer + Drop>(
        &mut self,
        plan: &Plan<G, S>,
    ) -> Result<(), Failure> {
        let mut entered = vec![in self.heap; Ok(0); plan.entries.len()]?;
        let mut read = vec![in self.heap; Ok(0); plan.readings.len()]?;
        let hour = run_settled(
            &mut self.book,
            plan.header,
            &plan.calls(),
            entered.as_mut_slice(),
            read.as_mut_slice(),
            plan.rows.as_slice(),
            plan.paid.as_slice(),
        );
        self.report.answers(entered.as_slice())?;
        self.report.answers(read.as_slice())?;
        Ok(self.report.settled(hour, plan.asked.as_slice())?)
    }

    /// Runs an hour with each call as a value, and writes down the same.
    pub(crate) fn run_one_by_one<G: Offer + Drop, S: Offer + Drop>(
        &mut self,
        plan: &Plan<G, S>,
    ) -> Result<(), Failure> {
        self.run_in_turn(
            plan,
            |hour, entry| hour.enter(entry),
            |hour, reading| hour.read(reading),
        )
    }

    /// Runs an hour with each call by the method of its name, and writes down the same.
    pub(crate) fn run_by_name<G: Offer + Drop, S: Offer + Drop>(
        &mut self,
        plan: &Plan<G, S>,
    ) -> Result<(), Failure> {
        self.run_in_turn(plan, enter_by_name, read_by_name)
    }

    fn run_in_turn<
        G: Offer + Drop,
        S: Offer + Drop,
        E: Fn(&mut OpenHour, Entry) -> Answer,
        R: Fn(&mut ClosedHour, Reading) -> Answer,
    >(&mut self, plan: &Plan<G, S>, enter: E, read: R) -> Result<(), Failure>
        requires enters { E.IsAlwaysCallable enter }
        requires reads { R.IsAlwaysCallable read }
    {
        let open = plan.opened(&mut self.book, &mut self.report, enter)?;
        let closed = plan.closed(open, &mut self.report, read)?;
        let hour = closed.settle(plan.rows.as_slice(), plan.paid.as_slice());
        Ok(self.report.settled(hour, plan.asked.as_slice())?)
    }
}
