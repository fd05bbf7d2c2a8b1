// Headers, lists of steps and rates on both sides of their limits, and units that come with their rows.
use crate::calls::{plant, step};
use crate::limit_readings::only;
use crate::report::Report;
use book::{Header, UnitRefusal};
use curves::{Step, SteppedCost, SteppedOffer, Tariff};
use std::alloc::AllocError;
use table::Table;

// The limits of a header's fields.
const MOST: [u32; 5] = [10_000_000, 50_000, 1_000_000, 10_000_000, 10_000_000];

// Lists of equal steps: how many, their width and their price.
const EQUAL_STEPS: [(usize, u32, u32); 11] = [
    (0, 1, 5),
    (1, 1, 5),
    (10, 1, 5),
    (11, 1, 5),
    (1, 0, 5),
    (1, 2_000_000, 5),
    (1, 2_000_001, 5),
    (1, 1, 10_000_000),
    (1, 1, 10_000_001),
    (1, 0, 10_000_001),
    (11, 1, 10_000_001),
];

// A competitive unit that is added with its rows.
#[derive(Clone, Copy)]
struct NewUnit {
    plant: u32,
    declared: u32,
    internal: u32,
}

fn new_unit(plant: u32, declared: u32, internal: u32) -> NewUnit {
    NewUnit {
        plant,
        declared,
        internal,
    }
}

impl Report {
    // Writes whether something was made, or the number of its refusal.
    fn taken<T: Drop, E: Into<UnitRefusal> + Drop>(
        &mut self,
        made: Result<T, E>,
    ) -> Result<(), AllocError> {
        self.outcome(made.map(|_| "taken"))
    }

    fn header(&mut self, fields: [u32; 5]) -> Result<(), AllocError> {
        let [ceiling, coefficient, base, saving, rate] = fields;
        self.taken(Header::new(ceiling, coefficient, base, saving, rate))
    }

    fn headers(&mut self) -> Result<(), AllocError> {
        self.line("case headers")?;
        let over = MOST.map(|most| most.saturating_add(1));
        for (place, (most, over)) in MOST.iter().zip(over.iter()).enumerate() {
            self.header(only(place, *most))?;
            self.header(only(place, *over))?;
        }
        self.header(MOST)?;
        self.header(over)
    }

    // Whether the list makes an offer, and whether it makes a cost curve.
    fn list(&mut self, list: &[Step]) -> Result<(), AllocError> {
        self.taken(SteppedOffer::new(list))?;
        self.taken(SteppedCost::new(list))
    }

    fn equal_steps(&mut self) -> Result<(), AllocError> {
        for (count, width, price) in EQUAL_STEPS {
            let steps = [step(width, price); 11];
            self.list(&steps[..count.min(11)])?;
        }
        Ok(())
    }

    fn two_steps(&mut self) -> Result<(), AllocError> {
        self.list(&[step(1, 5), step(1, 5)])?;
        self.list(&[step(1, 5), step(1, 4)])?;
        self.list(&[step(1, 20_000_000), step(1, 15_000_000)])?;
        self.list(&[step(1, 10_000_001), step(0, 10_000_001)])
    }

    fn rates(&mut self) -> Result<(), AllocError> {
        for rate in [0, 10_000_000, 10_000_001] {
            self.taken(Tariff::new(rate))?;
        }
        Ok(())
    }

    // Adds a unit with the outcome of making an offer of these steps.
    fn priced_unit(
        &mut self,
        table: &mut Table,
        unit: NewUnit,
        list: &[Step],
    ) -> Result<(), AllocError> {
        let NewUnit {
            plant,
            declared,
            internal,
        } = unit;
        let added = table.add_priced(plant, declared, internal, SteppedOffer::new(list));
        self.outcome(added.map(|(number, _)| number))
    }

    // Adds a unit with rows that were made, with a refused number of steps, and with a refused price.
    fn each_outcome(&mut self, table: &mut Table, unit: NewUnit) -> Result<(), AllocError> {
        self.priced_unit(table, unit, &[step(1, 5)])?;
        self.priced_unit(table, unit, &[])?;
        self.priced_unit(table, unit, &[step(1, 10_000_001)])
    }

    fn many_units(&mut self, table: &mut Table) -> Result<(), AllocError> {
        for _ in 0..126 {
            self.priced_unit(table, new_unit(1, 5, 0), &[step(1, 5)])?;
        }
        Ok(())
    }

    // The refusals of the book come before those of the rows.
    fn priced_units(&mut self) -> Result<(), AllocError> {
        self.line("case units with their rows")?;
        let mut table = Table::empty();
        self.outcome(table.enter(plant(0)))?;
        self.each_outcome(&mut table, new_unit(1, 5, 0))?;
        self.each_outcome(&mut table, new_unit(2, 5, 0))?;
        self.each_outcome(&mut table, new_unit(1, 5, 2_001))?;
        self.each_outcome(&mut table, new_unit(1, 2_000_001, 0))?;
        self.many_units(&mut table)?;
        self.each_outcome(&mut table, new_unit(1, 5, 0))?;
        self.each_outcome(&mut table, new_unit(2, 5, 0))
    }

    /// Makes headers, step lists and rates, and units with the outcome of making their rows.
    pub(crate) fn makings(&mut self) -> Result<(), AllocError> {
        self.headers()?;
        self.line("case step lists")?;
        self.equal_steps()?;
        self.two_steps()?;
        self.rates()?;
        self.priced_units()
    }
}
