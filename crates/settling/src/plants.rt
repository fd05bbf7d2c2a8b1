// The figures of plants: support, rate and cost.
ghost use Rattle.std.specs.Prelude.{◌≡◌, ℕ, ◌+◌, ◌*◌, ◌<◌, ◌≤◌, min, length, pos, ◌-ℤ◌, Some, slice_index_or};
ghost use Rattle.table.specs.Rows.{new_plant};
ghost use Rattle.settling.specs.Settled.{settled_plant};
ghost use Rattle.settling.specs.Stages.{both_totals, money_of, rate_by, figures_by, PaidWithin};
ghost use Rattle.settling.specs.Totals.{AtMostOf};

use crate::differences::difference;
use crate::header::Header;
use crate::totals::{Totals, group_totals};
use settlement::{day_support, rate, support_cost};
use table::{PLANTS, Plant, PlantFigures, Rows, UnitTable};

/// The units of both groups, once they are paid. Every sum of their payments fits 64 bits.
#[derive(Clone, Copy)]
pub(crate) struct PaidUnits<'t> {
    pub(crate) competitive: &'t UnitTable,
    pub(crate) guaranteed: &'t UnitTable,
    ghost within: { PaidWithin competitive.now × PaidWithin guaranteed.now },
}

impl PaidUnits<'_> {
    /// The totals of the units of one plant, or of all units.
    pub(crate) fn totals(&self, plant: Option<u32>) -> Totals
        ensures value { result ≡ both_totals plant self.now.competitive.now self.now.guaranteed.now }
        ensures bound { AtMostOf 256 result }
    {
        group_totals(self.competitive, plant) + group_totals(self.guaranteed, plant)
    }
}

/// What is the same for all plants: the header, and the money and energy of the hour's quotient.
#[derive(Clone, Copy)]
pub(crate) struct HourTerms<'h> {
    pub(crate) header: &'h Header,
    /// Payments and opportunity payments less penalties, thousandths of a rial; may be negative.
    pub(crate) money: i64,
    /// Billed energy less commitments, kWh; may be negative.
    pub(crate) over: i64,
}

// The totals are those of at most 256 units, 128 of each group.
impl HourTerms<'_> {
    /// By the totals of all units and the hour's commitments, kWh. A rial of adjustments is 1,000 of the hour's money.
    pub(crate) fn new<'h>(header: &'h Header, totals: &Totals, committed: u64) -> HourTerms<'h>
        requires { AtMostOf 256 totals.now × (committed ≤ 768 * 4294967295) }
        ensures header { result.header.now ≡ header.now }
        ensures money { result.money ≡ money_of totals.now }
        ensures over { result.over ≡ pos totals.now.billed -ℤ pos committed }
    {
        HourTerms {
            header,
            money: difference(
                totals.paid + totals.opportunity * 1000,
                totals.penalties * 1000,
            ),
            over: difference(totals.billed, committed),
        }
    }

    // A plant's rate, by the totals of its units.
    fn rate(&self, plant: &Plant, totals: &Totals) -> u32
        requires { AtMostOf 256 totals.now }
        ensures { result ≡ rate_by self.now.header.now.ceiling self.now.money self.now.over plant.now totals.now }
    {
        let own = difference(totals.billed, plant.figures.allocated as u64);
        rate(totals.paid, own, self.money, self.over, self.header.ceiling)
    }

    // A plant's figures, by what closing found and the totals of its units.
    fn figures(&self, plant: &Plant, totals: &Totals) -> PlantFigures
        requires { AtMostOf 256 totals.now }
        ensures { result ≡ figures_by self.now.header.now self.now.money self.now.over plant.now totals.now }
    {
        let closed = plant.figures;
        let day = day_support(closed.allocated, totals.active, plant.loss);
        let rate = self.rate(plant, totals);
        let cost = support_cost(
            closed.run,
            day,
            rate,
            self.header.coefficient,
            self.header.base,
            plant.loss,
        );
        PlantFigures {
            support: closed.run as u64 + day as u64,
            rate,
            cost,
            ..closed
        }
    }
}

/// Writes the figures of each plant that is entered.
pub(crate) fn settle_plants(plants: &mut Rows<Plant, PLANTS>, units: &PaidUnits, terms: &HourTerms)
    ensures count { plants.new.count ≡ plants.old.count }
    ensures long { length plants.new.rows ≡ length plants.old.rows }
    ensures entered { (k : ℕ) → k < min plants.old.count 32 → slice_index_or plants.new.rows k (new_plant 0) ≡ settled_plant (figures_by terms.now.header.now terms.now.money terms.now.over (slice_index_or plants.old.rows k (new_plant 0)) (both_totals (Some (k + 1)) units.now.competitive.now units.now.guaranteed.now)) (slice_index_or plants.old.rows k (new_plant 0)) }
    ensures others { (k : ℕ) → min plants.old.count 32 ≤ k → slice_index_or plants.new.rows k (new_plant 0) ≡ slice_index_or plants.old.rows k (new_plant 0) }
{
    let entered = plants.entered().len();
    for (place, plant) in plants.rows[..entered].iter_mut().enumerate() {
        let totals = units.totals(Some(place as u32 + 1));
        plant.figures = terms.figures(plant, &totals);
    }
}
