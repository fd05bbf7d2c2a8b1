// Closing: the split of each plant's commitments over its units.
ghost use Rattle.std.specs.Prelude.{◌≡◌, ℕ, ◌+◌, ◌*◌, ◌<◌, ◌≤◌, min, List, length, None, sum_by, slice_index, slice_index_or};
ghost use Rattle.table.specs.Closing.{limit_at, counts, limit_in, declared_in, allocated_to, GroupClosed, committed_by, declared_by, PlantClosed, Closed};
ghost use Rattle.table.specs.ClosingLaw.{committed_in, ClosingLawOf, ClosingLaw};
ghost use Rattle.table.specs.History.{Proper, Stands, StandsInSum};
ghost use Rattle.table.specs.Rows.{new_unit};
ghost use Rattle.table.specs.declared.entries.Entry.{Entry};

use crate::limits::MAX_VOLUME;
use crate::records::{Plant, PlantFigures, Table, UNITS, UnitRecord, UnitTable};
use allocation::split;
use curves::{MAX_KWH, Offer};
use settlement::{group_one_share, limit};
use std::array;

// A plant's number and its loss: the limits of its units depend on both.
#[derive(Clone, Copy)]
struct NumberedPlant {
    number: u32,
    loss: u32,
}

impl UnitRecord {
    // Whether it is a unit of the plant that is not put aside.
    fn counts_for(&self, plant: u32) -> bool
        ensures { result ≡ counts plant self.now }
    {
        self.plant == plant && !self.aside
    }

    // Its limit in the plant's group.
    fn limit_in(&self, plant: NumberedPlant) -> u32
        ensures { result ≡ limit_in plant.number plant.loss self.now }
    {
        if !self.counts_for(plant.number) {
            return 0;
        }
        let energy = self.seasonal.unwrap_or(self.declared);
        limit(energy, self.internal, plant.loss)
    }

    // Takes its amount if it is the plant's.
    fn allocate(&mut self, plant: u32, amount: u32)
        ensures { self.new ≡ allocated_to plant amount self.old }
    {
        if self.plant == plant {
            self.figures.allocated = amount;
        }
    }
}

// The declared energy of the plant's group.
fn declared_by(units: &[UnitRecord], plant: u32) -> u32
    requires { length units.now ≤ 128 }
    ensures { result ≡ sum_by (declared_in plant) units.now }
{
    units
        .iter()
        .filter(|unit| unit.counts_for(plant))
        .map(|unit| unit.declared.min(MAX_KWH))
        .sum()
}

// Gives each unit its amount, if it is the plant's.
fn allocate_all(units: &mut [UnitRecord], plant: u32, amounts: &[u32])
    requires { length units.old ≤ length amounts.now }
    ensures { (k : ℕ) → k < length units.old → slice_index_or units.new k (new_unit 0 0 None 0 0) ≡ allocated_to plant (slice_index amounts.now k) (slice_index_or units.old k (new_unit 0 0 None 0 0)) }
{
    for (place, unit) in units.iter_mut().enumerate() {
        unit.allocate(plant, amounts[place]);
    }
}

impl UnitTable {
    // The limit of the unit at a place in the plant's group; 0 past the units that are entered.
    fn limit_at(&self, place: usize, plant: NumberedPlant) -> u32
        ensures { result ≡ limit_at plant.number plant.loss self.now place }
    {
        let unit = self.entered().get(place);
        unit.map_or(0, |unit| unit.limit_in(plant))
    }

    // The limits of the plant's group.
    fn limits(&self, plant: NumberedPlant) -> [u32; UNITS]
        ensures { (k : ℕ) → slice_index result k ≡ limit_at plant.number plant.loss self.now k }
    {
        array::from_fn(|place| self.limit_at(place, plant))
    }

    // Splits a share over the plant's units of this group, and answers what stays uncovered.
    fn close<O: Offer>(&mut self, offers: &[O], plant: NumberedPlant, share: u32) -> u32
        ensures { GroupClosed O.Curve.prices offers.now plant.number plant.loss share self.old self.new result }
    {
        let entered = self.entered().len();
        let limits = self.limits(plant);
        let mut amounts = [0u32; UNITS];
        let uncovered = split(offers, &limits, share, &mut amounts);
        allocate_all(&mut self.rows[..entered], plant.number, &amounts);
        uncovered
    }

    // The declared energy of the plant's units that have an offer row.
    fn declared(&self, plant: u32, rows: usize) -> u32
        ensures { result ≡ declared_by plant rows self.now }
    {
        let units = self.entered();
        declared_by(&units[..rows.min(units.len())], plant)
    }
}

impl Table {
    // The commitments of the plant at a place; over 20,000,000, which accepted entries never come to, read as that.
    #[tactic(auto, using(crate::proofs::Sold::sold_of))]
    fn committed(&self, place: usize) -> u32
        requires { place < 32 }
        ensures { result ≡ committed_by (place + 1) self.now }
    {
        self.sold[place].min(MAX_VOLUME)
    }

    // Closes both groups of the plant at a place, and writes its figures.
    fn close_plant<O: Offer, G: Offer>(&mut self, place: usize, offers: &[O], guaranteed: &[G])
        requires { place < 32 }
        ensures { PlantClosed O.Curve.prices offers.now G.Curve.prices guaranteed.now place self.old self.new }
    {
        let number = place as u32 + 1;
        let loss = self.plants.rows[place].loss;
        let plant = NumberedPlant { number, loss };
        let committed = self.committed(place);
        let competitive_gross = self.competitive.declared(number, offers.len());
        let guaranteed_gross = self.guaranteed.declared(number, guaranteed.len());
        let share = group_one_share(committed, competitive_gross, guaranteed_gross);
        let competitive_left = self.competitive.close(offers, plant, share);
        let guaranteed_left = self.guaranteed.close(guaranteed, plant, committed - share);
        let figures = PlantFigures::closed(committed, competitive_left + guaranteed_left);
        self.plants.rows[place] = Plant { loss, figures };
    }

    /// Closes the hour: splits each plant's commitments over its units by an offer for each, `offers` for group 1 and
    /// `guaranteed` for group 2, by place. The law of a closed hour then holds. A plant's commitments over 20,000,000,
    /// which accepted entries never come to, are read as 20,000,000.
    pub fn close<O: Offer, G: Offer>(&mut self, offers: &[O], guaranteed: &[G])
        ensures after { Closed O.Curve.prices offers.now G.Curve.prices guaranteed.now self.old self.new }
        ensures law { (h : List Entry) → Proper h → Stands h self.old → ClosingLaw O.Curve.prices offers.now G.Curve.prices guaranteed.now h self.new }
        ensures any_history { (h : List Entry) → StandsInSum h self.old → ClosingLawOf (λ plant. committed_in plant h) O.Curve.prices offers.now G.Curve.prices guaranteed.now h self.new }
    {
        self.close_plants(offers, guaranteed);
    }

    // Closes every plant that is entered.
    fn close_plants<O: Offer, G: Offer>(&mut self, offers: &[O], guaranteed: &[G])
        ensures { Closed O.Curve.prices offers.now G.Curve.prices guaranteed.now self.old self.new }
    {
        // Closing a plant reads what it has sold, and writes its row and its units of both groups.
        let entered = self.plants.entered().len();
        for place in 0..entered {
            self.close_plant(place, offers, guaranteed);
        }
    }
}
