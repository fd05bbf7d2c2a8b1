// The split of a share over a group's units.
ghost use Rattle.std.specs.Prelude.{◌≡◌, ℕ, suc, ◌<◌, length, slice_index};
ghost use Rattle.curves.specs.Limits.{read_energy};
ghost use Rattle.curves.specs.Prices.{AtMost};
ghost use Rattle.allocation.specs.Groups.{group_of, amount_at};
ghost use Rattle.allocation.specs.Laws.{Split};
ghost use Rattle.allocation.specs.Units.{place_in, units_in};
ghost use Rattle.allocation.specs.Supply.{Filled};

use crate::group::Units;
use curves::Offer;

// How many of an offer's first `energy` kWh cost less than `price`.
fn count_below<O: Offer>(offer: &O, energy: u32, price: u32) -> u32
    ensures { AtMost (λ k. suc (O.Curve.prices offer.now k)) (read_energy energy) price result }
{
    price
        .checked_sub(1)
        .map_or(0, |under| offer.count_at_most(energy, under))
}

impl<'a, O: Offer> Units<'a, O> {
    // Gives each busy unit its kWh cheaper than `price`, and unit by unit those at that price until `left` of them are
    // given; answers how many of the `left` are not.
    fn fill(&self, price: u32, left: u32, amounts: &mut [u32]) -> u32
        requires { (i : ℕ) → i < self.now.count → place_in self.now i < length amounts.old }
        ensures filled { let g = units_in O.Curve.prices self.now in Filled g g.units price left result (λ i. amount_at amounts.new (place_in self.now i)) }
        ensures others { (j : ℕ) → ((i : ℕ) → i < self.now.count → place_in self.now i ≡ j → ⊥) → amount_at amounts.new j ≡ amount_at amounts.old j }
    {
        let mut rest = left;
        for place in self.places() {
            let place = *place as usize;
            let (offer, limit) = (&self.offers[place], self.limits[place]);
            let cheaper = count_below(offer, limit, price);
            let marginal = offer.count_at_most(limit, price) - cheaper;
            let more = marginal.min(rest);
            amounts[place] = cheaper + more;
            rest -= more;
        }
        rest
    }
}

// Writes 0 at every place.
fn clear(amounts: &mut [u32])
    ensures long { length amounts.new ≡ length amounts.old }
    ensures zeros { (j : ℕ) → slice_index amounts.new j ≡ 0 }
{
    amounts.fill(0);
}

/// Splits `share` kWh over a group's units in merit order, writes each unit's kWh at its place of `amounts`, and
/// answers the kWh that stay uncovered. A unit is one of the first 128 places, if `offers`, `limits` and `amounts` all
/// have it; other amounts are written as 0. A limit is in kWh, and over 2,000,000 it is read as 2,000,000.
pub fn split<O: Offer>(offers: &[O], limits: &[u32], share: u32, amounts: &mut [u32]) -> u32
    ensures { Split (group_of O.Curve.prices offers.now limits.now (length amounts.old)) share (amount_at amounts.new) result }
{
    let units = Units::new(offers, limits, amounts.len());
    let price = units.marginal_price(share);
    let rest = share - units.supply_below(price);
    clear(amounts);
    units.fill(price, rest, amounts)
}
