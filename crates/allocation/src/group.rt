// The units of a contract group, and what amounts for them cost.
ghost use Rattle.std.specs.Prelude.{◌≡◌, ℕ, ◌<◌, ◌≤◌, length, slice_index};
ghost use Rattle.allocation.specs.Groups.{group_of, row_cost};

use curves::Offer;

/// The most units of a group.
pub const MAX_UNITS: usize = 128;

// A group's units: each has an offer and a limit, at the same place of two rows, as the caller has them.
// `busy` begins with the places of the `count` busy units, those with a limit above 0. The others get nothing, so only
// these are visited.
#[derive(Drop)]
pub(crate) struct Units<'a, O> {
    pub offers: &'a [O],
    pub limits: &'a [u32],
    pub busy: [u8; MAX_UNITS],
    pub count: usize,
    ghost few: { count ≤ 128 },
    ghost rises: { (i j : ℕ) → i < j → j < count → slice_index busy i < slice_index busy j },
    ghost inside: { (i : ℕ) → i < count → (slice_index busy i < length offers.now) × (slice_index busy i < length limits.now) },
}

impl<'a, O: Offer> Units<'a, O> {
    ghost use Rattle.allocation.specs.Units.{BusyPlaces, place_in};

    // The units of two rows, at most 128 and as many as there are places for their amounts.
    pub(crate) fn new(offers: &'a [O], limits: &'a [u32], places: usize) -> Self
        ensures offers { result.offers.now ≡ offers.now }
        ensures limits { result.limits.now ≡ limits.now }
        ensures busy { let g = group_of O.Curve.prices offers.now limits.now places in BusyPlaces g.limit g.units result.count (place_in result) }
    {
        let number = offers.len().min(limits.len()).min(MAX_UNITS).min(places);
        let mut busy = [0u8; MAX_UNITS];
        let mut count = 0usize;
        for (place, limit) in limits[..number].iter().enumerate() {
            if *limit > 0 {
                busy[count] = place as u8;
                count += 1;
            }
        }
        Units {
            offers,
            limits,
            busy,
            count,
        }
    }

    // The places of the busy units.
    pub(crate) fn places(&self) -> &[u8]
        ensures number { length result.now ≡ self.now.count }
        ensures each { (i : ℕ) → i < self.now.count → slice_index result.now i ≡ place_in self.now i }
    {
        &self.busy[..self.count]
    }
}

/// What amounts cost together, in thousandths of a rial: for each unit the cost of its kWh up to its amount, in kWh. An
/// amount over 2,000,000 is read as 2,000,000; the first 128 places with an offer and an amount count.
pub fn total_cost<O: Offer>(offers: &[O], amounts: &[u32]) -> u64
    ensures { result ≡ row_cost O.Curve.prices offers.now amounts.now }
{
    offers
        .iter()
        .zip(amounts)
        .take(MAX_UNITS)
        .map(|(offer, amount)| offer.cost(*amount))
        .sum()
}
