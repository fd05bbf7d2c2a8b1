// The marginal price: the least at which the units' kWh cover the share.
ghost use Rattle.std.specs.Prelude.{◌≡◌};
ghost use Rattle.allocation.specs.Groups.{total};
ghost use Rattle.allocation.specs.Units.{units_in};
ghost use Rattle.allocation.specs.Supply.{up_to, below, NoneOver, Clearing};

use crate::group::Units;
use curves::Offer;

impl<'a, O: Offer> Units<'a, O> {
    // The units' kWh that cost at most `price`.
    fn supply_up_to(&self, price: u32) -> u32
        ensures { let g = units_in O.Curve.prices self.now in result ≡ total g (up_to g price) }
    {
        let mut supply = 0u32;
        for place in self.places() {
            let place = *place as usize;
            supply += self.offers[place].count_at_most(self.limits[place], price);
        }
        supply
    }

    // The units' kWh that cost less than `price`.
    pub(crate) fn supply_below(&self, price: u32) -> u32
        ensures { let g = units_in O.Curve.prices self.now in result ≡ total g (below g price) }
    {
        let Some(under) = price.checked_sub(1) else {
            return 0;
        };
        self.supply_up_to(under)
    }

    // The price of the dearest kWh within the units' limits: no offer's price falls, so it is a unit's last.
    fn dearest(&self) -> u32
        ensures { let g = units_in O.Curve.prices self.now in NoneOver g g.units result }
    {
        let mut dearest = 0u32;
        for place in self.places() {
            let place = *place as usize;
            dearest = dearest.max(self.offers[place].price(self.limits[place]));
        }
        dearest
    }

    // The least price at which the units cover the share, or the dearest kWh's if none does.
    pub(crate) fn marginal_price(&self, share: u32) -> u32
        ensures { let g = units_in O.Curve.prices self.now in Clearing g g.units share result }
    {
        // By halving, since more kWh cost at most a higher price.
        let mut low = 0u32;
        let mut high = self.dearest();
        while low < high {
            let mid = low.midpoint(high);
            if share <= self.supply_up_to(mid) {
                high = mid;
            } else {
                low = mid + 1;
            }
        }
        low
    }
}
