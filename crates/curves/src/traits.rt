// The traits of price curves and offers.
ghost use Rattle.std.specs.Prelude.{◌≡◌, ℕ, ◌≤◌};
ghost use Rattle.curves.specs.Limits.{read_energy, read_kwh};
ghost use Rattle.curves.specs.Prices.{cost_of, Stretch, NeverFalls, AtMost, BeforeDearer};

use crate::limits::read_energy;

/// A price for each kWh from 1 to 2,000,000, in rial per MWh and at most 10,000,000. Any number may be asked for: kWh 0
/// is read as kWh 1, and a number over 2,000,000 as 2,000,000.
pub trait Curve {
    // the price of each kWh
    ghost prices: { Self → ℕ → ℕ };

    /// The price of kWh `kwh`, in rial per MWh.
    fn price(&self, kwh: u32) -> u32
        ensures { result ≡ prices self.now (read_kwh kwh) };

    /// Some kWh, `kwh` or a later one, such that all from `kwh` to it have one price. It need not be the last such.
    fn stretch_end(&self, kwh: u32) -> u32
        ensures { Stretch (prices self.now) (read_kwh kwh) result };

    /// The cost of the first `energy` kWh, in thousandths of a rial: the sum of their prices.
    fn cost(&self, energy: u32) -> u64
        ensures { result ≡ cost_of (prices self.now) (read_energy energy) }
    {
        let energy = read_energy(energy);
        let mut total = 0u64;
        let mut done = 0u32;
        // Each stretch begins where the one before it ended.
        while done < energy {
            let price = self.price(done + 1);
            let end = self.stretch_end(done + 1).min(energy);
            total += price as u64 * (end - done) as u64;
            done = end;
        }
        total
    }

    // no price is over 10,000,000
    ghost bounded: { (c : Self) (k : ℕ) → prices c k ≤ 10000000 };
}

/// A curve whose price never falls from one kWh to a later one.
pub trait Offer: Curve {
    /// How many of the first `energy` kWh cost at most `price`, in rial per MWh; these come before the rest. A `price`
    /// over 10,000,000 is taken as it is.
    fn count_at_most(&self, energy: u32, price: u32) -> u32
        ensures rises { NeverFalls (Self.Curve.prices self.now) }
        ensures count { AtMost (Self.Curve.prices self.now) (read_energy energy) price result }
    {
        count_before_dearer(self, energy, price)
    }

    // no price falls from one kWh to a later one
    ghost rises: { (o : Self) → NeverFalls (Self.Curve.prices o) };
}

// How many of the first `energy` kWh come before the first that costs more than `price`.
pub(crate) fn count_before_dearer<C: Curve>(curve: &C, energy: u32, price: u32) -> u32
    ensures { BeforeDearer (C.prices curve.now) (read_energy energy) price result }
{
    let energy = read_energy(energy);
    let mut done = 0u32;
    // Each stretch begins where the one before it ended.
    while done < energy {
        if curve.price(done + 1) > price {
            return done;
        }
        done = curve.stretch_end(done + 1).min(energy);
    }
    done
}
