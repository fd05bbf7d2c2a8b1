// A plant's support and what it costs.
ghost use Rattle.std.specs.Prelude.{◌≡◌, ◌≤◌};
ghost use Rattle.settlement.specs.Fractions.{FallsShort};
ghost use Rattle.settlement.specs.Support.{marked, active_of, day_support, quotient, rate_of, support_cost};

use crate::readings::Control;
use crate::reference::{at_reference, parts_kept};

// The highest rate, in rial per MWh.
const MAX_RATE: u64 = 1_000_000_000;

impl Control {
    // Whether the maintenance mark is set.
    fn marked(&self) -> bool
        ensures { result ≡ marked self.now.day self.now.minute }
    {
        match self.day {
            1 => true,
            2 => self.minute > 780,
            _ => false,
        }
    }

    /// The unit's active energy, in kWh: as the operator reports it, with the deviations that count.
    pub fn active(&self) -> u64
        ensures value { result ≡ active_of self.now }
        ensures bound { result ≤ 25769803770 }
    {
        let always = self.p_act as u64
            + self.type2 as u64
            + self.type3 as u64
            + self.type5 as u64
            + self.type8 as u64;
        let type6 = if self.marked() { 0 } else { self.type6 as u64 };
        always + type6
    }
}

/// Day support, in kWh: the plant's allocated energy less its active energy carried to the reference point, not under
/// 0. `loss` is in hundredths of a percent; over 2,000 it is read as 2,000.
pub fn day_support(allocated: u32, active: u64, loss: u32) -> u32
    ensures value { result ≡ day_support loss allocated active }
    ensures fraction { FallsShort loss allocated active result }
    ensures bound { result ≤ allocated }
{
    (allocated as u64).saturating_sub(at_reference(active, loss)) as u32
}

// Money by energy, the fraction dropped; None where the energy is not positive.
fn quotient(money: u64, energy: i64) -> Option<u64>
    ensures { result ≡ quotient money energy }
{
    let energy = u64::try_from(energy).ok()?;
    money.checked_div(energy)
}

/// A plant's rate, in rial per MWh: the greater of `payments` / `over` and `hour_money` / `hour_over`, fractions
/// dropped, at most 1,000,000,000. `over` is the plant's bills less its allocation, `hour_over` all bills less all
/// commitments; only positive ones count, and where neither is, the rate is `ceiling`. Money below 0 is read as 0.
pub fn rate(payments: u64, over: i64, hour_money: i64, hour_over: i64, ceiling: u32) -> u32
    ensures { result ≡ rate_of payments over hour_money hour_over ceiling }
{
    let own = quotient(payments, over);
    let hour = quotient(u64::try_from(hour_money).unwrap_or(0), hour_over);
    own.max(hour)
        .map_or(ceiling, |quotient| quotient.min(MAX_RATE) as u32)
}

/// What a plant's `run` and `day` support, in kWh, cost at its rate, with readiness for the run support, in thousandths
/// of a rial. `cpf` is the readiness coefficient, in ten-thousandths, and `bar` the readiness base rate, in rial per
/// MW. `loss` is in hundredths of a percent; over 2,000 it is read as 2,000.
pub fn support_cost(run: u32, day: u32, rate: u32, cpf: u32, bar: u32, loss: u32) -> u128
    ensures { result ≡ support_cost loss run day rate cpf bar }
{
    let energy = run as u128 + day as u128;
    let readiness = run as u128 * cpf as u128 * bar as u128 / parts_kept(loss) as u128;
    energy * rate as u128 + readiness
}
