// What a unit is paid.
ghost use Rattle.std.specs.Prelude.{◌≡◌, ◌≤◌};
ghost use Rattle.curves.specs.Limits.{read_energy, read_kwh};
ghost use Rattle.settlement.specs.Fractions.{PaidParts};
ghost use Rattle.settlement.specs.Payments.{cost_between, lesser, billed, offered, committed, first_part, second_part, competitive_payment, guaranteed_payment};

use crate::readings::CompetitiveEnergies;
use crate::reference::{at_reference, bill, limit};
use curves::{Curve, MAX_KWH, Modified, Raised};

/// What the payment of a competitive unit rests on.
#[derive(Clone, Copy)]
pub struct PaidUnit {
    /// Its plant's loss, in hundredths of a percent; over 2,000 it is read as 2,000.
    pub loss: u32,
    /// Its internal consumption, in hundredths of a percent; over 2,000 it is read as 2,000.
    pub internal: u32,
    /// Its allocated amount, in kWh.
    pub allocated: u32,
    /// The energies that were read of it.
    pub energies: CompetitiveEnergies,
}

impl PaidUnit {
    fn billed(&self) -> u32
        ensures { result ≡ billed self.now }
    {
        bill(self.energies.net, self.loss)
    }

    // Accepted and lost energy.
    fn offered(&self) -> u64
        ensures { result ≡ offered self.now }
    {
        self.energies.accepted as u64 + self.energies.lost as u64
    }

    // Accepted and lost energy less what was made under a technical limit, not under 0.
    fn committed(&self) -> u64
        ensures { result ≡ committed self.now }
    {
        self.offered().saturating_sub(self.energies.limited as u64)
    }

    // The kWh, from kWh 1 up to this one, that are paid by the modified offer.
    fn first_part(&self) -> u32
        ensures { result ≡ first_part self.now }
    {
        let wanted = at_reference(self.committed(), self.loss).max(self.allocated as u64);
        wanted.min(self.billed() as u64) as u32
    }

    // The kWh up to this one, past the first part, are paid by the lesser of cost curve and modified offer.
    fn second_part(&self) -> u32
        ensures { result ≡ second_part self.now }
    {
        let billed = self.billed();
        let offered = at_reference(self.offered(), self.loss).min(billed as u64) as u32;
        if self.energies.asked == 0 {
            return offered;
        }
        let executed = limit(self.energies.executed, self.internal, self.loss);
        offered.max(executed.min(billed))
    }
}

// The kWh from `after` + 1 to `to`.
#[derive(Clone, Copy)]
struct Part {
    after: u32,
    to: u32,
}

impl Part {
    // What these kWh cost by a curve.
    fn cost<C: Curve>(self, curve: &C) -> u64
        ensures { result ≡ cost_between (C.prices curve.now) (read_energy self.after) (read_energy self.to) }
    {
        curve.cost(self.to).saturating_sub(curve.cost(self.after))
    }

    // The lesser of what these kWh cost by two curves, compared as wholes.
    fn lesser_cost<C: Curve, D: Curve>(self, one: &C, other: &D) -> u64
        ensures { result ≡ lesser (C.Curve.prices one.now) (D.Curve.prices other.now) (read_energy self.after) (read_energy self.to) }
    {
        self.cost(one).min(self.cost(other))
    }

    // What these kWh cost, each at the curve's price of kWh `kwh`.
    fn cost_at<C: Curve>(self, curve: &C, kwh: u32) -> u64
        ensures { result ≡ cost_between (λ _. C.prices curve.now (read_kwh kwh)) (read_energy self.after) (read_energy self.to) }
    {
        let count = self.to.min(MAX_KWH).saturating_sub(self.after.min(MAX_KWH));
        curve.price(kwh) as u64 * count as u64
    }
}

/// What a competitive unit is paid by its offer and its cost curve, in thousandths of a rial. `ceiling` is the hour's,
/// in rial per MWh; over 10,000,000 it is read as 10,000,000.
pub fn competitive_payment<O: Curve, C: Curve>(
    offer: &O,
    cost: &C,
    unit: &PaidUnit,
    ceiling: u32,
) -> u64
    ensures value { result ≡ competitive_payment unit.now (O.Curve.prices offer.now) (C.Curve.prices cost.now) ceiling }
    ensures parts { PaidParts unit.now (O.Curve.prices offer.now) (C.Curve.prices cost.now) ceiling result }
    ensures bound { result ≤ 60000000000000 }
{
    let modified = Modified {
        free: unit.allocated,
        below: offer,
    };
    let first = unit.first_part();
    let second = unit.second_part();
    let by_lesser = Part {
        after: first,
        to: second,
    };
    let rest = Part {
        after: first.max(second),
        to: unit.billed(),
    };
    let paid_a = modified.cost(first);
    let paid_b = by_lesser.lesser_cost(cost, &modified);
    let paid_c = if paid_a == 0 {
        rest.cost(&Raised {
            ceiling,
            below: cost,
        })
    } else {
        let kwh = unit.committed().min(MAX_KWH as u64) as u32;
        rest.cost_at(&modified, kwh)
    };
    paid_a + paid_b + paid_c
}

/// What a guaranteed unit is paid, in thousandths of a rial: its billed energy, in kWh, by its offer, and for each
/// of these kWh the transmission `saving`, in rial per MWh, if it feeds the distribution grid: `feeds` is 1, else 0,
/// and over 1 it is read as 1. A bill over 2,000,000 is read as 2,000,000.
pub fn guaranteed_payment<O: Curve>(offer: &O, bill: u32, feeds: u32, saving: u32) -> u64
    ensures value { result ≡ guaranteed_payment bill (O.prices offer.now) feeds saving }
    ensures bound { result ≤ 8609934590000000 }
{
    let saved = bill.min(MAX_KWH) as u64 * feeds.min(1) as u64 * saving as u64;
    offer.cost(bill) + saved
}
