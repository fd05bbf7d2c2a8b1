// Totals of units: sums of what is billed, paid and read.
ghost use Rattle.std.specs.Prelude.{◌≡◌};
ghost use Rattle.settling.specs.Stages.{group_totals, PaidWithin};
ghost use Rattle.settling.specs.Totals.{PaymentFits, unit_totals, counted, plus_totals, Small, Fits};

use std::ops::Add;
use table::{UnitRecord, UnitTable};

/// Sums over some units.
#[derive(Clone, Copy, Default)]
pub(crate) struct Totals {
    /// Billed energy, kWh.
    pub(crate) billed: u64,
    /// Payments, thousandths of a rial.
    pub(crate) paid: u64,
    /// Active energy, kWh.
    pub(crate) active: u64,
    /// Opportunity payments, rial.
    pub(crate) opportunity: u64,
    /// Planning and non-cooperation penalties, rial.
    pub(crate) penalties: u64,
}

impl Totals {
    // The totals of one unit; a missing reading counts as zeros.
    fn of(unit: &UnitRecord) -> Totals
        ensures value { result ≡ unit_totals unit.now }
        ensures bound { PaymentFits unit.now → Small result }
    {
        let reading = unit.reading.unwrap_or_default();
        Totals {
            billed: unit.figures.billed as u64,
            paid: unit.figures.payment,
            active: reading.control.active(),
            opportunity: reading.adjustments.opportunity as u64,
            penalties: reading.adjustments.planning as u64 + reading.adjustments.cooperation as u64,
        }
    }
}

impl Add for Totals {
    type Output = Totals;

    ghost can_add = { λ a b. Fits a × Fits b };

    ghost add_gives = { λ a b c. c ≡ plus_totals a b };

    fn add(self, other: Totals) -> Totals {
        Totals {
            billed: self.billed + other.billed,
            paid: self.paid + other.paid,
            active: self.active + other.active,
            opportunity: self.opportunity + other.opportunity,
            penalties: self.penalties + other.penalties,
        }
    }
}

// Whether a unit is one of the plant, or any where no plant is named.
fn is_counted(unit: &UnitRecord, plant: Option<u32>) -> bool
    ensures { result ≡ counted plant unit.now }
{
    plant.is_none_or(|number| unit.plant == number)
}

// The totals of a group's units that are entered, of one plant or of all.
pub(crate) fn group_totals(group: &UnitTable, plant: Option<u32>) -> Totals
    requires { PaidWithin group.now }
    ensures value { result ≡ group_totals plant group.now }
    ensures fits { Fits result }
{
    group
        .entered()
        .iter()
        .filter(|unit| is_counted(unit, plant))
        .fold(Totals::default(), |sum, unit| sum + Totals::of(unit))
}
