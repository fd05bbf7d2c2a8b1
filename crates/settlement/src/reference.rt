// Energy at the reference point.
ghost use Rattle.std.specs.Prelude.{◌≡◌, ◌≤◌, min};
ghost use Rattle.settlement.specs.Fractions.{Carried, CarriedGross};
ghost use Rattle.settlement.specs.Reference.{kept, at_reference, net_of, bill_of};

use curves::MAX_KWH;

// The parts of a whole, since losses and internal consumption are in hundredths of a percent.
pub(crate) const WHOLE_PARTS: u64 = 10_000;

// The most parts that a loss or internal consumption takes.
pub(crate) const MAX_LOSS: u32 = 2_000;

// What is left of the parts after a loss.
pub(crate) fn parts_kept(loss: u32) -> u64
    ensures { result ≡ kept loss }
{
    WHOLE_PARTS - loss.min(MAX_LOSS) as u64
}

// Energy carried to the reference point, its fraction dropped.
pub(crate) fn at_reference(energy: u64, loss: u32) -> u64
    ensures value { result ≡ at_reference loss energy }
    ensures bound { result ≤ energy }
{
    (energy as u128 * parts_kept(loss) as u128 / WHOLE_PARTS as u128) as u64
}

/// A unit's limit, in kWh: its gross energy less internal consumption, carried to the reference point, with one
/// fraction dropped. `internal` and `loss` are in hundredths of a percent; over 2,000 they are read as 2,000.
pub fn limit(gross: u32, internal: u32, loss: u32) -> u32
    ensures value { result ≡ net_of internal loss gross }
    ensures fraction { CarriedGross internal loss gross result }
    ensures bound { result ≤ gross }
{
    (gross as u64 * parts_kept(internal) * parts_kept(loss) / (WHOLE_PARTS * WHOLE_PARTS)) as u32
}

/// A unit's billed energy, in kWh: its net energy carried to the reference point, the fraction dropped. `net` over
/// 2,000,000 is read as 2,000,000, and `loss`, in hundredths of a percent, over 2,000 as 2,000.
pub fn bill(net: u32, loss: u32) -> u32
    ensures value { result ≡ bill_of loss net }
    ensures fraction { Carried loss (min net 2000000) result }
    ensures bound { result ≤ 2000000 }
{
    at_reference(net.min(MAX_KWH) as u64, loss) as u32
}
