// The figures of units: billed energy, then payments.
ghost use Rattle.std.specs.Prelude.{◌≡◌, ℕ, ◌<◌, ◌≤◌, length, None, slice_index_or};
ghost use Rattle.table.specs.Rows.{new_unit};
ghost use Rattle.settling.specs.Figures.{bill_in};
ghost use Rattle.settling.specs.Ledger.{UnitCase, case_of, energies_of, loss_at};
ghost use Rattle.settling.specs.Settled.{GroupSettled, settled_unit};
ghost use Rattle.settling.specs.Stages.{PaidWithin};
ghost use Rattle.settling.specs.Totals.{PaymentFits};

use settlement::{CompetitiveEnergies, bill};
use table::{Plant, UnitRecord, UnitTable};

/// What the units of a group are paid by.
pub(crate) trait Payer {
    // The payment of the unit at a place, thousandths of a rial.
    ghost payment: { Self → ℕ → UnitCase → ℕ };

    /// The payment of a billed unit, thousandths of a rial, by its place and its plant's loss.
    fn payment(&self, place: usize, unit: &UnitRecord, loss: u32) -> u64
        requires billed { unit.now.figures.billed ≡ bill_in (case_of loss unit.now) }
        ensures value { result ≡ payment self.now place (case_of loss unit.now) }
        ensures bound { result ≤ 8609934590000000 };
}

/// The energies of a unit's reading; zeros if it is missing.
pub(crate) fn energies_of(unit: &UnitRecord) -> CompetitiveEnergies
    ensures { result ≡ energies_of unit.now.reading }
{
    unit.reading.unwrap_or_default().energies
}

// The loss of the plant of a number; 0 where there is none.
fn loss_of(plants: &[Plant], number: u32) -> u32
    ensures { result ≡ loss_at plants.now number }
{
    plants
        .get((number as usize).saturating_sub(1))
        .map_or(0, |plant| plant.loss)
}

// Bills and pays the unit at a place.
fn settle_unit<P: Payer>(unit: &mut UnitRecord, place: usize, loss: u32, payer: &P)
    ensures value { unit.new ≡ settled_unit (P.payment payer.now place) loss unit.old }
    ensures bound { PaymentFits unit.new }
{
    unit.figures.billed = bill(energies_of(unit).net, loss);
    unit.figures.payment = payer.payment(place, unit, loss);
}

// Bills and pays each unit.
fn settle_units<P: Payer>(units: &mut [UnitRecord], plants: &[Plant], payer: &P)
    ensures each { (k : ℕ) → k < length units.old → slice_index_or units.new k (new_unit 0 0 None 0 0) ≡ settled_unit (P.payment payer.now k) (loss_at plants.now (slice_index_or units.old k (new_unit 0 0 None 0 0)).plant) (slice_index_or units.old k (new_unit 0 0 None 0 0)) }
    ensures bound { (k : ℕ) → k < length units.old → PaymentFits (slice_index_or units.new k (new_unit 0 0 None 0 0)) }
{
    for (place, unit) in units.iter_mut().enumerate() {
        settle_unit(unit, place, loss_of(plants, unit.plant), payer);
    }
}

/// Bills and pays the units of a group that are entered.
pub(crate) fn settle_group<P: Payer>(group: &mut UnitTable, plants: &[Plant], payer: &P)
    ensures settled { GroupSettled (P.payment payer.now) plants.now group.old group.new }
    ensures bound { PaidWithin group.new }
{
    let entered = group.entered().len();
    settle_units(&mut group.rows[..entered], plants, payer);
}
