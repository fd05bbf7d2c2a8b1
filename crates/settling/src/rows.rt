// Price rows and offers: what units are paid by.
ghost use Rattle.std.specs.Prelude.{◌≡◌};
ghost use Rattle.settling.specs.Figures.{row_payment, offer_payment, paid_case, bill_in};
ghost use Rattle.settling.specs.Ledger.{case_of};

use crate::units::{Payer, energies_of};
use curves::Curve;
use settlement::{PaidUnit, competitive_payment, guaranteed_payment};
use table::UnitRecord;

/// The price row of a competitive unit, for settling. The row of unit n is at place n - 1.
#[derive(Clone, Copy)]
pub struct PriceRow<O, C> {
    /// Its offer: prices in rial per MWh that never fall.
    pub offer: O,
    /// Its cost curve: prices in rial per MWh.
    pub cost: C,
}

/// Pays each competitive unit by the price row at its place, 0 if there is none.
#[derive(Clone, Copy)]
pub(crate) struct ByRows<'r, O, C> {
    pub(crate) rows: &'r [PriceRow<O, C>],
    pub(crate) ceiling: u32,
}

// A competitive unit as its payment looks at it, with its plant's loss.
fn paid_unit(unit: &UnitRecord, loss: u32) -> PaidUnit
    ensures { result ≡ paid_case (case_of loss unit.now) }
{
    PaidUnit {
        loss,
        internal: unit.internal,
        allocated: unit.figures.allocated,
        energies: energies_of(unit),
    }
}

impl<O: Curve, C: Curve> Payer for ByRows<'_, O, C> {
    ghost payment = { λ s i u. row_payment O.Curve.prices C.Curve.prices s.ceiling s.rows.now i (paid_case u) };

    fn payment(&self, place: usize, unit: &UnitRecord, loss: u32) -> u64 {
        let Some(row) = self.rows.get(place) else {
            return 0;
        };
        competitive_payment(&row.offer, &row.cost, &paid_unit(unit, loss), self.ceiling)
    }
}

/// Pays each guaranteed unit by the offer at its place, 0 if there is none.
#[derive(Clone, Copy)]
pub(crate) struct ByOffers<'r, G> {
    pub(crate) offers: &'r [G],
    pub(crate) saving: u32,
}

impl<G: Curve> Payer for ByOffers<'_, G> {
    ghost payment = { λ s i u. offer_payment G.prices s.saving s.offers.now i (bill_in u) u.feeds };

    fn payment(&self, place: usize, unit: &UnitRecord, loss: u32) -> u64 {
        let Some(offer) = self.offers.get(place) else {
            return 0;
        };
        guaranteed_payment(offer, unit.figures.billed, unit.feeds, self.saving)
    }
}
