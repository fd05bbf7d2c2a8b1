// The figures of buyers: shares of the billed energy, and net purchases.
ghost use Rattle.std.specs.Prelude.{◌≡◌, ℕ, ◌+◌, ◌*◌, ◌<◌, ◌≤◌, min, cond, length, ◌==◌, slice_index, slice_index_or};
ghost use Rattle.table.specs.Rows.{new_buyer};
ghost use Rattle.settling.specs.Figures.{bought_of, bought_by, volumes};
ghost use Rattle.settling.specs.Settled.{settled_buyer};
ghost use Rattle.settling.specs.Stages.{buyer_weight, weights_of, share_of, buyer_figures_by};

use crate::differences::difference;
use settlement::{running_share, weight};
use table::{BUYERS, Buyer, BuyerFigures, Commitment, Rows};

// A buyer's weight; a missing use counts as 0.
fn weight_of(buyer: &Buyer) -> u64
    ensures value { result ≡ buyer_weight buyer.now }
    ensures bound { result ≤ 5153960754 }
{
    weight(buyer.used.unwrap_or(0), buyer.loss)
}

/// The commitments that are entered, at most 768.
#[derive(Clone, Copy)]
pub(crate) struct Sold<'t> {
    pub(crate) commitments: &'t [Commitment],
    ghost few: { length commitments.now ≤ 768 },
}

// There are at most 768 volumes of 32 bits, so their sum fits 64.
impl Sold<'_> {
    /// The sum of all volumes, kWh.
    pub(crate) fn volumes(&self) -> u64
        ensures value { result ≡ volumes self.now.commitments.now }
        ensures bound { result ≤ 768 * 4294967295 }
    {
        self.commitments
            .iter()
            .map(|commitment| commitment.volume as u64)
            .sum()
    }

    // What each buyer bought, kWh, by its place. One walk over up to 768 commitments serves all buyers.
    fn bought(&self) -> [u64; BUYERS]
        ensures value { (k : ℕ) → k < 64 → slice_index result k ≡ bought_by (k + 1) self.now.commitments.now }
        ensures bound { (k : ℕ) → k < 64 → slice_index result k ≤ 768 * 4294967295 }
    {
        let mut bought = [0u64; BUYERS];
        for commitment in self.commitments {
            add_bought(&mut bought, commitment);
        }
        bought
    }
}

// Adds a commitment to what its buyer bought.
fn add_bought(bought: &mut [u64; BUYERS], commitment: &Commitment)
    requires { (k : ℕ) → k < 64 → slice_index bought.old k ≤ 768 * 4294967295 }
    ensures value { (k : ℕ) → k < 64 → slice_index bought.new k ≡ slice_index bought.old k + bought_of (k + 1) commitment.now }
    ensures bound { (k : ℕ) → k < 64 → slice_index bought.new k ≤ slice_index bought.old k + 4294967295 }
{
    let buyer = commitment.buyer as usize;
    if buyer > 0 && buyer <= BUYERS {
        bought[buyer - 1] += commitment.volume as u64;
    }
}

/// Billed energy that is shared among buyers, kWh, and the sum of their weights.
#[derive(Clone, Copy)]
pub(crate) struct Shares {
    pub(crate) billed: u64,
    pub(crate) weights: u64,
    ghost bounded: { billed ≤ 9000000000000 },
}

impl Shares {
    pub(crate) fn new(billed: u64, buyers: &[Buyer]) -> Shares
        requires { (billed ≤ 9000000000000) × (length buyers.now ≤ 64) }
        ensures billed { result.billed ≡ billed }
        ensures weights { result.weights ≡ weights_of (length buyers.now) buyers.now }
    {
        let weights = buyers.iter().map(weight_of).sum();
        Shares { billed, weights }
    }

    // A buyer's share is the running share with it less the one before it.
    fn between(&self, before: u64, upto: u64) -> u64
        requires { (before ≤ upto) × (upto ≤ self.now.weights) }
        ensures value { result ≡ share_of self.now.billed before upto self.now.weights }
        ensures bound { result ≤ 9000000000000 }
    {
        (running_share(self.billed, upto, self.weights)
            - running_share(self.billed, before, self.weights)) as u64
    }

    // The figures of a buyer by the sum of the weights before it, that with its own, and what it bought.
    fn figures(&self, before: u64, upto: u64, bought: u64) -> BuyerFigures
        requires { (before ≤ upto) × ((upto ≤ self.now.weights) × (bought ≤ 768 * 4294967295)) }
        ensures { result ≡ buyer_figures_by self.now.billed before upto self.now.weights bought }
    {
        let share = self.between(before, upto);
        BuyerFigures {
            share,
            net: difference(share, bought),
        }
    }

    /// What falls to no buyer: all of it where no buyer has a weight.
    pub(crate) fn unassigned(&self) -> u64
        ensures { result ≡ cond (self.now.weights == 0) self.now.billed 0 }
    {
        if self.weights == 0 { self.billed } else { 0 }
    }
}

/// Shares the billed energy among the buyers that are entered by their weights.
pub(crate) fn settle_buyers(buyers: &mut Rows<Buyer, BUYERS>, sold: &Sold, shares: &Shares)
    requires { shares.now.weights ≡ weights_of (min buyers.old.count 64) buyers.old.rows }
    ensures count { buyers.new.count ≡ buyers.old.count }
    ensures long { length buyers.new.rows ≡ length buyers.old.rows }
    ensures entered { (k : ℕ) → k < min buyers.old.count 64 → slice_index_or buyers.new.rows k (new_buyer 0) ≡ settled_buyer (buyer_figures_by shares.now.billed (weights_of k buyers.old.rows) (weights_of (k + 1) buyers.old.rows) shares.now.weights (bought_by (k + 1) sold.now.commitments.now)) (slice_index_or buyers.old.rows k (new_buyer 0)) }
    ensures others { (k : ℕ) → min buyers.old.count 64 ≤ k → slice_index_or buyers.new.rows k (new_buyer 0) ≡ slice_index_or buyers.old.rows k (new_buyer 0) }
{
    let bought = sold.bought();
    let entered = buyers.entered().len();
    let mut before = 0;
    for (place, buyer) in buyers.rows[..entered].iter_mut().enumerate() {
        let upto = before + weight_of(buyer);
        buyer.figures = shares.figures(before, upto, bought[place]);
        before = upto;
    }
}
