// Settling a whole table.
ghost use Rattle.settling.specs.Figures.{pay_by};
ghost use Rattle.settling.specs.Settled.{Settled};
ghost use Rattle.settling.specs.Stages.{PaidWithin, RestSettled};

use crate::buyers::{Shares, Sold, settle_buyers};
use crate::header::Header;
use crate::plants::{HourTerms, PaidUnits, settle_plants};
use crate::rows::{ByOffers, ByRows, PriceRow};
use crate::units::settle_group;
use curves::{Curve, Offer};
use table::{HourFigures, Table};

// Writes the figures of plants, buyers and the hour, once the units have theirs.
fn settle_rest(table: &mut Table, header: &Header)
    requires { (PaidWithin table.old.competitive) × (PaidWithin table.old.guaranteed) }
    ensures { RestSettled header.now table.old table.new }
{
    let units = PaidUnits {
        competitive: &table.competitive,
        guaranteed: &table.guaranteed,
    };
    let sold = Sold {
        commitments: table.commitments.entered(),
    };
    let totals = units.totals(None);
    let committed = sold.volumes();
    let terms = HourTerms::new(header, &totals, committed);
    settle_plants(&mut table.plants, &units, &terms);
    let shares = Shares::new(totals.billed, table.buyers.entered());
    settle_buyers(&mut table.buyers, &sold, &shares);
    table.figures = HourFigures {
        billed: totals.billed,
        committed,
        unassigned: shares.unassigned(),
    };
}

/// Settles a closed table: writes every figure of units, plants, buyers and the hour. `rows` are those of group 1,
/// `offers` of group 2; that of a unit is at its place, and a unit without one is paid 0. Can't be turned down.
pub fn settle<O: Offer, C: Curve, G: Offer>(
    table: &mut Table,
    header: &Header,
    rows: &[PriceRow<O, C>],
    offers: &[G],
)
    ensures { Settled header.now (pay_by O.Curve.prices C.Curve.prices rows.now G.Curve.prices offers.now header.now) table.old table.new }
{
    let rows = ByRows {
        rows,
        ceiling: header.ceiling,
    };
    let offers = ByOffers {
        offers,
        saving: header.saving,
    };
    settle_group(&mut table.competitive, &table.plants.rows, &rows);
    settle_group(&mut table.guaranteed, &table.plants.rows, &offers);
    settle_rest(table, header);
}
