// A client for any kinds of offer and cost curve. It makes calls one by one and by lists, and what it promises follows
// from what the book promises of each.
ghost use Rattle.hour_client.specs.Sales.{offers_in, rows_in, SoldBy};

use book::{Book, Entry, Header, PriceRow, Reading, SettledHour};
use curves::{Curve, CurveRefusal, Offer};

/// A sale of one plant: what is entered after its unit, and what the hour is closed, read and settled by.
#[derive(Clone, Copy)]
pub(crate) struct Sale<'s, O, G, P, C, H> {
    /// What is entered after the plant, the buyer and the unit.
    pub(crate) entries: &'s [Entry],
    /// The competitive units' offers at closing.
    pub(crate) offers: &'s [O],
    /// The guaranteed units' offers at closing.
    pub(crate) guaranteed: &'s [G],
    /// What buyer 1 uses, in kWh.
    pub(crate) used: u32,
    /// The readings after that use.
    pub(crate) readings: &'s [Reading],
    /// The competitive units' price rows at settling.
    pub(crate) rows: &'s [PriceRow<P, C>],
    /// The guaranteed units' offers at settling.
    pub(crate) row_offers: &'s [H],
}

/// Sells a plant's energy ahead and settles the hour. The plant's unit comes with the outcome of making its rows.
pub(crate) fn sell<'b, O: Offer, G: Offer, P: Offer + Drop, C: Curve + Drop, H: Offer>(
    book: &'b mut Book,
    header: Header,
    unit: Result<PriceRow<P, C>, CurveRefusal>,
    sale: &Sale<O, G, P, C, H>,
) -> SettledHour<'b>
    ensures { SoldBy (offers_in O.Curve.prices G.Curve.prices sale.now) (rows_in P.Curve.prices C.Curve.prices H.Curve.prices sale.now) header unit sale.now result }
{
    let mut open = book.open(header);
    open.add_plant(0).ok();
    open.add_buyer(0).ok();
    open.add_priced(1, 40, 0, unit).ok();
    open.enter_all(sale.entries, &mut []);
    let mut closed = open.close(sale.offers, sale.guaranteed);
    closed.read_use(1, sale.used).ok();
    closed.read_all(sale.readings, &mut []);
    closed.settle(sale.rows, sale.row_offers)
}
