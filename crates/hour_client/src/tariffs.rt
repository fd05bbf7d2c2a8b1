// Hours whose offers and cost curves are all tariffs.
use crate::lent::{closed, closed_by_calls, entered, made, settled};
use crate::sales::{Sale, sell};
use book::{
    Book, BookRefusal, Calls, Entry, Header, HourCall, PlantFigures, PriceRow, Reading, Turn,
};
use curves::Tariff;

const OFFER: Tariff = Tariff { rate: 300 };

const ROW: PriceRow<Tariff, Tariff> = PriceRow {
    offer: OFFER,
    cost: Tariff { rate: 350 },
};

const NO_OFFERS: [Tariff; 0] = [];

const COMMITMENT: [Entry; 1] = [Entry::Commit {
    plant: 1,
    buyer: 1,
    volume: 50,
}];

const USE: [Reading; 1] = [Reading::Use {
    buyer: 1,
    used: 300,
}];

/// The figures of a plant with one unit of 40 kWh that sells 50.
pub(crate) fn plant(book: &mut Book, header: Header) -> Result<PlantFigures, BookRefusal> {
    let sale = Sale {
        entries: &COMMITMENT,
        offers: &[OFFER],
        guaranteed: &NO_OFFERS,
        used: 200,
        readings: &USE,
        rows: &[ROW],
        row_offers: &NO_OFFERS,
    };
    let hour = sell(book, header, Ok(ROW), &sale);
    let figures = hour.plant(1);
    hour.release();
    figures
}

/// Makes an hour by each of the calls of `lent`, on one book.
pub(crate) fn let_go(book: &mut Book, header: Header) {
    let calls = Calls {
        entries: &COMMITMENT,
        offers: &[OFFER],
        guaranteed: &NO_OFFERS,
        readings: &USE,
    };
    let close = HourCall::Close {
        offers: &[OFFER],
        guaranteed: &NO_OFFERS,
    };
    let settle = HourCall::Settle {
        rows: &[ROW],
        offers: &NO_OFFERS,
    };
    entered(book, header, &COMMITMENT);
    closed(book, header, &calls);
    closed_by_calls(book, header, &calls);
    settled(book, header, &calls, &[ROW], &NO_OFFERS);
    made(book, header, &mut [Turn::new(close), Turn::new(settle)]);
}
