// One plant without units sells 50 kWh, all of which is run support.
use book::{Book, BookRefusal, ClosedHour, Header, OpenHour, PriceRow};
use curves::Tariff;

const NO_OFFERS: [Tariff; 0] = [];

const NO_ROWS: [PriceRow<Tariff, Tariff>; 0] = [];

// Enters a plant and a buyer, and commits 50 kWh of the plant to the buyer.
fn sell(hour: &mut OpenHour) -> Result<(), BookRefusal> {
    hour.add_plant(0)?;
    hour.add_buyer(0)?;
    hour.commit(1, 1, 50)?;
    Ok(())
}

fn read(hour: &mut ClosedHour) -> Result<(), BookRefusal> {
    hour.read_use(1, 200)?;
    Ok(())
}

/// What the plant's support costs, in thousandths of a rial.
pub(crate) fn support_cost(book: &mut Book, header: Header) -> Result<u128, BookRefusal> {
    let mut open = book.open(header);
    sell(&mut open)?;
    let mut closed = open.close(&NO_OFFERS, &NO_OFFERS);
    read(&mut closed)?;
    let settled = closed.settle(&NO_ROWS, &NO_OFFERS);
    let plant = settled.plant(1);
    settled.release();
    Ok(plant?.cost)
}
