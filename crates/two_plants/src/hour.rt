// The header of the hour, and what is done with it once all is entered.
use crate::entries::UnitRow;
use crate::readings::read;
use book::{BookRefusal, Header, OpenHour, SettledHour};
use curves::Tariff;

// The numbers of the header, in the units of docs/hour.md.
const CEILING: u32 = 500;

const COEFFICIENT: u32 = 9_000;

const BASE: u32 = 300;

const SAVING: u32 = 30;

const TARIFF: u32 = 200;

pub(crate) fn header() -> Result<Header, BookRefusal> {
    Header::new(CEILING, COEFFICIENT, BASE, SAVING, TARIFF)
}

/// Closes the hour, reads, and settles. Place 0 of each list is that of unit 1 of its group.
pub(crate) fn settle<'b>(
    open: OpenHour<'b>,
    rows: &[UnitRow; 4],
) -> anyhow::Result<SettledHour<'b>> {
    let offers = rows.map(|row| row.offer);
    let tariffs = [Tariff::new(open.header().tariff())?];
    let mut closed = open.close(&offers, &tariffs);
    read(&mut closed)?;
    Ok(closed.settle(rows, &tariffs))
}
