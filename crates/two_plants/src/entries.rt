// What is entered into the open hour.
use book::{BookRefusal, OpenHour, PriceRow, UnitRefusal};
use curves::{CurveRefusal, Step, SteppedCost, SteppedOffer};

const COMPETITIVE: u32 = 1;

const GUARANTEED: u32 = 2;

/// The offer and the cost curve of a competitive unit.
pub(crate) type UnitRow = PriceRow<SteppedOffer, SteppedCost>;

fn step(width: u32, price: u32) -> Step {
    Step { width, price }
}

// A unit's row of two lists of steps, or the refusal of one.
fn row(offer: &[Step], cost: &[Step]) -> Result<UnitRow, CurveRefusal> {
    Ok(UnitRow {
        offer: SteppedOffer::new(offer)?,
        cost: SteppedCost::new(cost)?,
    })
}

// Adds the competitive units of both plants. The hour hands back each one's row, since it keeps none.
fn add_competitive(hour: &mut OpenHour) -> Result<[UnitRow; 4], UnitRefusal> {
    let made = row(&[step(40, 300), step(60, 400)], &[step(100, 420)]);
    let (_, first) = hour.add_priced(1, 50, 0, made)?;
    let made = row(&[step(20, 300), step(20, 500)], &[step(40, 250)]);
    let (_, second) = hour.add_priced(1, 30, 500, made)?;
    let made = row(&[step(30, 200), step(30, 600)], &[step(60, 450)]);
    let (_, third) = hour.add_priced(2, 50, 100, made)?;
    let made = row(&[step(40, 100)], &[step(40, 80)]);
    let (_, fourth) = hour.add_priced(2, 40, 0, made)?;
    Ok([first, second, third, fourth])
}

// Sells energy of both plants ahead.
fn sell(hour: &mut OpenHour) -> Result<(), BookRefusal> {
    hour.commit(1, 1, 80)?;
    hour.commit(1, 2, 20)?;
    hour.commit(2, 1, 35)?;
    Ok(())
}

// Unit 4 stays aside, and the guaranteed unit is taken back.
fn change(hour: &mut OpenHour) -> Result<(), BookRefusal> {
    hour.correct(COMPETITIVE, 1, 60)?;
    hour.put_aside(COMPETITIVE, 4)?;
    hour.put_aside(GUARANTEED, 1)?;
    hour.take_back(GUARANTEED, 1)?;
    Ok(())
}

/// Enters plants, buyers, units and sales. Numbers are counted from 1 in the order in which the calls are accepted.
pub(crate) fn enter(hour: &mut OpenHour) -> anyhow::Result<[UnitRow; 4]> {
    hour.add_plant(200)?;
    hour.add_plant(0)?;
    hour.add_buyer(0)?;
    hour.add_buyer(1_000)?;
    let rows = add_competitive(hour)?;
    hour.add_guaranteed(1, 45, 20, 0, 1)?;
    sell(hour)?;
    change(hour)?;
    Ok(rows)
}
