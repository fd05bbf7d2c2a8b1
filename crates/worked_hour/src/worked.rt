// One plant with one unit sells 50 kWh to one buyer.
use anyhow::bail;
use book::{
    Book, BookRefusal, BuyerFigures, Entry, Header, Hour, HourCall, HourFigures, PlantFigures,
    PriceRow, Reading, SettledHour, Turn, UnitFigures, UnitReading, run_calls,
};
use curves::{CurveRefusal, Step, SteppedCost, SteppedOffer, Tariff};
use settlement::{CompetitiveEnergies, Control};
use std::fmt;

type UnitRow = PriceRow<SteppedOffer, SteppedCost>;

type WorkedTurn<'c> = Turn<'c, SteppedOffer, Tariff, SteppedOffer, SteppedCost, Tariff>;

const NO_OFFERS: [Tariff; 0] = [];

/// The figures of the hour, printed a line for each record.
#[derive(Clone, Copy)]
pub struct Figures {
    unit: UnitFigures,
    plant: PlantFigures,
    buyer: BuyerFigures,
    hour: HourFigures,
}

impl fmt::Display for Figures {
    fn fmt<W: fmt::Write>(&self, f: &mut fmt::Formatter<W>) -> fmt::Result {
        writeln!(f, "unit {}", self.unit)?;
        writeln!(f, "plant {}", self.plant)?;
        writeln!(f, "buyer {}", self.buyer)?;
        writeln!(f, "hour {}", self.hour)
    }
}

// The unit's reading.
fn reading() -> UnitReading {
    let energies = CompetitiveEnergies {
        net: 130,
        accepted: 110,
        limited: 20,
        ..CompetitiveEnergies::default()
    };
    let control = Control {
        p_act: 30,
        ..Control::default()
    };
    UnitReading {
        energies,
        control,
        ..UnitReading::default()
    }
}

// The unit's offer and its cost curve.
fn unit_row() -> Result<UnitRow, CurveRefusal> {
    let first = Step {
        width: 100,
        price: 300,
    };
    let second = Step {
        width: 100,
        price: 500,
    };
    let cost = Step {
        width: 100,
        price: 350,
    };
    Ok(UnitRow {
        offer: SteppedOffer::new(&[first, second])?,
        cost: SteppedCost::new(&[cost])?,
    })
}

// The calls of the hour in turn: its entries, closing, its readings, settling.
fn turns<'c>(offers: &'c [SteppedOffer], rows: &'c [UnitRow]) -> [WorkedTurn<'c>; 8] {
    let unit = Entry::AddCompetitive {
        plant: 1,
        declared: 40,
        internal: 0,
    };
    let commitment = Entry::Commit {
        plant: 1,
        buyer: 1,
        volume: 50,
    };
    let close = HourCall::Close {
        offers,
        guaranteed: &NO_OFFERS,
    };
    let reading = Reading::Competitive {
        unit: 1,
        reading: reading(),
    };
    let used = Reading::Use {
        buyer: 1,
        used: 200,
    };
    let settle = HourCall::Settle {
        rows,
        offers: &NO_OFFERS,
    };
    [
        Turn::new(HourCall::Enter(Entry::AddPlant { loss: 0 })),
        Turn::new(HourCall::Enter(Entry::AddBuyer { loss: 0 })),
        Turn::new(HourCall::Enter(unit)),
        Turn::new(HourCall::Enter(commitment)),
        Turn::new(close),
        Turn::new(HourCall::Read(reading)),
        Turn::new(HourCall::Read(used)),
        Turn::new(settle),
    ]
}

fn figures_of(hour: &SettledHour) -> Result<Figures, BookRefusal> {
    Ok(Figures {
        unit: hour.unit(1, 1)?,
        plant: hour.plant(1)?,
        buyer: hour.buyer(1)?,
        hour: hour.hour(),
    })
}

/// The figures of the worked hour.
pub(crate) fn worked_figures() -> anyhow::Result<Figures> {
    let header = Header::new(1_000, 10_000, 200, 0, 0)?;
    let row = unit_row()?;
    let offers = [row.offer];
    let rows = [row];
    let mut book = Book::new();
    let Hour::Settled(hour) = run_calls(&mut book, header, &mut turns(&offers, &rows)) else {
        bail!("the hour is not settled");
    };
    let figures = figures_of(&hour);
    hour.release();
    Ok(figures?)
}
