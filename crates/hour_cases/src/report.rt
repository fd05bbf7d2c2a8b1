// The answers and the figures of hours as lines of text.
use crate::calls::Answer;
use book::{BookRefusal, BuyerFigures, PlantFigures, SettledHour, UnitFigures, UnitRefusal};
use std::alloc::{AllocError, Global};
use std::fmt;
use std::fmt::Display;
use table::Group;

// A row of a settled hour with its figures.
#[derive(Clone, Copy)]
enum Row {
    Unit {
        group: Group,
        number: u32,
        figures: UnitFigures,
    },
    Plant {
        number: u32,
        figures: PlantFigures,
    },
    Buyer {
        number: u32,
        figures: BuyerFigures,
    },
}

impl Row {
    fn unit(hour: &SettledHour, group: u32, number: u32) -> Result<Row, BookRefusal> {
        let figures = hour.unit(group, number)?;
        Ok(Row::Unit {
            group: Group::try_from(group)?,
            number,
            figures,
        })
    }

    fn plant(hour: &SettledHour, number: u32) -> Result<Row, BookRefusal> {
        let figures = hour.plant(number)?;
        Ok(Row::Plant { number, figures })
    }

    fn buyer(hour: &SettledHour, number: u32) -> Result<Row, BookRefusal> {
        let figures = hour.buyer(number)?;
        Ok(Row::Buyer { number, figures })
    }
}

impl Display for Row {
    fn fmt<W: fmt::Write>(&self, f: &mut fmt::Formatter<W>) -> fmt::Result {
        match self {
            Row::Unit {
                group,
                number,
                figures,
            } => {
                let letter = match group {
                    Group::Competitive => 'C',
                    Group::Guaranteed => 'G',
                };
                write!(f, "U {letter} {number} {figures}")
            }
            Row::Plant { number, figures } => write!(f, "P {number} {figures}"),
            Row::Buyer { number, figures } => write!(f, "B {number} {figures}"),
        }
    }
}

/// What the cases answer, a line for each answer.
#[derive(Drop)]
pub struct Report {
    /// The lines, each with its line feed.
    pub text: String,
}

impl Report {
    pub(crate) fn new(heap: Global) -> Report {
        Report {
            text: String::new(heap),
        }
    }

    pub(crate) fn line<L: Display + Drop>(&mut self, line: L) -> Result<(), AllocError> {
        writeln!(self.text, "{line}")
    }

    /// Writes what a call answers, or `R` and the number of its refusal.
    pub(crate) fn outcome<L: Display + Drop, E: Into<UnitRefusal> + Drop>(
        &mut self,
        outcome: Result<L, E>,
    ) -> Result<(), AllocError> {
        match outcome {
            Ok(answer) => self.line(answer),
            Err(refusal) => {
                let refusal: UnitRefusal = refusal.into();
                self.line(format_args!("R {}", refusal.number()))
            }
        }
    }

    pub(crate) fn answers(&mut self, answers: &[Answer]) -> Result<(), AllocError> {
        for answer in answers {
            self.outcome(*answer)?;
        }
        Ok(())
    }

    // Writes the rows from number 1 on, up to the first that is not there.
    fn rows<F: Fn(u32) -> Result<Row, BookRefusal>>(&mut self, row: F) -> Result<(), AllocError>
        requires { F.IsAlwaysCallable row }
    {
        for line in (1..1_000).map_while(|number| row(number).ok()) {
            self.line(line)?;
        }
        Ok(())
    }

    // Writes all figures of the hour, as its listing has them.
    fn listing(&mut self, hour: &SettledHour) -> Result<(), AllocError> {
        self.rows(|number| Row::unit(hour, 1, number))?;
        self.rows(|number| Row::unit(hour, 2, number))?;
        self.rows(|number| Row::plant(hour, number))?;
        self.rows(|number| Row::buyer(hour, number))?;
        writeln!(self.text, "H {}", hour.hour())
    }

    // Writes what the hour answers about a number: the plant, the buyer, and the unit of groups 0 to 3.
    fn questions(&mut self, hour: &SettledHour, number: u32) -> Result<(), AllocError> {
        self.outcome(Row::plant(hour, number))?;
        self.outcome(Row::buyer(hour, number))?;
        for group in 0..4 {
            self.outcome(Row::unit(hour, group, number))?;
        }
        Ok(())
    }

    /// Writes the listing of a settled hour and what it answers about these numbers, and releases the hour.
    pub(crate) fn settled(&mut self, hour: SettledHour, asked: &[u32]) -> Result<(), AllocError> {
        self.listing(&hour)?;
        for number in asked {
            self.questions(&hour, *number)?;
        }
        hour.release();
        Ok(())
    }
}
