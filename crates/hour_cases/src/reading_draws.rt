// The readings of a pseudo-random hour.
ghost use Rattle.std.specs.Prelude.{◌≤◌};

use crate::calls::{guaranteed_reading, read_competitive, read_guaranteed, read_use, unit_reading};
use crate::source::Source;
use book::Reading;
use std::alloc::AllocError;

/// The kinds of a reading's fields, by what is drawn for them.
#[derive(Clone, Copy)]
pub enum Field {
    /// An energy below `Source::energy`.
    Energy,
    /// An energy below half of `Source::energy`.
    Half,
    /// An energy below an eighth of `Source::energy`, often 0.
    Part,
    /// α, 0 or 1.
    Mark,
    /// A maintenance day, 0 to 3.
    Day,
    /// An exit minute, often about 780, past which day 2 sets the maintenance mark.
    Minute,
    /// An opportunity payment in rial, often 0.
    Gain,
    /// A penalty in rial, often 0.
    Penalty,
}

/// The fields of a competitive reading, in the order of docs/hour.md.
pub const COMPETITIVE_FIELDS: [Field; 17] = [
    Field::Energy,
    Field::Half,
    Field::Part,
    Field::Part,
    Field::Energy,
    Field::Mark,
    Field::Energy,
    Field::Part,
    Field::Part,
    Field::Part,
    Field::Part,
    Field::Part,
    Field::Day,
    Field::Minute,
    Field::Gain,
    Field::Penalty,
    Field::Penalty,
];

/// The fields of a guaranteed reading, in the order of docs/hour.md.
pub const GUARANTEED_FIELDS: [Field; 9] = [
    Field::Energy,
    Field::Energy,
    Field::Part,
    Field::Part,
    Field::Part,
    Field::Part,
    Field::Part,
    Field::Day,
    Field::Minute,
];

impl Field {
    /// The limit of such a field; a greater number is refused.
    pub(crate) fn most(self) -> u32
        ensures { result ≤ 100_000_000 }
    {
        match self {
            Field::Energy | Field::Half | Field::Part => 2_000_000,
            Field::Mark => 1,
            Field::Day => 400,
            Field::Minute => 1_439,
            Field::Gain | Field::Penalty => 100_000_000,
        }
    }

    fn draw(self, source: &mut Source) -> u32 {
        match self {
            Field::Energy => source.random.below(source.energy),
            Field::Half => source.random.below(source.energy / 2),
            Field::Part => source.random.often_zero(source.energy / 8),
            Field::Mark => source.random.below(2),
            Field::Day => source.random.below(4),
            Field::Minute => source.random.one_of(&[0, 779, 780, 781, 1_439]),
            Field::Gain => source.random.often_zero(source.gain),
            Field::Penalty => source.random.often_zero(source.penalty),
        }
    }
}

impl Source {
    /// Readings of most units and buyers; then up to four that read one again, or one that is not there.
    pub(crate) fn draw_readings(&mut self) -> Result<Vec<Reading>, AllocError> {
        let mut readings = Vec::new(self.heap);
        self.read_most(
            &mut readings,
            self.competitive,
            Source::any_competitive_reading,
        )?;
        self.read_most(
            &mut readings,
            self.guaranteed,
            Source::any_guaranteed_reading,
        )?;
        self.read_most(&mut readings, self.buyers, Source::any_use)?;
        for _ in 0..self.random.below(5) {
            readings.push(self.any_reading())?;
        }
        Ok(readings)
    }

    // Reads about seven of eight units or buyers, by rising number.
    fn read_most<R: Fn(&mut Source, u32) -> Reading>(
        &mut self,
        readings: &mut Vec<Reading>,
        count: u32,
        read: R,
    ) -> Result<(), AllocError>
        requires { R.IsAlwaysCallable read }
    {
        for number in 1..=count {
            if self.random.below(8) != 0 {
                readings.push(read(self, number))?;
            }
        }
        Ok(())
    }

    // A reading of any unit or buyer, or of one that is not there.
    fn any_reading(&mut self) -> Reading {
        match self.random.below(3) {
            0 => self.read_one(self.competitive, Source::any_competitive_reading),
            1 => self.read_one(self.guaranteed, Source::any_guaranteed_reading),
            _ => self.read_one(self.buyers, Source::any_use),
        }
    }

    // A reading of one of so many, of the one past them, or of number 0.
    fn read_one<R: Fn(&mut Source, u32) -> Reading>(&mut self, count: u32, read: R) -> Reading
        requires { R.IsAlwaysCallable read }
    {
        let number = self.random.one_up_to(count.saturating_add(1));
        read(self, number)
    }

    fn any_competitive_reading(&mut self, unit: u32) -> Reading {
        read_competitive(unit, unit_reading(self.draw_fields(COMPETITIVE_FIELDS)))
    }

    fn any_guaranteed_reading(&mut self, unit: u32) -> Reading {
        read_guaranteed(
            unit,
            guaranteed_reading(self.draw_fields(GUARANTEED_FIELDS)),
        )
    }

    // The fields of a reading. In one of twelve a field is one over its limit.
    fn draw_fields<const N: usize>(&mut self, kinds: [Field; N]) -> [u32; N] {
        let mut fields = kinds.map(|kind| kind.draw(self));
        if self.random.below(12) == 0 {
            if let Some(place) = self.random.place(N) {
                fields[place] = kinds[place].most() + 1;
            }
        }
        fields
    }

    fn any_use(&mut self, buyer: u32) -> Reading {
        let used = match self.random.below(12) {
            0..=3 => 0,
            4 => 50_000_000,
            5 => 50_000_001,
            _ => self.random.below(self.energy),
        };
        read_use(buyer, used)
    }
}
