// The entries of a pseudo-random hour.
use crate::calls::{buyer, commit, competitive, correct, guaranteed, plant, put_aside, take_back};
use crate::source::Source;
use book::Entry;
use std::alloc::AllocError;

const PERCENTAGES: [u32; 20] = [
    0, 0, 0, 0, 0, 150, 150, 150, 300, 300, 300, 300, 1_234, 1_234, 1_999, 2_000, 2_000, 2_000,
    2_000, 2_001,
];

// β, which is 1 where a unit feeds the distribution grid; 2 is refused.
const FEEDS: [u32; 20] = [0, 0, 0, 0, 0, 0, 0, 0, 0, 1, 1, 1, 1, 1, 1, 1, 1, 1, 1, 2];

const GROUPS: [u32; 14] = [1, 1, 1, 1, 1, 1, 2, 2, 2, 2, 2, 2, 0, 3];

impl Source {
    /// Plants, buyers, units, commitments and changes, in this order.
    pub(crate) fn draw_entries(&mut self) -> Result<Vec<Entry>, AllocError> {
        let mut entries = Vec::new(self.heap);
        entries.extend((0..self.plants).map(|_| plant(self.percentage())))?;
        entries.extend((0..self.buyers).map(|_| buyer(self.percentage())))?;
        entries.extend((0..self.competitive).map(|_| self.any_competitive()))?;
        entries.extend((0..self.guaranteed).map(|_| self.any_guaranteed()))?;
        let commitments = self.random.below(11);
        entries.extend((0..commitments).map(|_| self.any_commitment()))?;
        let changes = self.random.below(9);
        entries.extend((0..changes).map(|_| self.any_change()))?;
        Ok(entries)
    }

    fn percentage(&mut self) -> u32 {
        self.random.one_of(&PERCENTAGES)
    }

    fn gross(&mut self) -> u32 {
        match self.random.below(30) {
            0 => 0,
            1 => 2_000_000,
            2 => 2_000_001,
            _ => self.random.below(self.energy),
        }
    }

    fn volume(&mut self) -> u32 {
        match self.random.below(40) {
            0 => 0,
            1 => 19_999_990,
            2 => 20_000_000,
            3 => 20_000_001,
            _ => self.random.below(self.energy).saturating_add(1),
        }
    }

    fn any_competitive(&mut self) -> Entry {
        let plant = self.random.one_up_to(self.plants);
        let declared = self.gross();
        let internal = self.percentage();
        competitive(plant, declared, internal)
    }

    fn any_guaranteed(&mut self) -> Entry {
        let plant = self.random.one_up_to(self.plants);
        let declared = self.gross();
        let seasonal = self.gross();
        let internal = self.percentage();
        let feeds = self.random.one_of(&FEEDS);
        guaranteed(plant, declared, seasonal, internal, feeds)
    }

    fn any_commitment(&mut self) -> Entry {
        let plant = self.random.one_up_to(self.plants);
        let buyer = self.random.one_up_to(self.buyers);
        let volume = self.volume();
        commit(plant, buyer, volume)
    }

    // A correction, a unit put aside or taken back, or a late unit.
    fn any_change(&mut self) -> Entry {
        let group = self.random.one_of(&GROUPS);
        // The groups 0 and 3 are refused; their unit is drawn as one of group 1.
        let count = if group == 2 {
            self.guaranteed
        } else {
            self.competitive
        };
        let unit = self.random.one_up_to(count);
        match self.random.below(8) {
            0..=2 => correct(group, unit, self.gross()),
            3 | 4 => put_aside(group, unit),
            5 => take_back(group, unit),
            6 => self.any_competitive(),
            _ => self.any_guaranteed(),
        }
    }
}
