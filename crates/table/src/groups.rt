// The two contract groups.
ghost use Rattle.std.specs.Prelude.{◌≡◌};
ghost use Rattle.std.specs.Borrow.{sem};
ghost use Rattle.table.specs.Groups.{group_named, units_of, LendsUnits};

use crate::records::{Table, UnitTable};
use crate::refusals::BookRefusal;

/// A contract group of units. Callers name it by its number; one that is neither 1 nor 2 is refused with 2.
#[derive(Clone, Copy, Debug, PartialEq)]
pub enum Group {
    /// Group 1.
    Competitive,
    /// Group 2.
    Guaranteed,
}

impl TryFrom<u32> for Group {
    type Error = BookRefusal;

    ghost try_from_gives = { λ number result. result ≡ group_named number };

    fn try_from(number: u32) -> Result<Group, BookRefusal> {
        match number {
            1 => Ok(Group::Competitive),
            2 => Ok(Group::Guaranteed),
            _ => Err(BookRefusal::NoUnit),
        }
    }
}

impl Table {
    /// The units of a group, over all plants.
    pub fn units(&self, group: Group) -> &UnitTable
        ensures { result.now ≡ units_of group self.now }
    {
        match group {
            Group::Competitive => &self.competitive,
            Group::Guaranteed => &self.guaranteed,
        }
    }

    /// The units of a group, to be changed.
    pub(crate) fn units_mut(&mut self, group: Group) -> &mut UnitTable
        ensures value { result.now ≡ units_of group self.old }
        ensures* writes_back { sem 𝓛 (LendsUnits group self.entry result) }
    {
        match group {
            Group::Competitive => &mut self.competitive,
            Group::Guaranteed => &mut self.guaranteed,
        }
    }
}
