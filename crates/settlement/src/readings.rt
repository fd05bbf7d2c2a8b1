// What the meters and the operator report of a unit.

/// A competitive unit's energies, in kWh.
#[derive(Clone, Copy, Default)]
pub struct CompetitiveEnergies {
    /// Net energy; over 2,000,000 it is read as 2,000,000.
    pub net: u32,
    /// Accepted energy.
    pub accepted: u32,
    /// Lost energy: what was taken from the unit.
    pub lost: u32,
    /// Energy made under a technical limit; what exceeds accepted and lost energy counts for nothing.
    pub limited: u32,
    /// Executed gross energy.
    pub executed: u32,
    /// 1 if the control form says that the plant asked, else 0; over 1 it is read as 1.
    pub asked: u32,
}

/// What the operator reports of a unit: its active energy and deviations, in kWh, and its maintenance.
#[derive(Clone, Copy, Default)]
pub struct Control {
    /// Active energy as the operator reports it.
    pub p_act: u32,
    /// Its deviation of type 2.
    pub type2: u32,
    /// Its deviation of type 3.
    pub type3: u32,
    /// Its deviation of type 5.
    pub type5: u32,
    /// Its deviation of type 6, which counts only where the maintenance mark is not set.
    pub type6: u32,
    /// Its deviation of type 8.
    pub type8: u32,
    /// The day of the maintenance, from 1; 0 if there is none. The mark is set on days 1 and 2 alone.
    pub day: u32,
    /// The exit minute of day 1. On day 2 the mark is set if it is over 780.
    pub minute: u32,
}
