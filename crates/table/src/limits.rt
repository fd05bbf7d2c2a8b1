// The limits of what is entered and read.

// Of a loss or an internal consumption, hundredths of a percent.
pub(crate) const MAX_PERCENTAGE: u32 = 2_000;

// Of a unit's energy, kWh.
pub(crate) const MAX_ENERGY: u32 = 2_000_000;

// Of a commitment's volume, and of a plant's commitments together, kWh.
pub(crate) const MAX_VOLUME: u32 = 20_000_000;

// Of a buyer's use, kWh.
pub(crate) const MAX_USE: u32 = 50_000_000;

// Of an adjustment, rial.
pub(crate) const MAX_ADJUSTMENT: u32 = 100_000_000;

// Of a maintenance day.
pub(crate) const MAX_DAY: u32 = 400;

// Of an exit minute: the last one of a day.
pub(crate) const MAX_MINUTE: u32 = 1_439;
