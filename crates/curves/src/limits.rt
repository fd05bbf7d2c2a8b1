// The limits of a curve, and how a number outside them is read: as the nearest within.
ghost use Rattle.std.specs.Prelude.{◌≡◌};
ghost use Rattle.curves.specs.Limits.{read_energy, read_kwh};

/// The last kilowatt-hour of a curve.
pub const MAX_KWH: u32 = 2_000_000;

/// The highest price, in rial per MWh.
pub const MAX_PRICE: u32 = 10_000_000;

// A number of kWh, read as at most 2,000,000.
pub(crate) fn read_energy(energy: u32) -> u32
    ensures { result ≡ read_energy energy }
{
    energy.min(MAX_KWH)
}

// The number of one kWh, or a step's width in kWh, read as from 1 to 2,000,000.
pub(crate) fn read_kwh(kwh: u32) -> u32
    ensures { result ≡ read_kwh kwh }
{
    kwh.clamp(1, MAX_KWH)
}
