// The header of an hour.
ghost use Rattle.std.specs.Prelude.{◌≡◌};
ghost use Rattle.settling.specs.Headers.{checked};

use curves::MAX_PRICE;
use table::BookRefusal;

// Of the readiness coefficient, ten-thousandths.
const MAX_COEFFICIENT: u32 = 50_000;

// Of the readiness base rate, rial per MW.
const MAX_BASE: u32 = 1_000_000;

/// The header of an hour. Its numbers are within their limits, since only `Header::new` makes one.
#[derive(Clone, Copy, Debug, PartialEq)]
pub struct Header {
    /// The hour's highest price, rial per MWh, at most 10,000,000.
    pub(crate) ceiling: u32,
    /// Readiness coefficient (CPF), ten-thousandths, at most 50,000.
    pub(crate) coefficient: u32,
    /// Readiness base rate (BAR), rial per MW, at most 1,000,000.
    pub(crate) base: u32,
    /// Transmission saved, rial per MWh, at most 10,000,000.
    pub(crate) saving: u32,
    /// The tariff's rate, rial per MWh, at most 10,000,000. No figure reads it.
    pub(crate) tariff: u32,
}

impl Header {
    /// A header, or refusal 9. At most: `ceiling`, `saving` and `tariff` 10,000,000 rial per MWh, `coefficient` (CPF)
    /// 50,000 ten-thousandths, `base` (BAR) 1,000,000 rial per MW.
    pub fn new(
        ceiling: u32,
        coefficient: u32,
        base: u32,
        saving: u32,
        tariff: u32,
    ) -> Result<Header, BookRefusal>
        ensures { result ≡ checked (record { ceiling = ceiling; coefficient = coefficient; base = base; saving = saving; tariff = tariff }) }
    {
        if ceiling > MAX_PRICE
            || coefficient > MAX_COEFFICIENT
            || base > MAX_BASE
            || saving > MAX_PRICE
            || tariff > MAX_PRICE
        {
            return Err(BookRefusal::Price);
        }
        Ok(Header {
            ceiling,
            coefficient,
            base,
            saving,
            tariff,
        })
    }

    /// The tariff's rate, rial per MWh, for whoever makes the guaranteed units' tariffs.
    pub fn tariff(&self) -> u32
        ensures { result ≡ self.now.tariff }
    {
        self.tariff
    }
}
