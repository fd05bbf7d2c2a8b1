// What can be wrong with a line of a job.
ghost use Rattle.std.specs.Prelude.{◌≡◌};
ghost use Rattle.split.specs.Faults.{IsMemory};
ghost use Rattle.split.specs.declared.faults.Fault.TheVariants.{List};

use allocation::MAX_UNITS;
use curves::CurveRefusal;
use std::alloc::{AllocError, AllocFailed};
use thiserror::Error;

/// Why a line is not taken.
#[derive(Clone, Copy, Debug, Error)]
pub enum Fault {
    /// The unit's list of steps is refused, with 8 or 9.
    #[error(transparent)]
    List(CurveRefusal),
    /// A line's first word is neither of the two.
    #[error("the first word is neither unit nor share")]
    UnknownWord,
    /// A later word isn't decimal digits, or its number has over 32 bits.
    #[error("a word is no number from 0 to {most}", most = u32::MAX)]
    NoNumber,
    /// A unit has no limit, or a share no number.
    #[error("a number is missing")]
    MissingNumber,
    /// A share has several numbers.
    #[error("a number too many")]
    SurplusNumber,
    /// An odd number of numbers follows the limit.
    #[error("a width has no price")]
    WidthAlone,
    /// A unit stands behind a share; all units come first.
    #[error("a unit after a share")]
    UnitAfterShare,
    /// The job has a 129th unit.
    #[error("more than {most} units", most = MAX_UNITS)]
    TooManyUnits,
    /// Memory runs out, at any line.
    #[error("no memory is left")]
    Memory(AllocError),
}

// Written out, here and below, so that the contracts say which fault comes.
impl From<CurveRefusal> for Fault {
    ghost from_gives = { λ refusal fault. fault ≡ List refusal };

    fn from(refusal: CurveRefusal) -> Fault {
        Fault::List(refusal)
    }
}

impl From<AllocError> for Fault {
    ghost from_gives = { λ _ fault. IsMemory fault };

    fn from(e: AllocError) -> Fault {
        Fault::Memory(e)
    }
}

impl<T: Drop> From<AllocFailed<T>> for Fault {
    ghost from_gives = { λ _ fault. IsMemory fault };

    fn from(failed: AllocFailed<T>) -> Fault {
        AllocError::from(failed).into()
    }
}
