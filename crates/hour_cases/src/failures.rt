// Why the cases can't be run.
use book::BookRefusal;
use curves::CurveRefusal;
use std::alloc::{AllocError, AllocFailed};
use thiserror::Error;

#[derive(Debug, Drop, Error)]
pub enum Failure {
    #[error("no memory is left")]
    Memory,
    /// A header or a row of a case is refused, with the number of the refusal.
    #[error("a header or a row is refused with {0}")]
    Case(u32),
}

impl From<AllocError> for Failure {
    fn from(_error: AllocError) -> Failure {
        Failure::Memory
    }
}

impl<T: Drop> From<AllocFailed<T>> for Failure {
    fn from(_error: AllocFailed<T>) -> Failure {
        Failure::Memory
    }
}

impl From<CurveRefusal> for Failure {
    fn from(refusal: CurveRefusal) -> Failure {
        Failure::Case(refusal.number())
    }
}

impl From<BookRefusal> for Failure {
    fn from(refusal: BookRefusal) -> Failure {
        Failure::Case(refusal.number())
    }
}
