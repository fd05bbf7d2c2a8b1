// Why a comparison can't be made.
use curves::CurveRefusal;
use std::alloc::{AllocError, AllocFailed};
use thiserror::Error;

#[derive(Debug, Drop, Error)]
pub enum Failure {
    #[error("no memory is left")]
    Memory,
    /// The steps of a case are refused, with the number of the refusal.
    #[error("the steps of a case are refused with {0}")]
    Steps(u32),
}

impl From<AllocError> for Failure {
    fn from(_error: AllocError) -> Failure {
        Failure::Memory
    }
}

impl<T: Drop> From<AllocFailed<T>> for Failure {
    fn from(_error: AllocFailed<T>) -> Failure {
        Failure::Memory
    }
}

impl From<CurveRefusal> for Failure {
    fn from(refusal: CurveRefusal) -> Failure {
        Failure::Steps(refusal.number())
    }
}
