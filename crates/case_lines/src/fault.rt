//! Why a case comes to nothing.
use hex::FromHexError;
use std::alloc::{AllocError, AllocFailed};
use tea_base::WantOfMemory;

/// Why a case comes to nothing.
#[derive(Drop)]
pub enum CaseFault {
    /// The line is no case of its kind.
    NoCase,
    WantOfMemory,
}

impl From<FromHexError> for CaseFault {
    fn from(fault: FromHexError) -> Self {
        match fault {
            FromHexError::OutOfMemory => CaseFault::WantOfMemory,
            _ => CaseFault::NoCase,
        }
    }
}

impl From<WantOfMemory> for CaseFault {
    fn from(_error: WantOfMemory) -> Self {
        CaseFault::WantOfMemory
    }
}

impl From<AllocError> for CaseFault {
    fn from(_error: AllocError) -> Self {
        CaseFault::WantOfMemory
    }
}

impl<T: Drop> From<AllocFailed<T>> for CaseFault {
    fn from(_error: AllocFailed<T>) -> Self {
        CaseFault::WantOfMemory
    }
}
