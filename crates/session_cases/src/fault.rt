//! Why bytes came to no frame.
use hex::FromHexError;
use std::alloc::AllocError;
use tea_base::WantOfMemory;
use wire_frames::FrameFault;

/// Why bytes came to no frame.
#[derive(Clone, Copy)]
pub(crate) enum FrameCaseFault {
    /// No frame has this spelling, or the case is no hexadecimal digits.
    BadFrame,
    WantOfMemory,
}

impl From<FrameFault> for FrameCaseFault {
    fn from(fault: FrameFault) -> Self {
        match fault {
            FrameFault::BadFrame => FrameCaseFault::BadFrame,
            FrameFault::WantOfMemory => FrameCaseFault::WantOfMemory,
        }
    }
}

impl From<FromHexError> for FrameCaseFault {
    fn from(fault: FromHexError) -> Self {
        match fault {
            FromHexError::OutOfMemory => FrameCaseFault::WantOfMemory,
            _ => FrameCaseFault::BadFrame,
        }
    }
}

impl From<WantOfMemory> for FrameCaseFault {
    fn from(_error: WantOfMemory) -> Self {
        FrameCaseFault::WantOfMemory
    }
}

impl From<AllocError> for FrameCaseFault {
    fn from(_error: AllocError) -> Self {
        FrameCaseFault::WantOfMemory
    }
}
