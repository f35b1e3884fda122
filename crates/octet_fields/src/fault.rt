//! Why octets were not read.

ghost use Rattle.std.specs.Prelude.{◌≡◌};
ghost use Rattle.octet_fields.specs.declared.fault.DecodeError.TheVariants.{Malformed, OutOfMemory};

use std::alloc::{AllocError, AllocFailed};
use thiserror::Error;

/// The octets end before the field does.
#[derive(Clone, Copy, Debug, PartialEq, Eq)]
pub struct Short;

/// Why octets were not read.
#[derive(Clone, Copy, Debug, PartialEq, Eq, Error)]
pub enum DecodeError {
    #[error("the octets spell no such value")]
    Malformed,
    #[error("out of memory")]
    OutOfMemory,
}

impl From<Short> for DecodeError {
    ghost from_gives = { λ _ e. e ≡ Malformed };

    fn from(_e: Short) -> DecodeError {
        DecodeError::Malformed
    }
}

impl From<AllocError> for DecodeError {
    ghost from_gives = { λ _ e. e ≡ OutOfMemory };

    fn from(_e: AllocError) -> DecodeError {
        DecodeError::OutOfMemory
    }
}

impl<T: Drop> From<AllocFailed<T>> for DecodeError {
    ghost from_gives = { λ _ e. e ≡ OutOfMemory };

    fn from(_e: AllocFailed<T>) -> DecodeError {
        DecodeError::OutOfMemory
    }
}
