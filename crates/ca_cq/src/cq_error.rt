ghost use Rattle.std.specs.Prelude.{◌≡◌};
ghost use Rattle.ca_cq.specs.declared.cq_error.CqError.TheVariants as errors;

use ca_base::Memory;
use std::alloc::AllocFailed;

/// Why a reservation is refused.
#[derive(Clone, Copy, Debug, PartialEq, Eq)]
pub enum CqError {
    /// The reservations would exceed the capacity.
    TooSmall,
    /// Out of memory.
    Memory,
}

impl From<Memory> for CqError {
    ghost from_gives = { λ _ error. error ≡ errors.Memory };

    fn from(_memory: Memory) -> CqError {
        CqError::Memory
    }
}

impl<T: Drop> From<AllocFailed<T>> for CqError {
    ghost from_gives = { λ _ error. error ≡ errors.Memory };

    fn from(_error: AllocFailed<T>) -> CqError {
        CqError::Memory
    }
}
