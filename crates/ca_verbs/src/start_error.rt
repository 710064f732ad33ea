ghost use Rattle.ca_verbs.specs.declared.start_error.StartError.TheVariants as errors;

use ca_base::Memory;
use thiserror::Error;

/// Why a fabric is not started.
#[derive(Debug, Drop, Error)]
pub enum StartError {
    /// A number of the configuration is not within its limit.
    #[error("the configuration is not within its limits")]
    BadConfig,
    /// There would be so many parts, which is more than there may be.
    #[error("the configuration has {0} parts, which is too many")]
    TooManyParts(u64),
    /// There was no memory.
    #[error("out of memory")]
    Memory,
}

impl From<Memory> for StartError {
    ghost use Rattle.std.specs.Prelude.{◌≡◌};

    ghost from_gives = { λ _ error. error ≡ errors.Memory };

    fn from(_memory: Memory) -> StartError {
        StartError::Memory
    }
}
