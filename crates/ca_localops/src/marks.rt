ghost use Rattle.std.specs.Prelude.{◌≡◌};
ghost use Rattle.ca_localops.specs.Errors.{error_of_registration};
ghost use Rattle.ca_localops.specs.declared.marks.OpError.TheVariants as errors;

use ca_base::{Grant, Key, Memory, OpRefusal, RegistrationError};

/// What a local operation revoked and granted: at most one key, and at most one grant.
#[derive(Drop)]
pub struct Marks2 {
    pub revoked: Option<Key>,
    pub granted: Option<Grant>,
}

/// Why a local operation did nothing.
#[derive(Clone, Copy)]
pub enum OpError {
    Refused(OpRefusal),
    /// Out of memory.
    Memory,
}

impl From<Memory> for OpError {
    ghost from_gives = { λ _ error. error ≡ errors.Memory };

    fn from(_memory: Memory) -> OpError {
        OpError::Memory
    }
}

impl From<RegistrationError> for OpError {
    ghost from_gives = { λ error given. given ≡ error_of_registration error };

    fn from(error: RegistrationError) -> OpError {
        match error {
            RegistrationError::Refused(error) => OpError::Refused(OpRefusal::Region(error)),
            RegistrationError::Memory => OpError::Memory,
        }
    }
}
