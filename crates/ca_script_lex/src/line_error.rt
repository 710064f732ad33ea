ghost use Rattle.std.specs.Prelude.{◌≡◌};
ghost use Rattle.ca_script_lex.specs.declared.line_error.LineError.TheVariants as errors;

use crate::cause::ScriptCause;
use ca_base::Memory;
use std::alloc::{AllocError, AllocFailed};

/// Why a line of a script is not read: it is refused, or memory ran out.
#[derive(Clone, Copy)]
pub enum LineError {
    Refused(ScriptCause),
    Memory,
}

impl From<ScriptCause> for LineError {
    ghost from_gives = { λ cause error. error ≡ errors.Refused cause };

    fn from(cause: ScriptCause) -> LineError {
        LineError::Refused(cause)
    }
}

impl From<Memory> for LineError {
    ghost from_gives = { λ _ error. error ≡ errors.Memory };

    fn from(_memory: Memory) -> LineError {
        LineError::Memory
    }
}

impl From<AllocError> for LineError {
    ghost from_gives = { λ _ error. error ≡ errors.Memory };

    fn from(_error: AllocError) -> LineError {
        LineError::Memory
    }
}

impl<T: Drop> From<AllocFailed<T>> for LineError {
    ghost from_gives = { λ _ error. error ≡ errors.Memory };

    fn from(_error: AllocFailed<T>) -> LineError {
        LineError::Memory
    }
}
