ghost use Rattle.std.specs.Prelude.{◌≡◌};
ghost use Rattle.ca_script.specs.declared.script_error.ScriptError.TheVariants as errors;

use ca_base::Memory;
use ca_script_lines::ca_script_lex::ScriptCause;

/// Why a text is not read as a script.
#[derive(Clone, Copy)]
pub enum ScriptError {
    /// The first line that is refused, counted from 1, and its first cause.
    Refused { line: u32, cause: ScriptCause },
    /// Out of memory.
    Memory,
}

impl From<Memory> for ScriptError {
    ghost from_gives = { λ _ error. error ≡ errors.Memory };

    fn from(_memory: Memory) -> ScriptError {
        ScriptError::Memory
    }
}
