ghost use Rattle.std.specs.Prelude.{◌≡◌};
ghost use Rattle.ca_trace_read.specs.declared.error.TraceError.TheVariants as errors;

use ca_base::Memory;

/// Why a trace is not read.
#[derive(Clone, Copy, PartialEq, Eq)]
pub enum TraceError {
    /// The line with this number, counted from 1, is the first outside the grammar. The number stands still at 2^32 - 1.
    Refused(u32),
    /// Memory ran out.
    Memory,
}

impl From<Memory> for TraceError {
    ghost from_gives = { λ _ error. error ≡ errors.Memory };

    fn from(_memory: Memory) -> TraceError {
        TraceError::Memory
    }
}
