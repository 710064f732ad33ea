ghost use Rattle.std.specs.Prelude.{◌≡◌};
ghost use Rattle.ca_trace_output.specs.declared.stop.WriteStop.TheVariants as stops;

use ca_base::Memory;
use ca_outside::Failed;

/// Why not all of a text was written.
#[derive(Clone, Copy, Debug, PartialEq, Eq)]
pub enum WriteStop {
    /// The sink failed.
    Failed,
    /// Out of memory.
    Memory,
}

impl From<Failed> for WriteStop {
    ghost from_gives = { λ _ stop. stop ≡ stops.Failed };

    fn from(_failed: Failed) -> WriteStop {
        WriteStop::Failed
    }
}

impl From<Memory> for WriteStop {
    ghost from_gives = { λ _ stop. stop ≡ stops.Memory };

    fn from(_memory: Memory) -> WriteStop {
        WriteStop::Memory
    }
}
