ghost use Rattle.std.specs.Prelude.{◌≡◌};
ghost use Rattle.ca_memory.specs.Number.{number_after};

use ca_base::AtomicOp;

/// The number that an atomic puts where it found another.
pub fn number_put(op: AtomicOp, found: u64) -> u64
    ensures { result ≡ number_after op found }
{
    match op {
        AtomicOp::CmpSwap { compare, swap } => { if found == compare { swap } else { found } }
        AtomicOp::FetchAdd { add } => found.wrapping_add(add),
    }
}
