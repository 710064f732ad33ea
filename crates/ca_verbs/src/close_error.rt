use crate::fabric::Fabric;
use crate::pass::Pass;

/// Why a fabric is not closed. It comes back with the pass, both as they were.
#[derive(Drop)]
pub enum CloseError {
    /// Another pass is out, or was dropped.
    PassOut(Fabric, Pass),
    /// There was no memory, or there are more entries than a history may have.
    Memory(Fabric, Pass),
}
