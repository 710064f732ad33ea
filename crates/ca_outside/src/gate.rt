/// What each call of a worker on the fabric goes through first. A gate may wait, so that a test decides whose call comes next.
pub trait Gate {
    /// The worker of this number is about to make a call; `step` counts its calls from 0.
    fn at(&self, worker: u32, step: u64);
}

/// A gate at which nobody waits.
pub struct FreeGate;

impl Gate for FreeGate {
    fn at(&self, _worker: u32, _step: u64) {}
}
