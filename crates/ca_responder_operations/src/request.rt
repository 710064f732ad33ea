ghost use Rattle.std.specs.Prelude.{◌≡◌};
ghost use Rattle.ca_model.specs.machine.Arrivals as arrivals;
ghost use Rattle.ca_responder_operations.specs.Taking.{is_taken};

use ca_responder_answers::ca_qpstate::QueuePart;
use ca_wire::{Packet, Shape};

/// A request that arrived, which no call changes: its packet, its shape, and the index of its envelope for the marks of
/// its remote accesses, or None where it was injected.
#[derive(Clone, Copy)]
pub struct Request<'a> {
    pub packet: &'a Packet<'a>,
    pub envelope: Option<u64>,
    pub shape: Shape,
}

/// What becomes of the next receive of the shared receive queue.
#[derive(Clone, Copy)]
pub enum SharedReceive {
    /// It stays, or the queue pair has receives of its own.
    Stays,
    /// The packet takes it.
    Taken,
}

/// What becomes of it where a packet takes a receive: it is taken where the queue pair has a shared receive queue.
pub fn shared_receive(q: &QueuePart) -> SharedReceive
    ensures { is_taken result ≡ arrivals.has_shared q.now }
{
    match q.srq {
        Some(_) => SharedReceive::Taken,
        None => SharedReceive::Stays,
    }
}
