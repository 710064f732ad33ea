ghost use Rattle.std.specs.Prelude.{◌≡◌};

use crate::verb::Verb;
use ca_base::{Lot, QueueId};
use std::alloc::AllocError;

/// One event: a verb of a consumer, or one turn of an adapter's engine. `lot` is what the weather does to the packet
/// that is sent.
#[derive(Drop)]
pub enum Event {
    /// Consumer `by` calls a verb.
    Verb { by: u32, verb: Verb },
    /// The requester of a queue pair sends a packet, or performs a local operation.
    Request { queue: QueueId, lot: Lot },
    /// The envelope with this index is delivered to a queue pair.
    Deliver { queue: QueueId, index: u64 },
    /// The responder of a queue pair sends the answer at the front of its response queue.
    Respond { queue: QueueId, lot: Lot },
    /// The requester's timer fires: `hasten` where the weather said so, and else because all is silent.
    Timeout { queue: QueueId, hasten: bool },
    /// The wait after an RNR NAK ends.
    RnrWake { queue: QueueId },
}

impl Clone for Event {
    ghost is_clone = { λ event copy. copy ≡ event };

    fn clone(&self) -> Result<Event, AllocError> {
        Ok(match self {
            Event::Verb { by, verb } => Event::Verb {
                by: *by,
                verb: verb.clone()?,
            },
            Event::Request { queue, lot } => Event::Request {
                queue: *queue,
                lot: *lot,
            },
            Event::Deliver { queue, index } => Event::Deliver {
                queue: *queue,
                index: *index,
            },
            Event::Respond { queue, lot } => Event::Respond {
                queue: *queue,
                lot: *lot,
            },
            Event::Timeout { queue, hasten } => Event::Timeout {
                queue: *queue,
                hasten: *hasten,
            },
            Event::RnrWake { queue } => Event::RnrWake { queue: *queue },
        })
    }
}
