ghost use Rattle.std.specs.Prelude.{◌≡◌};
ghost use Rattle.ca_base.specs.declared.step.ActError.TheVariants as steps;

use ca_keys::{Memory, QueueId};

/// Why an event is not possible now.
#[derive(Clone, Copy)]
pub enum Reason {
    /// There is nothing to do: nothing to send, to answer, to deliver, to wake or to poll.
    Empty,
    /// The queue pair is not in a state for it.
    State,
    /// The peer's mailbox has no room.
    NoRoom,
    /// The next request waits for earlier ones.
    Fence,
    /// Too much would be outstanding.
    Outstanding,
    /// The queue pair waits for the wake after an RNR NAK, or the peer still has no receive.
    RnrWait,
    /// The envelope is not kept, or was lost.
    NotKept,
    /// The timer is neither silent nor hastened.
    NotDue,
}

/// Why an event was not acted.
#[derive(Clone, Copy)]
pub enum ActError {
    /// It is not possible now.
    NotReady(Reason),
    /// Out of memory.
    Memory,
}

impl From<Memory> for ActError {
    ghost from_gives = { λ _ error. error ≡ steps.Memory };

    fn from(_memory: Memory) -> ActError {
        ActError::Memory
    }
}

/// Whether a packet was spelt, and of which posting place its request is; a response has none.
#[derive(Clone, Copy)]
pub enum Sent {
    Silent,
    Spelt { request: Option<u64> },
}

/// A turn of a queue pair's engine. What the weather does to it is found as it is made, so that nobody who asks for a turn
/// chooses the lot of its packet.
#[derive(Clone, Copy, PartialEq, Eq)]
pub enum Turn {
    /// The requester sends a packet, or performs a local operation.
    Request(QueueId),
    /// The envelope that is due in the mailbox is delivered.
    Due(QueueId),
    /// The envelope of this index is delivered.
    Deliver(QueueId, u64),
    /// The responder sends the answer at the front of its response queue.
    Respond(QueueId),
    /// The requester's timer fires.
    Timeout(QueueId),
    /// The wait after an RNR NAK ends.
    RnrWake(QueueId),
}
