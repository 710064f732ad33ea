ghost use Rattle.std.specs.Prelude.{◌≡◌};
ghost use Rattle.std.specs.Option.{option_map};
ghost use Rattle.ca_base.specs.objects.QueuePair.{receive_in_use, srq_of};

use ca_base::{Message, QueueId, Slot};
use ca_qpstate::QueuePart;

/// What stands around a queue pair, by name: its completion queues, its shared receive queue, and the place there that
/// its message in progress holds.
#[derive(Clone, Copy)]
pub(crate) struct Around {
    pub(crate) queue: QueueId,
    pub(crate) send: Slot,
    pub(crate) recv: Slot,
    pub(crate) srq: Option<Slot>,
    pub(crate) in_use: Option<u64>,
}

impl Around {
    ghost use Rattle.std.specs.Prelude.{◌≡◌};
    ghost use Rattle.ca_adapter_pairs.specs.Names.{names_around};

    /// Around this queue pair.
    pub(crate) fn of(queue: &QueuePart) -> Around
        ensures { result ≡ names_around queue.now }
    {
        Around {
            queue: queue.queue,
            send: beside(queue, queue.send_cq),
            recv: beside(queue, queue.recv_cq),
            srq: shared_of(queue),
            in_use: place_in_use(&queue.responder.message),
        }
    }
}

/// A slot of a queue pair's domain.
fn beside(queue: &QueuePart, slot: u16) -> Slot
    ensures { result ≡ srq_of queue.now slot }
{
    Slot {
        domain: queue.domain,
        slot,
    }
}

/// The slot of its shared receive queue.
fn shared_of(queue: &QueuePart) -> Option<Slot>
    ensures { result ≡ option_map (srq_of queue.now) queue.now.srq }
{
    match queue.srq {
        Some(srq) => Some(beside(queue, srq)),
        None => None,
    }
}

/// The place of the receive that a message in progress holds.
fn place_in_use(message: &Option<Message>) -> Option<u64>
    ensures { result ≡ receive_in_use message.now }
{
    match message {
        Some(Message::Send { place, .. }) => Some(*place),
        Some(Message::Write { .. }) | None => None,
    }
}
