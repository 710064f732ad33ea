// What an event most likely needs. Nothing rests on these names but how soon the parts are in hand, so no contract speaks of
// them.

use ca_adapter::ca_qp_rows::list_of;
use ca_adapter_parts::ca_qpstate::QueuePart;
use ca_adapter_parts::{Held, QueueSlot};
use ca_base::{Key, Message, Piece, QueueId, Slot, slot_of_key};
use ca_cq::Cq;
use ca_model::{Event, PartName, Verb};
use ca_wire::{Operation, Shape, operation_of};

/// Where the key of a WRITE or an atomic stands in its packet: behind the 12 bytes of the base header and the 8 of the
/// address.
const KEY_FROM: usize = 20;

const KEY_UPTO: usize = 24;

/// The parts from which an event begins, of the events that come most often.
pub(crate) fn first_names(event: &Event) -> [Option<PartName>; 2] {
    match event {
        Event::Verb { verb, .. } => [first_of_verb(verb), None],
        Event::Deliver { queue, .. } => [
            Some(PartName::Mailbox(*queue)),
            Some(PartName::Queue(*queue)),
        ],
        Event::Request { queue, .. } | Event::Respond { queue, .. } => {
            [Some(PartName::Queue(*queue)), None]
        }
        Event::Timeout { .. } | Event::RnrWake { .. } => [None, None],
    }
}

/// The part from which a verb begins, of those that come most often.
fn first_of_verb(verb: &Verb) -> Option<PartName> {
    match verb {
        Verb::PostSend { slot, .. } | Verb::PostRecv { slot, .. } => {
            Some(PartName::Queue(QueueId::of_slot(*slot)))
        }
        Verb::Poll { slot, .. } => Some(PartName::Cq(*slot)),
        _ => None,
    }
}

/// What the parts name from which an event begins. The region is the last.
pub(crate) fn next_names(held: &Held, event: &Event) -> [Option<PartName>; 5] {
    match event {
        Event::Verb { verb, .. } => [next_of_verb(held, verb), None, None, None, None],
        Event::Request { queue, .. } => match present(held, *queue) {
            Some(q) => near(q, peer_of(q), request_key(q)),
            None => [None; 5],
        },
        Event::Respond { queue, .. } => match present(held, *queue) {
            Some(q) => near(q, peer_of(q), None),
            None => [None; 5],
        },
        Event::Deliver { queue, index } => match present(held, *queue) {
            Some(q) => near(q, None, arrival_key(held, q, *index)),
            None => [None; 5],
        },
        Event::Timeout { .. } | Event::RnrWake { .. } => [None; 5],
    }
}

/// The part beside that from which a verb begins.
fn next_of_verb(held: &Held, verb: &Verb) -> Option<PartName> {
    match verb {
        Verb::PostSend { slot, .. } => {
            let q = present(held, QueueId::of_slot(*slot))?;
            Some(PartName::Cq(beside(q, q.send_cq)))
        }
        Verb::PostRecv { slot, .. } => {
            let q = present(held, QueueId::of_slot(*slot))?;
            Some(PartName::Cq(beside(q, q.recv_cq)))
        }
        Verb::Poll { slot, .. } => match held.cqs.get(*slot) {
            Some(Some(cq)) => freed_part(*slot, cq),
            _ => None,
        },
        _ => None,
    }
}

/// The part that holds the place which the first completion frees.
fn freed_part(slot: Slot, cq: &Cq) -> Option<PartName> {
    let completion = cq.at(0)?;
    if completion.receive {
        if let Some(srq) = cq.source(completion.queue) {
            return Some(PartName::Srq(Slot {
                domain: slot.domain,
                slot: srq,
            }));
        }
    }
    Some(PartName::Queue(completion.queue))
}

/// What stands around a queue pair, its peer's mailbox, and the region of a key.
fn near(q: &QueuePart, peer: Option<QueueId>, key: Option<Key>) -> [Option<PartName>; 5] {
    [
        Some(PartName::Cq(beside(q, q.send_cq))),
        Some(PartName::Cq(beside(q, q.recv_cq))),
        match q.srq {
            Some(srq) => Some(PartName::Srq(beside(q, srq))),
            None => None,
        },
        match peer {
            Some(peer) => Some(PartName::Mailbox(peer)),
            None => None,
        },
        match key {
            Some(key) if !key.names_window() => Some(PartName::Region(slot_of_key(q.domain, key))),
            _ => None,
        },
    ]
}

/// The peer of a queue pair.
fn peer_of(q: &QueuePart) -> Option<QueueId> {
    match q.peer {
        Some((peer, _)) => Some(peer),
        None => None,
    }
}

/// The key of the bytes that the next packet takes: those of the request that is to begin, or of the last one that began.
fn request_key(q: &QueuePart) -> Option<Key> {
    let place = q.requester.next;
    let posted = match q.sends.get(place) {
        Some(posted) => posted,
        None => q.sends.get(place.saturating_sub(1))?,
    };
    first_key(list_of(&posted.request.op))
}

/// The key of the bytes that a packet which arrives reaches.
fn arrival_key(held: &Held, q: &QueuePart, index: u64) -> Option<Key> {
    let Ok(bytes) = held.mailboxes.get(q.queue)?.lend(index) else {
        return None;
    };
    match operation_of(*bytes.first()?)? {
        Operation::Request(Shape::Write(position)) if position.begins() => key_in_header(bytes),
        Operation::Request(Shape::Atomic(_)) => key_in_header(bytes),
        Operation::Request(Shape::Send(position)) if position.begins() => receive_key(held, q),
        Operation::Request(Shape::Write(_) | Shape::Send(_)) => message_key(q),
        Operation::Request(Shape::Read) | Operation::Acknowledge => None,
        Operation::ReadResponse(_) | Operation::AtomicAcknowledge => {
            first_key(list_of(&q.sends.get(q.requester.oldest)?.request.op))
        }
    }
}

/// The key in a packet that begins a WRITE, or is an atomic.
fn key_in_header(bytes: &[u8]) -> Option<Key> {
    match bytes.get(KEY_FROM..KEY_UPTO)? {
        [a, b, c, d] => Some(Key(u32::from_be_bytes([*a, *b, *c, *d]))),
        _ => None,
    }
}

/// The key of the message that arrives in several packets.
fn message_key(q: &QueuePart) -> Option<Key> {
    match &q.responder.message {
        Some(Message::Write { key, .. }) => Some(*key),
        Some(Message::Send { receive, .. }) => first_key(receive.list.as_slice()),
        None => None,
    }
}

/// The key of a receive: of the queue pair's own the one that was posted last, of shared ones the one that waits first.
fn receive_key(held: &Held, q: &QueuePart) -> Option<Key> {
    let receive = match (&q.receives, q.srq) {
        (Some(receives), _) => receives.get(receives.next_place().saturating_sub(1))?,
        (None, Some(srq)) => match &held.srqs.get(beside(q, srq))?.srq {
            Some(srq) => srq.first()?,
            None => return None,
        },
        (None, None) => return None,
    };
    first_key(receive.list.as_slice())
}

/// The key of the first piece of a list.
fn first_key(list: &[Piece]) -> Option<Key> {
    match list.first() {
        Some(piece) => Some(piece.key),
        None => None,
    }
}

/// The buffer of the region that is the last of these names, where that is in hand.
pub(crate) fn buffer_of(held: &Held, names: &[Option<PartName>; 5]) -> Option<PartName> {
    match names[4] {
        Some(PartName::Region(slot)) => {
            let (adapter, index) = held.reached.regions.get(slot)?.buffer()?;
            Some(PartName::Buffer { adapter, index })
        }
        _ => None,
    }
}

/// A queue pair in hand, where one is there.
fn present(held: &Held, queue: QueueId) -> Option<&QueuePart> {
    match &**held.queues.get(queue)? {
        QueueSlot::Present(q) => Some(q),
        QueueSlot::Vacant { .. } => None,
    }
}

/// A slot of a queue pair's domain.
fn beside(q: &QueuePart, slot: u16) -> Slot {
    Slot {
        domain: q.domain,
        slot,
    }
}
