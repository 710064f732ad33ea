ghost use Rattle.std.specs.Prelude.{◌≡◌};
ghost use Rattle.ca_base.specs.objects.QueuePair.{srq_of};
ghost use Rattle.ca_model.specs.declared.part_name.PartName.TheVariants as names;
ghost use Rattle.ca_model.specs.machine.Parts.{emptying_needs, part, peer_needs, where_some};
ghost use Rattle.ca_adapter_footprint.specs.Next.{IsNextAround, next_of};

use crate::missing::missing;
use ca_adapter_parts::{Held, QueueSlot};
use ca_base::{QueueId, Slot};
use ca_model::PartName;
use ca_qpstate::QueuePart;

/// What stands around a queue pair: its completion queues, and its shared receive queue.
pub(crate) fn around(held: &Held, q: &QueuePart) -> Option<PartName>
    ensures { IsNextAround held.now q.now result }
{
    let send = PartName::Cq(beside(q, q.send_cq));
    if !held.has(&send) {
        return Some(send);
    }
    let recv = PartName::Cq(beside(q, q.recv_cq));
    if !held.has(&recv) {
        return Some(recv);
    }
    match q.srq {
        Some(srq) => missing(held, PartName::Srq(beside(q, srq))),
        None => None,
    }
}

/// A slot of a queue pair's domain.
pub(crate) fn beside(q: &QueuePart, slot: u16) -> Slot
    ensures { result ≡ record { domain = q.now.domain; slot = slot } }
{
    Slot {
        domain: q.domain,
        slot,
    }
}

/// The mailbox of a queue pair, and what stands around it.
pub(crate) fn emptying(held: &Held, q: &QueuePart) -> Option<PartName>
    ensures { result ≡ next_of held.now (emptying_needs q.now) }
{
    let mailbox = PartName::Mailbox(q.queue);
    if !held.has(&mailbox) {
        return Some(mailbox);
    }
    around(held, q)
}

/// The peer's queue pair, its mailbox, and its shared receive queue.
#[tactic(auto, using(crate::proofs::HasLemmas::holds))]
pub(crate) fn peer(held: &Held, queue: QueueId, incarnation: u32) -> Option<PartName>
    ensures { result ≡ next_of held.now (peer_needs (record { queue = queue; incarnation = incarnation })) }
{
    let name = PartName::Queue(queue);
    if !held.has(&name) {
        return Some(name);
    }
    let mailbox = PartName::Mailbox(queue);
    if !held.has(&mailbox) {
        return Some(mailbox);
    }
    match held.queue(queue) {
        QueueSlot::Present(q) => shared(held, q),
        QueueSlot::Vacant { .. } => None,
    }
}

/// The shared receive queue of a queue pair.
fn shared(held: &Held, q: &QueuePart) -> Option<PartName>
    ensures { result ≡ next_of held.now (where_some (λ srq. part (names.Srq (srq_of q.now srq))) q.now.srq) }
{
    match q.srq {
        Some(srq) => missing(held, PartName::Srq(beside(q, srq))),
        None => None,
    }
}
