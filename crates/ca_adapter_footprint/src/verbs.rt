ghost use Rattle.std.specs.Prelude.{◌≡◌, ◌<◌, ◌≤◌, ℕ, true, IfNone, IfSome, Option, drop, min, take};
ghost use Rattle.ca_base.specs.Configuration.{configuration_in};
ghost use Rattle.ca_base.specs.declared.limits.TheConstants.{MAX_POLLED};
ghost use Rattle.ca_base.specs.objects.QueuePair.{recv_cq_of, send_cq_of};
ghost use Rattle.ca_keys.specs.Numbers.{queue_of};
ghost use Rattle.ca_model.specs.declared.part_name.PartName.TheVariants as names;
ghost use Rattle.ca_model.specs.declared.verb.Verb.TheVariants as verbs;
ghost use Rattle.ca_model.specs.machine.Parts.{By, Needs, Part, drawing_needs, emptying_needs, part, place_part, places_needs, present_needs, queues_needs, verb_needs, where_some};
ghost use Rattle.ca_model.specs.machine.World.{Cq_of};
ghost use Rattle.ca_model.specs.machine.QueuePairVerbs as machine;
ghost use Rattle.ca_adapter_footprint.specs.Next.{next_of};

use crate::around::{beside, emptying};
use crate::missing::{missing, missing_of};
use ca_adapter_parts::{Held, QueueSlot};
use ca_base::limits::MAX_POLLED;
use ca_base::{Completion, QueueId, SendOp, Settings, Slot};
use ca_cq::Cq;
use ca_model::PartName;

/// DeallocMw: the window, the region of its binding, and the queue pair through which it was bound.
#[tactic(auto, using(crate::proofs::HasLemmas::holds))]
pub(crate) fn dealloc_mw(settings: &Settings, held: &Held, slot: Slot) -> Option<PartName>
    ensures { result ≡ next_of held.now (verb_needs (configuration_in settings.now) (verbs.DeallocMw slot)) }
{
    let control = PartName::Control(slot.domain);
    if !held.has(&control) {
        return Some(control);
    }
    let name = PartName::Window(slot);
    if !held.has(&name) {
        return Some(name);
    }
    let window = held.window(slot);
    let home = window.slot().domain;
    let Some(region) = window.region() else {
        return None;
    };
    let name = PartName::Region(Slot {
        domain: home,
        slot: region,
    });
    if !held.has(&name) {
        return Some(name);
    }
    match window.view() {
        Some(view) => binder(held, view.queue),
        None => None,
    }
}

/// The queue pair through which a window was bound, if there is one.
fn binder(held: &Held, queue: Option<QueueId>) -> Option<PartName>
    ensures { result ≡ next_of held.now (where_some (λ q. part (names.Queue q)) queue) }
{
    match queue {
        Some(queue) => missing(held, PartName::Queue(queue)),
        None => None,
    }
}

/// ModifyQp: the queue pair, its mailbox, and what stands around it.
#[tactic(auto, using(crate::proofs::HasLemmas::holds))]
pub(crate) fn modify_qp(held: &Held, slot: Slot) -> Option<PartName>
    requires { slot.slot < 256 }
    ensures { result ≡ next_of held.now (present_needs (queue_of slot) emptying_needs) }
{
    let queue = QueueId::of_slot(slot);
    let name = PartName::Queue(queue);
    if !held.has(&name) {
        return Some(name);
    }
    match held.queue(queue) {
        QueueSlot::Present(q) => emptying(held, q),
        QueueSlot::Vacant { .. } => None,
    }
}

/// DestroyQp: the same, behind its domain.
pub(crate) fn destroy_qp(settings: &Settings, held: &Held, slot: Slot) -> Option<PartName>
    requires { slot.slot < 256 }
    ensures { result ≡ next_of held.now (verb_needs (configuration_in settings.now) (verbs.DestroyQp slot)) }
{
    let control = PartName::Control(slot.domain);
    if !held.has(&control) {
        return Some(control);
    }
    modify_qp(held, slot)
}

/// PostSend: the queue pair, the completion queue of its sends, and the window of a bind that draws a byte.
#[tactic(auto, using(crate::proofs::HasLemmas::holds))]
pub(crate) fn post_send(held: &Held, slot: Slot, op: &SendOp) -> Option<PartName>
    requires { slot.slot < 256 }
    ensures { result ≡ next_of held.now
        (present_needs (queue_of slot) (λ q. Part (names.Cq (send_cq_of q)) (drawing_needs slot op.now))) }
{
    let queue = QueueId::of_slot(slot);
    let name = PartName::Queue(queue);
    if !held.has(&name) {
        return Some(name);
    }
    let QueueSlot::Present(q) = held.queue(queue) else {
        return None;
    };
    let send = PartName::Cq(beside(q, q.send_cq));
    if !held.has(&send) {
        return Some(send);
    }
    drawing(held, slot, op)
}

/// The window of a bind that draws a byte as it is posted.
fn drawing(held: &Held, slot: Slot, op: &SendOp) -> Option<PartName>
    ensures { result ≡ next_of held.now (drawing_needs slot op.now) }
{
    match op {
        SendOp::Bind1 { window, .. } => missing(
            held,
            PartName::Window(Slot {
                domain: slot.domain,
                slot: *window,
            }),
        ),
        _ => None,
    }
}

/// PostRecv: the queue pair, and the completion queue of its receives.
#[tactic(auto, using(crate::proofs::HasLemmas::holds))]
pub(crate) fn post_recv(held: &Held, slot: Slot) -> Option<PartName>
    requires { slot.slot < 256 }
    ensures { result ≡ next_of held.now
        (present_needs (queue_of slot) (λ q. part (names.Cq (recv_cq_of q)))) }
{
    let queue = QueueId::of_slot(slot);
    let name = PartName::Queue(queue);
    if !held.has(&name) {
        return Some(name);
    }
    match held.queue(queue) {
        QueueSlot::Present(q) => missing(held, PartName::Cq(beside(q, q.recv_cq))),
        QueueSlot::Vacant { .. } => None,
    }
}

/// CreateQp: the domain, the queue pair, and its mailbox; then its queues.
pub(crate) fn create_qp(
    settings: &Settings,
    held: &Held,
    slot: Slot,
    send_cq: u16,
    recv_cq: u16,
    srq: Option<u16>,
) -> Option<PartName>
    requires { slot.slot < 256 }
    ensures { (send_depth recv_depth : ℕ) → result ≡ next_of held.now (verb_needs (configuration_in settings.now)
        (verbs.CreateQp slot send_cq recv_cq send_depth recv_depth srq)) }
{
    match creation(held, slot) {
        Some(name) => Some(name),
        None => queues(settings, held, slot, send_cq, recv_cq, srq),
    }
}

/// The domain, the queue pair, and its mailbox.
fn creation(held: &Held, slot: Slot) -> Option<PartName>
    requires { slot.slot < 256 }
    ensures some { (more : Needs) → IfSome result (λ name. next_of held.now (Part (names.Control slot.domain)
        (Part (names.Queue (queue_of slot)) (Part (names.Mailbox (queue_of slot)) more))) ≡ Some name) }
    ensures none { IfNone result ((more : Needs) → next_of held.now (Part (names.Control slot.domain)
        (Part (names.Queue (queue_of slot)) (Part (names.Mailbox (queue_of slot)) more))) ≡ next_of held.now more) }
{
    let queue = QueueId::of_slot(slot);
    let control = PartName::Control(slot.domain);
    if !held.has(&control) {
        return Some(control);
    }
    missing_of(held, PartName::Queue(queue), PartName::Mailbox(queue))
}

/// The queues of a queue pair that is made, where they are configured.
fn queues(
    settings: &Settings,
    held: &Held,
    slot: Slot,
    send_cq: u16,
    recv_cq: u16,
    srq: Option<u16>,
) -> Option<PartName>
    ensures { (send_depth recv_depth : ℕ) → result ≡ next_of held.now (queues_needs (configuration_in settings.now)
        (record {
          slot = slot;
          send_cq = send_cq;
          recv_cq = recv_cq;
          send_depth = send_depth;
          recv_depth = recv_depth;
          srq = srq;
        })) }
{
    if !has_queues(settings, slot, send_cq, recv_cq, srq) {
        return None;
    }
    let send = PartName::Cq(sibling(slot, send_cq));
    let recv = PartName::Cq(sibling(slot, recv_cq));
    if let Some(name) = missing_of(held, send, recv) {
        return Some(name);
    }
    match srq {
        Some(srq) => missing(held, PartName::Srq(sibling(slot, srq))),
        None => None,
    }
}

/// Whether the queues of a queue pair that is made are configured.
fn has_queues(settings: &Settings, slot: Slot, send_cq: u16, recv_cq: u16, srq: Option<u16>) -> bool
    ensures { (send_depth recv_depth : ℕ) → result ≡ machine.has_queues (configuration_in settings.now)
        (record {
          slot = slot;
          send_cq = send_cq;
          recv_cq = recv_cq;
          send_depth = send_depth;
          recv_depth = recv_depth;
          srq = srq;
        }) }
{
    if !settings.has_cq(sibling(slot, send_cq)) || !settings.has_cq(sibling(slot, recv_cq)) {
        return false;
    }
    match srq {
        Some(srq) => settings.has_srq(sibling(slot, srq)),
        None => true,
    }
}

/// A slot beside another, in its domain.
fn sibling(slot: Slot, number: u16) -> Slot
    ensures { result ≡ machine.beside slot number }
{
    Slot {
        domain: slot.domain,
        slot: number,
    }
}

/// Poll: the completion queue, and for each completion that is taken its shared receive queue, or else its queue pair.
#[tactic(auto, using(crate::proofs::HasLemmas::holds))]
pub(crate) fn poll(held: &Held, slot: Slot, n: u8) -> Option<PartName>
    ensures { result ≡ next_of held.now (By (Cq_of slot)
        (λ cq. where_some (λ v. places_needs slot v (take (min n MAX_POLLED) v.waiting)) cq)) }
{
    let name = PartName::Cq(slot);
    if !held.has(&name) {
        return Some(name);
    }
    match held.cq(slot) {
        Some(cq) => places(held, slot, cq, 0, u16::from(n).min(MAX_POLLED as u16)),
        None => None,
    }
}

/// The places that the completions free from this one on, as far as so many are taken.
#[tactic(auto, using(crate::proofs::AlsoLemmas::places_end, crate::proofs::AlsoLemmas::places_more))]
fn places(held: &Held, slot: Slot, cq: &Cq, from: u16, upto: u16) -> Option<PartName>
    requires { from ≤ upto }
    ensures { result ≡ next_of held.now (places_needs slot cq.now (drop from (take upto cq.now.waiting))) }
{
    if from == upto {
        return None;
    }
    let Some(completion) = cq.at(from) else {
        return None;
    };
    let name = place(slot, cq, &completion);
    if !held.has(&name) {
        return Some(name);
    }
    places(held, slot, cq, from + 1, upto)
}

/// The part that holds the place which a completion frees.
fn place(slot: Slot, cq: &Cq, completion: &Completion) -> PartName
    ensures { result ≡ place_part slot cq.now completion.now }
{
    if completion.receive {
        if let Some(srq) = cq.source(completion.queue) {
            return PartName::Srq(sibling(slot, srq));
        }
    }
    PartName::Queue(completion.queue)
}
