ghost use Rattle.std.specs.Prelude.{◌≡◌, ◌==◌, ◌&&◌, ◌++◌, true, length, IfSome, OnOk, option_copied};
ghost use Rattle.std.specs.Option.{option_map_or};
ghost use Rattle.ca_adapter_acts.specs.Act.{Acts, Suffices};
ghost use Rattle.ca_adapter_acts.specs.Room.{FitsDone};
ghost use Rattle.ca_adapter_turns.specs.Stepped.{HasStepped, has_no_receive};
ghost use Rattle.ca_base.specs.Configuration.{configuration_in};
ghost use Rattle.ca_base.specs.objects.QueuePair.{Present, QueuePair, is_present, queue_in, srq_of};
ghost use Rattle.ca_adapter_parts.specs.HeldView.{holding};
ghost use Rattle.ca_adapter_parts.specs.Parts.{slot_of};
ghost use Rattle.ca_keys.specs.declared.names.QueueId.{QueueId};
ghost use Rattle.ca_keys.specs.Refusals.{first_of};
ghost use Rattle.ca_model.specs.machine.CanStep.{CanStep};
ghost use Rattle.ca_model.specs.machine.Plan.{perform};
ghost use Rattle.ca_model.specs.machine.Seen.{shared_receives};
ghost use Rattle.ca_model.specs.machine.Timers.{after_timeout, after_wake, timeout_refusals, wake_refusals};
ghost use Rattle.ca_model.specs.machine.Turns as turns;
ghost use Rattle.ca_model.specs.machine.World.{Mailbox_of, Queue_of, Srq_of};

use ca_adapter_acts::{Outlets, put_done};
use ca_adapter_parts::ca_qpstate::QueuePart;
use ca_adapter_parts::{Held, QueueSlot};
use ca_adapter_reach_laws::ca_responder_operations::next_receive;
use ca_base::{ActError, Correspondent, QueueId, Reason, Settings, Slot};
use ca_model::Marks;
use ca_requester::{on_rnr_wake, on_timeout};
use ca_srq::Srq;
use std::alloc::Global;

/// Timeout: the requester's timer fires, where nothing is under way that could answer or the weather wants it. It is not
/// possible, in this order: `State` where there is no queue pair or it does not send, `Empty` where nothing is
/// outstanding, `NotDue`. `Memory` leaves all as it was.
#[tactic(auto, using(crate::proofs::TimerLemmas::timeout_queue, crate::proofs::TimerLemmas::timeout_held, crate::proofs::TimerLemmas::timeout_unnamed, crate::proofs::TimerLemmas::timeout_vacant, crate::proofs::TimerLemmas::timeout_alone, crate::proofs::TimerLemmas::timeout_refused, crate::proofs::TimerLemmas::timeout_sends, crate::proofs::TimerLemmas::timeout_receives, crate::proofs::TimerLemmas::timeout_acts))]
pub fn timeout(
    alloc: Global,
    settings: &Settings,
    held: &mut Held,
    queue: QueueId,
    hasten: bool,
) -> Result<Marks, ActError>
    requires suffices { Suffices held.old (turns.timeout_plan (configuration_in settings.now) queue hasten) }
    requires step { IfSome (queue_in ((holding held.old).world.queue queue)) CanStep }
    requires named { IfSome (queue_in ((holding held.old).world.queue queue)) (λ q. q.queue ≡ queue) }
    requires fits { FitsDone (holding held.old).world
        (perform (holding held.old).world (turns.timeout_plan (configuration_in settings.now) queue hasten)) }
    ensures act { Acts result (turns.timeout_plan (configuration_in settings.now) queue hasten) held.old held.new }
{
    if !settings.has_queue(queue) {
        return Err(ActError::NotReady(Reason::State));
    }
    let QueueSlot::Present(q) = held.queue(queue) else {
        return Err(ActError::NotReady(Reason::State));
    };
    let Some(peer) = peer_of(q) else {
        return Err(ActError::NotReady(Reason::State));
    };
    let silent = is_silent(held, q, peer);
    let to = Outlets::of(q);
    let mut marks = Marks::empty(alloc);
    fire(held, queue, silent, hasten, &mut marks)?;
    put_done(held, &to, marks.as_slice());
    Ok(marks)
}

/// The timer of a queue pair that is held fires, or does not.
#[tactic(auto, using(ca_adapter_parts::proofs::HoldLemmas::put_queue))]
fn fire(
    held: &mut Held,
    queue: QueueId,
    silent: bool,
    hasten: bool,
    marks: &mut Marks,
) -> Result<(), ActError>
    requires held { (holding held.old).has (Queue_of queue) ≡ true }
    requires there { is_present ((holding held.old).world.queue queue) ≡ true }
    requires step { IfSome (queue_in ((holding held.old).world.queue queue)) CanStep }
    ensures stepped { (q : QueuePair) → (holding held.old).world.queue queue ≡ Present q
        → HasStepped queue result (first_of (timeout_refusals silent hasten q)) (after_timeout silent q).queue
        (holding held.old) (holding held.new) }
    ensures marks { (q : QueuePair) → (holding held.old).world.queue queue ≡ Present q
        → OnOk result (marks.new.marks ≡ marks.old.marks ++ (after_timeout silent q).marks) }
{
    let QueueSlot::Present(q) = held.queue_mut(queue) else {
        unreachable!()
    };
    on_timeout(q, silent, hasten, marks)
}

/// Whether nothing is under way that could answer a queue pair: nothing to it, and, where a path leads to the peer, nothing
/// to the peer, which owes no answer.
fn is_silent(held: &Held, q: &QueuePart, peer: Correspondent) -> bool
    requires own { (holding held.now).has (Mailbox_of q.now.queue) ≡ true }
    requires queue { (holding held.now).has (Queue_of peer.queue) ≡ true }
    requires mailbox { (holding held.now).has (Mailbox_of peer.queue) ≡ true }
    ensures { result ≡ turns.is_silent q.now ((holding held.now).world.mailbox q.now.queue) peer
        ((holding held.now).world.queue peer.queue) ((holding held.now).world.mailbox peer.queue) }
{
    if held.mailbox(q.queue).undelivered() != 0 {
        return false;
    }
    if !reaches_peer(held, q, peer) {
        return true;
    }
    held.mailbox(peer.queue).undelivered() == 0 && owes_nothing(held.queue(peer.queue))
}

/// Whether a path leads from a queue pair to its peer: the peer's mailbox, which is held, accepts it.
pub(crate) fn reaches_peer(held: &Held, q: &QueuePart, peer: Correspondent) -> bool
    requires { (holding held.now).has (Mailbox_of peer.queue) ≡ true }
    ensures { result ≡ turns.reaches_peer q.now peer ((holding held.now).world.mailbox peer.queue) }
{
    held.mailbox(peer.queue)
        .passes((q.queue, q.incarnation), peer.incarnation)
}

/// The peer of a queue pair, with its incarnation.
pub(crate) fn peer_of(q: &QueuePart) -> Option<Correspondent>
    ensures { result ≡ q.now.peer }
{
    match q.peer {
        Some((queue, incarnation)) => Some(Correspondent { queue, incarnation }),
        None => None,
    }
}

/// Whether the queue pair in a slot owes no answer.
fn owes_nothing(slot: &QueueSlot) -> bool
    ensures { result ≡ option_map_or (λ p. length p.responder.answers == 0) (queue_in (slot_of slot.now)) true }
{
    match slot {
        QueueSlot::Present(q) => q.responder.answers.len() == 0,
        QueueSlot::Vacant { .. } => true,
    }
}

/// RnrWake: the waiting after an RNR NAK ends. It is not possible, in this order: `State` where there is no queue pair or it
/// does not send, `Empty` where it does not wait, and `RnrWait` where it waits without end and a path leads to the peer,
/// which has no receive to take. It changes nothing else and takes no memory.
#[tactic(auto, using(crate::proofs::TimerLemmas::wake_queue, crate::proofs::TimerLemmas::wake_held, crate::proofs::TimerLemmas::wake_unnamed, crate::proofs::TimerLemmas::wake_vacant, crate::proofs::TimerLemmas::wake_alone, crate::proofs::TimerLemmas::wake_refused, crate::proofs::TimerLemmas::wake_acts))]
pub fn rnr_wake(
    alloc: Global,
    settings: &Settings,
    held: &mut Held,
    queue: QueueId,
) -> Result<Marks, ActError>
    requires suffices { Suffices held.old (turns.wake_plan (configuration_in settings.now) queue) }
    requires step { (q : QueueId) → IfSome (queue_in ((holding held.old).world.queue q)) CanStep }
    requires named { IfSome (queue_in ((holding held.old).world.queue queue)) (λ q. q.queue ≡ queue) }
    ensures act { Acts result (turns.wake_plan (configuration_in settings.now) queue) held.old held.new }
{
    if !settings.has_queue(queue) {
        return Err(ActError::NotReady(Reason::State));
    }
    let QueueSlot::Present(q) = held.queue(queue) else {
        return Err(ActError::NotReady(Reason::State));
    };
    let Some(peer) = peer_of(q) else {
        return Err(ActError::NotReady(Reason::State));
    };
    let peer_empty = is_peer_empty(held, q, peer);
    wake(held, queue, peer_empty)?;
    Ok(Marks::empty(alloc))
}

/// The waiting of a queue pair that is held ends, or does not.
#[tactic(auto, using(ca_adapter_parts::proofs::HoldLemmas::put_queue))]
fn wake(held: &mut Held, queue: QueueId, peer_empty: bool) -> Result<(), ActError>
    requires held { (holding held.old).has (Queue_of queue) ≡ true }
    requires there { is_present ((holding held.old).world.queue queue) ≡ true }
    ensures { (q : QueuePair) → (holding held.old).world.queue queue ≡ Present q
        → HasStepped queue result (first_of (wake_refusals peer_empty q)) (after_wake q).queue
        (holding held.old) (holding held.new) }
{
    let QueueSlot::Present(q) = held.queue_mut(queue) else {
        unreachable!()
    };
    match on_rnr_wake(q, peer_empty) {
        Ok(()) => Ok(()),
        Err(reason) => Err(ActError::NotReady(reason)),
    }
}

/// Whether a path leads from a queue pair to its peer, which has no receive to take.
fn is_peer_empty(held: &Held, q: &QueuePart, peer: Correspondent) -> bool
    requires mailbox { (holding held.now).has (Mailbox_of peer.queue) ≡ true }
    requires queue { (holding held.now).has (Queue_of peer.queue) ≡ true }
    requires step { IfSome (queue_in ((holding held.now).world.queue peer.queue)) CanStep }
    requires shared { IfSome (queue_in ((holding held.now).world.queue peer.queue))
        (λ q. IfSome q.srq (λ srq. (holding held.now).has (Srq_of (srq_of q srq)) ≡ true)) }
    ensures { result ≡ (turns.reaches_peer q.now peer ((holding held.now).world.mailbox peer.queue)
        && has_no_receive (holding held.now).world peer.queue) }
{
    reaches_peer(held, q, peer) && has_no_receive(held, peer.queue)
}

/// Whether the queue pair of a name that is held, with its shared receive queue, has no receive to take; none is there in
/// a vacant slot.
#[tactic(auto, using(crate::proofs::TurnLemmas::none_received))]
fn has_no_receive(held: &Held, queue: QueueId) -> bool
    requires queue { (holding held.now).has (Queue_of queue) ≡ true }
    requires step { IfSome (queue_in ((holding held.now).world.queue queue)) CanStep }
    requires shared { IfSome (queue_in ((holding held.now).world.queue queue))
        (λ q. IfSome q.srq (λ srq. (holding held.now).has (Srq_of (srq_of q srq)) ≡ true)) }
    ensures { result ≡ has_no_receive (holding held.now).world queue }
{
    match held.queue(queue) {
        QueueSlot::Present(q) => next_receive(q, receives(held, q)).is_none(),
        QueueSlot::Vacant { .. } => true,
    }
}

/// The shared receives of a queue pair, if it takes its receives from there.
fn receives<'a>(held: &'a Held, q: &QueuePart) -> Option<&'a Srq>
    requires { IfSome q.now.srq (λ srq. (holding held.now).has (Srq_of (srq_of q.now srq)) ≡ true) }
    ensures { option_copied result ≡ shared_receives (holding held.now).world q.now }
{
    let Some(srq) = q.srq else {
        return None;
    };
    let slot = Slot {
        domain: q.domain,
        slot: srq,
    };
    held.srq(slot).srq.as_ref()
}
