ghost use Rattle.std.specs.Prelude.{◌≡◌, ◌<◌, ℕ, List, Some, true, IfSome, IsSome, IsTrue, None};
ghost use Rattle.ca_adapter_turns.specs.ca_adapter_acts.Act.{Acts, Suffices};
ghost use Rattle.ca_adapter_turns.specs.ca_adapter_acts.Room.{FitsDone};
ghost use Rattle.ca_adapter_arrivals.specs.Arrived.{CanArrive, HasArrived, outcome_of, told};
ghost use Rattle.ca_adapter_turns.specs.Shown.{AreShown};
ghost use Rattle.ca_base.specs.Configuration.{configuration_in};
ghost use Rattle.ca_base.specs.objects.Mailbox.{after_delivery, bytes_lent};
ghost use Rattle.ca_base.specs.objects.QueuePair.{Present, QueuePair, is_present, queue_in};
ghost use Rattle.ca_adapter_parts.specs.HeldView.{hold, holding};
ghost use Rattle.ca_mailbox.specs.Counting.{is_countable};
ghost use Rattle.ca_model.specs.declared.event.Event.TheVariants as events;
ghost use Rattle.ca_model.specs.machine.CanStep.{CanStep};
ghost use Rattle.ca_model.specs.machine.Delivery.{deliver_plan};
ghost use Rattle.ca_model.specs.machine.Parts.{event_needs, next_part};
ghost use Rattle.ca_model.specs.machine.Plan.{perform};
ghost use Rattle.ca_model.specs.machine.World.{Mailbox_of, Queue_of};

use crate::arriving::{Incoming, arrive};
use ca_adapter_parts::{Held, QueueSlot};
use ca_adapter_turns::ca_adapter_acts::{Outlets, put_done};
use ca_base::{ActError, Memory, QueueId, Reason, Settings};
use ca_model::Marks;
use std::alloc::Global;

/// Deliver: the envelope of an index in a queue pair's mailbox is delivered, and counted as delivered once more.
/// `NotKept` where there is no queue pair, or the envelope is not one of the last that are kept, or was lost. `Memory`
/// leaves all as it was.
pub fn deliver(
    alloc: Global,
    settings: &Settings,
    held: &mut Held,
    queue: QueueId,
    index: u64,
) -> Result<Marks, ActError>
    requires suffices { Suffices held.old (deliver_plan (configuration_in settings.now) queue index) }
    requires parts { AreShown (configuration_in settings.now) held.old }
    requires needs { next_part (holding held.old).parts (holding held.old).world
        (event_needs (configuration_in settings.now) (events.Deliver queue index)) ≡ None }
    requires step { IfSome (queue_in ((holding held.old).world.queue queue)) CanStep }
    requires count { IfSome (bytes_lent index ((holding held.old).world.mailbox queue))
        (λ bytes. IsTrue (is_countable index ((holding held.old).world.mailbox queue))) }
    requires fits { FitsDone (holding held.old).world
        (perform (holding held.old).world (deliver_plan (configuration_in settings.now) queue index)) }
    ensures act { Acts result (deliver_plan (configuration_in settings.now) queue index) held.old held.new }
{
    if !settings.has_queue(queue) {
        return Err(ActError::NotReady(Reason::NotKept));
    }
    let Ok(_) = held.mailbox(queue).lend(index) else {
        return Err(ActError::NotReady(Reason::NotKept));
    };
    let QueueSlot::Present(q) = held.queue(queue) else {
        return Err(ActError::NotReady(Reason::NotKept));
    };
    let to = Outlets::of(q);
    let mut marks = Marks::empty(alloc);
    marks.reserve(1)?;
    take_lent(held, queue, index, &mut marks)?;
    put_done(held, &to, marks.as_slice());
    count(held, queue, index);
    Ok(marks)
}

/// A delivery of an envelope is counted in its mailbox, which is held.
#[tactic(auto, using(ca_adapter_parts::proofs::HoldLemmas::put_mailbox))]
fn count(held: &mut Held, queue: QueueId, index: u64)
    requires held { (holding held.old).has (Mailbox_of queue) ≡ true }
    requires left { IsTrue (is_countable index ((holding held.old).world.mailbox queue)) }
    ensures { holding held.new ≡ hold (holding held.old) (Mailbox_of queue)
        (after_delivery index ((holding held.old).world.mailbox queue)) }
{
    held.mailbox_mut(queue).count(index);
}

/// The bytes of an envelope, which its mailbox lends, arrive at the queue pair of that mailbox; both are held.
#[tactic(auto, unfolding(ca_adapter_parts::specs::HeldView::holding))]
fn take_lent(held: &mut Held, queue: QueueId, index: u64, marks: &mut Marks) -> Result<(), Memory>
    requires mailbox { (holding held.old).has (Mailbox_of queue) ≡ true }
    requires held { (holding held.old).has (Queue_of queue) ≡ true }
    requires room { 0 < marks.old.room }
    requires lent { IsSome (bytes_lent index ((holding held.old).world.mailbox queue)) }
    requires there { is_present ((holding held.old).world.queue queue) ≡ true }
    requires can { (q : QueuePair) (bytes : List ℕ) → (holding held.old).world.queue queue ≡ Present q
        → bytes_lent index ((holding held.old).world.mailbox queue) ≡ Some bytes
        → CanArrive held.old bytes (Some index) q }
    ensures { (q : QueuePair) (bytes : List ℕ) → (holding held.old).world.queue queue ≡ Present q
        → bytes_lent index ((holding held.old).world.mailbox queue) ≡ Some bytes
        → HasArrived queue result (outcome_of held.old bytes (Some index) q).ending
        (outcome_of held.old bytes (Some index) q).ended q held.old (holding held.new)
        (told q (Some index) marks.old) marks.new }
{
    let Ok(bytes) = held.mailboxes.at(queue).lend(index) else {
        unreachable!()
    };
    let slot = held.queues.at_mut(queue);
    let QueueSlot::Present(q) = &mut **slot else {
        unreachable!()
    };
    let incoming = Incoming {
        bytes,
        envelope: Some(index),
    };
    arrive(q, &mut held.srqs, &mut held.reached, &incoming, marks)
}
