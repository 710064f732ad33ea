ghost use Rattle.std.specs.Prelude.{◌≡◌, ◌<◌, true, IfSome, None};
ghost use Rattle.ca_adapter_turns.specs.ca_adapter_acts.Act.{Acts, Suffices};
ghost use Rattle.ca_adapter_turns.specs.ca_adapter_acts.Calls.{call_of};
ghost use Rattle.ca_adapter_turns.specs.ca_adapter_acts.Room.{FitsDone};
ghost use Rattle.ca_adapter_arrivals.specs.Arrived.{CanArrive, HasArrived, outcome_of, told};
ghost use Rattle.ca_adapter_turns.specs.Shown.{AreShown};
ghost use Rattle.ca_base.specs.Configuration.{configuration_in};
ghost use Rattle.ca_base.specs.objects.QueuePair.{Present, QueuePair, is_present, queue_in};
ghost use Rattle.ca_base.specs.objects.Slices.{has_queue};
ghost use Rattle.ca_adapter_parts.specs.HeldView.{holding};
ghost use Rattle.ca_model.specs.declared.event.Event.TheVariants as events;
ghost use Rattle.ca_model.specs.declared.verb.Verb.TheVariants as verbs;
ghost use Rattle.ca_model.specs.machine.CanStep.{CanStep};
ghost use Rattle.ca_model.specs.machine.HostVerbs.{inject_plan};
ghost use Rattle.ca_model.specs.machine.Parts.{event_needs, next_part};
ghost use Rattle.ca_model.specs.machine.Plan.{perform};
ghost use Rattle.ca_model.specs.machine.World.{Queue_of};

use crate::arriving::{Incoming, arrive};
use ca_adapter_parts::{Held, QueueSlot};
use ca_adapter_turns::ca_adapter_acts::{Call, Outlets, put_done};
use ca_base::{ActError, Bytes, Memory, QueueId, Settings};
use ca_model::{Answer, Marks, Refusal};

/// Inject: bytes arrive at a queue pair at once, as a packet that no envelope carried. Refused with `NoSuch` where there
/// is no queue pair. `Memory` leaves all as it was. This profile's own verb.
pub fn inject(
    call: &Call<'_>,
    settings: &Settings,
    held: &mut Held,
    queue: QueueId,
    bytes: &Bytes,
) -> Result<Marks, ActError>
    requires suffices { Suffices held.old
        (inject_plan (configuration_in settings.now) (call_of call.now) queue bytes.now) }
    requires parts { AreShown (configuration_in settings.now) held.old }
    requires needs { next_part (holding held.old).parts (holding held.old).world
        (event_needs (configuration_in settings.now) (events.Verb call.now.by (verbs.Inject queue bytes.now))) ≡ None }
    requires named { has_queue (configuration_in settings.now) queue ≡ true }
    requires step { IfSome (queue_in ((holding held.old).world.queue queue)) CanStep }
    requires fits { FitsDone (holding held.old).world (perform (holding held.old).world
        (inject_plan (configuration_in settings.now) (call_of call.now) queue bytes.now)) }
    ensures act { Acts result (inject_plan (configuration_in settings.now) (call_of call.now) queue bytes.now)
        held.old held.new }
{
    let QueueSlot::Present(q) = held.queue(queue) else {
        return Ok(call.refuse(Refusal::NoSuch)?);
    };
    let to = Outlets::of(q);
    let ready = call.ready(1)?;
    let mut marks = ready.answer(Answer::Fine);
    take_given(held, queue, bytes.as_slice(), &mut marks)?;
    put_done(held, &to, marks.as_slice());
    Ok(marks)
}

/// Bytes arrive at a queue pair that is held.
#[tactic(auto, unfolding(ca_adapter_parts::specs::HeldView::holding))]
fn take_given(
    held: &mut Held,
    queue: QueueId,
    bytes: &[u8],
    marks: &mut Marks,
) -> Result<(), Memory>
    requires held { (holding held.old).has (Queue_of queue) ≡ true }
    requires there { is_present ((holding held.old).world.queue queue) ≡ true }
    requires room { 0 < marks.old.room }
    requires can { (q : QueuePair) → (holding held.old).world.queue queue ≡ Present q
        → CanArrive held.old bytes.now None q }
    ensures { (q : QueuePair) → (holding held.old).world.queue queue ≡ Present q
        → HasArrived queue result (outcome_of held.old bytes.now None q).ending
        (outcome_of held.old bytes.now None q).ended q held.old (holding held.new) (told q None marks.old) marks.new }
{
    let slot = held.queues.at_mut(queue);
    let QueueSlot::Present(q) = &mut **slot else {
        unreachable!()
    };
    let incoming = Incoming {
        bytes,
        envelope: None,
    };
    arrive(q, &mut held.srqs, &mut held.reached, &incoming, marks)
}
