ghost use Rattle.std.specs.Prelude.{◌≡◌, ◌<◌, true, None, IfSome};
ghost use Rattle.ca_adapter_acts.specs.Act.{Acts, Suffices};
ghost use Rattle.ca_adapter_acts.specs.Calls.{call_of};
ghost use Rattle.ca_base.specs.Configuration.{configuration_in};
ghost use Rattle.ca_base.specs.objects.QueuePair.{incarnation_of, queue_in};
ghost use Rattle.ca_base.specs.objects.StateTable.{queue_after_change};
ghost use Rattle.ca_adapter_parts.specs.HeldView.{hold, holding};
ghost use Rattle.ca_keys.specs.Numbers.{queue_of};
ghost use Rattle.ca_model.specs.machine.QueuePairVerbs.{modify_qp_plan};
ghost use Rattle.ca_model.specs.machine.Sound.{IsQueueOf};
ghost use Rattle.ca_model.specs.machine.World.{Queue_of};
ghost use Rattle.ca_qpstate.specs.Fields.{refusal_of_change};
ghost use Rattle.ca_adapter_pairs.specs.Changed.{CanChange, slot_after};

use crate::around::Around;
use crate::change::change_around;
use crate::flush::flushed_by;
use ca_adapter_acts::Call;
use ca_adapter_parts::{Held, QueueSlot};
use ca_base::{ActError, Change, QueueId, Settings, Slot};
use ca_model::{Answer, Marks, Refusal};
use ca_qpstate::QueuePart;

/// ModifyQp: the change of the state table, and what it does around the queue pair. Rtr has its mailbox accept the
/// peer; Error completes all that is posted as Flushed; Reset removes its completions, clears its mailbox, which then
/// accepts nobody, and frees the places that it holds in a shared receive queue. The refusals in order are `NoSuch` and
/// those of the state table; nothing changes at a refusal or without memory.
#[tactic(auto, using(crate::proofs::ModifyLemmas::none_there, crate::proofs::ModifyLemmas::modify_held))]
pub fn modify_qp(
    call: &Call<'_>,
    settings: &Settings,
    held: &mut Held,
    slot: Slot,
    change: &Change,
) -> Result<Marks, ActError>
    requires small { slot.slot < 256 }
    requires suffices { Suffices held.old
        (modify_qp_plan (configuration_in settings.now) (call_of call.now) slot change.now) }
    requires queue { IsQueueOf (queue_of slot) ((holding held.old).world.queue (queue_of slot)) }
    requires incarnation { incarnation_of ((holding held.old).world.queue (queue_of slot)) < u32.MAX }
    requires can { IfSome (queue_in ((holding held.old).world.queue (queue_of slot)))
        (λ q. CanChange (configuration_in settings.now) change.now q (holding held.old).world) }
    ensures act { Acts result (modify_qp_plan (configuration_in settings.now) (call_of call.now) slot change.now)
        held.old held.new }
{
    let name = QueueId::of_slot(slot);
    let QueueSlot::Present(queue) = held.queue(name) else {
        return Ok(call.refuse(Refusal::NoSuch)?);
    };
    if let Some(refusal) = queue.modify_refusal(settings, change) {
        return Ok(call.refuse(Refusal::from(refusal))?);
    }
    let around = Around::of(queue);
    let incarnation = queue.incarnation;
    let flushed = flushed_by(call.alloc, queue, change)?;
    let ready = call.ready_for(flushed.marks.as_slice())?;
    change_in(held, settings, name, change);
    change_around(held, &around, incarnation, change, &flushed);
    let mut marks = ready.answer(Answer::Fine);
    marks.append(flushed.marks);
    Ok(marks)
}

/// A change, which is not refused, of a queue pair that is held.
#[tactic(auto, using(ca_adapter_parts::proofs::HoldLemmas::put_queue))]
fn change_in(held: &mut Held, settings: &Settings, name: QueueId, change: &Change)
    requires held { (holding held.old).has (Queue_of name) ≡ true }
    requires incarnation { incarnation_of ((holding held.old).world.queue name) < u32.MAX }
    requires accepted { IfSome (queue_in ((holding held.old).world.queue name))
        (λ q. refusal_of_change settings.now change.now q ≡ None) }
    ensures { holding held.new ≡ hold (holding held.old) (Queue_of name)
        (slot_after change.now ((holding held.old).world.queue name)) }
{
    if let QueueSlot::Present(queue) = held.queue_mut(name) {
        change_part(queue, settings, change);
    }
}

/// A change that is not refused.
fn change_part(queue: &mut QueuePart, settings: &Settings, change: &Change)
    requires incarnation { queue.old.incarnation < u32.MAX }
    requires accepted { refusal_of_change settings.now change.now queue.old ≡ None }
    ensures { queue.new ≡ queue_after_change change.now queue.old }
{
    let _ = queue.modify(settings, change);
}
