ghost use Rattle.std.specs.Prelude.{◌≡◌, ◌<◌, true, IfSome};
ghost use Rattle.ca_adapter_acts.specs.Act.{Acts, Suffices};
ghost use Rattle.ca_adapter_acts.specs.Calls.{call_of};
ghost use Rattle.ca_base.specs.objects.Domain.{without_object};
ghost use Rattle.ca_base.specs.objects.QueuePair.{NoQueue, queue_in};
ghost use Rattle.ca_adapter_parts.specs.HeldView.{hold, holding};
ghost use Rattle.ca_keys.specs.Numbers.{queue_of};
ghost use Rattle.ca_model.specs.machine.QueuePairVerbs.{destroy_qp_plan};
ghost use Rattle.ca_model.specs.machine.Sound.{IsQueueOf};
ghost use Rattle.ca_model.specs.machine.World.{Domain_of, Queue_of};
ghost use Rattle.ca_adapter_pairs.specs.Departures.{CanDepart};
ghost use Rattle.ca_adapter_pairs.specs.Names.{names_around};

use crate::around::Around;
use crate::departure::{Departure, depart};
use crate::mailbox::close;
use ca_adapter_acts::Call;
use ca_adapter_parts::{Held, QueueSlot};
use ca_base::{ActError, DomainId, QueueId, Slot};
use ca_model::{Answer, Marks, Refusal};

/// DestroyQp: its completions are removed, its reservations end, its mailbox accepts nobody, and the places that it
/// holds in a shared receive queue are free. The slot keeps the incarnation and the count of timers. The refusals in
/// order are `NoSuch` and `WindowsBound`; nothing changes at a refusal or without memory.
#[tactic(auto, using(crate::proofs::DestroyLemmas::destroy_held, crate::proofs::DestroyLemmas::none_there, crate::proofs::DestroyLemmas::destroy_refused))]
pub fn destroy_qp(call: &Call<'_>, held: &mut Held, slot: Slot) -> Result<Marks, ActError>
    requires small { slot.slot < 256 }
    requires suffices { Suffices held.old (destroy_qp_plan (call_of call.now) slot) }
    requires queue { IsQueueOf (queue_of slot) ((holding held.old).world.queue (queue_of slot)) }
    requires can { IfSome (queue_in ((holding held.old).world.queue (queue_of slot)))
        (λ q. CanDepart (names_around q) (holding held.old).world) }
    ensures act { Acts result (destroy_qp_plan (call_of call.now) slot) held.old held.new }
{
    let name = QueueId::of_slot(slot);
    let QueueSlot::Present(queue) = held.queue(name) else {
        return Ok(call.refuse(Refusal::NoSuch)?);
    };
    if queue.windows.count > 0 {
        return Ok(call.refuse(Refusal::WindowsBound)?);
    }
    let ready = call.ready(0)?;
    let around = Around::of(queue);
    let incarnation = queue.incarnation;
    let timers = queue.requester.timers;
    depart(held, &around, Departure::Destruction);
    count_down(held, slot.domain);
    vacate(held, name, incarnation, timers);
    close(held, name, incarnation);
    Ok(ready.answer(Answer::Fine))
}

/// The domain has one object fewer.
#[tactic(auto, using(ca_adapter_parts::proofs::HoldLemmas::put_control))]
fn count_down(held: &mut Held, name: DomainId)
    requires { (holding held.old).has (Domain_of name) ≡ true }
    ensures { holding held.new ≡ hold (holding held.old) (Domain_of name)
        (without_object ((holding held.old).world.domain name)) }
{
    let domain = held.control_mut(name);
    *domain = domain.without_object();
}

/// The slot has no queue pair.
#[tactic(auto, using(ca_adapter_parts::proofs::HoldLemmas::put_queue))]
fn vacate(held: &mut Held, name: QueueId, incarnation: u32, timers: u64)
    requires { (holding held.old).has (Queue_of name) ≡ true }
    ensures { holding held.new ≡ hold (holding held.old) (Queue_of name) (NoQueue incarnation timers) }
{
    *held.queue_mut(name) = QueueSlot::Vacant {
        incarnation,
        timers,
    };
}
