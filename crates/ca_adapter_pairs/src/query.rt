ghost use Rattle.std.specs.Prelude.{◌<◌};
ghost use Rattle.ca_model.specs.machine.QueuePairVerbs.{query_qp_plan};
ghost use Rattle.ca_adapter_acts.specs.Act.{Acts, Suffices};
ghost use Rattle.ca_adapter_acts.specs.Calls.{call_of};

use ca_adapter_acts::Call;
use ca_adapter_parts::{Held, QueueSlot};
use ca_base::{ActError, QueueId, Slot};
use ca_model::{Answer, Marks, Refusal};

/// QueryQp: the state of a queue pair, its incarnation, and how many places its send queue and its own receive queue
/// occupy, none with a shared receive queue. Refused: NoSuch where the slot is vacant. It changes nothing.
/// Source: InfiniBand Architecture Specification Volume 1, the chapter on the verbs, Query Queue Pair.
pub fn query_qp(call: &Call<'_>, held: &Held, slot: Slot) -> Result<Marks, ActError>
    requires small { slot.slot < 256 }
    requires suffices { Suffices held.now (query_qp_plan (call_of call.now) slot) }
    ensures act { Acts result (query_qp_plan (call_of call.now) slot) held.now held.now }
{
    let QueueSlot::Present(queue) = held.queue(QueueId::of_slot(slot)) else {
        return Ok(call.refuse(Refusal::NoSuch)?);
    };
    let receives = match &queue.receives {
        Some(receives) => receives.occupied(),
        None => 0,
    };
    Ok(call.answer(Answer::Query {
        state: queue.state,
        incarnation: queue.incarnation,
        sends: queue.sends.occupied(),
        receives,
    })?)
}
