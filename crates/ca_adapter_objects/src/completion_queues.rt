ghost use Rattle.std.specs.Prelude.{◌<◌};
ghost use Rattle.ca_adapter_parts.specs.HeldView.{holding};
ghost use Rattle.ca_model.specs.machine.CompletionVerbs.{create_cq_plan, destroy_cq_plan};
ghost use Rattle.ca_adapter_acts.specs.Calls.{call_of};
ghost use Rattle.ca_adapter_acts.specs.Act.{Acts, Suffices};

use ca_adapter_acts::Call;
use ca_adapter_parts::Held;
use ca_base::limits::MAX_CAPACITY;
use ca_base::{ActError, Field, Slot};
use ca_cq::Cq;
use ca_model::{Answer, Marks, Refusal};

/// CreateCq: a completion queue for `capacity` completions, with none in it. Refused, in this order: NoDomain, SlotTaken,
/// OutOfRange where `capacity` is not from 1 to `MAX_CAPACITY`. `Memory` leaves all as it was.
/// Source: InfiniBand Architecture Specification Volume 1, the chapter on the verbs, Create Completion Queue.
#[tactic(auto, using(ca_adapter_parts::proofs::HoldLemmas::put_cq, ca_adapter_parts::proofs::HoldLemmas::put_control))]
pub fn create_cq(
    call: &Call<'_>,
    held: &mut Held,
    slot: Slot,
    capacity: u16,
) -> Result<Marks, ActError>
    requires suffices { Suffices held.old (create_cq_plan (call_of call.now) slot capacity) }
    requires few { ((holding held.old).world.domain slot.domain).objects < u32.MAX }
    ensures act { Acts result (create_cq_plan (call_of call.now) slot capacity) held.old held.new }
{
    let domain = *held.control(slot.domain);
    if !domain.allocated {
        return Ok(call.refuse(Refusal::NoDomain)?);
    }
    if held.cq(slot).is_some() {
        return Ok(call.refuse(Refusal::SlotTaken)?);
    }
    if capacity == 0 || capacity > MAX_CAPACITY {
        return Ok(call.refuse(Refusal::OutOfRange(Field::Capacity))?);
    }
    let ready = call.ready(0)?;
    let cq = Cq::create(call.alloc, capacity)?;
    *held.control_mut(slot.domain) = domain.with_object();
    *held.cq_mut(slot) = Some(cq);
    Ok(ready.answer(Answer::Fine))
}

/// DestroyCq: the slot is vacant again. Refused, in this order: NoSuch where it was vacant, CqInUse where a queue pair uses
/// the completion queue. `Memory` leaves all as it was.
/// Source: InfiniBand Architecture Specification Volume 1, the chapter on the verbs, Destroy Completion Queue.
#[tactic(auto, using(ca_adapter_parts::proofs::HoldLemmas::put_cq, ca_adapter_parts::proofs::HoldLemmas::put_control))]
pub fn destroy_cq(call: &Call<'_>, held: &mut Held, slot: Slot) -> Result<Marks, ActError>
    requires suffices { Suffices held.old (destroy_cq_plan (call_of call.now) slot) }
    ensures act { Acts result (destroy_cq_plan (call_of call.now) slot) held.old held.new }
{
    let domain = *held.control(slot.domain);
    let Some(cq) = held.cq(slot) else {
        return Ok(call.refuse(Refusal::NoSuch)?);
    };
    if cq.in_use() {
        return Ok(call.refuse(Refusal::CqInUse)?);
    }
    let ready = call.ready(0)?;
    *held.control_mut(slot.domain) = domain.without_object();
    *held.cq_mut(slot) = None;
    Ok(ready.answer(Answer::Fine))
}
