ghost use Rattle.std.specs.Prelude.{◌<◌};
ghost use Rattle.ca_model.specs.machine.CompletionVerbs.{create_srq_plan, destroy_srq_plan};
ghost use Rattle.ca_adapter_parts.specs.HeldView.{holding};
ghost use Rattle.ca_adapter_acts.specs.Act.{Acts, Suffices};
ghost use Rattle.ca_adapter_acts.specs.Calls.{call_of};

use ca_adapter_acts::{Call, is_no_depth};
use ca_adapter_parts::Held;
use ca_base::{ActError, Field, Slot};
use ca_model::{Answer, Marks, Refusal};
use ca_srq::Srq;

/// CreateSrq: a shared receive queue for `depth` receives, with none in it. Refused, in this order: NoDomain, SlotTaken,
/// OutOfRange where `depth` is not from 1 to `MAX_DEPTH`. `Memory` leaves all as it was.
/// Source: InfiniBand Architecture Specification Volume 1, the chapter on the verbs, Create Shared Receive Queue.
#[tactic(auto, using(ca_adapter_parts::proofs::HoldLemmas::put_srq, ca_adapter_parts::proofs::HoldLemmas::put_control))]
pub fn create_srq(
    call: &Call<'_>,
    held: &mut Held,
    slot: Slot,
    depth: u16,
) -> Result<Marks, ActError>
    requires suffices { Suffices held.old (create_srq_plan (call_of call.now) slot depth) }
    requires few { ((holding held.old).world.domain slot.domain).objects < u32.MAX }
    ensures act { Acts result (create_srq_plan (call_of call.now) slot depth) held.old held.new }
{
    let domain = *held.control(slot.domain);
    if !domain.allocated {
        return Ok(call.refuse(Refusal::NoDomain)?);
    }
    if held.srq(slot).srq.is_some() {
        return Ok(call.refuse(Refusal::SlotTaken)?);
    }
    if is_no_depth(depth) {
        return Ok(call.refuse(Refusal::OutOfRange(Field::Depth))?);
    }
    let ready = call.ready(0)?;
    let srq = Srq::create(call.alloc, depth)?;
    *held.control_mut(slot.domain) = domain.with_object();
    held.srq_mut(slot).srq = Some(srq);
    Ok(ready.answer(Answer::Fine))
}

/// DestroySrq: the slot is vacant again. Refused, in this order: NoSuch where it was vacant, SrqInUse where a queue pair
/// uses it. Receives that wait go with it. `Memory` leaves all as it was.
/// Source: InfiniBand Architecture Specification Volume 1, the chapter on the verbs, Destroy Shared Receive Queue.
#[tactic(auto, using(ca_adapter_parts::proofs::HoldLemmas::put_srq, ca_adapter_parts::proofs::HoldLemmas::put_control))]
pub fn destroy_srq(call: &Call<'_>, held: &mut Held, slot: Slot) -> Result<Marks, ActError>
    requires suffices { Suffices held.old (destroy_srq_plan (call_of call.now) slot) }
    ensures act { Acts result (destroy_srq_plan (call_of call.now) slot) held.old held.new }
{
    let domain = *held.control(slot.domain);
    if held.srq(slot).srq.is_none() {
        return Ok(call.refuse(Refusal::NoSuch)?);
    }
    if held.srq(slot).users > 0 {
        return Ok(call.refuse(Refusal::SrqInUse)?);
    }
    let ready = call.ready(0)?;
    *held.control_mut(slot.domain) = domain.without_object();
    held.srq_mut(slot).srq = None;
    Ok(ready.answer(Answer::Fine))
}
