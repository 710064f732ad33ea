ghost use Rattle.std.specs.Prelude.{◌<◌, ◌^◌, suc, IfSome};
ghost use Rattle.ca_adapter_parts.specs.HeldView.{holding};
ghost use Rattle.ca_model.specs.machine.PostingVerbs.{post_srq_plan};
ghost use Rattle.ca_adapter_acts.specs.Act.{Acts, Suffices};
ghost use Rattle.ca_adapter_acts.specs.Calls.{call_of};

use crate::receives::copy_of;
use ca_adapter_acts::Call;
use ca_adapter_parts::Held;
use ca_base::limits::MAX_MESSAGE_BYTES;
use ca_base::{ActError, RecvRequest, Slot};
use ca_model::{Answer, Marks, Refusal, list_length};

/// PostSrq: a receive waits in the shared receive queue behind the others. Refused, in this order: NoSuch where the slot is
/// vacant, TooLong where the list has more than `MAX_MESSAGE_BYTES`, QueueFull. `Memory` leaves all as it was.
/// Source: InfiniBand Architecture Specification Volume 1, the chapter on the verbs, Post Receive Request.
#[tactic(auto, using(ca_adapter_parts::proofs::HoldLemmas::put_srq))]
pub fn post_srq(
    call: &Call<'_>,
    held: &mut Held,
    slot: Slot,
    request: &RecvRequest,
) -> Result<Marks, ActError>
    requires suffices { Suffices held.old (post_srq_plan (call_of call.now) slot request.now) }
    requires next { IfSome ((holding held.old).world.srq slot).srq (λ s. suc s.next < 2 ^ 64) }
    ensures act { Acts result (post_srq_plan (call_of call.now) slot request.now) held.old held.new }
{
    let Some(srq) = &held.srq(slot).srq else {
        return Ok(call.refuse(Refusal::NoSuch)?);
    };
    if list_length(request.list.as_slice()) > u64::from(MAX_MESSAGE_BYTES) {
        return Ok(call.refuse(Refusal::TooLong)?);
    }
    if srq.is_full() {
        return Ok(call.refuse(Refusal::QueueFull)?);
    }
    let ready = call.ready(0)?;
    let receive = copy_of(request)?;
    if let Some(srq) = &mut held.srq_mut(slot).srq {
        let _ = srq.post(receive);
    }
    Ok(ready.answer(Answer::Posted(None)))
}
