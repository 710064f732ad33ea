ghost use Rattle.std.specs.Prelude.{◌≡◌, ◌<◌, true, false, IfOk, IfSome};
ghost use Rattle.std.specs.Option.{option_map_or};
ghost use Rattle.ca_base.specs.objects.WorkQueue.{is_full};
ghost use Rattle.ca_base.specs.objects.QueuePair.{queue_in};
ghost use Rattle.ca_keys.specs.Numbers.{queue_of};
ghost use Rattle.ca_adapter_parts.specs.HeldView.{hold, holding};
ghost use Rattle.ca_model.specs.machine.PostingVerbs.{after_flush, post_recv_plan};
ghost use Rattle.ca_model.specs.machine.Sound.{IsQueueOf};
ghost use Rattle.ca_model.specs.machine.World.{Queue_of};
ghost use Rattle.ca_adapter_acts.specs.Act.{Acts, Suffices};
ghost use Rattle.ca_adapter_acts.specs.Calls.{call_of};
ghost use Rattle.ca_adapter_posts.specs.Posting.{CanPostReceive, FitsReceive, slot_with, with_receive};

use crate::flushes::{flush_in_error, flushed_with_receive};
use crate::refusals::recv_refusal;
use ca_adapter_acts::{Call, completions_to, put_completions};
use ca_adapter_parts::{Held, QueueSlot};
use ca_base::{ActError, Memory, QueueId, RecvRequest, Slot};
use ca_model::{Answer, Marks, Refusal};
use ca_qpstate::QueuePart;

/// PostRecv: a receive is posted to a queue pair's own receive queue. The refusals in order are `NoSuch`, `HasSrq`,
/// `TooLong`, `QueueState` in Reset, and `QueueFull`. In Error all that is unfinished is flushed at once, this receive
/// last. `Memory` leaves all as it was. That a receive is posted in Error is this profile's choice.
#[tactic(auto, using(crate::proofs::ReceiveLemmas::recv_refused, crate::proofs::ReceiveLemmas::recv_absent, crate::proofs::ReceiveLemmas::recv_held, crate::proofs::ReceiveLemmas::recv_acts, crate::proofs::ReceiveLemmas::recv_has_place, crate::proofs::ReceiveLemmas::recv_fits))]
pub fn post_recv(
    call: &Call<'_>,
    held: &mut Held,
    slot: Slot,
    request: &RecvRequest,
) -> Result<Marks, ActError>
    requires small { slot.slot < 256 }
    requires suffices { Suffices held.old (post_recv_plan (call_of call.now) slot request.now) }
    requires queue { IsQueueOf (queue_of slot) ((holding held.old).world.queue (queue_of slot)) }
    requires next { IfSome (queue_in ((holding held.old).world.queue (queue_of slot))) CanPostReceive }
    requires fits { IfSome (queue_in ((holding held.old).world.queue (queue_of slot)))
        (FitsReceive (holding held.old).world request.now) }
    ensures act { Acts result (post_recv_plan (call_of call.now) slot request.now) held.old held.new }
{
    let name = QueueId::of_slot(slot);
    let QueueSlot::Present(queue) = held.queue(name) else {
        return Ok(call.refuse(Refusal::NoSuch)?);
    };
    if let Some(refusal) = recv_refusal(queue, request) {
        return Ok(call.refuse(refusal)?);
    }
    let flushed = flushed_with_receive(call.alloc, queue, request)?;
    let completions = completions_to(call.alloc, queue, queue.recv_cq, flushed.as_slice())?;
    let cq = Slot {
        domain: queue.domain,
        slot: queue.recv_cq,
    };
    let ready = call.ready_for(flushed.as_slice())?;
    let receive = copy_of(request)?;
    post_in(held, name, receive);
    put_completions(held, cq, completions.as_slice());
    let mut marks = ready.answer(Answer::Posted(None));
    marks.append(flushed);
    Ok(marks)
}

/// A receive is posted to a queue pair that is held.
#[tactic(auto, using(ca_adapter_parts::proofs::HoldLemmas::put_queue))]
fn post_in(held: &mut Held, name: QueueId, receive: RecvRequest)
    requires held { (holding held.old).has (Queue_of name) ≡ true }
    requires next { IfSome (queue_in ((holding held.old).world.queue name)) CanPostReceive }
    requires room { IfSome (queue_in ((holding held.old).world.queue name))
        (λ q. option_map_or is_full q.receives false ≡ false) }
    ensures { holding held.new ≡ hold (holding held.old) (Queue_of name)
        (slot_with (λ q. after_flush (with_receive receive q)) ((holding held.old).world.queue name)) }
{
    if let QueueSlot::Present(queue) = held.queue_mut(name) {
        post_to(queue, receive);
    }
}

/// A receive is posted to a queue pair, and flushed at once in Error.
fn post_to(queue: &mut QueuePart, receive: RecvRequest)
    requires next { CanPostReceive queue.old }
    requires room { option_map_or is_full queue.old.receives false ≡ false }
    ensures { queue.new ≡ after_flush (with_receive receive queue.old) }
{
    if let Some(receives) = &mut queue.receives {
        let _ = receives.post(receive);
    }
    flush_in_error(queue);
}

/// A receive's copy.
pub(crate) fn copy_of(request: &RecvRequest) -> Result<RecvRequest, Memory>
    ensures { IfOk result (λ copy. copy ≡ request.now) }
{
    Ok(request.clone()?)
}
