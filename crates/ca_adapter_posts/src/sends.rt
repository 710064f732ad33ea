ghost use Rattle.std.specs.Prelude.{◌≡◌, ◌<◌, [], ◌∷◌, true, false, None, IfOk, IfSome, OnErr, OnOk};
ghost use Rattle.ca_base.specs.objects.WorkQueue.{is_full};
ghost use Rattle.ca_base.specs.objects.QueuePair.{queue_in};
ghost use Rattle.ca_keys.specs.Numbers.{queue_of};
ghost use Rattle.ca_keys.specs.Refusals.{first_of};
ghost use Rattle.ca_adapter_parts.specs.HeldView.{hold, holding};
ghost use Rattle.ca_model.specs.machine.PostingVerbs.{after_flush, post_send_plan, post_send_refusals, with_send};
ghost use Rattle.ca_model.specs.declared.answer.Answer.TheVariants as answers;
ghost use Rattle.ca_model.specs.machine.Sound.{IsQueueOf};
ghost use Rattle.ca_model.specs.machine.VerbAnswers.{answer_mark};
ghost use Rattle.ca_model.specs.machine.World.{Queue_of};
ghost use Rattle.ca_adapter_acts.specs.Act.{Acts, Suffices};
ghost use Rattle.ca_adapter_acts.specs.Calls.{call_of};
ghost use Rattle.ca_adapter_posts.specs.Drawing as drawing;
ghost use Rattle.ca_adapter_posts.specs.Posting.{CanPostSend, FitsSend, slot_with};

use crate::drawing::{draw, is_no_window, key_for, window_of_bind};
use crate::flushes::{flush_in_error, flushed_with_send};
use crate::refusals::send_refusal;
use crate::states::is_error;
use ca_adapter_acts::{Call, completions_to, copy_of_send, copy_of_small, put_completions};
use ca_adapter_parts::{Held, QueueSlot};
use ca_base::{ActError, Memory, PostedSend, QueueId, SendRequest, Slot};
use ca_model::{Answer, Marks, Refusal};
use ca_qpstate::QueuePart;

/// PostSend: a request is posted to a queue pair's send queue. The refusals in order are `NoSuch` of the queue pair and of
/// the window of a bind, `OutOfRange` of an atomic's list, `TooLong`, `QueueState` but in Ready to Send, Send Queue Drain
/// and Error, and `QueueFull`. Only then a bind of a type 1 window draws its byte, and its key is the answer. In Error all
/// that is unfinished is flushed at once. `Memory` leaves all as it was.
#[tactic(auto, using(crate::proofs::SendLemmas::send_refused, crate::proofs::SendLemmas::send_absent, crate::proofs::SendLemmas::send_no_window, crate::proofs::SendLemmas::send_window_held, crate::proofs::SendLemmas::send_quietly_acts, crate::proofs::SendLemmas::send_has_place))]
pub fn post_send(
    call: &Call<'_>,
    held: &mut Held,
    slot: Slot,
    request: &SendRequest,
) -> Result<Marks, ActError>
    requires small { slot.slot < 256 }
    requires window { IfSome (drawing.window_of_bind slot request.now.op) (λ x. x.slot < 32768) }
    requires suffices { Suffices held.old (post_send_plan (call_of call.now) slot request.now) }
    requires queue { IsQueueOf (queue_of slot) ((holding held.old).world.queue (queue_of slot)) }
    requires next { IfSome (queue_in ((holding held.old).world.queue (queue_of slot))) CanPostSend }
    requires fits { IfSome (queue_in ((holding held.old).world.queue (queue_of slot)))
        (FitsSend (holding held.old).world slot request.now) }
    ensures act { Acts result (post_send_plan (call_of call.now) slot request.now) held.old held.new }
{
    let name = QueueId::of_slot(slot);
    let QueueSlot::Present(queue) = held.queue(name) else {
        return Ok(call.refuse(Refusal::NoSuch)?);
    };
    let window = window_of_bind(slot, &request.op);
    if is_no_window(held, window) {
        return Ok(call.refuse(Refusal::NoSuch)?);
    }
    if let Some(refusal) = send_refusal(queue, request) {
        return Ok(call.refuse(refusal)?);
    }
    if window.is_none() && !is_error(queue.state) {
        return Ok(post_quietly(call, held, name, request)?);
    }
    post_loudly(call, held, slot, request)
}

/// A request that is not refused is posted: the byte of its window is drawn, and what completes at once is put.
/// `Memory` leaves all as it was.
#[inline(never)]
#[tactic(auto, using(crate::proofs::SendLemmas::send_absent, crate::proofs::SendLemmas::send_window_held, crate::proofs::SendLemmas::send_cq_held, crate::proofs::SendLemmas::send_acts, crate::proofs::SendLemmas::send_has_place, crate::proofs::SendLemmas::send_fits))]
fn post_loudly(
    call: &Call<'_>,
    held: &mut Held,
    slot: Slot,
    request: &SendRequest,
) -> Result<Marks, ActError>
    requires window { IfSome (drawing.window_of_bind slot request.now.op) (λ x. x.slot < 32768) }
    requires suffices { Suffices held.old (post_send_plan (call_of call.now) slot request.now) }
    requires queue { IsQueueOf (queue_of slot) ((holding held.old).world.queue (queue_of slot)) }
    requires next { IfSome (queue_in ((holding held.old).world.queue (queue_of slot))) CanPostSend }
    requires fits { IfSome (queue_in ((holding held.old).world.queue (queue_of slot)))
        (FitsSend (holding held.old).world slot request.now) }
    requires there { drawing.is_no_window (holding held.old).world (drawing.window_of_bind slot request.now.op) ≡ false }
    requires accepted { IfSome (queue_in ((holding held.old).world.queue (queue_of slot)))
        (λ q. first_of (post_send_refusals request.now q) ≡ None) }
    ensures act { Acts result (post_send_plan (call_of call.now) slot request.now) held.old held.new }
{
    let name = QueueId::of_slot(slot);
    let QueueSlot::Present(queue) = held.queue(name) else {
        return Ok(call.refuse(Refusal::NoSuch)?);
    };
    let window = window_of_bind(slot, &request.op);
    let flushed = flushed_with_send(call.alloc, queue, request)?;
    let completions = completions_to(call.alloc, queue, queue.send_cq, flushed.as_slice())?;
    let cq = Slot {
        domain: queue.domain,
        slot: queue.send_cq,
    };
    let ready = call.ready_for(flushed.as_slice())?;
    let request = copy_of_send(request)?;
    let drawn = draw(held, window);
    post_in(held, name, PostedSend { request, drawn });
    put_completions(held, cq, completions.as_slice());
    let mut marks = ready.answer(Answer::Posted(key_for(window, drawn)));
    marks.append(flushed);
    Ok(marks)
}

/// A request that draws no byte is posted to a queue pair that is held and flushes nothing. `Memory` leaves all as it
/// was.
#[inline(always)]
#[tactic(auto, using(ca_adapter_parts::proofs::HoldLemmas::put_queue, crate::proofs::PostingLemmas::queue_held_same))]
fn post_quietly(
    call: &Call<'_>,
    held: &mut Held,
    name: QueueId,
    request: &SendRequest,
) -> Result<Marks, Memory>
    requires held { (holding held.old).has (Queue_of name) ≡ true }
    requires next { IfSome (queue_in ((holding held.old).world.queue name)) CanPostSend }
    requires room { IfSome (queue_in ((holding held.old).world.queue name)) (λ q. is_full q.sends ≡ false) }
    ensures marks { IfOk result (λ m. m.marks ≡ answer_mark (call_of call.now) (answers.Posted None) ∷ []) }
    ensures ok { OnOk result (holding held.new ≡ hold (holding held.old) (Queue_of name)
        (slot_with (λ q. after_flush (with_send request.now None q)) ((holding held.old).world.queue name))) }
    ensures err { OnErr result (holding held.new ≡ holding held.old) }
{
    let marks = call.answer_post(Answer::Posted(None))?;
    if let QueueSlot::Present(queue) = held.queue_mut(name) {
        post_copy(queue, request)?;
    }
    Ok(marks)
}

/// The copy of a request that draws no byte is posted to a queue pair. What comes most often is copied by itself.
#[inline(always)]
fn post_copy(queue: &mut QueuePart, request: &SendRequest) -> Result<(), Memory>
    requires next { CanPostSend queue.old }
    requires room { is_full queue.old.sends ≡ false }
    ensures ok { OnOk result (queue.new ≡ after_flush (with_send request.now None queue.old)) }
    ensures err { OnErr result (queue.new ≡ queue.old) }
{
    let Some(request) = copy_of_small(request) else {
        return post_any(queue, request);
    };
    let drawn = None;
    post_to(queue, PostedSend { request, drawn });
    Ok(())
}

/// The same of any request.
#[inline(never)]
fn post_any(queue: &mut QueuePart, request: &SendRequest) -> Result<(), Memory>
    requires next { CanPostSend queue.old }
    requires room { is_full queue.old.sends ≡ false }
    ensures ok { OnOk result (queue.new ≡ after_flush (with_send request.now None queue.old)) }
    ensures err { OnErr result (queue.new ≡ queue.old) }
{
    let request = copy_of_send(request)?;
    let drawn = None;
    post_apart(queue, PostedSend { request, drawn });
    Ok(())
}

/// A request is posted to a queue pair that is held.
#[tactic(auto, using(ca_adapter_parts::proofs::HoldLemmas::put_queue))]
fn post_in(held: &mut Held, name: QueueId, posted: PostedSend)
    requires held { (holding held.old).has (Queue_of name) ≡ true }
    requires next { IfSome (queue_in ((holding held.old).world.queue name)) CanPostSend }
    requires room { IfSome (queue_in ((holding held.old).world.queue name)) (λ q. is_full q.sends ≡ false) }
    ensures { holding held.new ≡ hold (holding held.old) (Queue_of name)
        (slot_with (λ q. after_flush (with_send posted.request posted.drawn q)) ((holding held.old).world.queue name)) }
{
    if let QueueSlot::Present(queue) = held.queue_mut(name) {
        post_apart(queue, posted);
    }
}

/// What is posted less often is posted by itself.
#[inline(never)]
fn post_apart(queue: &mut QueuePart, posted: PostedSend)
    requires next { CanPostSend queue.old }
    requires room { is_full queue.old.sends ≡ false }
    ensures { queue.new ≡ after_flush (with_send posted.request posted.drawn queue.old) }
{
    post_to(queue, posted);
}

/// A request is posted to a queue pair, and flushed at once in Error.
#[inline(always)]
fn post_to(queue: &mut QueuePart, posted: PostedSend)
    requires next { CanPostSend queue.old }
    requires room { is_full queue.old.sends ≡ false }
    ensures { queue.new ≡ after_flush (with_send posted.request posted.drawn queue.old) }
{
    let _ = queue.sends.post(posted);
    flush_in_error(queue);
}
