ghost use Rattle.std.specs.Prelude.{◌≡◌, ◌<◌, ◌≤◌, true, IfOk, IfSome, take};
ghost use Rattle.std.specs.Option.{option_map};
ghost use Rattle.ca_base.specs.declared.limits.TheConstants.{MAX_POLLED};
ghost use Rattle.ca_base.specs.objects.CompletionQueue.{after_polls};
ghost use Rattle.ca_base.specs.objects.QueuePair.{queue_in};
ghost use Rattle.ca_adapter_parts.specs.HeldView.{hold, holding};
ghost use Rattle.ca_model.specs.machine.CompletionVerbs.{poll_plan};
ghost use Rattle.ca_model.specs.machine.Frame.{AllPass};
ghost use Rattle.ca_model.specs.machine.World.{Cq_of, Queue_of, Srq_of};
ghost use Rattle.ca_model.specs.machine.CompletionVerbs as machine;
ghost use Rattle.ca_base.specs.objects.SharedReceives.{after_receive_retire};
ghost use Rattle.ca_srq.specs.Taken.{stands_once};
ghost use Rattle.ca_adapter_acts.specs.Act.{Acts, Suffices};
ghost use Rattle.ca_adapter_acts.specs.Calls.{call_of};
ghost use Rattle.ca_adapter_posts.specs.Posting.{slot_with};
ghost use Rattle.ca_adapter_polls.specs.Polling.{AreApart, AreOfOwnPlaces, CanFreeAll, CanFreeEach, CanFreeOf, CanRetire};
ghost use Rattle.ca_adapter_polls.specs.Polling.{after_freeing_all, after_freeing, with_places_free, place_of, places_of, polled_of, source_at};

use ca_adapter_acts::Call;
use ca_adapter_parts::{Held, QueueSlot};
use ca_base::limits::MAX_POLLED;
use ca_base::{ActError, Completion, Field, Memory, Reason, Slot};
use ca_cq::Cq;
use ca_model::{Answer, Completions, Mark, Marks, Refusal};
use ca_qpstate::QueuePart;
use std::alloc::Global;

/// Poll: the first completions are taken, at most so many, and the places that they stand for are free again. Refusals in
/// order are `NoSuch`, and `OutOfRange` where none, more than `MAX_POLLED` or fewer than at least are asked for. It is
/// not possible, `Empty`, while fewer wait than at least are asked for. `Memory` leaves all as it was.
#[tactic(auto, using(crate::proofs::PollLemmas::poll_places_held, crate::proofs::PollLemmas::poll_can_free, crate::proofs::PollLemmas::poll_acts))]
pub fn poll(
    call: &Call<'_>,
    held: &mut Held,
    slot: Slot,
    n: u8,
    least: u8,
) -> Result<Marks, ActError>
    requires suffices { Suffices held.old (poll_plan (call_of call.now) slot n least) }
    requires places { IfSome ((holding held.old).world.cq slot) (CanFreeEach slot (holding held.old).world) }
    requires once { IfSome ((holding held.old).world.cq slot) AreOfOwnPlaces }
    requires apart { IfSome ((holding held.old).world.cq slot) (AreApart (holding held.old).world) }
    ensures act { Acts result (poll_plan (call_of call.now) slot n least) held.old held.new }
{
    let Some(cq) = held.cq(slot) else {
        return Ok(call.refuse(Refusal::NoSuch)?);
    };
    if n == 0 || usize::from(n) > MAX_POLLED || n < least {
        return Ok(call.refuse(Refusal::OutOfRange(Field::Length))?);
    }
    let polled = first_completions(call.alloc, cq, n)?;
    let count = polled.as_slice().len() as u8;
    if count < least {
        return Err(ActError::NotReady(Reason::Empty));
    }
    let marks = call.answer_poll(Answer::Polled(polled))?;
    free_all(held, slot, polled_in(&marks));
    take_first(held, slot, count);
    Ok(marks)
}

/// The completions of which the mark of a poll tells.
#[inline(always)]
fn polled_in(marks: &Marks) -> &[Completion]
    ensures { result.now ≡ polled_of marks.now.marks }
{
    match marks.as_slice().first() {
        Some(
            Mark::Verb {
                answer: Answer::Polled(polled),
                ..
            },
        ) => polled.as_slice(),
        _ => &[],
    }
}

/// A copy of the first completions, as many as are asked for or as wait. One, which is asked for most often, is copied by
/// itself.
#[tactic(auto, using(crate::proofs::PollLemmas::none_listed, crate::proofs::PollLemmas::first_listed))]
#[inline(always)]
fn first_completions(alloc: Global, cq: &Cq, n: u8) -> Result<Completions, Memory>
    requires some { 0 < n }
    requires few { n ≤ MAX_POLLED }
    ensures { IfOk result (λ list. list ≡ take n cq.now.waiting) }
{
    let Some(first) = cq.at(0) else {
        return Ok(Completions::empty());
    };
    if n == 1 {
        return Ok(Completions::of_one(first));
    }
    // What comes of it is moved, so that a list of one need not lie where it writes.
    Ok(several_completions(alloc, cq, n)?)
}

/// The same, where several are asked for.
#[tactic(auto, using(crate::proofs::PollLemmas::one_listed))]
#[inline(never)]
fn several_completions(alloc: Global, cq: &Cq, n: u8) -> Result<Completions, Memory>
    requires few { n ≤ MAX_POLLED }
    ensures { IfOk result (λ list. list ≡ take n cq.now.waiting) }
{
    let mut list = Completions::empty();
    for i in 0..n {
        let Some(completion) = cq.at(u16::from(i)) else {
            return Ok(list);
        };
        list.push(alloc, completion)?;
    }
    Ok(list)
}

/// The first completions are taken from a completion queue that is held.
#[tactic(auto, using(ca_adapter_parts::proofs::HoldLemmas::put_cq))]
#[inline(always)]
fn take_first(held: &mut Held, slot: Slot, count: u8)
    requires { (holding held.old).has (Cq_of slot) ≡ true }
    ensures { holding held.new ≡ hold (holding held.old) (Cq_of slot)
        (option_map (after_polls count) ((holding held.old).world.cq slot)) }
{
    if let Some(cq) = held.cq_mut(slot) {
        take_from(cq, count);
    }
}

/// The first completions are taken, so many.
#[tactic(auto, using(crate::proofs::PollLemmas::one_taken))]
#[inline(always)]
fn take_from(cq: &mut Cq, count: u8)
    ensures { cq.new ≡ after_polls count cq.old }
{
    for _ in 0..count {
        let _ = cq.poll_first();
    }
}

/// What completions free is freed, one after another.
#[tactic(auto, using(crate::proofs::PollLemmas::freed_keeps))]
#[inline(always)]
fn free_all(held: &mut Held, slot: Slot, completions: &[Completion])
    requires cq { (holding held.old).has (Cq_of slot) ≡ true }
    requires held { AllPass (holding held.old).has
        (places_of slot ((holding held.old).world.cq slot) completions.now) }
    requires places { CanFreeAll slot ((holding held.old).world.cq slot) completions.now (holding held.old).world }
    ensures { holding held.new ≡ record (holding held.old) {
      world = after_freeing_all slot ((holding held.old).world.cq slot) completions.now (holding held.old).world;
    } }
{
    for completion in completions {
        let source = source_of(held, slot, completion);
        free_place(held, slot, source, completion);
    }
}

/// The shared receive queue of which a completion's receive was. That of a send is none, without a look.
#[tactic(auto, using(crate::proofs::PollLemmas::no_source))]
#[inline(always)]
fn source_of(held: &Held, slot: Slot, completion: &Completion) -> Option<u16>
    requires { (holding held.now).has (Cq_of slot) ≡ true }
    ensures { result ≡ source_at ((holding held.now).world.cq slot) completion.now }
{
    if completion.receive {
        receive_source(held, slot, completion)
    } else {
        None
    }
}

/// The same by what stands in the slot of the completion queue.
#[inline(never)]
fn receive_source(held: &Held, slot: Slot, completion: &Completion) -> Option<u16>
    requires { (holding held.now).has (Cq_of slot) ≡ true }
    ensures { result ≡ source_at ((holding held.now).world.cq slot) completion.now }
{
    match held.cq(slot) {
        Some(cq) => source_in_queue(cq, completion),
        None => None,
    }
}

/// The same by the completion queue.
fn source_in_queue(cq: &Cq, completion: &Completion) -> Option<u16>
    ensures { result ≡ machine.source_of_completion cq.now completion.now }
{
    if completion.receive {
        cq.source(completion.queue)
    } else {
        None
    }
}

/// What a completion frees is freed: by its source, a place of a shared receive queue, or those of its queue pair.
fn free_place(held: &mut Held, slot: Slot, source: Option<u16>, completion: &Completion)
    requires held { (holding held.old).has (place_of slot source completion.now) ≡ true }
    requires place { CanFreeOf slot source completion.now (holding held.old).world }
    ensures { holding held.new ≡ record (holding held.old) {
      world = after_freeing slot source completion.now (holding held.old).world;
    } }
{
    match source {
        Some(srq) => free_in_shared(
            held,
            Slot {
                domain: slot.domain,
                slot: srq,
            },
            completion.place,
        ),
        None => free_in_queue(held, completion),
    }
}

/// A place of a shared receive queue that is held is free again.
#[tactic(auto, using(ca_adapter_parts::proofs::HoldLemmas::put_srq))]
#[inline(never)]
fn free_in_shared(held: &mut Held, slot: Slot, place: u64)
    requires held { (holding held.old).has (Srq_of slot) ≡ true }
    requires once { IfSome ((holding held.old).world.srq slot).srq (λ z. stands_once place z.taken ≡ true) }
    ensures { holding held.new ≡ hold (holding held.old) (Srq_of slot) (record ((holding held.old).world.srq slot) {
      srq = option_map (after_receive_retire place) ((holding held.old).world.srq slot).srq;
    }) }
{
    if let Some(srq) = &mut held.srq_mut(slot).srq {
        srq.retire(place);
    }
}

/// The places of a queue pair that is held, up to that of a completion, are free again.
#[tactic(auto, using(ca_adapter_parts::proofs::HoldLemmas::put_queue))]
fn free_in_queue(held: &mut Held, completion: &Completion)
    requires held { (holding held.old).has (Queue_of completion.now.queue) ≡ true }
    requires place { IfSome (queue_in ((holding held.old).world.queue completion.now.queue)) (CanRetire completion.now) }
    ensures { holding held.new ≡ hold (holding held.old) (Queue_of completion.now.queue)
        (slot_with (with_places_free completion.now) ((holding held.old).world.queue completion.now.queue)) }
{
    if let QueueSlot::Present(queue) = held.queue_mut(completion.queue) {
        retire(queue, completion);
    }
}

/// The places of a queue pair up to that of a completion of it are free again.
fn retire(queue: &mut QueuePart, completion: &Completion)
    requires { CanRetire completion.now queue.old }
    ensures { queue.new ≡ with_places_free completion.now queue.old }
{
    if !completion.receive {
        queue.sends.retire(completion.place);
        return;
    }
    if let Some(receives) = &mut queue.receives {
        receives.retire(completion.place);
    }
}
