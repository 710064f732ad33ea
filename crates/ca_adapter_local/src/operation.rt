ghost use Rattle.std.specs.Prelude.{◌≡◌, ◌<◌, ◌≤◌, ◌++◌, true, Some};
ghost use Rattle.ca_adapter_turns.specs.ca_adapter_acts.Act.{Acts, Suffices};
ghost use Rattle.ca_adapter_turns.specs.ca_adapter_acts.Room.{FitsDone};
ghost use Rattle.ca_adapter_local.specs.Local.{IsPerforming, end_changes, end_effects, local_end};
ghost use Rattle.ca_adapter_local.specs.Made.{HasFailed, HasPerformed, HasStepped};
ghost use Rattle.ca_adapter_local.specs.Parts.{AreParts};
ghost use Rattle.ca_adapter_turns.specs.Shown.{AreShown};
ghost use Rattle.ca_base.specs.Configuration.{configuration_in};
ghost use Rattle.ca_base.specs.declared.lot.Lot.{Lot as AnyLot};
ghost use Rattle.ca_base.specs.objects.QueuePair.{Present, QueuePair};
ghost use Rattle.ca_base.specs.objects.Slices.{has_queue};
ghost use Rattle.ca_base.specs.declared.completion.WcStatus.TheVariants.{MemoryManagement};
ghost use Rattle.ca_adapter_parts.specs.HeldView.{hold, holding};
ghost use Rattle.ca_adapter_parts.specs.declared.held.Held.{Held as HeldParts};
ghost use Rattle.ca_adapter_reach.specs.Seen.{region_in};
ghost use Rattle.ca_keys.specs.declared.names.Slot.{Slot as SlotName};
ghost use Rattle.ca_model.specs.machine.Acknowledgements.{failure_effects};
ghost use Rattle.ca_model.specs.machine.Completions.{success_marks};
ghost use Rattle.ca_model.specs.machine.LocalOperations.{after_operation};
ghost use Rattle.ca_model.specs.machine.Numbering.{Numbered};
ghost use Rattle.ca_model.specs.machine.Plan.{perform};
ghost use Rattle.ca_model.specs.machine.Requester.{Performs, turn_of};
ghost use Rattle.ca_model.specs.machine.Turns.{request_plan};
ghost use Rattle.ca_model.specs.machine.World.{Queue_of};
ghost use Rattle.ca_adapter_turns.specs.ca_adapter_reach_laws.Ties.{IsVacantOutside};
ghost use Rattle.ca_adapter_turns.specs.ca_requester_sends.Turn.{PerformsFound};

use crate::bind::bind;
use crate::fast_registration::register;
use crate::invalidation::invalidate;
use crate::made::{Made, SUCCESS_MARKS, tell};
use ca_adapter_parts::{Held, QueueSlot};
use ca_adapter_reach::Reached;
use ca_adapter_turns::ca_adapter_acts::{Outlets, put_done};
use ca_adapter_turns::ca_requester_sends::{Found, local_done, next_local};
use ca_base::{ActError, Memory, OpRefusal, QueueId, SendOp, Settings, WindowCount};
use ca_localops::OpError;
use ca_model::Marks;
use ca_qpstate::QueuePart;
use std::alloc::Global;

/// Performs the local operation that a turn found for the queue pair of a name, which is held with all that the turn
/// looks at. It succeeds, and revokes and grants; or it is refused, its request completes with MemoryManagement, and
/// the queue pair moves to Error with its flushes. `Memory` leaves all as it was.
/// Source: InfiniBand Architecture Specification Volume 1, the chapter on the software transport interface, sections on
/// memory windows and on the base memory management extensions.
pub fn perform(
    alloc: Global,
    settings: &Settings,
    held: &mut Held,
    queue: QueueId,
    found: &Found,
) -> Result<Marks, ActError>
    requires suffices { (lot : AnyLot) → Suffices held.old (request_plan (configuration_in settings.now) queue lot) }
    requires parts { AreShown (configuration_in settings.now) held.old }
    requires configured { has_queue (configuration_in settings.now) queue ≡ true }
    requires performs { IsPerforming (holding held.old).world queue found.now }
    requires few { (q : QueuePair) → (holding held.old).world.queue queue ≡ Present q → q.windows < u32.MAX }
    requires room { (s : SlotName) → ((holding held.old).world.region s).bound < u32.MAX }
    requires fits { (lot : AnyLot) → FitsDone (holding held.old).world
        (perform (holding held.old).world (request_plan (configuration_in settings.now) queue lot)) }
    ensures act { (lot : AnyLot) → Acts result (request_plan (configuration_in settings.now) queue lot)
        held.old held.new }
{
    let QueueSlot::Present(q) = held.queue(queue) else {
        unreachable!()
    };
    let to = Outlets::of(q);
    let mut marks = Marks::empty(alloc);
    let Ok(()) = step(alloc, settings, held, queue, found, &mut marks) else {
        return Err(ActError::Memory);
    };
    put_done(held, &to, marks.as_slice());
    Ok(marks)
}

/// The same, apart from the completion queues.
#[tactic(auto, unfolding(ca_adapter_parts::specs::HeldView::holding))]
fn step(
    alloc: Global,
    settings: &Settings,
    held: &mut Held,
    queue: QueueId,
    found: &Found,
    marks: &mut Marks,
) -> Result<(), Memory>
    requires performs { IsPerforming (holding held.old).world queue found.now }
    requires held { (holding held.old).has (Queue_of queue) ≡ true }
    requires parts { (q : QueuePair) (n : Numbered) → (holding held.old).world.queue queue ≡ Present q
        → turn_of q ≡ Performs n → AreParts (configuration_in settings.now) held.old.reached q n.request.op }
    requires outside { IsVacantOutside (configuration_in settings.now) (holding held.old).world }
    requires few { (q : QueuePair) → (holding held.old).world.queue queue ≡ Present q → q.windows < u32.MAX }
    requires room { (s : SlotName) → (region_in held.old.reached s).bound < u32.MAX }
    ensures { (q : QueuePair) (n : Numbered) → (holding held.old).world.queue queue ≡ Present q → turn_of q ≡ Performs n
        → let end = local_end (configuration_in settings.now) (holding held.old).world q n.drawn n.request.op in
        HasStepped result queue (end_effects q n end) (end_changes end)
        (holding held.old) (holding held.new) marks.old marks.new }
{
    marks.reserve(SUCCESS_MARKS)?;
    let slot = held.queues.at(queue);
    let QueueSlot::Present(q) = &**slot else {
        unreachable!()
    };
    match operate(alloc, settings, &mut held.reached, q, found) {
        Ok(made) => {
            let windows = made.windows;
            tell(made.marks, queue.adapter, marks);
            succeed(held, queue, found, windows, marks);
            Ok(())
        }
        Err(OpError::Refused(cause)) => fail(held, queue, found, cause, marks),
        Err(OpError::Memory) => Err(Memory),
    }
}

/// Performs the operation of a queue pair over what keys reach of the parts in hand. Where it fails, these are as
/// they were.
fn operate(
    alloc: Global,
    settings: &Settings,
    reached: &mut Reached,
    q: &QueuePart,
    found: &Found,
) -> Result<Made, OpError>
    requires performs { PerformsFound q.now found.now }
    requires parts { (n : Numbered) → turn_of q.now ≡ Performs n
        → AreParts (configuration_in settings.now) reached.old q.now n.request.op }
    requires few { q.now.windows < u32.MAX }
    requires room { (s : SlotName) → (region_in reached.old s).bound < u32.MAX }
    ensures { (h : HeldParts) (n : Numbered) → turn_of q.now ≡ Performs n
        → IsVacantOutside (configuration_in settings.now) (holding h).world → h.reached ≡ reached.old
        → HasPerformed result (local_end (configuration_in settings.now) (holding h).world q.now n.drawn n.request.op)
        h reached.new }
{
    let (request, drawn) = next_local(q, found);
    match &request.op {
        op @ (SendOp::Bind1 { .. } | SendOp::Bind2 { .. }) => {
            bind(alloc, settings, reached, q, op, drawn)
        }
        op @ SendOp::FastReg { .. } => register(alloc, settings, reached, q, op),
        SendOp::LocalInv { key } => invalidate(reached, q, *key),
        _ => unreachable!(),
    }
}

/// The operation succeeds: its request completes, and the queue pair counts so many windows. It takes no memory.
#[tactic(auto, using(ca_adapter_parts::proofs::HoldLemmas::put_queue))]
fn succeed(held: &mut Held, queue: QueueId, found: &Found, windows: WindowCount, marks: &mut Marks)
    requires performs { IsPerforming (holding held.old).world queue found.now }
    requires held { (holding held.old).has (Queue_of queue) ≡ true }
    requires room { 1 ≤ marks.old.room }
    ensures held { (q : QueuePair) (n : Numbered) → (holding held.old).world.queue queue ≡ Present q
        → turn_of q ≡ Performs n → holding held.new ≡ hold (holding held.old) (Queue_of queue)
        (Present (after_operation n (record q { windows = windows.count }))) }
    ensures marks { (q : QueuePair) (n : Numbered) → (holding held.old).world.queue queue ≡ Present q
        → turn_of q ≡ Performs n → marks.new.marks ≡ marks.old.marks ++ success_marks q.queue n.place n.request }
{
    let QueueSlot::Present(q) = held.queue_mut(queue) else {
        unreachable!()
    };
    let Ok(()) = local_done(q, found, None, marks) else {
        unreachable!()
    };
    q.windows = windows;
}

/// The operation was refused: its request completes with MemoryManagement, and the queue pair moves to Error.
#[tactic(auto, using(ca_adapter_parts::proofs::HoldLemmas::put_queue))]
fn fail(
    held: &mut Held,
    queue: QueueId,
    found: &Found,
    cause: OpRefusal,
    marks: &mut Marks,
) -> Result<(), Memory>
    requires performs { IsPerforming (holding held.old).world queue found.now }
    requires held { (holding held.old).has (Queue_of queue) ≡ true }
    ensures { (q : QueuePair) → (holding held.old).world.queue queue ≡ Present q → HasFailed result queue
        (failure_effects MemoryManagement (Some cause) q) (holding held.old) (holding held.new) marks.old marks.new }
{
    let QueueSlot::Present(q) = held.queue_mut(queue) else {
        unreachable!()
    };
    local_done(q, found, Some(cause), marks)
}
