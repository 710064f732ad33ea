ghost use Rattle.std.specs.Prelude.{◌≡◌, ◌<◌, true, false, IfOk, IfSome};
ghost use Rattle.ca_adapter_acts.specs.Act.{Acts, IsAct, Suffices};
ghost use Rattle.ca_adapter_acts.specs.Binders.{changed_by};
ghost use Rattle.ca_adapter_acts.specs.Calls.{call_of};
ghost use Rattle.ca_base.specs.Configuration.{configuration_in};
ghost use Rattle.ca_base.specs.declared.reserve.Reserve.TheVariants.{Sends};
ghost use Rattle.ca_base.specs.objects.QueuePair.{incarnation_of, is_present};
ghost use Rattle.ca_cq.specs.Room.{is_new_side};
ghost use Rattle.ca_adapter_parts.specs.HeldView.{holding};
ghost use Rattle.ca_adapter_parts.specs.Parts.{slot_of};
ghost use Rattle.ca_keys.specs.Numbers.{queue_of};
ghost use Rattle.ca_model.specs.machine.QueuePairVerbs.{beside, create_qp_plan, new_queue, user_updates};
ghost use Rattle.ca_model.specs.machine.World.{Cq_of, Domain_of, Mailbox_of, Queue_of};
ghost use Rattle.ca_adapter_creation.specs.Made.{is_shared_held, outcome_of_creation, room_found, shared_slot};
ghost use Rattle.ca_adapter_creation.specs.Reservations.{has_room_for};

use crate::creation::Creation;
use crate::reservations::{has_too_little, reserve};
use ca_adapter_acts::Call;
use ca_adapter_parts::{Held, QueueSlot};
use ca_base::{ActError, Field, Memory, QueueId, Settings};
use ca_model::{Answer, Marks, Refusal};
use ca_qpstate::QueuePart;
use std::alloc::Global;

/// CreateQp: the queue pair begins in Reset, with the slot's next incarnation and its count of timers, and reserves for
/// its sends and its receives. The refusals in order are `NoDomain`, `SlotTaken`, `NoSuch` where a queue that it names
/// is not there, `OutOfRange` of the depth, and `CqTooSmall`. Nothing changes at a refusal or without memory.
#[tactic(auto, using(crate::proofs::CreateLemmas::queues_held, crate::proofs::CreateLemmas::no_send, crate::proofs::CreateLemmas::no_recv, crate::proofs::CreateLemmas::no_shared, crate::proofs::CreateLemmas::sized, crate::proofs::CreateLemmas::has_room))]
pub fn create_qp(
    call: &Call<'_>,
    settings: &Settings,
    held: &mut Held,
    creation: &Creation,
) -> Result<Marks, ActError>
    requires small { creation.now.slot.slot < 256 }
    requires suffices { Suffices held.old
        (create_qp_plan (configuration_in settings.now) (call_of call.now) creation.now) }
    requires few { ((holding held.old).world.domain creation.now.slot.domain).objects < u32.MAX }
    requires users { IfSome (shared_slot creation.now (holding held.old).world) (λ s. s.users < u32.MAX) }
    requires incarnation { incarnation_of ((holding held.old).world.queue (queue_of creation.now.slot)) < u32.MAX }
    requires new { is_present ((holding held.old).world.queue (queue_of creation.now.slot)) ≡ false
        → IfSome ((holding held.old).world.cq (beside creation.now.slot creation.now.send_cq))
        (λ q. is_new_side (Sends (queue_of creation.now.slot)) q ≡ true) }
    ensures act { Acts result (create_qp_plan (configuration_in settings.now) (call_of call.now) creation.now)
        held.old held.new }
{
    let domain = *held.control(creation.slot.domain);
    if !domain.allocated {
        return Ok(call.refuse(Refusal::NoDomain)?);
    }
    if let QueueSlot::Present(_) = held.queue(QueueId::of_slot(creation.slot)) {
        return Ok(call.refuse(Refusal::SlotTaken)?);
    }
    if !creation.has_queues(settings) {
        return Ok(call.refuse(Refusal::NoSuch)?);
    }
    let Some(send) = held.cq(creation.send_slot()) else {
        return Ok(call.refuse(Refusal::NoSuch)?);
    };
    let Some(recv) = held.cq(creation.recv_slot()) else {
        return Ok(call.refuse(Refusal::NoSuch)?);
    };
    let Some(room) = receive_room(held, creation) else {
        return Ok(call.refuse(Refusal::NoSuch)?);
    };
    if creation.has_bad_depth() {
        return Ok(call.refuse(Refusal::OutOfRange(Field::Depth))?);
    }
    if has_too_little(creation, room, send, recv) {
        return Ok(call.refuse(Refusal::CqTooSmall)?);
    }
    make(call, held, creation, room)
}

/// The room that its receives reserve; none where it names a shared receive queue that is not there.
fn receive_room(held: &Held, creation: &Creation) -> Option<u16>
    requires { is_shared_held creation.now (holding held.now) ≡ true }
    ensures { result ≡ room_found creation.now (holding held.now).world }
{
    let Some(srq) = creation.srq else {
        return Some(creation.recv_depth);
    };
    match &held.srq(creation.beside(srq)).srq {
        Some(shared) => Some(shared.depth()),
        None => None,
    }
}

/// Makes the queue pair, for whose reservations there is room. All memory is taken before anything changes.
#[tactic(auto, using(ca_adapter_parts::proofs::HoldLemmas::put_control, ca_adapter_parts::proofs::HoldLemmas::put_queue, ca_adapter_parts::proofs::HoldLemmas::put_mailbox))]
fn make(call: &Call<'_>, held: &mut Held, creation: &Creation, room: u16) -> Result<Marks, ActError>
    requires small { creation.now.slot.slot < 256 }
    requires domain { (holding held.old).has (Domain_of creation.now.slot.domain) ≡ true }
    requires queue { (holding held.old).has (Queue_of (queue_of creation.now.slot)) ≡ true }
    requires mailbox { (holding held.old).has (Mailbox_of (queue_of creation.now.slot)) ≡ true }
    requires send { (holding held.old).has (Cq_of (beside creation.now.slot creation.now.send_cq)) ≡ true }
    requires recv { (holding held.old).has (Cq_of (beside creation.now.slot creation.now.recv_cq)) ≡ true }
    requires shared { is_shared_held creation.now (holding held.old) ≡ true }
    requires room { has_room_for creation.now room (holding held.old).world ≡ true }
    requires few { ((holding held.old).world.domain creation.now.slot.domain).objects < u32.MAX }
    requires users { IfSome (shared_slot creation.now (holding held.old).world) (λ s. s.users < u32.MAX) }
    requires incarnation { incarnation_of ((holding held.old).world.queue (queue_of creation.now.slot)) < u32.MAX }
    requires new { IfSome ((holding held.old).world.cq (beside creation.now.slot creation.now.send_cq))
        (λ q. is_new_side (Sends (queue_of creation.now.slot)) q ≡ true) }
    ensures { IsAct result (outcome_of_creation (call_of call.now) creation.now room (holding held.old).world)
        (holding held.old) (holding held.new) }
{
    let name = QueueId::of_slot(creation.slot);
    let domain = *held.control(creation.slot.domain);
    let ready = call.ready(0)?;
    let queue = part_at_start(call.alloc, held.queue(name), creation)?;
    let incarnation = queue.incarnation;
    reserve(held, creation, room)?;
    *held.control_mut(creation.slot.domain) = domain.with_object();
    *held.queue_mut(name) = QueueSlot::Present(queue);
    held.mailbox_mut(name).accept(incarnation, None);
    add_user(held, creation);
    Ok(ready.answer(Answer::Queue {
        number: name.number,
        incarnation,
    }))
}

/// The queue pair that begins in a slot.
fn part_at_start(alloc: Global, slot: &QueueSlot, creation: &Creation) -> Result<QueuePart, Memory>
    requires small { creation.now.slot.slot < 256 }
    requires incarnation { incarnation_of (slot_of slot.now) < u32.MAX }
    ensures { IfOk result (λ q. q ≡ new_queue creation.now (slot_of slot.now)) }
{
    let (incarnation, timers) = match slot {
        QueueSlot::Vacant {
            incarnation,
            timers,
        } => (*incarnation, *timers),
        QueueSlot::Present(queue) => (queue.incarnation, queue.requester.timers),
    };
    let mut queue = QueuePart::create(
        alloc,
        QueueId::of_slot(creation.slot),
        creation.slot.domain,
        incarnation + 1,
        creation.send_cq,
        creation.recv_cq,
        creation.send_depth,
        creation.recv_depth,
        creation.srq,
    )?;
    queue.requester.timers = timers;
    Ok(queue)
}

/// Its shared receive queue has one user more.
#[tactic(auto, using(ca_adapter_parts::proofs::HoldLemmas::put_srq))]
fn add_user(held: &mut Held, creation: &Creation)
    requires shared { is_shared_held creation.now (holding held.old) ≡ true }
    requires users { IfSome (shared_slot creation.now (holding held.old).world) (λ s. s.users < u32.MAX) }
    ensures { holding held.new
        ≡ changed_by (user_updates creation.now (shared_slot creation.now (holding held.old).world))
        (holding held.old) }
{
    if let Some(srq) = creation.srq {
        held.srq_mut(creation.beside(srq)).users += 1;
    }
}
