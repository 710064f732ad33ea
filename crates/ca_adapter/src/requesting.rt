ghost use Rattle.std.specs.Prelude.{◌≡◌, ◌<◌, ◌^◌, suc, IfSome};
ghost use Rattle.ca_adapter_acts.specs.Act.{Acts, Suffices};
ghost use Rattle.ca_adapter_acts.specs.Room.{FitsDone};
ghost use Rattle.ca_adapter_local.specs.ca_adapter_turns.Shown.{AreShown};
ghost use Rattle.ca_base.specs.Configuration.{configuration_in};
ghost use Rattle.ca_base.specs.objects.QueuePair.{queue_in};
ghost use Rattle.ca_adapter_parts.specs.HeldView.{holding};
ghost use Rattle.ca_keys.specs.declared.names.QueueId.{QueueId};
ghost use Rattle.ca_keys.specs.declared.names.Slot.{Slot};
ghost use Rattle.ca_model.specs.machine.CanStep.{CanStep};
ghost use Rattle.ca_model.specs.machine.Plan as plans;
ghost use Rattle.ca_model.specs.machine.Turns.{request_plan};

use ca_adapter_local::ca_adapter_turns::send_packet;
use ca_adapter_local::ca_requester::{Turn, next_turn};
use ca_adapter_local::perform;
use ca_adapter_parts::{Held, QueueSlot};
use ca_base::{ActError, Lot, QueueId, Reason, Settings};
use ca_model::Marks;
use std::alloc::Global;

/// Request: the requester of a queue pair sends the next packet, or performs the next local operation. It is not possible,
/// in this order: `State` where there is no queue pair, the first reason of `next_turn`, and of a packet those of
/// `send_packet`. `Memory` leaves all as it was.
pub fn request(
    alloc: Global,
    settings: &Settings,
    held: &mut Held,
    queue: QueueId,
    lot: Lot,
) -> Result<Marks, ActError>
    requires suffices { Suffices held.old (request_plan (configuration_in settings.now) queue lot) }
    requires parts { AreShown (configuration_in settings.now) held.old }
    requires step { IfSome (queue_in ((holding held.old).world.queue queue)) CanStep }
    requires named { IfSome (queue_in ((holding held.old).world.queue queue)) (λ q. q.queue ≡ queue) }
    requires few { IfSome (queue_in ((holding held.old).world.queue queue)) (λ q. q.windows < u32.MAX) }
    requires room { (s : Slot) → ((holding held.old).world.region s).bound < u32.MAX }
    requires next { (n : QueueId) → suc ((holding held.old).world.mailbox n).next < 2 ^ 64 }
    requires fits { FitsDone (holding held.old).world
        (plans.perform (holding held.old).world (request_plan (configuration_in settings.now) queue lot)) }
    ensures act { Acts result (request_plan (configuration_in settings.now) queue lot) held.old held.new }
{
    if !settings.has_queue(queue) {
        return Err(ActError::NotReady(Reason::State));
    }
    let QueueSlot::Present(q) = held.queue(queue) else {
        return Err(ActError::NotReady(Reason::State));
    };
    match next_turn(q) {
        Err(reason) => Err(ActError::NotReady(reason)),
        Ok(Turn::Performs(found)) => perform(alloc, settings, held, queue, &found),
        Ok(Turn::Sends(found)) => send_packet(alloc, settings, held, queue, lot, &found),
    }
}
