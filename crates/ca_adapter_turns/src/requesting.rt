ghost use Rattle.std.specs.Prelude.{◌≡◌, ◌<◌, ◌^◌, suc, IfSome};
ghost use Rattle.ca_adapter_acts.specs.Act.{Acts, Suffices};
ghost use Rattle.ca_adapter_acts.specs.Room.{FitsDone};
ghost use Rattle.ca_adapter_turns.specs.Shown.{AreShown};
ghost use Rattle.ca_base.specs.Configuration.{configuration_in};
ghost use Rattle.ca_base.specs.objects.QueuePair.{queue_in};
ghost use Rattle.ca_adapter_parts.specs.HeldView.{holding};
ghost use Rattle.ca_keys.specs.declared.names.QueueId.{QueueId};
ghost use Rattle.ca_model.specs.machine.Plan.{perform};
ghost use Rattle.ca_model.specs.machine.Turns.{request_plan};
ghost use Rattle.ca_requester.specs.ca_requester_sends.Turn.{SendsFound};

use crate::sending::{Sender, take_turn};
use ca_adapter_parts::Held;
use ca_base::{ActError, Lot, QueueId, Settings};
use ca_model::Marks;
use ca_requester::Found;
use std::alloc::Global;

/// Request, where `next_turn` found a request of which a packet is sent: its bytes are read by what is held, and a mark
/// tells of each piece; a list that is denied, with nothing outstanding, fails the request, and no packet is sent. It is
/// not possible, in this order: `State` where there is no queue pair, or no peer, `Outstanding` where the list is denied
/// and something is outstanding, and `NoRoom` in the peer's mailbox. `Memory` leaves all as it was.
pub fn send_packet(
    alloc: Global,
    settings: &Settings,
    held: &mut Held,
    queue: QueueId,
    lot: Lot,
    found: &Found,
) -> Result<Marks, ActError>
    requires suffices { Suffices held.old (request_plan (configuration_in settings.now) queue lot) }
    requires parts { AreShown (configuration_in settings.now) held.old }
    requires sends { IfSome (queue_in ((holding held.old).world.queue queue)) (λ q. SendsFound q found.now) }
    requires named { IfSome (queue_in ((holding held.old).world.queue queue)) (λ q. q.queue ≡ queue) }
    requires next { (n : QueueId) → suc ((holding held.old).world.mailbox n).next < 2 ^ 64 }
    requires fits { FitsDone (holding held.old).world
        (perform (holding held.old).world (request_plan (configuration_in settings.now) queue lot)) }
    ensures act { Acts result (request_plan (configuration_in settings.now) queue lot) held.old held.new }
{
    take_turn(alloc, settings, held, queue, lot, Sender::Requester(*found))
}
