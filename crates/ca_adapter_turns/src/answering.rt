ghost use Rattle.std.specs.Prelude.{◌≡◌, ◌<◌, ◌^◌, suc, IfSome};
ghost use Rattle.ca_adapter_acts.specs.Act.{Acts, Suffices};
ghost use Rattle.ca_adapter_acts.specs.Room.{FitsDone};
ghost use Rattle.ca_adapter_turns.specs.Shown.{AreShown};
ghost use Rattle.ca_base.specs.Configuration.{configuration_in};
ghost use Rattle.ca_base.specs.objects.QueuePair.{queue_in};
ghost use Rattle.ca_adapter_parts.specs.HeldView.{holding};
ghost use Rattle.ca_keys.specs.declared.names.QueueId.{QueueId};
ghost use Rattle.ca_model.specs.machine.CanStep.{CanStep};
ghost use Rattle.ca_model.specs.machine.Plan.{perform};
ghost use Rattle.ca_model.specs.machine.Turns.{respond_plan};

use crate::sending::{Sender, take_turn};
use ca_adapter_parts::Held;
use ca_base::{ActError, Lot, QueueId, Settings};
use ca_model::Marks;
use std::alloc::Global;

/// Respond: the responder sends the answer at the front. It is not possible, in this order: `State` where there is no queue
/// pair, or in Reset and Init, `Empty` where no answer waits or there is no peer, and `NoRoom` in the peer's mailbox. A
/// READ is judged anew for each response. `Memory` leaves all as it was.
pub fn respond(
    alloc: Global,
    settings: &Settings,
    held: &mut Held,
    queue: QueueId,
    lot: Lot,
) -> Result<Marks, ActError>
    requires suffices { Suffices held.old (respond_plan (configuration_in settings.now) queue lot) }
    requires parts { AreShown (configuration_in settings.now) held.old }
    requires step { IfSome (queue_in ((holding held.old).world.queue queue)) CanStep }
    requires named { IfSome (queue_in ((holding held.old).world.queue queue)) (λ q. q.queue ≡ queue) }
    requires next { (n : QueueId) → suc ((holding held.old).world.mailbox n).next < 2 ^ 64 }
    requires fits { FitsDone (holding held.old).world
        (perform (holding held.old).world (respond_plan (configuration_in settings.now) queue lot)) }
    ensures act { Acts result (respond_plan (configuration_in settings.now) queue lot) held.old held.new }
{
    take_turn(alloc, settings, held, queue, lot, Sender::Responder)
}
