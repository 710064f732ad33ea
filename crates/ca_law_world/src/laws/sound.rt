ghost use Rattle.ca_base.specs.Configuration.{Configuration};
ghost use Rattle.ca_keys.specs.Memory.{ByteMap};
ghost use Rattle.ca_model.specs.declared.event.Event.{Event};
ghost use Rattle.ca_model.specs.machine.Frame.{Afterwards};
ghost use Rattle.ca_model.specs.machine.Sound.{AreLimited, CanBeMade, IsSoundWorld};
ghost use Rattle.ca_model.specs.machine.Step.{step};
ghost use Rattle.ca_model.specs.machine.World.{World, opening_world};

/// The world before the first event is sound, whatever its memory holds.
pub fn opening_world_is_sound()
    ensures { (c : Configuration) (byte : ByteMap) → IsSoundWorld c (opening_world byte) }
{}

/// Every event that can be made leaves a sound world sound, where the configuration keeps to its limits.
///
/// So every world that comes up is sound: the numbers, counts and shapes of each object are in their ranges, and each
/// completion that waits is of a queue pair that is there, in the right completion queue, and of a request that is
/// finished or a receive that was taken.
pub fn event_keeps_worlds_sound()
    ensures { (c : Configuration) (event : Event) (w : World) → AreLimited c → IsSoundWorld c w → CanBeMade event
        → Afterwards (IsSoundWorld c) (step c w event) }
{}
