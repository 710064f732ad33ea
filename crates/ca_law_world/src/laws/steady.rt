ghost use Rattle.ca_base.specs.Configuration.{Configuration};
ghost use Rattle.ca_keys.specs.Memory.{ByteMap};
ghost use Rattle.ca_law_world.specs.Steady.{IsSteadyWorld};
ghost use Rattle.ca_model.specs.declared.event.Event.{Event};
ghost use Rattle.ca_model.specs.machine.Frame.{Afterwards};
ghost use Rattle.ca_model.specs.machine.Sound.{IsSoundWorld};
ghost use Rattle.ca_model.specs.machine.Step.{step};
ghost use Rattle.ca_model.specs.machine.World.{World, opening_world};

/// In the world before the first event the queue pairs are steady, whatever its memory holds: there are none.
pub fn opening_queue_pairs_are_steady()
    ensures { (byte : ByteMap) → IsSteadyWorld (opening_world byte) }
{}

/// An event leaves the queue pairs of a sound world steady where they were.
pub fn event_keeps_queue_pairs_steady()
    ensures { (c : Configuration) (event : Event) (w : World) → IsSoundWorld c w → IsSteadyWorld w
        → Afterwards IsSteadyWorld (step c w event) }
{}
