ghost use Rattle.ca_law_endings.specs.Runs.{Comes};
ghost use Rattle.ca_base.specs.Configuration.{Configuration};
ghost use Rattle.ca_base.specs.declared.correspondent.Correspondent.{Correspondent};
ghost use Rattle.ca_connection.specs.Layout.{Direction};
ghost use Rattle.ca_connection.specs.Link.{Link};
ghost use Rattle.ca_keys.specs.Memory.{ByteMap};
ghost use Rattle.ca_law_world.specs.Steady.{IsSteadyWorld};
ghost use Rattle.ca_model.specs.declared.event.Event.{Event};
ghost use Rattle.ca_model.specs.machine.Sound.{IsSoundWorld};
ghost use Rattle.ca_model.specs.machine.Step.{step};
ghost use Rattle.ca_model.specs.machine.World.{World, opening_world};
ghost use Rattle.ca_law_once.specs.Ties.{IsTied};
ghost use Rattle.ca_law_once.specs.Lists.{AtomicListsFit};
ghost use Rattle.ca_law_once.specs.Success.{AreFound};
ghost use Rattle.ca_law_once.specs.Agrees.{AgreesWith};

/// Before the first event no atomic is posted.
pub fn opening_lists_fit()
    ensures { (bytes : ByteMap) → AtomicListsFit (opening_world bytes) }
{}

/// After every event of a sound world each posted atomic has a list of eight bytes, if it was so before.
pub fn event_keeps_lists()
    ensures { (c : Configuration) (w : World) (event : Event) → IsSoundWorld c w → AtomicListsFit w
        → Comes (λ v ms. AtomicListsFit v) (step c w event) }
{}

/// Where an event of a world that is tied to a link tells that an atomic of the life that sends completed with success,
/// the link had accepted that atomic exactly once, and the eight bytes of the number that it found are what the event
/// put into lists. Where it tells so of a SEND or a WRITE, the link had accepted each of its packets.
pub fn successes_are_found()
    ensures { (d : Direction) (s r : Correspondent) (c : Configuration) (w : World) (l : Link) (event : Event)
        → IsSoundWorld c w → IsSteadyWorld w → AtomicListsFit w → IsTied d s r w l
        → Comes (λ v ms. AgreesWith d s r w ms → AreFound d s w l ms ms) (step c w event) }
{}
