ghost use Rattle.ca_law_endings.specs.Runs.{Comes};
ghost use Rattle.ca_base.specs.Configuration.{Configuration};
ghost use Rattle.ca_law_isolation.specs.Bounds.{AreBounded};
ghost use Rattle.ca_model.specs.declared.event.Event.{Event};
ghost use Rattle.ca_model.specs.machine.Sound.{IsSoundWorld};
ghost use Rattle.ca_model.specs.machine.Step.{step};
ghost use Rattle.ca_model.specs.machine.World.{World};

/// What the marks of an event in a sound world tell of keeps to bounds: each access that writes, and each Store, has at
/// most as many bytes as a Store may have; a Store lies in its buffer; and each run of a grant lies in its buffer.
pub fn marks_are_bounded()
    ensures { (c : Configuration) (event : Event) (w : World) → IsSoundWorld c w
        → Comes (λ v ms. AreBounded c ms) (step c w event) }
{}
