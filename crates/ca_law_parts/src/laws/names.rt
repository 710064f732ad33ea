ghost use Rattle.std.specs.Prelude.{◌≡◌, true, IfSome};
ghost use Rattle.std.specs.List.{AllByRecursion};
ghost use Rattle.ca_base.specs.Configuration.{Configuration};
ghost use Rattle.ca_keys.specs.Memory.{ByteMap};
ghost use Rattle.ca_keys.specs.declared.names.Slot.{Slot};
ghost use Rattle.ca_law_parts.specs.Placed.{IsPlacedWorld, is_configured};
ghost use Rattle.ca_model.specs.declared.event.Event.{Event};
ghost use Rattle.ca_model.specs.machine.Frame.{Afterwards};
ghost use Rattle.ca_model.specs.machine.Plan.{touches};
ghost use Rattle.ca_model.specs.machine.Sound.{AreLimited, IsSoundWorld};
ghost use Rattle.ca_model.specs.machine.Step.{plan, step};
ghost use Rattle.ca_model.specs.machine.World.{World, Queue_of, opening_world};

/// The world before the first event is placed: nothing stands in it.
pub fn opening_world_is_placed()
    ensures { (c : Configuration) (byte : ByteMap) → IsPlacedWorld c (opening_world byte) }
{}

/// Every event leaves a sound and placed world placed, where the configuration keeps to its limits.
///
/// So in every world that comes up what stands outside the configured slices is vacant, and all that queue pairs,
/// bindings and reservations name is configured.
pub fn event_keeps_worlds_placed()
    ensures { (c : Configuration) (event : Event) (w : World) → AreLimited c → IsSoundWorld c w → IsPlacedWorld c w
        → Afterwards (IsPlacedWorld c) (step c w event) }
{}

/// In a sound and placed world each thing that an event looks at, reads, changes or writes is configured: its domain
/// and its slot, or its buffer, which has the byte.
pub fn event_touches_configured()
    ensures { (c : Configuration) (event : Event) (w : World) → AreLimited c → IsSoundWorld c w → IsPlacedWorld c w
        → AllByRecursion (λ n. is_configured c n ≡ true) (touches w (plan c event)) }
{}

/// In a sound and placed world the queue pair of each completion that waits is configured.
pub fn waiting_completions_are_configured()
    ensures { (c : Configuration) (w : World) (s : Slot) → IsSoundWorld c w → IsPlacedWorld c w
        → IfSome (w.cq s) (λ v. AllByRecursion (λ x. is_configured c (Queue_of x.queue) ≡ true) v.waiting) }
{}
