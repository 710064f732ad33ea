ghost use Rattle.std.specs.Prelude.{ℕ, suc, ◌<◌, ◌-◌, ◌^◌};
ghost use Rattle.ca_base.specs.Configuration.{Configuration};
ghost use Rattle.ca_keys.specs.Memory.{ByteMap};
ghost use Rattle.ca_model.specs.declared.event.Event.{Event};
ghost use Rattle.ca_model.specs.machine.Frame.{Afterwards};
ghost use Rattle.ca_model.specs.machine.Sound.{AreLimited, CanBeMade};
ghost use Rattle.ca_model.specs.machine.Step.{step};
ghost use Rattle.ca_model.specs.machine.World.{World, opening_world};
ghost use Rattle.ca_law_parts.specs.Worlds.{IsWorldAfter};

/// The world before the first event comes up after none, whatever its memory holds, where the configuration keeps to its
/// limits.
pub fn opening_comes_up()
    ensures { (c : Configuration) (byte : ByteMap) → AreLimited c → IsWorldAfter c 0 (opening_world byte) }
{}

/// Where a world comes up after n events, the one that an event leaves comes up after n + 1, as long as these are fewer
/// than 2^32 - 1 and the event can be made.
pub fn event_leads_on()
    ensures { (c : Configuration) (event : Event) (n : ℕ) (w : World) → suc n < 2 ^ 32 - 1 → CanBeMade event
        → IsWorldAfter c n w → Afterwards (IsWorldAfter c (suc n)) (step c w event) }
{}
