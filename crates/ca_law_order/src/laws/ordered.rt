ghost use Rattle.std.specs.List.{AllByRecursion};
ghost use Rattle.std.specs.Prelude.{List};
ghost use Rattle.ca_base.specs.Configuration.{Configuration};
ghost use Rattle.ca_keys.specs.Memory.{ByteMap};
ghost use Rattle.ca_model.specs.Entries.{EntryValue};
ghost use Rattle.ca_model.specs.Ordered.{Ordered};
ghost use Rattle.ca_model.specs.machine.Run.{Follows};
ghost use Rattle.ca_model.specs.machine.Sound.{AreLimited, CanBeMade};

/// Every history that follows the machine is ordered: each send completes behind those that its queue pair completed
/// before it, with no signalled one left between, and tells of the request that was posted at its place; each receive
/// completes behind those that its queue pair completed before it; and what a poll gives is the front of what waits.
pub fn machine_is_ordered()
    ensures { (c : Configuration) (bytes : ByteMap) (es : List EntryValue)
        → AreLimited c
        → AllByRecursion (λ e. CanBeMade e.event) es → Follows c bytes es → Ordered bytes es }
{}
