ghost use Rattle.std.specs.List.{AllByRecursion};
ghost use Rattle.std.specs.Prelude.{List};
ghost use Rattle.ca_base.specs.Configuration.{Configuration};
ghost use Rattle.ca_keys.specs.Memory.{ByteMap};
ghost use Rattle.ca_model.specs.Entries.{EntryValue};
ghost use Rattle.ca_model.specs.Judged.{Judged};
ghost use Rattle.ca_model.specs.machine.Run.{Follows};
ghost use Rattle.ca_model.specs.machine.Sound.{AreLimited, CanBeMade};

/// Every history that follows the machine is judged: each access is denied exactly where the grants in force do not
/// allow it, for the first part of the key check that fails, and is made by a queue pair of its domain; where it is
/// allowed, what is read is what memory held, at most as much is written as was judged, and an atomic finds what
/// memory held at eight aligned bytes and puts there what the packet that arrived makes of it; each grant has as many
/// places as bytes; and a Load gives what memory held.
pub fn machine_is_judged()
    ensures { (c : Configuration) (bytes : ByteMap) (es : List EntryValue) → AreLimited c
        → AllByRecursion (λ e. CanBeMade e.event) es → Follows c bytes es
        → Judged bytes es }
{}
