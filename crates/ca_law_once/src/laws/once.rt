ghost use Rattle.std.specs.List.{AllByRecursion};
ghost use Rattle.std.specs.Prelude.{List};
ghost use Rattle.ca_base.specs.Configuration.{Configuration};
ghost use Rattle.ca_keys.specs.Memory.{ByteMap};
ghost use Rattle.ca_model.specs.Entries.{EntryValue};
ghost use Rattle.ca_model.specs.Once.{Once};
ghost use Rattle.ca_model.specs.machine.Run.{Follows};
ghost use Rattle.ca_model.specs.machine.Sound.{AreLimited, CanBeMade};
ghost use Rattle.ca_law_once.specs.AtMostOnce.{ActAtMostOnce};
ghost use Rattle.ca_law_once.specs.Connections.{AreLinks};

/// In a history that follows the machine each atomic of a clean connection acts at most once, over every loss, repeat, early
/// timer and wrap of the PSNs. This is the part of Once that speaks of atomics that acted.
pub fn atomics_act_at_most_once()
    ensures { (c : Configuration) (bytes : ByteMap) (es : List EntryValue) → AreLimited c
        → AllByRecursion (λ e. CanBeMade e.event) es → Follows c bytes es
        → ActAtMostOnce bytes es }
{}

/// Every history that follows the machine is once: each atomic of a clean connection acts at most once; and where it completed
/// with success it acted exactly once before, and the event of its completion puts the eight bytes of the number that it
/// found into its list.
pub fn machine_is_once()
    ensures { (c : Configuration) (bytes : ByteMap) (es : List EntryValue) → AreLimited c
        → AllByRecursion (λ e. CanBeMade e.event) es → Follows c bytes es
        → Once bytes es }
{}

/// Each clean connection of a history that follows the machine is a link in each direction, from its first event to its last:
/// before the first entry and after each a link to which moves lead says the same of the direction as the world and as the
/// past. So what the laws of links say holds there, of the numbers of packets and of what is accepted.
pub fn clean_connections_are_links()
    ensures { (c : Configuration) (bytes : ByteMap) (es : List EntryValue) → AreLimited c
        → AllByRecursion (λ e. CanBeMade e.event) es → Follows c bytes es
        → AreLinks c bytes es }
{}
