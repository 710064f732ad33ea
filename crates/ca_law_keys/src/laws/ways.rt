ghost use Rattle.std.specs.List.{AllByRecursion};
ghost use Rattle.std.specs.Prelude.{List};
ghost use Rattle.ca_law_endings.specs.Agreement.{HoldsAlong};
ghost use Rattle.ca_law_keys.specs.Ways.{WaysAgree};
ghost use Rattle.ca_base.specs.Configuration.{Configuration};
ghost use Rattle.ca_keys.specs.Memory.{ByteMap};
ghost use Rattle.ca_model.specs.Entries.{EntryValue};
ghost use Rattle.ca_model.specs.Past.{opening_past};
ghost use Rattle.ca_model.specs.machine.Run.{Follows};
ghost use Rattle.ca_model.specs.machine.Sound.{AreLimited, CanBeMade};
ghost use Rattle.ca_model.specs.machine.World.{opening_world};

/// Past and world agree on how keys came into force at the beginning of a history that follows the machine, and after
/// each of its entries.
pub fn histories_agree_on_ways()
    ensures { (c : Configuration) (bytes : ByteMap) (es : List EntryValue)
        → AreLimited c → AllByRecursion (λ e. CanBeMade e.event) es → Follows c bytes es
        → HoldsAlong WaysAgree c (opening_past bytes) (opening_world bytes) es }
{}
