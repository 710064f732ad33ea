ghost use Rattle.std.specs.List.{AllByRecursion};
ghost use Rattle.std.specs.Prelude.{List};
ghost use Rattle.ca_base.specs.Configuration.{Configuration};
ghost use Rattle.ca_isolation.specs.Alone.{Isolated};
ghost use Rattle.ca_keys.specs.Memory.{ByteMap};
ghost use Rattle.ca_model.specs.Entries.{EntryValue};
ghost use Rattle.ca_model.specs.machine.Run.{Follows};
ghost use Rattle.ca_model.specs.machine.Sound.{AreLimited, CanBeMade};

/// Every history that follows the machine is isolated: for each closed group of domains the lone list follows the
/// machine too, over the bytes that the group's grants cover and 0 elsewhere. So none of its events is refused, each
/// event of the group has the marks there that it has in the history, and each Store in the place of what others write
/// into these bytes is done.
pub fn machine_is_isolated()
    ensures { (c : Configuration) (bytes : ByteMap) (es : List EntryValue) → AreLimited c
        → AllByRecursion (λ e. CanBeMade e.event) es → Follows c bytes es
        → Isolated c bytes es }
{}
