ghost use Rattle.std.specs.List.{AllByRecursion};
ghost use Rattle.std.specs.Prelude.{List};
ghost use Rattle.ca_base.specs.Configuration.{Configuration};
ghost use Rattle.ca_keys.specs.Memory.{ByteMap};
ghost use Rattle.ca_model.specs.Entries.{EntryValue};
ghost use Rattle.ca_model.specs.machine.Run.{Follows};
ghost use Rattle.ca_model.specs.machine.Sound.{AreLimited, CanBeMade};
ghost use Rattle.ca_law_once.specs.Written.{Written, WrittenOnce};

/// In a history that follows the machine the packets of a posted WRITE of a clean connection write in order, each at most once;
/// and where the WRITE completed with success all of them wrote before.
pub fn machine_is_written()
    ensures { (c : Configuration) (bytes : ByteMap) (es : List EntryValue) → AreLimited c
        → AllByRecursion (λ e. CanBeMade e.event) es → Follows c bytes es
        → Written bytes es }
{}

/// In a history that follows the machine each packet of a posted WRITE of a clean connection writes at most once; and where
/// the WRITE completed with success, each of its packets wrote exactly once before.
pub fn machine_writes_once()
    ensures { (c : Configuration) (bytes : ByteMap) (es : List EntryValue) → AreLimited c
        → AllByRecursion (λ e. CanBeMade e.event) es → Follows c bytes es
        → WrittenOnce bytes es }
{}
