ghost use Rattle.std.specs.Prelude.{◌≡◌, Bool, true, List};
ghost use Rattle.ca_isolation.specs.Alone.{alone_entries, memory_stored, stretches_of_write};
ghost use Rattle.ca_isolation.specs.Groups.{Group, replies_of};
ghost use Rattle.ca_keys.specs.Memory.{ByteMap, memory_after};
ghost use Rattle.ca_keys.specs.declared.place.Place.{Place};
ghost use Rattle.ca_model.specs.Entries.{EntryValue};
ghost use Rattle.ca_model.specs.machine.Plan.{Write};

/// The lone list of a group has the replies of the history to the group, in order.
pub fn lone_list_has_the_replies()
    ensures { (group : Group) (bytes : ByteMap) (es : List EntryValue)
        → replies_of group (alone_entries group bytes es) ≡ replies_of group es }
{}

/// Where two memories have the same byte at a covered place, so they do after a write to the one and the Stores of its
/// stretches to the other. The runs may name a place more than once.
pub fn stores_write_what_was_written()
    ensures { (cover : Place → Bool) (x : Write) (m k : ByteMap) (p : Place) → cover p ≡ true → m p ≡ k p
        → memory_stored (stretches_of_write cover x) m p ≡ memory_after k x.runs x.bytes p }
{}
