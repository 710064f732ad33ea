ghost use Rattle.std.specs.List.{AllByRecursion};
ghost use Rattle.std.specs.Prelude.{List};
ghost use Rattle.ca_base.specs.Configuration.{Configuration};
ghost use Rattle.ca_keys.specs.Memory.{ByteMap};
ghost use Rattle.ca_law_keys.specs.Alone.{AreAlone};
ghost use Rattle.ca_law_keys.specs.Asked.{AreAsAsked};
ghost use Rattle.ca_law_keys.specs.Effects.{HaveTheirEffects};
ghost use Rattle.ca_law_keys.specs.Ended.{DoEndAsAsked};
ghost use Rattle.ca_law_keys.specs.Ends.{DoEndInForce};
ghost use Rattle.ca_law_keys.specs.Lie.{DoWindowsLie};
ghost use Rattle.ca_model.specs.Entries.{EntryValue};
ghost use Rattle.ca_model.specs.Licensed.{Licensed};
ghost use Rattle.ca_model.specs.machine.Run.{Follows};
ghost use Rattle.ca_model.specs.machine.Sound.{AreLimited, CanBeMade};

/// In a history that follows the machine each success has its effect in the event that tells of it: a registration
/// the grant of its key; a deregistration and a deallocation the end of the key in force in their slot; a Local
/// Invalidate that is performed or completes, and a receive that completes with an invalidated key, the end of that
/// key. And a requester's turn that performs no local operation grants and ends nothing. This is the part of Licensed
/// that speaks of how events end.
pub fn successes_have_their_effects()
    ensures { (c : Configuration) (bytes : ByteMap) (es : List EntryValue) → AreLimited c
        → AllByRecursion (λ e. CanBeMade e.event) es → Follows c bytes es
        → HaveTheirEffects bytes es }
{}

/// In a history that follows the machine each key comes into force where no other grant in force has its key slot.
/// This is the part of Licensed that speaks of key slots.
pub fn grants_stand_alone()
    ensures { (c : Configuration) (bytes : ByteMap) (es : List EntryValue)
        → AreLimited c → AllByRecursion (λ e. CanBeMade e.event) es → Follows c bytes es → AreAlone bytes es }
{}

/// In a history that follows the machine each grant is what its event asked for: a registration's, under the next low
/// byte of its slot and the key that it was answered; and that of a fast registration or of a bind which the
/// requester's turn performs, over the range that the request names, within its region and its rights. This is the
/// part of Licensed that speaks of what is granted.
pub fn grants_are_as_asked()
    ensures { (c : Configuration) (bytes : ByteMap) (es : List EntryValue)
        → AreLimited c
        → AllByRecursion (λ e. CanBeMade e.event) es → Follows c bytes es → AreAsAsked bytes es }
{}

/// In a history that follows the machine each key that ends is that of a grant in force: one that a verb ends, one
/// that a bind or a Local Invalidate of a requester's turn ends, and one that a SEND with Invalidate ends; and a
/// region whose key ends has no bound window. This is the part of Licensed that says that keys which end were in force.
pub fn keys_end_in_force()
    ensures { (c : Configuration) (bytes : ByteMap) (es : List EntryValue)
        → AreLimited c
        → AllByRecursion (λ e. CanBeMade e.event) es → Follows c bytes es → DoEndInForce bytes es }
{}

/// In a history that follows the machine, wherever a key comes into force or ends, the grant of each window that is
/// then in force lies in the grant in force of the region with the key that its bind named: within its range, its
/// rights and its bytes. This is the part of Licensed that speaks of windows and regions.
pub fn windows_lie_in_their_regions()
    ensures { (c : Configuration) (bytes : ByteMap) (es : List EntryValue)
        → AreLimited c
        → AllByRecursion (λ e. CanBeMade e.event) es → Follows c bytes es → DoWindowsLie bytes es }
{}

/// In a history that follows the machine each key that ends is that of a grant in force which its event ends: a
/// deregistration or a deallocation that of its slot; a bind that of its type 1 window; and a Local Invalidate, or the
/// last packet of a SEND with Invalidate that arrives, the key that it names, of its queue pair's domain, of a region
/// that was fast-registered and has no bound window, or of a type 2 window that is bound through its queue pair. This
/// is the part of Licensed that speaks of what ends a key.
pub fn keys_end_as_asked()
    ensures { (c : Configuration) (bytes : ByteMap) (es : List EntryValue)
        → AreLimited c
        → AllByRecursion (λ e. CanBeMade e.event) es → Follows c bytes es → DoEndAsAsked bytes es }
{}

/// Every history that follows the machine is licensed: each grant is what its event asked for, alone in its key slot;
/// each key that ends is that of a grant in force which its event ends; wherever a key comes into force or ends each
/// window lies in its region; and each success has its effect in the event that tells of it.
pub fn machine_is_licensed()
    ensures { (c : Configuration) (bytes : ByteMap) (es : List EntryValue)
        → AreLimited c
        → AllByRecursion (λ e. CanBeMade e.event) es → Follows c bytes es → Licensed bytes es }
{}
