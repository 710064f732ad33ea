ghost use Rattle.std.specs.List.{AllByRecursion};
ghost use Rattle.std.specs.Prelude.{◌≡◌, Bool, List, false, true};
ghost use Rattle.ca_law_endings.specs.Agreement.{HoldsAlong};
ghost use Rattle.ca_base.specs.Configuration.{Configuration};
ghost use Rattle.ca_isolation.specs.Groups.{Group, is_closed, is_of};
ghost use Rattle.ca_keys.specs.Memory.{ByteMap};
ghost use Rattle.ca_keys.specs.declared.place.Place.{Place};
ghost use Rattle.ca_law_isolation.specs.Domains.{AcceptsWithin, AreBoundBeside, IsEventOf, IsGrantedThing, IsGrantedTo, IsThingOf, LooksWithin, StaysWithin, is_seen_by, is_thing_of};
ghost use Rattle.ca_model.specs.Entries.{EntryValue};
ghost use Rattle.ca_model.specs.Past.{opening_past};
ghost use Rattle.ca_model.specs.declared.event.Event.{Event};
ghost use Rattle.ca_model.specs.machine.Frame.{Afterwards, SameOutcomeWhere, SameWhere};
ghost use Rattle.ca_model.specs.machine.Plan.{touches};
ghost use Rattle.ca_model.specs.machine.Run.{Follows};
ghost use Rattle.ca_model.specs.machine.Sound.{AreLimited, CanBeMade, IsSoundWorld};
ghost use Rattle.ca_model.specs.machine.Step.{plan, step};
ghost use Rattle.ca_model.specs.machine.World.{Name, World, get, opening_world};

/// In the world before the first event no window is bound, and so none through a queue pair of another domain.
pub fn opening_world_binds_beside()
    ensures { (byte : ByteMap) → AreBoundBeside (opening_world byte) }
{}

/// Every event leaves each window bound through a queue pair of its own domain, if it is of type 2 and bound.
pub fn event_keeps_windows_beside()
    ensures { (c : Configuration) (event : Event) (w : World) → IsSoundWorld c w → AreBoundBeside w
        → Afterwards AreBoundBeside (step c w event) }
{}

/// An event of a group of domains, or of nobody, touches things of the group and bytes alone, where the peer at which
/// its turn looks is of the group too.
pub fn event_touches_its_domain()
    ensures { (c : Configuration) (w : World) (event : Event) (group : Group) → AreLimited c → IsSoundWorld c w
        → AreBoundBeside w → IsEventOf group event → LooksWithin group w event
        → AllByRecursion (IsThingOf group) (touches w (plan c event)) }
{}

/// An event that is not of a group leaves the things of the group as they were, also where its turn looks at a queue
/// pair of the group, if no mailbox of the group accepts a queue pair of others. Of bytes nothing is said.
pub fn others_leave_things_as_they_were()
    ensures { (c : Configuration) (w : World) (event : Event) (group : Group) → AreLimited c → IsSoundWorld c w
        → AreBoundBeside w → AcceptsWithin group w → is_of group event ≡ false
        → Afterwards (λ v. (n : Name) → is_thing_of group n ≡ true → get v n ≡ get w n) (step c w event) }
{}

/// Along a history that follows the machine, and in which a group is closed, no queue pair of the group has a peer
/// outside it, and no mailbox of the group accepts one, at the beginning and after each entry.
pub fn closed_groups_stay_within()
    ensures { (c : Configuration) (bytes : ByteMap) (es : List EntryValue) (group : Group) → AreLimited c
        → AllByRecursion (λ e. CanBeMade e.event) es → Follows c bytes es → is_closed group es ≡ true
        → HoldsAlong (λ past w. StaysWithin group w) c (opening_past bytes) (opening_world bytes) es }
{}

/// The bytes that an event of a group touches are those of what valid regions of the group grant.
pub fn event_touches_granted_bytes()
    ensures { (c : Configuration) (w : World) (event : Event) (group : Group) → IsSoundWorld c w
        → is_of group event ≡ true → AllByRecursion (IsGrantedThing group w) (touches w (plan c event)) }
{}

/// An event of a group, whose turn looks at a peer of the group alone, does the same in two worlds that have the same
/// things of the group and the same covered bytes, if what valid regions of the group grant is covered: it is
/// possible in both or in neither, for one reason or with the same marks, and leaves the same there.
pub fn group_events_depend_on_the_group()
    ensures { (c : Configuration) (v w : World) (event : Event) (group : Group) (cover : Place → Bool) → AreLimited c
        → IsSoundWorld c v → AreBoundBeside v → is_of group event ≡ true → LooksWithin group v event
        → ((p : Place) → IsGrantedTo group v p → cover p ≡ true) → SameWhere (is_seen_by group cover) v w
        → SameOutcomeWhere (is_seen_by group cover) (step c v event) (step c w event) }
{}
