ghost use Rattle.std.specs.List.{AllByRecursion};
ghost use Rattle.std.specs.Prelude.{◌≡◌, None, IfOk, OnOk, map};
ghost use Rattle.ca_isolation.specs.Alone.{alone_events, store_event, stretches_of_marks};
ghost use Rattle.ca_isolation.specs.Groups.{group_of};
ghost use Rattle.ca_keys.specs.Memory.{ByteMap};
ghost use Rattle.ca_isolation.specs.Cover.{AreInReach, EndsInReach, covers};
ghost use Rattle.ca_isolation.specs.InForce.{AreInForce};
ghost use Rattle.ca_isolation.specs.Putting.{HasFollowed, events_instead};
ghost use Rattle.ca_model.specs.Entries.{entry_of};
ghost use Rattle.ca_model.specs.Past.{Past, after_entry, after_marks};

use crate::cover::cover_of;
use crate::in_force::follow_mark;
use crate::is_own;
use crate::stores::Stores;
use ca_base::{DomainId, Grant, Memory, Run};
use ca_model::{Entry, Event, History, Mark};
use std::alloc::Global;

/// The events of the group's lone run: its own events, and in the place of each write of another event a Store by
/// consumer 0 for each longest run of bytes of that write which the group's grants ever cover, in order. They are those of
/// the definition where each run that the history grants ends among the 2^32 bytes that places can name.
pub fn alone(alloc: Global, group: &[DomainId], h: &History) -> Result<Vec<Event>, Memory>
    ensures { IfOk result (λ events. AreInReach h.now
        → (bytes : ByteMap) → events.items ≡ alone_events (group_of group.now) bytes h.now) }
{
    let cover = cover_of(alloc, group, h)?;
    let mut in_force = Vec::new(alloc);
    let mut stores = Stores::none(alloc);
    let entries = h.as_slice();
    for entry in entries {
        add_entry(
            alloc,
            group,
            cover.as_slice(),
            entry,
            &mut in_force,
            &mut stores,
        )?;
    }
    Ok(stores.events)
}

/// Adds what stands in the place of an entry.
fn add_entry(
    alloc: Global,
    group: &[DomainId],
    cover: &[Run],
    entry: &Entry,
    in_force: &mut Vec<Grant>,
    stores: &mut Stores,
) -> Result<(), Memory>
    requires reach { AllByRecursion EndsInReach cover.now }
    requires front { stores.old.front ≡ None }
    ensures { OnOk result ((past : Past) → AreInForce in_force.old.items past
        → HasFollowed (events_instead (group_of group.now) (covers cover.now) past (entry_of entry.now))
        (after_entry (entry_of entry.now) past) stores.old stores.new in_force.new.items) }
{
    if is_own(group, &entry.event) {
        stores.events.push(entry.event.clone()?)?;
        follow_marks(entry.marks.as_slice(), in_force)
    } else {
        add_stores(alloc, cover, entry.marks.as_slice(), in_force, stores)
    }
}

/// The grants in force behind marks.
fn follow_marks(marks: &[Mark], in_force: &mut Vec<Grant>) -> Result<(), Memory>
    ensures { OnOk result ((past : Past) → AreInForce in_force.old.items past
        → AreInForce in_force.new.items (after_marks marks.now past)) }
{
    for mark in marks {
        follow_mark(mark, in_force)?;
    }
    Ok(())
}

/// Adds the Stores in the place of what marks tell of as written.
fn add_stores(
    alloc: Global,
    cover: &[Run],
    marks: &[Mark],
    in_force: &mut Vec<Grant>,
    stores: &mut Stores,
) -> Result<(), Memory>
    requires reach { AllByRecursion EndsInReach cover.now }
    requires front { stores.old.front ≡ None }
    ensures { OnOk result ((past : Past) → AreInForce in_force.old.items past
        → HasFollowed (map store_event (stretches_of_marks (covers cover.now) past marks.now))
        (after_marks marks.now past) stores.old stores.new in_force.new.items) }
{
    for mark in marks {
        stores.put_mark(alloc, cover, in_force.as_slice(), mark)?;
        follow_mark(mark, in_force)?;
    }
    Ok(())
}
