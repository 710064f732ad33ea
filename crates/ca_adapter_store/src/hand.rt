ghost use Rattle.std.specs.Prelude.{◌≡◌, ◌+◌, ◌<◌, ◌≤◌, suc, true, false, [], None, Some, if◌then◌else◌, is_some, length};
ghost use Rattle.std.specs.Vec.{vec_capacity};
ghost use Rattle.ca_base.specs.Configuration.{configuration_in};
ghost use Rattle.ca_adapter_parts.specs.HeldView.{holding, room_for};
ghost use Rattle.ca_model.specs.declared.part_name.PartName.{PartName};
ghost use Rattle.ca_model.specs.machine.Parts as machine;
ghost use Rattle.ca_model.specs.machine.World.{World};
ghost use Rattle.ca_model.specs.machine.Sound.{AreLimited};
ghost use Rattle.ca_model_places.specs.Places.{place_of};
ghost use Rattle.ca_adapter_store.specs.Hand.{AreApart, AreAtPlaces, HasPlaces, IsGiven, IsInHand, IsOfKind, IsOfWorld, IsTaken, names_of};
ghost use Rattle.ca_adapter_store.specs.Rest.{LeavesRest};
ghost use Rattle.ca_adapter_store.specs.Rows.{AreTogether, IsEmpty, IsMade, part_at};
ghost use Rattle.ca_adapter_store.specs.declared.hand.TheConstants.{MOST_GUESSED, MOST_TAKEN};
ghost use Rattle.ca_model.specs.machine.Step.{step};

use crate::likely::{buffer_of, first_names, next_names};
use ca_adapter::{act, next_part};
use ca_adapter_parts::{ControlPart, Held, Part};
use ca_base::limits::MAX_HELD_PARTS;
use ca_base::{ActError, Settings};
use ca_model::{Event, Marks, PartName};
use ca_model_places::place;
use std::alloc::Global;

/// What stands at the place of a part that is in hand.
const BLANK: Part = Part::Control(ControlPart {
    allocated: false,
    objects: 0,
});

/// At most so many parts are taken in hand because an event most likely needs them.
const MOST_GUESSED: u8 = 16;

/// At most so many parts are in hand: those, and all that an event needs.
pub(crate) const MOST_TAKEN: u8 = MOST_GUESSED + MAX_HELD_PARTS;

/// A part in hand: its name, and its place in the row.
#[derive(Clone, Copy)]
pub struct Taken {
    pub name: PartName,
    pub at: u32,
}

/// Acts an event: its parts are taken in hand, and given back to their places.
pub(crate) fn act_in_hand(
    alloc: Global,
    settings: &Settings,
    event: &Event,
    parts: &mut Vec<Part>,
    held: &mut Held,
    taken: &mut Vec<Taken>,
) -> Result<Marks, ActError>
    requires world { IsOfWorld (configuration_in settings.now) parts.old.items held.old }
    requires empty { IsEmpty (holding held.old) }
    requires none { taken.old.items ≡ [] }
    requires room { (p : PartName) → MOST_TAKEN ≤ room_for held.old p }
    requires names { MOST_TAKEN ≤ vec_capacity taken.old }
    ensures step { (w : World) → AreTogether (configuration_in settings.now) w parts.old.items (holding held.old)
        → IsMade result (step (configuration_in settings.now) w event.now) w
        (λ v. AreTogether (configuration_in settings.now) v parts.new.items (holding held.new)) }
    ensures rest { (w : World) → AreTogether (configuration_in settings.now) w parts.old.items (holding held.old)
        → LeavesRest result (step (configuration_in settings.now) w event.now) w (names_of taken.new.items) }
    ensures empty { IsEmpty (holding held.new) }
{
    gather(settings, event, parts, held, taken);
    let result = act(alloc, settings, event, held);
    give_back(settings, parts, held, taken.as_slice());
    result
}

/// Takes in hand what an event needs: first what it most likely needs, then part after part is named and taken from its
/// place, until none is missing. It adds their names and places.
pub(crate) fn gather(
    settings: &Settings,
    event: &Event,
    parts: &mut Vec<Part>,
    held: &mut Held,
    taken: &mut Vec<Taken>,
)
    requires world { IsOfWorld (configuration_in settings.now) parts.old.items held.old }
    requires empty { IsEmpty (holding held.old) }
    requires none { taken.old.items ≡ [] }
    requires room { (p : PartName) → MOST_TAKEN ≤ room_for held.old p }
    requires names { MOST_TAKEN ≤ vec_capacity taken.old }
    ensures together { (w : World) → AreTogether (configuration_in settings.now) w parts.old.items (holding held.old)
        → AreTogether (configuration_in settings.now) w parts.new.items (holding held.new) }
    ensures next { machine.next_part (holding held.new).parts (holding held.new).world
        (machine.event_needs (configuration_in settings.now) event.now) ≡ None }
    ensures hand { IsInHand (configuration_in settings.now) parts.new.items held.new taken.new }
{
    take_likely(settings, event, parts, held, taken);
    for _ in 0..MAX_HELD_PARTS {
        let Some(name) = next_part(settings, event, held) else {
            return;
        };
        take_named(settings, parts, held, taken, name);
    }
}

/// Takes in hand what an event most likely needs, so that fewer parts are named one after another. Which these are makes
/// no difference but in time.
fn take_likely(
    settings: &Settings,
    event: &Event,
    parts: &mut Vec<Part>,
    held: &mut Held,
    taken: &mut Vec<Taken>,
)
    requires hand { IsInHand (configuration_in settings.now) parts.old.items held.old taken.old }
    requires few { length taken.old.items ≤ MOST_GUESSED }
    ensures hand { IsInHand (configuration_in settings.now) parts.new.items held.new taken.new }
    ensures few { length taken.new.items ≤ MOST_GUESSED }
    ensures together { (w : World) → AreTogether (configuration_in settings.now) w parts.old.items (holding held.old)
        → AreTogether (configuration_in settings.now) w parts.new.items (holding held.new) }
{
    take_all(settings, parts, held, taken, &first_names(event));
    let next = next_names(held, event);
    take_all(settings, parts, held, taken, &next);
    take_all(settings, parts, held, taken, &[buffer_of(held, &next)]);
}

/// Takes in hand the parts of these names, as far as they are configured and not in hand.
fn take_all(
    settings: &Settings,
    parts: &mut Vec<Part>,
    held: &mut Held,
    taken: &mut Vec<Taken>,
    names: &[Option<PartName>],
)
    requires hand { IsInHand (configuration_in settings.now) parts.old.items held.old taken.old }
    requires few { length taken.old.items ≤ MOST_GUESSED }
    ensures hand { IsInHand (configuration_in settings.now) parts.new.items held.new taken.new }
    ensures few { length taken.new.items ≤ MOST_GUESSED }
    ensures together { (w : World) → AreTogether (configuration_in settings.now) w parts.old.items (holding held.old)
        → AreTogether (configuration_in settings.now) w parts.new.items (holding held.new) }
{
    for name in names {
        take_if_there(settings, parts, held, taken, *name);
    }
}

/// Takes in hand the part of a name, if it is configured and not in hand.
fn take_if_there(
    settings: &Settings,
    parts: &mut Vec<Part>,
    held: &mut Held,
    taken: &mut Vec<Taken>,
    name: Option<PartName>,
)
    requires hand { IsInHand (configuration_in settings.now) parts.old.items held.old taken.old }
    requires few { length taken.old.items ≤ MOST_GUESSED }
    ensures hand { IsInHand (configuration_in settings.now) parts.new.items held.new taken.new }
    ensures few { length taken.new.items ≤ MOST_GUESSED }
    ensures together { (w : World) → AreTogether (configuration_in settings.now) w parts.old.items (holding held.old)
        → AreTogether (configuration_in settings.now) w parts.new.items (holding held.new) }
{
    let Some(name) = name else {
        return;
    };
    if taken.len() >= usize::from(MOST_GUESSED) || held.has(&name) {
        return;
    }
    if let Some(at) = place(settings, &name) {
        take(settings, parts, held, taken, Taken { name, at });
    }
}

/// Takes in hand the part of a name that is configured.
fn take_named(
    settings: &Settings,
    parts: &mut Vec<Part>,
    held: &mut Held,
    taken: &mut Vec<Taken>,
    name: PartName,
)
    requires hand { IsInHand (configuration_in settings.now) parts.old.items held.old taken.old }
    requires configured { machine.is_configured_part (configuration_in settings.now) name ≡ true }
    requires free { (holding held.old).parts name ≡ false }
    requires few { length taken.old.items < MOST_TAKEN }
    ensures hand { IsInHand (configuration_in settings.now) parts.new.items held.new taken.new }
    ensures together { (w : World) → AreTogether (configuration_in settings.now) w parts.old.items (holding held.old)
        → AreTogether (configuration_in settings.now) w parts.new.items (holding held.new) }
    ensures names { (p : PartName) → (holding held.new).parts p
        ≡ (if machine.part_eq name p then true else (holding held.old).parts p) }
    ensures count { length taken.new.items ≡ suc (length taken.old.items) }
{
    let Some(at) = place(settings, &name) else {
        unreachable!()
    };
    take(settings, parts, held, taken, Taken { name, at });
}

/// Takes a part from its place in hand, and adds its name and place.
fn take(
    settings: &Settings,
    parts: &mut Vec<Part>,
    held: &mut Held,
    taken: &mut Vec<Taken>,
    one: Taken,
)
    requires hand { IsInHand (configuration_in settings.now) parts.old.items held.old taken.old }
    requires place { place_of (configuration_in settings.now) one.name ≡ Some one.at }
    requires free { (holding held.old).parts one.name ≡ false }
    requires few { length taken.old.items < MOST_TAKEN }
    ensures hand { IsInHand (configuration_in settings.now) parts.new.items held.new taken.new }
    ensures together { (w : World) → AreTogether (configuration_in settings.now) w parts.old.items (holding held.old)
        → AreTogether (configuration_in settings.now) w parts.new.items (holding held.new) }
    ensures names { (p : PartName) → (holding held.new).parts p
        ≡ (if machine.part_eq one.name p then true else (holding held.old).parts p) }
    ensures count { length taken.new.items ≡ suc (length taken.old.items) }
{
    take_up(settings, parts, held, one);
    taken.push(one).unwrap();
}

/// Takes a part from its place in hand.
fn take_up(_settings: &Settings, parts: &mut Vec<Part>, held: &mut Held, one: Taken)
    requires limits { AreLimited (configuration_in _settings.now) }
    requires place { place_of (configuration_in _settings.now) one.name ≡ Some one.at }
    requires there { IsOfKind one.name (part_at (configuration_in _settings.now) parts.old.items one.name) }
    requires free { (holding held.old).parts one.name ≡ false }
    requires room { 0 < room_for held.old one.name }
    ensures { IsTaken (configuration_in _settings.now) one.name parts.old.items parts.new.items held.old held.new }
{
    let part = std::mem::replace(&mut parts[one.at as usize], BLANK);
    held.add(one.name, part);
}

/// Gives these parts back to their places.
pub(crate) fn give_back(
    settings: &Settings,
    parts: &mut Vec<Part>,
    held: &mut Held,
    taken: &[Taken],
)
    requires limits { AreLimited (configuration_in settings.now) }
    requires names { (p : PartName) → (holding held.old).parts p ≡ machine.is_held (names_of taken.now) p }
    requires apart { AreApart (names_of taken.now) }
    requires at_places { AreAtPlaces (configuration_in settings.now) taken.now }
    requires configured { (p : PartName) → machine.is_held (names_of taken.now) p ≡ true
        → machine.is_configured_part (configuration_in settings.now) p ≡ true }
    requires places { HasPlaces (configuration_in settings.now) parts.old.items }
    ensures together { (w : World) → AreTogether (configuration_in settings.now) w parts.old.items (holding held.old)
        → AreTogether (configuration_in settings.now) w parts.new.items (holding held.new) }
    ensures empty { IsEmpty (holding held.new) }
{
    for one in taken {
        give(settings, parts, held, *one);
    }
}

/// Gives a part that is in hand back to its place.
fn give(_settings: &Settings, parts: &mut Vec<Part>, held: &mut Held, one: Taken)
    requires limits { AreLimited (configuration_in _settings.now) }
    requires at_place { place_of (configuration_in _settings.now) one.name ≡ Some one.at }
    requires place { is_some (part_at (configuration_in _settings.now) parts.old.items one.name) ≡ true }
    requires held { (holding held.old).parts one.name ≡ true }
    ensures { IsGiven (configuration_in _settings.now) one.name parts.old.items parts.new.items held.old held.new }
{
    let Some(part) = held.remove(one.name) else {
        unreachable!()
    };
    parts[one.at as usize] = part;
}
