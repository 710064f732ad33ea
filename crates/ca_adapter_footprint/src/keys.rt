ghost use Rattle.std.specs.Prelude.{◌≡◌, Option};
ghost use Rattle.std.specs.Option.{option_map};
ghost use Rattle.ca_base.specs.Configuration.{configuration_in};
ghost use Rattle.ca_model.specs.machine.Parts.{ask_needs, asks_needs, bind_needs, ending_needs, region_needs, region_part, row_needs, window_needs};
ghost use Rattle.ca_model.specs.machine.Row.{Row};
ghost use Rattle.ca_responder.specs.ca_responder_operations.Sends.{key_end};
ghost use Rattle.ca_adapter_footprint.specs.Next.{next_of};

use crate::around::beside;
use crate::missing::missing;
use ca_adapter_parts::Held;
use ca_base::{Ask, DomainId, Key, Settings, Slot, slot_of_key};
use ca_model::PartName;
use ca_qpstate::QueuePart;

/// A region, and its buffer.
#[tactic(auto, using(crate::proofs::HasLemmas::holds, crate::proofs::AlsoLemmas::region_next))]
pub(crate) fn region(held: &Held, slot: Slot) -> Option<PartName>
    ensures { result ≡ next_of held.now (region_needs slot) }
{
    let name = PartName::Region(slot);
    if !held.has(&name) {
        return Some(name);
    }
    match held.region(slot).buffer() {
        Some((adapter, index)) => missing(held, PartName::Buffer { adapter, index }),
        None => None,
    }
}

/// A window, and the region of its binding with its buffer.
#[tactic(auto, using(crate::proofs::HasLemmas::holds))]
fn window(held: &Held, slot: Slot) -> Option<PartName>
    ensures { result ≡ next_of held.now (window_needs region_needs slot) }
{
    let name = PartName::Window(slot);
    if !held.has(&name) {
        return Some(name);
    }
    let window = held.window(slot);
    let home = window.slot().domain;
    match window.region() {
        Some(slot) => region(held, Slot { domain: home, slot }),
        None => None,
    }
}

/// A window, and the region of its binding alone.
#[tactic(auto, using(crate::proofs::HasLemmas::holds))]
pub(crate) fn bound_window(held: &Held, slot: Slot) -> Option<PartName>
    ensures { result ≡ next_of held.now (window_needs region_part slot) }
{
    let name = PartName::Window(slot);
    if !held.has(&name) {
        return Some(name);
    }
    let window = held.window(slot);
    let home = window.slot().domain;
    match window.region() {
        Some(slot) => missing(held, PartName::Region(Slot { domain: home, slot })),
        None => None,
    }
}

/// What the key of an access names, with its buffer: a region, or a window where it is no L_Key.
fn ask(settings: &Settings, held: &Held, ask: &Ask) -> Option<PartName>
    ensures { result ≡ next_of held.now (ask_needs (configuration_in settings.now) ask.now) }
{
    let slot = slot_of_key(ask.domain, ask.key);
    if settings.names_region(ask.domain, ask.key) {
        return region(held, slot);
    }
    if ask.local {
        return None;
    }
    if settings.names_window(ask.domain, ask.key) {
        return window(held, slot);
    }
    None
}

/// What the keys of accesses name, in order.
#[tactic(auto, using(crate::proofs::AlsoLemmas::also_this, crate::proofs::AlsoLemmas::also_none))]
pub(crate) fn asks(settings: &Settings, held: &Held, list: &[Ask]) -> Option<PartName>
    ensures { result ≡ next_of held.now (asks_needs (configuration_in settings.now) list.now) }
{
    match list.split_first() {
        None => None,
        Some((first, rest)) => match ask(settings, held, first) {
            Some(name) => Some(name),
            None => asks(settings, held, rest),
        },
    }
}

/// What a key names that ends, without a buffer.
pub(crate) fn ending(
    settings: &Settings,
    held: &Held,
    domain: DomainId,
    key: Key,
) -> Option<PartName>
    ensures { result ≡ next_of held.now (ending_needs (configuration_in settings.now) domain key) }
{
    let slot = slot_of_key(domain, key);
    if settings.names_region(domain, key) {
        return missing(held, PartName::Region(slot));
    }
    if settings.names_window(domain, key) {
        return bound_window(held, slot);
    }
    None
}

/// A bind: its window with the region of its present binding, and the region that it names.
#[tactic(auto, using(crate::proofs::AlsoLemmas::also_some, crate::proofs::AlsoLemmas::also_none))]
pub(crate) fn bind(
    settings: &Settings,
    held: &Held,
    q: &QueuePart,
    window: u16,
    key: Key,
) -> Option<PartName>
    ensures { result ≡ next_of held.now (bind_needs (configuration_in settings.now) q.now window key) }
{
    if let Some(name) = bound_window(held, beside(q, window)) {
        return Some(name);
    }
    if settings.names_region(q.domain, key) {
        missing(held, PartName::Region(slot_of_key(q.domain, key)))
    } else {
        None
    }
}

/// What a row asks for, and the key of the queue pair's domain that it ends.
#[tactic(auto, using(crate::proofs::AlsoLemmas::row_some, crate::proofs::AlsoLemmas::row_none))]
pub(crate) fn row(
    settings: &Settings,
    held: &Held,
    q: &QueuePart,
    list: &[Ask],
    key: Option<Key>,
) -> Option<PartName>
    ensures { (row : Row) → list.now ≡ row.asks → option_map (key_end q.now) key ≡ row.invalidation
        → result ≡ next_of held.now (row_needs (configuration_in settings.now) row) }
{
    if let Some(name) = asks(settings, held, list) {
        return Some(name);
    }
    match key {
        Some(key) => ending(settings, held, q.domain, key),
        None => None,
    }
}
