ghost use Rattle.std.specs.Prelude.{◌≡◌, ◌<◌, ◌≤◌, ℕ, [], None, Some, is_some, true, length, map, replicate, set, slice_get, vec_capacity, IfOk};
ghost use Rattle.std.specs.List.{AllByRecursion};
ghost use Rattle.ca_model.specs.declared.entry.Entry as model;
ghost use Rattle.ca_model.specs.machine.Sound.{CanBeMade};
ghost use Rattle.ca_parts.specs.Lists.{Has, times};
ghost use Rattle.ca_verbs.specs.Closing.{IsFilled, stamps_of};

use ca_base::Memory;
use ca_model::Entry;
use ca_verbs_taking::ca_adapter::lists_fit;
use std::alloc::Global;

/// So many places, all empty, and room for as many entries.
pub(crate) fn places(
    alloc: Global,
    count: usize,
) -> Result<(Vec<Option<Entry>>, Vec<Entry>), Memory>
    ensures places { IfOk result (λ r. r.0.items ≡ replicate count None) }
    ensures room { IfOk result (λ r. (r.1.items ≡ []) × (count ≤ vec_capacity r.1)) }
{
    let mut slots = Vec::with_capacity(alloc, count)?;
    for _ in 0..count {
        slots.push_reserved(None);
    }
    let out = Vec::with_capacity(alloc, count)?;
    Ok((slots, out))
}

/// Puts an entry to the place of its stamp.
fn put(slots: &mut Vec<Option<Entry>>, entry: Entry)
    requires { entry.stamp < length slots.old.items }
    ensures { slots.new.items ≡ set slots.old.items entry.stamp (Some entry) }
{
    let at = entry.stamp as usize;
    slots[at] = Some(entry);
}

/// Puts each entry to the place of its stamp.
pub(crate) fn place_all(entries: &mut Vec<Entry>, slots: &mut Vec<Option<Entry>>)
    requires fits { (e : model.Entry) → Has e entries.old.items → e.stamp < length slots.old.items }
    requires none { (m : ℕ) (e : model.Entry) → slice_get slots.old.items m ≡ Some (Some e) → ⊥ }
    ensures count { length slots.new.items ≡ length slots.old.items }
    ensures right { (m : ℕ) (e : model.Entry) → slice_get slots.new.items m ≡ Some (Some e)
        → (e.stamp ≡ m) × Has e entries.old.items }
    ensures filled { (m : ℕ) → 0 < times m (stamps_of entries.old.items) → IsFilled slots.new.items m }
{
    while let Some(entry) = entries.pop() {
        put(slots, entry);
    }
}

/// The entries of places all of which are filled, in order.
pub(crate) fn collect(mut slots: Vec<Option<Entry>>, out: &mut Vec<Entry>)
    requires filled { AllByRecursion (λ o. is_some o ≡ true) slots.items }
    requires room { (out.old.items ≡ []) × (length slots.items ≤ vec_capacity out.old) }
    ensures { map Some out.new.items ≡ slots.items }
{
    while let Some(slot) = slots.pop() {
        let Some(entry) = slot else { unreachable!() };
        out.push_reserved(entry);
    }
    out.reverse();
}

/// Says of each entry that its event can be made. It does nothing.
pub(crate) fn all_fit(entries: &[Entry])
    ensures { AllByRecursion (λ e. CanBeMade e.event) entries.now }
{
    for entry in entries {
        lists_fit(&entry.event);
    }
}
