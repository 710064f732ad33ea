//! The row of parts: how it starts and how it is closed.
ghost use Rattle.std.specs.Prelude.{◌≡◌, ℕ, ◌+◌, ◌^◌, ◌<◌, ◌≤◌, false, map, length, vec_capacity, slice_index_or, IfOk, Some};
ghost use Rattle.std.specs.Mem.Slots.{slots_items, slots_filled, slots_len, IsFull};
ghost use mathlib.Core.Option.{some};
ghost use lib.ListN.{get_elem?};
ghost use Rattle.ca_parts.specs.Facts.{word_count};

use crate::facts::Facts;
use crate::machine::Machine;
use crate::pass::PartPass;
use crate::view::View;
use crate::words::WORDS_APART;
use atomic_table::{Closed, Table};
use ca_base::Memory;
use ca_base::limits::MAX_PASSES;
use std::alloc::{AllocError, Global};

/// A row of values, each behind a word of its own, and one clock word. Threads share it by `&`.
#[derive(Drop)]
pub struct Parts<T: Machine> {
    pub(crate) table: Table<
        Option<T>,
        View<T::Settings, T::Event, T::Entry, T>,
        T::Settings,
        Facts<T>,
        Global,
    >,
    pub(crate) settings: T::Settings,
    pub(crate) room: Vec<T>,
    ghost words_are: { table.shared.table_id.words ≡ word_count table.shared.table_id.slots },
    ghost few: { table.shared.table_id.slots < 2 ^ 32 },
    ghost room_is: { (length room.items ≡ 0) × (table.shared.table_id.slots ≤ vec_capacity room) },
}

impl<T: Machine> Parts<T> {
    ghost use Rattle.std.specs.Prelude.{◌≡◌, ℕ, [], ◌<◌, ◌^◌, ◌↔◌, length, IsErr, IfOk, IfErr, Some, slice_get};
    ghost use Rattle.ca_base.specs.declared.limits.TheConstants.{MAX_PASSES};
    ghost use Rattle.ca_parts.specs.Views.{first_view};
    ghost use Rattle.ca_parts.specs.Calls.{IsWhole};
    ghost use Rattle.ca_parts.specs.Rows.{settings_of, part_count, view_of, IsPassOf};

    /// The settings that the row was started with.
    pub fn settings(&self) -> &T::Settings
        ensures { result.now ≡ settings_of self.now }
    {
        &self.settings
    }

    /// A row of these values, which are what the machine's parts stand for after no entries, and the first pass.
    pub fn start(
        alloc: Global,
        settings: T::Settings,
        values: Vec<T>,
    ) -> Result<(Parts<T>, PartPass<T>), Memory>
        requires few { length values.items + 1 < 2 ^ 32 }
        requires open { (k : ℕ) (x : T) → slice_get values.items k ≡ Some x → T.stands settings [] k x }
        ensures row { IfOk result (λ r. (settings_of r.0 ≡ settings)
            × (part_count r.0 ≡ length values.items)) }
        ensures pass { IfOk result (λ r. IsPassOf r.0 r.1 × (view_of r.1 ≡ first_view settings)) }
    {
        let count = values.len();
        let words = Vec::from_elem(alloc, 0u64, WORDS_APART * (count + 1))?;
        let (room, slots) = slots_of(alloc, values)?;
        let Ok((table, seat)) = Table::new(alloc, words.as_slice(), slots, &settings) else {
            return Err(Memory);
        };
        let pass = PartPass {
            seat,
            number: 0,
            count: MAX_PASSES,
            share: MAX_PASSES,
        };
        Ok((
            Parts {
                table,
                settings,
                room,
            },
            pass,
        ))
    }

    /// Ends the row: the values, in the vector that `start` was handed, and how many entries there were. `Err` gives
    /// both back as they were, and comes exactly where the share of the pass is below 2^32: another pass is out, or
    /// was dropped. It waits for nobody and takes no memory.
    pub fn close(self, pass: PartPass<T>) -> Result<(Vec<T>, u64), (Parts<T>, PartPass<T>)>
        requires of { IsPassOf self pass }
        requires no_part { (view_of pass).hand ≡ [] }
        ensures out { IsErr result ↔ ((view_of pass).share < MAX_PASSES) }
        ensures count { IfOk result (λ r. length r.0.items ≡ part_count self) }
        ensures whole { IfOk result
            (λ r. IsWhole T.needs T.steps T.stands (settings_of self) r.1 r.0.items (view_of pass)) }
        ensures same { IfErr result (λ r. (r.0 ≡ self) × (r.1 ≡ pass)) }
    {
        if !pass.is_alone() {
            return Err((self, pass));
        }
        let PartPass {
            seat,
            number: _,
            count: _,
            share: _,
        } = pass;
        let Parts {
            table,
            settings: _,
            room: mut values,
        } = self;
        let mut closed = table.close_with(seat);
        take_values(&mut closed, &mut values);
        let clock = closed.word(0);
        closed.free();
        Ok((values, clock))
    }
}

// Takes the value of each slot, in order. Each slot has one.
fn take_values<T>(closed: &mut Closed<Option<T>, Global>, values: &mut Vec<T>)
    requires full { IsFull closed.old.slots }
    requires home { (k : ℕ) → k < length (slots_items closed.old.slots) → (x : T)
        × (get_elem? (slots_items closed.old.slots) k ≡ some (Some x)) }
    requires room { (length values.old.items ≡ 0)
        × (length (slots_items closed.old.slots) ≤ vec_capacity values.old) }
    ensures values { map Some values.new.items ≡ slots_items closed.old.slots }
    ensures words { closed.new.words ≡ closed.old.words }
    ensures empty { (k : ℕ) → k < slots_len closed.new.slots
        → slice_index_or (slots_filled closed.new.slots) k false ≡ false }
{
    for k in 0..closed.slot_count() {
        values.push_reserved(closed.take(k).unwrap());
    }
}

// The slots of the values, in order, and the emptied vector.
fn slots_of<T: Drop>(
    alloc: Global,
    mut values: Vec<T>,
) -> Result<(Vec<T>, Vec<Option<T>>), AllocError>
    ensures slots { IfOk result (λ r. r.1.items ≡ map Some values.items) }
    ensures room { IfOk result (λ r. (length r.0.items ≡ 0) × (length values.items ≤ vec_capacity r.0)) }
{
    let mut slots = Vec::with_capacity(alloc, values.len())?;
    while let Some(x) = values.pop() {
        slots.push_reserved(Some(x));
    }
    slots.reverse();
    Ok((values, slots))
}
