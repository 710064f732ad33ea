//! How a part is taken and given back.
ghost use Rattle.std.specs.Prelude.{◌≡◌, ◌≢◌, ◌<◌, [], IfOk, OnErr, Some, None};
ghost use Rattle.ca_base.specs.declared.limits.TheConstants.{MAX_PASSES};
ghost use Rattle.ca_parts.specs.Lists.{Has};
ghost use Rattle.ca_parts.specs.Views.{with_part, with_refusal, without_part};
ghost use Rattle.ca_parts.specs.Calls.{MayTake, WasTaken};
ghost use Rattle.ca_parts.specs.Rows.{settings_of, part_count, view_of, IsPassOf};

use crate::machine::Machine;
use crate::parts::Parts;
use crate::pass::{Busy, PartPass, Turn1};
use crate::plays::{Asked, Fetch, Give, Shelve, Take};
use crate::words::place_of_word;
use std::marker::Brand;

// Takes the part for the event that the call picks.
fn take<T: Machine, K: Asked<T::Event>>(
    row: &Parts<T>,
    pass: &mut PartPass<T>,
    part: u32,
) -> Result<Turn1<T>, Busy>
    requires of { IsPassOf row.now pass.old }
    requires part { part < part_count row.now }
    requires may { (event : T.Event) × (K.event ≡ Some event)
        × MayTake T.needs (settings_of row.now) event part (view_of pass.old) }
    ensures of { IsPassOf row.now pass.new }
    ensures took { IfOk result (λ t. (t.part ≡ part) × ((event : T.Event) → K.event ≡ Some event
        → view_of pass.new ≡ with_part event part t.value (view_of pass.old))) }
    ensures refusal { OnErr result (view_of pass.new ≡ with_refusal part (view_of pass.old)) }
    ensures busy { OnErr result (WasTaken T.needs T.steps T.stands (settings_of row.now) part (view_of pass.old)) }
    ensures not_alone { OnErr result ((view_of pass.old).share ≢ MAX_PASSES) }
{
    let table = &row.table.shared;
    let word = place_of_word(part);
    let name = pass.number as u64 + 1;
    let found = table.compare_exchange::<Take<K>>(&mut pass.seat, word, 0, name);
    if found != 0 {
        return Err(Busy);
    }
    let slot = table.exchange(&mut pass.seat, part as usize, None);
    table.load::<Shelve>(&mut pass.seat, word);
    Ok(Turn1 {
        part,
        value: slot.unwrap(),
    })
}

impl<T: Machine> Parts<T> {
    /// Takes the part, with its value. The event for which it is taken is the `ghost` of this call: it is the one that
    /// the pass has taken for since its hand was empty. `Busy` comes only where this call read the part's word as
    /// taken. It waits for nobody and takes no memory.
    pub fn try_take(&self, pass: &mut PartPass<T>, part: u32) -> Result<Turn1<T>, Busy>
        ghost event: { T.Event }
        requires of { IsPassOf self.now pass.old }
        requires part { part < part_count self.now }
        requires may { MayTake T.needs (settings_of self.now) event part (view_of pass.old) }
        ensures of { IsPassOf self.now pass.new }
        ensures took { IfOk result (λ t. (t.part ≡ part)
            × (view_of pass.new ≡ with_part event part t.value (view_of pass.old))) }
        ensures refusal { OnErr result (view_of pass.new ≡ with_refusal part (view_of pass.old)) }
        ensures busy { OnErr result (WasTaken T.needs T.steps T.stands (settings_of self.now) part (view_of pass.old)) }
        ensures not_alone { OnErr result ((view_of pass.old).share ≢ MAX_PASSES) }
    {
        take::<T, Brand>(self, pass, part)
    }

    /// Gives the part back, with what it stands for now. It waits for nobody and takes no memory.
    pub fn give(&self, pass: &mut PartPass<T>, t: Turn1<T>)
        requires of { IsPassOf self.now pass.old }
        requires in_hand { Has (t.part, t.value) (view_of pass.old).hand }
        ensures of { IsPassOf self.now pass.new }
        ensures gave { view_of pass.new ≡ without_part t.part (view_of pass.old) }
    {
        let Turn1 { part, value } = t;
        let table = &self.table.shared;
        let word = place_of_word(part);
        table.load::<Fetch>(&mut pass.seat, word);
        let nothing = table.exchange(&mut pass.seat, part as usize, Some(value));
        let None = nothing else { unreachable!() };
        table.store::<Give>(&mut pass.seat, word, 0);
    }
}
