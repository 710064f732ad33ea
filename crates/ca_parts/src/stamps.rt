//! How the clock is read, and how an entry gets its stamp.
ghost use Rattle.std.specs.Prelude.{◌≡◌, ℕ, List, Some};
ghost use Rattle.ca_parts.specs.Views.{with_look, with_entry};
ghost use Rattle.ca_parts.specs.Calls.{MayStamp, IsMoment, Sees};
ghost use Rattle.ca_parts.specs.Rows.{settings_of, view_of, IsPassOf};

use crate::machine::Machine;
use crate::parts::Parts;
use crate::pass::PartPass;
use crate::plays::{Look, Plan, Stamp};
use std::marker::Brand;

// Adds the entry that the call picks.
fn add<T: Machine, K: Plan<T::Entry, T>>(row: &Parts<T>, pass: &mut PartPass<T>) -> u64
    requires of { IsPassOf row.now pass.old }
    requires may { (entry : T.Entry) × (news : List (ℕ × T)) × (K.plan ≡ Some (entry, news))
        × MayStamp T.records T.needs T.steps T.stands (settings_of row.now) entry news (view_of pass.old) }
    ensures of { IsPassOf row.now pass.new }
    ensures added { (entry : T.Entry) (news : List (ℕ × T)) → K.plan ≡ Some (entry, news)
        → view_of pass.new ≡ with_entry entry news result (view_of pass.old) }
    ensures moment { IsMoment T.needs T.steps T.stands (settings_of row.now) result (view_of pass.old) }
{
    row.table.shared.fetch_add::<Stamp<K>>(&mut pass.seat, 0, 1)
}

impl<T: Machine> Parts<T> {
    /// Reads the clock: how many entries there are at that moment. The pass notes what the parts in its hand stood
    /// for then. It waits for nobody and takes no memory.
    pub fn look(&self, pass: &mut PartPass<T>) -> u64
        requires of { IsPassOf self.now pass.old }
        ensures of { IsPassOf self.now pass.new }
        ensures noted { view_of pass.new ≡ with_look result (view_of pass.old) }
        ensures moment { IsMoment T.needs T.steps T.stands (settings_of self.now) result (view_of pass.old) }
        ensures sees { Sees T.needs T.steps T.stands (settings_of self.now) result (view_of pass.old) }
    {
        self.table.shared.load::<Look>(&mut pass.seat, 0)
    }

    /// Adds 1 to the clock and answers what it was, the stamp of the entry. The entry, and what the parts in hand
    /// stand for after it, are the `ghost` of this call. It waits for nobody and takes no memory.
    pub fn stamp(&self, pass: &mut PartPass<T>) -> u64
        ghost plan: { T.Entry × List (ℕ × T) }
        requires of { IsPassOf self.now pass.old }
        requires may { MayStamp T.records T.needs T.steps T.stands (settings_of self.now) plan.0 plan.1
            (view_of pass.old) }
        ensures of { IsPassOf self.now pass.new }
        ensures added { view_of pass.new ≡ with_entry plan.0 plan.1 result (view_of pass.old) }
        ensures moment { IsMoment T.needs T.steps T.stands (settings_of self.now) result (view_of pass.old) }
        ensures sees { Sees T.needs T.steps T.stands (settings_of self.now) result (view_of pass.old) }
    {
        add::<T, Brand>(self, pass)
    }
}
