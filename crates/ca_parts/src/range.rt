//! How passes split and join.
ghost use Rattle.std.specs.Prelude.{◌≡◌, ◌↔◌, [], IfOk, OnErr, IsErr};
ghost use Rattle.ca_parts.specs.Views.{lower_half, upper_half, joined_with};
ghost use Rattle.ca_parts.specs.Rows.{view_of, IsPassOf};

use crate::machine::Machine;
use crate::parts::Parts;
use crate::pass::{PartPass, Spent};
use crate::plays::{Halve, Unite, Weigh};

impl<T: Machine> Parts<T> {
    /// Makes a pass with the upper half of the numbers and of the share, rounded down. `Spent` comes exactly where
    /// one number is left. It waits for nobody and takes no memory.
    pub fn split(&self, pass: &mut PartPass<T>) -> Result<PartPass<T>, Spent>
        requires of { IsPassOf self.now pass.old }
        ensures of { IsPassOf self.now pass.new }
        ensures spent { IsErr result ↔ ((view_of pass.old).count ≡ 1) }
        ensures lower { IfOk result (λ p. view_of pass.new ≡ lower_half (view_of pass.old)) }
        ensures upper { IfOk result (λ p. IsPassOf self.now p × (view_of p ≡ upper_half (view_of pass.old))) }
        ensures same { OnErr result (view_of pass.new ≡ view_of pass.old) }
    {
        if pass.count == 1 {
            return Err(Spent);
        }
        let seat = self.table.shared.split_seat::<Halve>(&mut pass.seat);
        let count = pass.count / 2;
        let share = pass.share / 2;
        pass.count -= count;
        pass.share -= share;
        Ok(PartPass {
            seat,
            number: pass.number + pass.count as u32,
            count,
            share,
        })
    }

    /// Adds the share, the entries, the notes and the refusals of `other`, whose numbers are not used again. It waits
    /// for nobody and takes no memory.
    pub fn join(&self, into: &mut PartPass<T>, other: PartPass<T>)
        requires into { IsPassOf self.now into.old }
        requires other { IsPassOf self.now other }
        requires no_part { ((view_of into.old).hand ≡ []) × ((view_of other).hand ≡ []) }
        ensures of { IsPassOf self.now into.new }
        ensures joined { view_of into.new ≡ joined_with (view_of into.old) (view_of other) }
    {
        let PartPass {
            seat,
            number: _,
            count: _,
            share,
        } = other;
        let table = &self.table.shared;
        table.join_seat::<Unite>(&mut into.seat, seat);
        table.load::<Weigh>(&mut into.seat, 0);
        into.share += share;
    }
}
