//! How the parts of a move are taken one after the other, and given back.
ghost use Rattle.std.specs.Prelude.{◌≡◌, ◌<◌, ◌≤◌, ◌⊎◌, ℕ, [], ◌∷◌, ◌++◌, false, length, vec_capacity, OnOk, OnErr, IfOk, Some, None};
ghost use Rattle.ca_parts.specs.Lists.{numbers_of};
ghost use Rattle.ca_parts.specs.Views.{with_part, with_refusal};
ghost use Rattle.ca_parts.specs.Calls.{MayTake};
ghost use Rattle.ca_parts.specs.Rows.{part_count, settings_of, view_of, IsPassOf};
ghost use Rattle.test_parts.specs.Numbers.{IsMove, is_held, next_of};
ghost use Rattle.test_parts.specs.Held.{hand_of, AreApart, SameRecord};

use crate::amount::{Amount, Move, NUMBERS};
use ca_parts::{Busy, PartPass, Parts, Turn1};

/// The part that the move needs next, or none.
pub(crate) fn next_part(m: Move, held: &[Turn1<Amount>]) -> Option<u32>
    ensures { result ≡ next_of m (hand_of held.now) }
{
    if !holds(held, m.from) {
        return Some(m.from);
    }
    if !holds(held, m.to) {
        return Some(m.to);
    }
    None
}

fn holds(held: &[Turn1<Amount>], part: u32) -> bool
    ensures { result ≡ is_held part (hand_of held.now) }
{
    for t in held {
        if t.part == part {
            return true;
        }
    }
    false
}

/// Takes one part for the move, which is the event that its caller picks.
pub fn take_one(
    parts: &Parts<Amount>,
    pass: &mut PartPass<Amount>,
    _for_move: Move,
    part: u32,
) -> Result<Turn1<Amount>, Busy>
    ghost event: { Move }
    requires of { IsPassOf parts.now pass.old }
    requires part { part < part_count parts.now }
    requires may { MayTake (λ _ m hand. next_of m hand) (settings_of parts.now) event part (view_of pass.old) }
    ensures of { IsPassOf parts.now pass.new }
    ensures took { IfOk result (λ t. (t.part ≡ part)
        × (view_of pass.new ≡ with_part event part t.value (view_of pass.old))) }
    ensures refusal { OnErr result (view_of pass.new ≡ with_refusal part (view_of pass.old)) }
{
    parts.try_take(pass, part)
}

/// Gives all parts back, the last one first.
pub(crate) fn give_all(
    parts: &Parts<Amount>,
    pass: &mut PartPass<Amount>,
    held: &mut Vec<Turn1<Amount>>,
)
    requires of { IsPassOf parts.now pass.old }
    requires hand { ((view_of pass.old).hand ≡ hand_of held.old.items) × AreApart (hand_of held.old.items) }
    ensures of { IsPassOf parts.now pass.new }
    ensures given { ((view_of pass.new).hand ≡ []) × (length held.new.items ≡ 0)
        × (vec_capacity held.new ≡ vec_capacity held.old) }
    ensures same { SameRecord (view_of pass.old) (view_of pass.new)
        × ((view_of pass.new).refused ≡ (view_of pass.old).refused) }
{
    while let Some(t) = held.pop() {
        parts.give(pass, t);
    }
}

/// Takes the parts of a move, one after the other, or none of them.
pub(crate) fn take_parts(
    parts: &Parts<Amount>,
    pass: &mut PartPass<Amount>,
    m: Move,
    held: &mut Vec<Turn1<Amount>>,
) -> Result<(), Busy>
    requires of { IsPassOf parts.now pass.old }
    requires eight { part_count parts.now ≡ NUMBERS }
    requires idle { (view_of pass.old).hand ≡ [] }
    requires is_move { IsMove m }
    requires room { (length held.old.items ≡ 0) × (2 ≤ vec_capacity held.old) }
    ensures of { IsPassOf parts.now pass.new }
    ensures room { vec_capacity held.new ≡ vec_capacity held.old }
    ensures took { OnOk result (((view_of pass.new).hand ≡ hand_of held.new.items)
        × (numbers_of (hand_of held.new.items) ≡ m.from ∷ m.to ∷ [])) }
    ensures taking { OnOk result (((view_of pass.new).giving ≡ false)
        × ((view_of pass.new).event ≡ Some m)
        × ((view_of pass.new).refused ≡ (view_of pass.old).refused)) }
    ensures none { OnErr result (((view_of pass.new).hand ≡ []) × (length held.new.items ≡ 0)) }
    ensures refusal { OnErr result ((k : ℕ) × ((k ≡ m.from) ⊎ (k ≡ m.to))
        × ((view_of pass.new).refused ≡ (view_of pass.old).refused ++ k ∷ [])) }
    ensures same { SameRecord (view_of pass.old) (view_of pass.new) }
{
    while let Some(part) = next_part(m, held.as_slice()) {
        match take_one(parts, pass, m, part) {
            Ok(t) => held.push_reserved(t),
            Err(busy) => {
                give_all(parts, pass, held);
                return Err(busy);
            }
        }
    }
    Ok(())
}
