//! One move, tried once.
ghost use Rattle.std.specs.Prelude.{◌≡◌, ◌≢◌, ◌≤◌, ◌<◌, ℕ, ◌*◌, ◌^◌, [], ◌∷◌, List, length, vec_capacity, IfOk, IfErr};
ghost use Rattle.ca_parts.specs.Lists.{numbers_of};
ghost use Rattle.ca_parts.specs.Views.{with_entry};
ghost use Rattle.ca_parts.specs.Calls.{MayStamp};
ghost use Rattle.ca_parts.specs.Rows.{part_count, settings_of, view_of, IsPassOf};
ghost use Rattle.test_parts.specs.declared.amount.Move.{Move};
ghost use Rattle.test_parts.specs.declared.amount.Amount.{Amount};
ghost use Rattle.test_parts.specs.Numbers.{IsMove, CanFollow, StandsFor, next_of};
ghost use Rattle.test_parts.specs.Held.{hand_of, SameRecord};
ghost use Rattle.test_parts.specs.Tried.{AddsEntry, WasNotMade};

use crate::amount::{Amount, Move, NUMBERS};
use crate::holding::take_parts;
use ca_base::limits::LATE_STAMP;
use ca_parts::{PartPass, Parts, Turn1};

/// Why a move was not made.
#[derive(Clone, Copy, Debug, PartialEq, Eq)]
pub enum MoveError {
    /// One of the two parts was taken.
    Busy,
    /// After so many entries the first number held less than the amount.
    NotReady(u64),
    /// So many entries are as many as a pass may add to.
    Full(u64),
}

// Stamps the move, after which its two parts stand for what they have now.
fn mark(
    parts: &Parts<Amount>,
    pass: &mut PartPass<Amount>,
    _made: Move,
    _from: &Turn1<Amount>,
    _to: &Turn1<Amount>,
) -> u64
    ghost plan: { Move × List (ℕ × Amount) }
    requires of { IsPassOf parts.now pass.old }
    requires may { MayStamp (λ entry event. entry
        ≡ event) (λ _ m hand. next_of m hand) CanFollow StandsFor (settings_of parts.now) plan.0 plan.1
        (view_of pass.old) }
    ensures of { IsPassOf parts.now pass.new }
    ensures added { view_of pass.new ≡ with_entry plan.0 plan.1 result (view_of pass.old) }
{
    parts.stamp(pass)
}

// Gives both parts back.
fn give_both(
    parts: &Parts<Amount>,
    pass: &mut PartPass<Amount>,
    from: Turn1<Amount>,
    to: Turn1<Amount>,
)
    requires of { IsPassOf parts.now pass.old }
    requires hand { (view_of pass.old).hand ≡ (from.part, from.value) ∷ (to.part, to.value) ∷ [] }
    requires apart { from.part ≢ to.part }
    ensures of { IsPassOf parts.now pass.new }
    ensures given { (view_of pass.new).hand ≡ [] }
    ensures same { SameRecord (view_of pass.old) (view_of pass.new)
        × ((view_of pass.new).refused ≡ (view_of pass.old).refused) }
{
    parts.give(pass, to);
    parts.give(pass, from);
}

// The part with another number.
fn with_value(t: Turn1<Amount>, value: u64) -> Turn1<Amount>
    ensures { (result.part ≡ t.part) × (result.value.0 ≡ value) }
{
    let Turn1 { part, value: _ } = t;
    Turn1 {
        part,
        value: Amount(value),
    }
}

// The two parts in hand, of which the first is what the move takes from.
fn both(held: &mut Vec<Turn1<Amount>>, m: Move) -> (Turn1<Amount>, Turn1<Amount>)
    requires { numbers_of (hand_of held.old.items) ≡ m.from ∷ m.to ∷ [] }
    ensures parts { (result.0.part ≡ m.from) × (result.1.part ≡ m.to) }
    ensures hand { hand_of held.old.items ≡ (result.0.part, result.0.value) ∷ (result.1.part, result.1.value) ∷ [] }
    ensures empty { (length held.new.items ≡ 0) × (vec_capacity held.new ≡ vec_capacity held.old) }
{
    let Some(to) = held.pop() else { unreachable!() };
    let Some(from) = held.pop() else {
        unreachable!()
    };
    (from, to)
}

/// Makes the move, or says why not, and gives back all that it took. It tries once, waits for nobody and takes no
/// memory: `held` is an empty vector with room for the parts of a move.
///
/// `Busy` comes only where this call was refused a part of the move. `NotReady(n)` says that after the first n entries
/// the first number held less than the amount, and `Full` that there are as many entries as a pass may add to.
pub fn try_move(
    parts: &Parts<Amount>,
    pass: &mut PartPass<Amount>,
    held: &mut Vec<Turn1<Amount>>,
    m: Move,
) -> Result<u64, MoveError>
    requires of { IsPassOf parts.now pass.old }
    requires eight { part_count parts.now ≡ NUMBERS }
    requires bounded { NUMBERS * (settings_of parts.now).each < 2 ^ 64 }
    requires idle { (view_of pass.old).hand ≡ [] }
    requires is_move { IsMove m }
    requires room { (length held.old.items ≡ 0) × (2 ≤ vec_capacity held.old) }
    ensures of { IsPassOf parts.now pass.new }
    ensures idle { (view_of pass.new).hand ≡ [] }
    ensures room { (length held.new.items ≡ 0) × (vec_capacity held.new ≡ vec_capacity held.old) }
    ensures share { (view_of pass.new).share ≡ (view_of pass.old).share }
    ensures made { IfOk result (λ stamp. AddsEntry (view_of pass.old) (view_of pass.new) stamp m) }
    ensures refused { IfErr result (λ e. WasNotMade (view_of pass.old) (view_of pass.new) m e) }
{
    let Ok(()) = take_parts(parts, pass, m, held) else {
        return Err(MoveError::Busy);
    };
    let n = parts.look(pass);
    let (from, to) = both(held, m);
    let from_value = from.value.0;
    let to_value = to.value.0;
    if n >= LATE_STAMP {
        give_both(parts, pass, from, to);
        return Err(MoveError::Full(n));
    }
    if from_value < m.amount {
        give_both(parts, pass, from, to);
        return Err(MoveError::NotReady(n));
    }
    let from = with_value(from, from_value - m.amount);
    let to = with_value(to, to_value + m.amount);
    let stamp = mark(parts, pass, m, &from, &to);
    give_both(parts, pass, from, to);
    Ok(stamp)
}
