//! Two threads that move amounts between the eight numbers.
ghost use Rattle.std.specs.Prelude.{◌≡◌, ◌+◌, ◌*◌, ◌^◌, ◌<◌, ◌≤◌, [], IfOk, length, vec_capacity};
ghost use Rattle.ca_parts.specs.Lists.{total};
ghost use Rattle.ca_parts.specs.Views.{first_view};
ghost use Rattle.ca_parts.specs.Rows.{part_count, settings_of, view_of, IsPassOf};
ghost use Rattle.test_parts.specs.Numbers.{IsMove};

use crate::amount::{Amount, Move, NUMBERS, Opening};
use crate::moving::{MoveError, try_move};
use ca_base::Memory;
use ca_parts::{PartPass, Parts, Turn1};
use std::alloc::Global;
use std::thread::{Threads, join};

/// How often a move is tried while a part of it is taken.
const TRIES: u32 = 1000;

/// The eight numbers as a row of parts, and its first pass.
pub fn start(alloc: Global, opening: Opening) -> Result<(Parts<Amount>, PartPass<Amount>), Memory>
    ensures row { IfOk result (λ r. (settings_of r.0 ≡ opening) × (part_count r.0 ≡ NUMBERS)) }
    ensures pass { IfOk result (λ r. IsPassOf r.0 r.1 × (view_of r.1 ≡ first_view opening)) }
{
    let mut values = Vec::with_capacity(alloc, NUMBERS)?;
    for _k in 0..NUMBERS {
        values.push_reserved(Amount(opening.each));
    }
    Parts::start(alloc, opening, values)
}

// The k-th move of a thread: between two different numbers.
fn nth_move(k: u32, amount: u64) -> Move
    ensures { IsMove result }
{
    let from = k % 8;
    let to = (from + 1 + k / 8 % 7) % 8;
    Move { from, to, amount }
}

// Makes the move, or gives up where a part of it stays taken or the first number holds less.
fn make(parts: &Parts<Amount>, pass: &mut PartPass<Amount>, held: &mut Vec<Turn1<Amount>>, m: Move)
    requires of { IsPassOf parts.now pass.old }
    requires eight { part_count parts.now ≡ NUMBERS }
    requires bounded { NUMBERS * (settings_of parts.now).each < 2 ^ 64 }
    requires idle { (view_of pass.old).hand ≡ [] }
    requires is_move { IsMove m }
    requires room { (length held.old.items ≡ 0) × (2 ≤ vec_capacity held.old) }
    ensures of { IsPassOf parts.now pass.new }
    ensures idle { (view_of pass.new).hand ≡ [] }
    ensures room { (length held.new.items ≡ 0) × (vec_capacity held.new ≡ vec_capacity held.old) }
    ensures share { (view_of pass.new).share ≡ (view_of pass.old).share }
{
    for _tries in 0..TRIES {
        match try_move(parts, pass, held, m) {
            Err(MoveError::Busy) => {}
            _ => return,
        }
    }
}

/// Makes so many moves, each of 1 to 3, and gives the pass back.
pub fn run(
    alloc: Global,
    parts: &Parts<Amount>,
    mut pass: PartPass<Amount>,
    moves: u32,
) -> PartPass<Amount>
    requires of { IsPassOf parts.now pass }
    requires eight { part_count parts.now ≡ NUMBERS }
    requires bounded { NUMBERS * (settings_of parts.now).each < 2 ^ 64 }
    requires idle { (view_of pass).hand ≡ [] }
    ensures of { IsPassOf parts.now result }
    ensures idle { (view_of result).hand ≡ [] }
    ensures share { (view_of result).share ≡ (view_of pass).share }
{
    let Ok(mut held) = Vec::with_capacity(alloc, 2) else {
        return pass;
    };
    for k in 0..moves {
        make(
            parts,
            &mut pass,
            &mut held,
            nth_move(k, 1 + u64::from(k % 3)),
        );
    }
    held.destroy_empty();
    pass
}

/// Starts the eight numbers, lets two threads make so many moves each, and closes the row: the numbers, and how many
/// moves were made. The numbers add up to what they did before, in every schedule.
pub fn race<R: Threads + Sync>(
    rt: &R,
    alloc: Global,
    opening: Opening,
    moves: u32,
) -> Result<(Vec<Amount>, u64), Memory>
    requires { NUMBERS * opening.each < 2 ^ 64 }
    ensures { IfOk result (λ r. total (λ x. x.0) r.0.items ≡ NUMBERS * opening.each) }
{
    let (parts, mut first) = start(alloc, opening)?;
    let Ok(second) = parts.split(&mut first) else {
        unreachable!()
    };
    let row = &parts;
    let (mut first, second) = join(
        rt,
        move || -> PartPass<Amount>
            requires { IsPassOf row.now first × (part_count row.now ≡ NUMBERS)
                × (NUMBERS * (settings_of row.now).each < 2 ^ 64) × ((view_of first).hand ≡ []) }
            ensures { IsPassOf row.entry.now result × ((view_of result).hand ≡ [])
                × ((view_of result).share ≡ (view_of first).share) }
        { run(alloc, row, first, moves) },
        move || -> PartPass<Amount>
            requires { IsPassOf row.now second × (part_count row.now ≡ NUMBERS)
                × (NUMBERS * (settings_of row.now).each < 2 ^ 64) × ((view_of second).hand ≡ []) }
            ensures { IsPassOf row.entry.now result × ((view_of result).hand ≡ [])
                × ((view_of result).share ≡ (view_of second).share) }
        { run(alloc, row, second, moves) },
    );
    parts.join(&mut first, second);
    match parts.close(first) {
        Ok(end) => Ok(end),
        Err(_) => unreachable!(),
    }
}
