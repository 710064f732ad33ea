//! A small machine over shared parts: eight numbers, of which each is a part, and one event that moves an amount from
//! one of them to another.
//!
//! It shows how a machine is put over a row of parts, and carries the tests of `ca_parts`. It promises that a move is
//! made whole or not at all, that a refused one changes no number, and that after moves of any two threads the eight
//! numbers add up to what they did before.
//!
//! Source: this profile's own choice; the standard has no such machine.
#![tactic(auto)]

mod amount;
mod holding;
mod moving;
#[cfg(test)]
mod tests;
mod threads;

pub use amount::{Amount, Move, NUMBERS, Opening};
pub use holding::take_one;
pub use moving::{MoveError, try_move};
pub use threads::{race, run, start};
