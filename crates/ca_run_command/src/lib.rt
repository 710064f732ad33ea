//! The words behind the program's name, as a command.
//!
//! To the layer above it promises that words are taken for exactly the command that they are: which words match is what the
//! parser of command lines says of a command with the subcommands `script`, `race`, `alone` and `make`; there are from 1 to 16
//! workers, a group is a list of distinct domains, and a seed a number of 64 bits.
//!
//! Source: this profile's choice; the standard says nothing of programs.
#![tactic(auto)]

mod command;
mod group;
mod line;

pub use command::{Command, WordsError};
pub use line::command_of;
