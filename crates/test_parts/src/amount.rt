//! The machine: its parts, its event, and what they mean.
ghost use Rattle.std.specs.Prelude.{◌≡◌};

use ca_parts::Machine;

/// How many numbers there are.
pub const NUMBERS: usize = 8;

/// One of the eight numbers: the value of a part.
#[derive(Drop)]
pub struct Amount(pub u64);

/// What each of the eight numbers is before any move.
#[derive(Clone, Copy)]
pub struct Opening {
    pub each: u64,
}

/// Takes the amount away from one number and adds it to another.
#[derive(Clone, Copy)]
pub struct Move {
    pub from: u32,
    pub to: u32,
    pub amount: u64,
}

impl Machine for Amount {
    ghost use Rattle.test_parts.specs.Numbers.{CanFollow, StandsFor, next_of};
    ghost use Rattle.test_parts.specs.Laws.{others_stay, next_is_apart};

    type Settings = Opening;

    type Event = Move;

    type Entry = Move;

    ghost records = { λ entry event. entry ≡ event };

    ghost needs = { λ _ m hand. next_of m hand };

    ghost steps = { CanFollow };

    ghost stands = { StandsFor };

    ghost frame = { others_stay };

    ghost apart = { λ _ m hand k _. next_is_apart m hand k };
}
