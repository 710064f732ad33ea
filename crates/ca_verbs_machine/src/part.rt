use crate::asked::{Asked, Told};
use ca_adapter_parts::Part;
use ca_base::Settings;
use ca_parts::Machine;
use std::marker::Model;

/// A part of a fabric, as threads share it. Contracts see the things that stand in it.
#[derive(Drop)]
pub struct SharedPart {
    part: Part,
}

impl Model for SharedPart {
    ghost use Rattle.ca_verbs_machine.specs.Values.{PartValue, value_of};

    ghost Value = { PartValue };

    ghost view = { λ s. value_of s.part };
}

impl SharedPart {
    ghost use Rattle.std.specs.Prelude.{◌≡◌};
    ghost use Rattle.ca_verbs_machine.specs.Values.{value_of};

    /// The part, to be shared.
    pub fn of(part: Part) -> SharedPart
        ensures { result ≡ value_of part }
    {
        SharedPart { part }
    }

    /// The part that was shared.
    pub fn into_part(self) -> Part
        ensures { value_of result ≡ self }
    {
        self.part
    }
}

impl Machine for SharedPart {
    ghost use Rattle.std.specs.Prelude.{◌≡◌};
    ghost use Rattle.ca_verbs_machine.specs.Meanings.{CanFollow, StandsFor, next_of};
    ghost use Rattle.ca_verbs_machine.specs.Laws.{others_stay, next_is_apart};

    type Settings = Settings;

    type Event = Asked;

    type Entry = Told;

    ghost records = { λ told asked. told.asked ≡ asked };

    ghost needs = { next_of };

    ghost steps = { CanFollow };

    ghost stands = { StandsFor };

    ghost frame = { others_stay };

    ghost apart = { next_is_apart };
}
