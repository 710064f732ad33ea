ghost use Rattle.std.specs.Prelude.{IfErr, IfOk};
ghost use Rattle.ca_verbs_machine.specs.declared.asked.Asked.TheVariants as asks;
ghost use Rattle.ca_model.specs.declared.event.Event as model;
ghost use Rattle.ca_model.specs.declared.event.Event.TheVariants as events;
ghost use Rattle.ca_verbs.specs.Passes.{IsOf, WasMade, WasRefused, settings_in};

use crate::fabric::Fabric;
use crate::pass::{Pass, Receipt};
use crate::try_error::TryError;
use ca_base::Turn;
use ca_mailbox::Weather;
use ca_model::Verb;
use std::sync::Wait;

impl Fabric {
    /// Calls a verb, again and again while the answer is `Busy`, which it never answers. It may wait.
    pub fn verb<R: Wait>(
        &self,
        rt: &R,
        pass: &mut Pass,
        by: u32,
        v: &Verb,
    ) -> Result<Receipt, TryError>
        requires of { IsOf self.now pass.old }
        ensures of { IsOf self.now pass.new }
        ensures made { IfOk result (λ r. WasMade (settings_in self.now) (asks.Event (events.Verb by v.now))
            (events.Verb by v.now) r pass.old pass.new) }
        ensures refused { IfErr result (λ e. WasRefused (settings_in self.now) (asks.Event (events.Verb by v.now)) e
            pass.old pass.new) }
    {
        for _ in rt.forever() {
            match self.try_verb(pass, by, v) {
                Ok(receipt) => return Ok(receipt),
                Err(TryError::Busy(_)) => {}
                Err(TryError::HistoryFull(n)) => return Err(TryError::HistoryFull(n)),
                Err(TryError::NotReady(n, reason)) => return Err(TryError::NotReady(n, reason)),
                Err(TryError::Memory) => return Err(TryError::Memory),
            }
        }
        unreachable!()
    }

    /// Makes a turn, again and again while the answer is `Busy`, which it never answers. It may wait.
    pub fn turn<R: Wait>(
        &self,
        rt: &R,
        pass: &mut Pass,
        turn: Turn,
        w: &Weather,
    ) -> Result<Receipt, TryError>
        requires of { IsOf self.now pass.old }
        ensures of { IsOf self.now pass.new }
        ensures made { IfOk result (λ r. (event : model.Event) × WasMade (settings_in self.now) (asks.Turn turn w.now)
            event r pass.old pass.new) }
        ensures refused { IfErr result (λ e. WasRefused (settings_in self.now) (asks.Turn turn w.now) e pass.old
            pass.new) }
    {
        for _ in rt.forever() {
            match self.try_turn(pass, turn, w) {
                Ok(receipt) => return Ok(receipt),
                Err(TryError::Busy(_)) => {}
                Err(TryError::HistoryFull(n)) => return Err(TryError::HistoryFull(n)),
                Err(TryError::NotReady(n, reason)) => return Err(TryError::NotReady(n, reason)),
                Err(TryError::Memory) => return Err(TryError::Memory),
            }
        }
        unreachable!()
    }
}
