ghost use Rattle.std.specs.Prelude.{◌≡◌, [], IfErr, IfOk, OnErr, OnOk};
ghost use Rattle.ca_verbs_machine.specs.declared.asked.Asked.TheVariants as asks;
ghost use Rattle.ca_model.specs.declared.event.Event as model;
ghost use Rattle.ca_model.specs.declared.event.Event.TheVariants as events;
ghost use Rattle.ca_verbs_taking.specs.Taking.{SameRecord};
ghost use Rattle.ca_verbs.specs.Passes.{HasRoom, IsOf, IsReceipt, entries_in, known_of, latest_of, settings_in};
ghost use Rattle.ca_verbs.specs.Tried.{WasNotMade};

use crate::fabric::Fabric;
use crate::pass::{Pass, Receipt};
use crate::try_error::TryError;
use crate::trying::{try_event, try_turn_event};
use ca_base::{Memory, Turn};
use ca_mailbox::Weather;
use ca_model::{Entry, Event, Verb};
use ca_verbs_taking::{Ask, MAX_ASKED_PARTS};

impl Pass {
    /// Makes room for a call.
    pub(crate) fn make_room(&mut self) -> Result<(), Memory>
        ensures room { OnOk result (HasRoom self.new) }
        ensures none { self.new.names.items ≡ [] }
        ensures parts { self.new.parts ≡ self.old.parts }
        ensures entries { self.new.entries.items ≡ self.old.entries.items }
        ensures latest { self.new.latest ≡ self.old.latest }
    {
        self.names.clear();
        self.entries.reserve(1)?;
        self.held.reserve(MAX_ASKED_PARTS)?;
        self.names.reserve(usize::from(MAX_ASKED_PARTS))?;
        self.out.reserve(usize::from(MAX_ASKED_PARTS))?;
        Ok(())
    }
}

impl Fabric {
    /// Calls a verb once, for consumer `by`. The receipt has the number of the entries before this one. `Busy` comes only
    /// where this call read the word of a part that the verb needs as taken, and never to the only pass. `HistoryFull`
    /// comes exactly where a look of this call read a number that is not below the limit of events. `NotReady` comes only
    /// for a Poll whose queue holds too few. It waits for nobody.
    pub fn try_verb(&self, pass: &mut Pass, by: u32, v: &Verb) -> Result<Receipt, TryError>
        requires of { IsOf self.now pass.old }
        ensures of { IsOf self.now pass.new }
        ensures made { IfOk result (λ r. IsReceipt (settings_in self.now) (asks.Event (events.Verb by v.now))
            (events.Verb by v.now) r pass.old pass.new) }
        ensures not_made { IfErr result (λ e. WasNotMade (settings_in self.now) (asks.Event (events.Verb by v.now)) e
            (known_of pass.old) (known_of pass.new)) }
        ensures same { OnErr result (SameRecord (known_of pass.old) (known_of pass.new)
            × (latest_of pass.new ≡ latest_of pass.old) × (entries_in pass.new ≡ entries_in pass.old)) }
    {
        let number = pass.parts.number();
        let Ok(verb) = v.clone() else {
            return Err(TryError::Memory);
        };
        let event = Event::Verb { by, verb };
        if pass.make_room().is_err() {
            return Err(TryError::Memory);
        }
        let made = try_event(
            self.alloc,
            &self.parts,
            &mut pass.parts,
            Ask::Event(&event),
            &event,
            &mut pass.held,
            &mut pass.names,
            &mut pass.out,
        )?;
        let stamp = made.stamp;
        pass.latest = Some(pass.entries.len());
        pass.entries.push_reserved(Entry {
            stamp,
            pass: number,
            event,
            marks: made.marks,
        });
        Ok(Receipt { stamp })
    }

    /// Makes a turn of a queue pair's engine once, under a weather, which says the lot of what is sent and whether a timer
    /// is hastened: by the world after the entries before this one. `NotReady` says that it is not possible after so many
    /// entries; a `Due` where nothing is due, as `Empty`. It waits for nobody.
    pub fn try_turn(&self, pass: &mut Pass, turn: Turn, w: &Weather) -> Result<Receipt, TryError>
        requires of { IsOf self.now pass.old }
        ensures of { IsOf self.now pass.new }
        ensures made { IfOk result (λ r. (event : model.Event) × IsReceipt (settings_in self.now) (asks.Turn turn w.now) event r
            pass.old pass.new) }
        ensures not_made { IfErr result (λ e. WasNotMade (settings_in self.now) (asks.Turn turn w.now) e
            (known_of pass.old) (known_of pass.new)) }
        ensures same { OnErr result (SameRecord (known_of pass.old) (known_of pass.new)
            × (latest_of pass.new ≡ latest_of pass.old) × (entries_in pass.new ≡ entries_in pass.old)) }
    {
        let number = pass.parts.number();
        if pass.make_room().is_err() {
            return Err(TryError::Memory);
        }
        let (event, made) = try_turn_event(
            self.alloc,
            &self.parts,
            &mut pass.parts,
            turn,
            w,
            &mut pass.held,
            &mut pass.names,
            &mut pass.out,
        )?;
        let stamp = made.stamp;
        pass.latest = Some(pass.entries.len());
        pass.entries.push_reserved(Entry {
            stamp,
            pass: number,
            event,
            marks: made.marks,
        });
        Ok(Receipt { stamp })
    }
}
