ghost use Rattle.std.specs.Prelude.{◌≡◌, ◌-◌, ◌<◌, ◌^◌, IfOk};
ghost use Rattle.ca_base.specs.Configuration.{Configuration, configuration_of};
ghost use Rattle.ca_model.specs.machine.Sound.{AreLimited, CanBeMade};
ghost use Rattle.ca_model.specs.machine.Step.{step};
ghost use Rattle.ca_model.specs.machine.World.{World, opening_world};
ghost use Rattle.ca_adapter_opening.specs.Opening.{FitContents, opening_bytes};
ghost use Rattle.ca_adapter_store.specs.Rest.{KeepsRow, names_changed};
ghost use Rattle.ca_adapter_store.specs.Rows.{IsMade, IsRow, IsRowOf, count_after};

use crate::hand::{MOST_TAKEN, Taken, act_in_hand};
use ca_adapter::lists_fit;
use ca_adapter_opening::parts;
use ca_adapter_parts::{Held, Part};
use ca_base::{ActError, Memory, Settings};
use ca_model::{Event, Marks, Opening};
use std::alloc::Global;

/// All parts of a fabric, each at its place, and how many events were made on them. The hand, and the names and places of
/// what is in it, keep their room from event to event.
#[derive(Drop)]
pub struct Row {
    pub settings: Settings,
    pub parts: Vec<Part>,
    pub held: Held,
    pub taken: Vec<Taken>,
    pub count: u32,
}

impl Row {
    /// The parts before the first event. The contents are the bytes of each buffer in rising adapter and buffer, each of
    /// the configured length.
    pub fn open(alloc: Global, opening: &Opening) -> Result<Row, Memory>
        requires limited { AreLimited (configuration_of opening.now.config) }
        requires contents { FitContents (configuration_of opening.now.config) opening.now.contents }
        ensures world { IfOk result (IsRowOf (configuration_of opening.now.config)
            (opening_world (opening_bytes (configuration_of opening.now.config) opening.now.contents))) }
        ensures row { IfOk result (λ row. IsRow row) }
        ensures count { IfOk result (λ row. row.count ≡ 0) }
    {
        Ok(Row {
            settings: Settings::of(&opening.config),
            parts: parts(alloc, opening)?,
            held: Held::empty(alloc),
            taken: Vec::new(alloc),
            count: 0,
        })
    }

    /// Makes an event: its parts are taken in hand, the event is acted, and they are given back to their places. NotReady
    /// and `Memory` leave all as it was. Fewer than 2^32 - 2 events were made before. The names and places of the parts
    /// that were in hand are left in `taken`: at all others each queue pair and each mailbox is as before.
    pub fn make(&mut self, alloc: Global, event: &Event) -> Result<Marks, ActError>
        requires row { IsRow self.old }
        requires few { self.old.count < 2 ^ 32 - 2 }
        ensures step { (c : Configuration) (w : World) → IsRowOf c w self.old
            → IsMade result (step c w event.now) w (λ v. IsRowOf c v self.new) }
        ensures row { IsRow self.new }
        ensures rest { KeepsRow (names_changed result self.new.taken.items) self.old self.new }
        ensures made { CanBeMade event.now }
        ensures count { self.new.count ≡ count_after result self.old.count }
    {
        lists_fit(event);
        self.held.reserve(MOST_TAKEN)?;
        self.taken.clear();
        if self.taken.reserve(usize::from(MOST_TAKEN)).is_err() {
            return Err(ActError::Memory);
        }
        let marks = act_in_hand(
            alloc,
            &self.settings,
            event,
            &mut self.parts,
            &mut self.held,
            &mut self.taken,
        )?;
        self.count += 1;
        Ok(marks)
    }
}
