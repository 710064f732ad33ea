ghost use Rattle.std.specs.List.{AllByRecursion};
ghost use Rattle.std.specs.Prelude.{◌≡◌, ◌-◌, ◌+◌, ◌<◌, ◌^◌, ◌++◌, [], ◌∷◌, IfOk, OnOk, length};
ghost use Rattle.ca_base.specs.Configuration.{Configuration, configuration_of};
ghost use Rattle.ca_isolation.specs.Alone.{Isolated};
ghost use Rattle.ca_law_caused.specs.Relations.{HasRelations};
ghost use Rattle.ca_model.specs.History.{IsHistory};
ghost use Rattle.ca_model.specs.machine.Run.{run_from, run_over};
ghost use Rattle.ca_model.specs.machine.Sound.{AreLimited, CanBeMade};
ghost use Rattle.ca_model.specs.machine.World.{World};
ghost use Rattle.ca_adapter_opening.specs.Opening.{FitContents, opening_bytes};
ghost use Rattle.ca_adapter_store.specs.Replays.{IsReplay, history_of, stop_at};
ghost use Rattle.ca_adapter_store.specs.Rows.{IsRow, IsRowOf};

use crate::row::Row;
use ca_base::{ActError, Memory, Reason};
use ca_model::{Event, Marks, Opening};
use std::alloc::Global;

/// Why a list of events was not made to its end.
#[derive(Drop)]
pub enum ReplayError {
    /// The event at this place, counted from 0, is the first that is not possible, for this reason.
    NotReady(u64, Reason),
    /// There was no memory.
    Memory,
}

impl From<Memory> for ReplayError {
    ghost use Rattle.std.specs.Prelude.{◌≡◌};
    ghost use Rattle.ca_adapter_store.specs.declared.events.ReplayError.TheVariants as errors;

    ghost from_gives = { λ m e. e ≡ errors.Memory };

    fn from(_: Memory) -> ReplayError {
        ReplayError::Memory
    }
}

/// Makes events one after another on the parts of an opening, and gives the marks of each: what the machine runs. It ends
/// at the first event that is not possible, with its place and its reason. The contents are the bytes of each buffer in
/// rising adapter and buffer, each of the configured length.
pub fn replay(alloc: Global, opening: &Opening, events: &[Event]) -> Result<Vec<Marks>, ReplayError>
    requires limited { AreLimited (configuration_of opening.now.config) }
    requires contents { FitContents (configuration_of opening.now.config) opening.now.contents }
    requires few { length events.now < 2 ^ 32 - 1 }
    ensures run { let c = configuration_of opening.now.config in
        IsReplay result (run_over c (opening_bytes c opening.now.contents) events.now) }
    ensures history { IfOk result (λ all. IsHistory (history_of events.now all.items)) }
    ensures lawful { let c = configuration_of opening.now.config in
        IfOk result (λ all. HasRelations (opening_bytes c opening.now.contents) (history_of events.now all.items)) }
    ensures isolated { let c = configuration_of opening.now.config in
        IfOk result (λ all. Isolated c (opening_bytes c opening.now.contents) (history_of events.now all.items)) }
{
    let mut row = Row::open(alloc, opening)?;
    make_all(alloc, &mut row, events)
}

/// Makes events one after another on a row, and gives the marks of each.
fn make_all(alloc: Global, row: &mut Row, events: &[Event]) -> Result<Vec<Marks>, ReplayError>
    requires row { IsRow row.old }
    requires few { row.old.count + length events.now < 2 ^ 32 - 1 }
    ensures run { (c : Configuration) (w : World) → IsRowOf c w row.old
        → IsReplay result (run_from c row.old.count w events.now) }
    ensures made { OnOk result (AllByRecursion CanBeMade events.now) }
{
    let mut all = room_for(alloc, events.len())?;
    for event in events {
        match row.make(alloc, event) {
            Ok(marks) => keep(&mut all, marks)?,
            Err(error) => return Err(stop_at(row.count, error)),
        }
    }
    Ok(all)
}

/// What is answered where an event is not made, before which so many were.
fn stop_at(place: u32, error: ActError) -> ReplayError
    ensures { result ≡ stop_at place error }
{
    match error {
        ActError::NotReady(reason) => ReplayError::NotReady(u64::from(place), reason),
        ActError::Memory => ReplayError::Memory,
    }
}

/// Room for the marks of so many events.
fn room_for(alloc: Global, count: usize) -> Result<Vec<Marks>, Memory>
    ensures { IfOk result (λ all. all.items ≡ []) }
{
    Ok(Vec::with_capacity(alloc, count)?)
}

/// Adds the marks of an event.
fn keep(all: &mut Vec<Marks>, marks: Marks) -> Result<(), Memory>
    ensures { OnOk result (all.new.items ≡ all.old.items ++ marks ∷ []) }
{
    all.push(marks)?;
    Ok(())
}
