ghost use Rattle.std.specs.Prelude.{◌≡◌, IfOk};
ghost use Rattle.ca_model.specs.History.{IsHistory};
ghost use Rattle.ca_script_run.specs.ca_adapter_store.Replays as replays;

use ca_base::Memory;
use ca_model::{Entry, Event, History, Marks};
use std::alloc::Global;

/// The history of events with their marks.
pub(crate) fn history_of(
    alloc: Global,
    events: Vec<Event>,
    all: Vec<Marks>,
) -> Result<History, Memory>
    requires { IsHistory (replays.history_of events.items all.items) }
    ensures { IfOk result (λ history. history ≡ replays.history_of events.items all.items) }
{
    let mut history = History::empty(alloc);
    let mut left = events;
    let mut marks_left = all;
    left.reverse();
    marks_left.reverse();
    while let Some(event) = left.pop() {
        let Some(marks) = marks_left.pop() else {
            return Ok(history);
        };
        let entry = Entry {
            stamp: history.len() as u64,
            pass: 0,
            event,
            marks,
        };
        history.push(entry)?;
    }
    Ok(history)
}
