ghost use Rattle.std.specs.Prelude.{IfOk};
ghost use Rattle.ca_base.specs.Configuration.{configuration_of};
ghost use Rattle.ca_model.specs.machine.Sound.{AreLimited};
ghost use Rattle.ca_adapter_opening.specs.Opening.{FitContents};
ghost use Rattle.ca_adapter_store.specs.Rows.{IsRow};

use crate::work::Stop;
use ca_adapter_opening::{fit_contents, is_limited};
use ca_adapter_store::{ReplayError, Row, replay};
use ca_base::{Bytes, Config, Reason};
use ca_model::{Contents, Entry, Event, Marks, Opening};
use ca_script::{ScriptError, read_script};
use ca_trace::print;
use std::alloc::Global;

/// The most events that are made of one case.
const MOST_EVENTS: usize = 16_777_216;

/// A case: the script that says the fabric, and the events that are made on it.
#[derive(Drop)]
pub(crate) struct Case {
    pub(crate) script: Vec<u8>,
    pub(crate) events: Vec<Event>,
}

impl Case {
    pub(crate) fn empty(alloc: Global) -> Case {
        Case {
            script: Vec::new(alloc),
            events: Vec::new(alloc),
        }
    }

    /// The row of all parts of the fabric, before the first event.
    pub(crate) fn open(&self, alloc: Global) -> Result<Row, Stop>
        ensures { IfOk result (λ row. IsRow row) }
    {
        let opening = opening_of(alloc, self.script.as_slice())?;
        Ok(Row::open(alloc, &opening)?)
    }

    /// Replays the events, and adds the trace of what they do.
    pub(crate) fn replay(self, alloc: Global, out: &mut Vec<u8>) -> Result<(), Stop> {
        let opening = opening_of(alloc, self.script.as_slice())?;
        if self.events.len() > MOST_EVENTS {
            return Err(Stop::Limits);
        }
        match replay(alloc, &opening, self.events.as_slice()) {
            Ok(all) => print_all(alloc, self.events, all, out),
            Err(ReplayError::NotReady(place, reason)) => {
                let reason = word_of(reason);
                let text = format!(in alloc; "@{place} is not possible: {reason}\n")?;
                out.extend_from_slice(text.as_bytes())?;
                Ok(())
            }
            Err(ReplayError::Memory) => Err(Stop::Memory),
        }
    }
}

/// The words for a reason.
fn word_of(reason: Reason) -> &'static str {
    match reason {
        Reason::Empty => "empty",
        Reason::State => "state",
        Reason::NoRoom => "no room",
        Reason::Fence => "fence",
        Reason::Outstanding => "outstanding",
        Reason::RnrWait => "rnr wait",
        Reason::NotKept => "not kept",
        Reason::NotDue => "not due",
    }
}

/// The fabric of a script before the first event, where it keeps to the limits: all bytes are 0.
fn opening_of(alloc: Global, script: &[u8]) -> Result<Opening, Stop>
    ensures limited { IfOk result (λ opening. AreLimited (configuration_of opening.config)) }
    ensures contents { IfOk result (λ opening. FitContents (configuration_of opening.config) opening.contents) }
{
    let config = match read_script(alloc, script) {
        Ok(script) => script.config,
        Err(ScriptError::Refused { line, cause }) => return Err(Stop::Script(line, cause)),
        Err(ScriptError::Memory) => return Err(Stop::Memory),
    };
    let contents = zeros(alloc, &config)?;
    let opening = Opening { config, contents };
    if is_limited(&opening.config) && fit_contents(&opening) {
        Ok(opening)
    } else {
        Err(Stop::Limits)
    }
}

/// Buffers of zeros.
fn zeros(alloc: Global, config: &Config) -> Result<Contents, Stop> {
    let mut contents = Contents::empty(alloc);
    for adapter in config.adapters.as_slice() {
        for size in adapter.buffers.as_slice() {
            let bytes = vec![in alloc; 0u8; *size as usize]?;
            contents.push(Bytes::from(bytes))?;
        }
    }
    Ok(contents)
}

/// The trace of events with their marks, and its last line.
fn print_all(
    alloc: Global,
    events: Vec<Event>,
    all: Vec<Marks>,
    out: &mut Vec<u8>,
) -> Result<(), Stop> {
    let count = events.len();
    let mut stamp = 0u64;
    for (event, marks) in events.into_iter().zip(all) {
        let entry = Entry {
            stamp,
            pass: 0,
            event,
            marks,
        };
        print(&entry, out)?;
        stamp = stamp.saturating_add(1);
    }
    let end = format!(in alloc; "end {count}\n")?;
    out.extend_from_slice(end.as_bytes())?;
    Ok(())
}
