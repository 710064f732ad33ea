use crate::case::Case;
use crate::measure::measure;
use crate::work::Stop;
use ca_trace_read::{TraceError, TraceReader};
use std::alloc::Global;
use std::time::Clock;

/// Whether the trace of a case begins with this line. No line of a script does so.
fn begins_trace(line: &[u8]) -> bool {
    line.first() == Some(&b'@') || line.starts_with(b"end ")
}

/// Reads cases line by line.
#[derive(Drop)]
pub(crate) struct Cases {
    case: Case,
    reader: Option<TraceReader>,
}

impl Cases {
    pub(crate) fn start(alloc: Global) -> Cases {
        Cases {
            case: Case::empty(alloc),
            reader: None,
        }
    }

    /// Takes the next line. The case comes whose trace ends with it.
    fn line(&mut self, alloc: Global, line: &[u8]) -> Result<Option<Case>, Stop> {
        if self.reader.is_none() && !begins_trace(line) {
            self.case.script.extend_from_slice(line)?;
            self.case.script.push(b'\n')?;
            return Ok(None);
        }
        let mut reader = self.reader.take().unwrap_or(TraceReader::start());
        match reader.line(alloc, line) {
            Ok(Some(entry)) => self.case.events.push(entry.event)?,
            Ok(None) => {}
            Err(TraceError::Refused(line)) => return Err(Stop::Trace(line)),
            Err(TraceError::Memory) => return Err(Stop::Memory),
        }
        if reader.finish().is_err() {
            self.reader = Some(reader);
            return Ok(None);
        }
        Ok(Some(std::mem::replace(&mut self.case, Case::empty(alloc))))
    }
}

/// Replays each case of a text, and gives the traces of what they do, one behind the other.
pub(crate) fn replay_cases(alloc: Global, text: &[u8], out: &mut Vec<u8>) -> Result<(), Stop> {
    let mut cases = Cases::start(alloc);
    for line in text.split(|c| *c == b'\n') {
        if let Some(case) = cases.line(alloc, line)? {
            case.replay(alloc, out)?;
        }
    }
    Ok(())
}

/// Makes the events of each case of a text, and gives a line for each with how many these were, and how many
/// nanoseconds one took.
pub(crate) fn measure_cases<R: Clock + AllocGlobal>(
    rt: &R,
    text: &[u8],
    out: &mut Vec<u8>,
) -> Result<(), Stop> {
    let alloc = rt.alloc();
    let mut cases = Cases::start(alloc);
    for line in text.split(|c| *c == b'\n') {
        if let Some(case) = cases.line(alloc, line)? {
            let (counts, each) = measure(rt, &case)?;
            let (count, messages) = (case.events.len(), counts.posts);
            let text = format!(in alloc;
                "{count} events, {messages} posts, {each} nanoseconds an event\n"
            )?;
            out.extend_from_slice(text.as_bytes())?;
        }
    }
    Ok(())
}
