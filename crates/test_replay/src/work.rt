use crate::cases::{measure_cases, replay_cases};
use ca_base::Memory;
use ca_outside::{StdSink, StdSource, read_up_to, write_all};
use ca_script::ScriptCause;
use std::alloc::{AllocError, AllocFailed};
use std::process::ExitCode;
use std::rt::Env;
use std::time::Clock;
use std::{env, io};

/// The most bytes that are read.
const MOST: usize = 268_435_456;

/// Why no more is replayed.
#[derive(Drop)]
pub(crate) enum Stop {
    /// This line of a script is refused.
    Script(u32, ScriptCause),
    /// This line of a trace is.
    Trace(u32),
    /// The fabric or the events are beyond their limits.
    Limits,
    /// This event, of those that are measured, is not possible, or no memory was left for it.
    Event(u32),
    /// The clock cannot be read.
    Clock,
    Memory,
}

impl From<io::Error> for Stop {
    fn from(_: io::Error) -> Stop {
        Stop::Clock
    }
}

impl From<Memory> for Stop {
    fn from(_: Memory) -> Stop {
        Stop::Memory
    }
}

impl From<AllocError> for Stop {
    fn from(_: AllocError) -> Stop {
        Stop::Memory
    }
}

impl<T: Drop> From<AllocFailed<T>> for Stop {
    fn from(_: AllocFailed<T>) -> Stop {
        Stop::Memory
    }
}

/// Tells why no more is replayed.
fn tell<R: Eprint>(rt: &R, stop: Stop) -> io::Result<()> {
    match stop {
        Stop::Script(line, cause) => eprintln!(rt; "script: line {line}: {cause}"),
        Stop::Trace(line) => eprintln!(rt; "trace: line {line}"),
        Stop::Limits => eprintln!(rt; "beyond the limits"),
        Stop::Event(number) => eprintln!(rt; "@{number} is not made"),
        Stop::Clock => eprintln!(rt; "no clock"),
        Stop::Memory => eprintln!(rt; "memory"),
    }
}

/// Whether the only word is `measure`, or there is none. None comes of other words.
fn is_measuring<R: Env + AllocGlobal>(rt: &R) -> Option<bool> {
    let mut args = env::args(rt).ok()?;
    let _ = args.next();
    match (args.next(), args.next()) {
        (Some(word), None) => (word.as_str() == "measure").then_some(true),
        (None, _) => Some(false),
        _ => None,
    }
}

/// Replays the cases of standard input, or measures them where the word `measure` says so. It ends with 1 where one of them
/// cannot be read, and with 2 for other words.
pub(crate) fn start<R: Env + Input + Print + Eprint + Clock + AllocGlobal>(rt: &R) -> ExitCode {
    let Some(is_measuring) = is_measuring(rt) else {
        return ExitCode::from(2);
    };
    let alloc = rt.alloc();
    let mut source = StdSource::over(rt.reader());
    let Ok(text) = read_up_to(alloc, &mut source, MOST) else {
        return ExitCode::from(3);
    };
    let mut out = Vec::new(alloc);
    let ended = if is_measuring {
        measure_cases(rt, text.as_slice(), &mut out)
    } else {
        replay_cases(alloc, text.as_slice(), &mut out)
    };
    if write_all(&mut StdSink::over(io::writer(rt)), out.as_slice()).is_err() {
        return ExitCode::from(4);
    }
    match ended {
        Ok(()) => ExitCode::from(0),
        Err(stop) => {
            let _ = tell(rt, stop);
            ExitCode::from(1)
        }
    }
}
