ghost use Rattle.std.specs.Prelude.{◌≡◌, ◌++◌, OnOk, OnErr, Some};
ghost use Rattle.ca_run.specs.Status as table;
ghost use Rattle.ca_run_race.specs.ca_script_run.Statuses.{status_value};

use ca_base::{Memory, QueueId};
use ca_outside::ReadStop;
use ca_run_race::ca_script_run;
use ca_script::{ScriptCause, ScriptError};
use ca_trace_output::WriteStop;
use std::fmt;

/// How a run of the program ended.
#[derive(Clone, Copy)]
pub enum Status {
    /// The script was read to its end and worked, every consumer is at its end, and no turn is possible; the whole
    /// output is written.
    Fine,
    /// The script is refused at this line, counted from 1, the first that is, for its first cause; nothing is written and
    /// no event is made.
    Script { line: u32, cause: ScriptCause },
    /// The words are no command; nothing is read or written.
    Usage,
    /// The source failed; nothing is written.
    ReadFault,
    /// The sink failed; a front of the output is written.
    WriteFault,
    /// No turn and no consumer's next line is possible, and this consumer is the first that is not at its end: it stands
    /// before this line. The whole output is written.
    Stalled { consumer: u32, line: u32 },
    /// So many events were made, and the script allows no more; the whole output is written.
    BudgetSpent(u64),
    /// Out of memory; a front of the output is written, or nothing.
    Memory,
    /// A queue pair of the group named a peer outside of it, and this is the first that did; the text of the history is
    /// written, and no lone run.
    NotClosed(QueueId),
}

/// The line that tells of the status, with its line feed; there is none of `Fine`.
impl fmt::Display for Status {
    ghost output = { λ status. Some (table.status_line status) };

    fn fmt<W: fmt::Write>(&self, f: &mut fmt::Formatter<W>) -> fmt::Result {
        match self {
            Status::Fine => Ok(()),
            Status::Script { line, cause } => writeln!(f, "script: line {line}: {cause}"),
            Status::Usage => writeln!(f, "usage"),
            Status::ReadFault => writeln!(f, "read fault"),
            Status::WriteFault => writeln!(f, "write fault"),
            Status::Stalled { consumer, line } => {
                writeln!(f, "stalled: consumer {consumer} line {line}")
            }
            Status::BudgetSpent(count) => writeln!(f, "budget spent: {count}"),
            Status::Memory => writeln!(f, "memory"),
            Status::NotClosed(queue) => writeln!(f, "not closed: {queue}"),
        }
    }
}

impl From<ReadStop> for Status {
    ghost from_gives = { λ stop status. status ≡ table.status_of_stop stop };

    fn from(stop: ReadStop) -> Status {
        match stop {
            ReadStop::Failed => Status::ReadFault,
            ReadStop::Memory => Status::Memory,
        }
    }
}

impl From<ScriptError> for Status {
    ghost from_gives = { λ error status. status ≡ table.status_of_error error };

    fn from(error: ScriptError) -> Status {
        match error {
            ScriptError::Refused { line, cause } => Status::Script { line, cause },
            ScriptError::Memory => Status::Memory,
        }
    }
}

impl From<WriteStop> for Status {
    ghost from_gives = { λ stop status. status ≡ table.status_of_write stop };

    fn from(stop: WriteStop) -> Status {
        match stop {
            WriteStop::Failed => Status::WriteFault,
            WriteStop::Memory => Status::Memory,
        }
    }
}

impl From<ca_script_run::Status> for Status {
    ghost from_gives = { λ ended status. status ≡ table.status_of_end (status_value ended) };

    fn from(ended: ca_script_run::Status) -> Status {
        match ended {
            ca_script_run::Status::Fine => Status::Fine,
            ca_script_run::Status::Stalled { consumer, line } => Status::Stalled { consumer, line },
            ca_script_run::Status::BudgetSpent(count) => Status::BudgetSpent(u64::from(count)),
        }
    }
}

/// The exit code of the program for a status.
pub fn exit_code(status: &Status) -> u8
    ensures { result ≡ table.exit_code status.now }
{
    match status {
        Status::Fine => 0,
        Status::Script { .. } => 1,
        Status::Usage => 2,
        Status::ReadFault => 3,
        Status::WriteFault => 4,
        Status::Stalled { .. } => 5,
        Status::BudgetSpent(_) => 6,
        Status::Memory => 7,
        Status::NotClosed(_) => 8,
    }
}

/// Adds the line that tells of a status, with its line feed, and nothing for `Fine`; `Memory` leaves what was there.
pub fn status_line(status: &Status, out: &mut Vec<u8>) -> Result<(), Memory>
    ensures ok { OnOk result (out.new.items ≡ out.old.items ++ table.status_line status.now) }
    ensures err { OnErr result (out.new.items ≡ out.old.items) }
{
    let line = format!(in *out.allocator(); "{status}")?;
    out.extend_from_slice(line.as_bytes())?;
    Ok(())
}
