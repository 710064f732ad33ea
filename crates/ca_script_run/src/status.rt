ghost use Rattle.std.specs.Prelude.{◌≡◌, ◌<◌, ◌^◌, drop, length};
ghost use Rattle.ca_script_order.specs.OfScript as machine;
ghost use Rattle.ca_script_order.specs.Order.{Stage};
ghost use Rattle.ca_script.specs.Script.{script_value};
ghost use Rattle.ca_script_run.specs.Progress.{IsAt, lines_behind};
ghost use Rattle.ca_script_run.specs.Statuses.{number_awaited, status_value};

use crate::progress::Progress;
use ca_script::{Lines, Script};
use ca_script_lines::{Line, What};

/// How a script ended.
#[derive(Clone, Copy, PartialEq, Eq)]
pub enum Status {
    /// All is quiet, and each consumer is at its end.
    Fine,
    /// All is quiet, and this consumer is the first that stands before a line, which is not possible.
    Stalled { consumer: u32, line: u32 },
    /// As many events were made as the script allows.
    BudgetSpent(u32),
}

/// The status of a script that is worked so far.
pub(crate) fn status_of(script: &Script, progress: &Progress) -> Status
    requires { length script.now.consumers < 2 ^ 32 }
    ensures { (g : Stage) → IsAt (script_value script.now) g progress.now
        → status_value result ≡ machine.status_of (script_value script.now) g }
{
    let count = progress.row.count;
    if script.config.events <= count {
        Status::BudgetSpent(count)
    } else {
        stalled(script.consumers.as_slice(), progress.done.as_slice(), count)
    }
}

/// The first consumer that is not at its end after so many entries, and the number of its next line.
fn stalled(consumers: &[Lines], done: &[usize], count: u32) -> Status
    requires { length consumers.now < 2 ^ 32 }
    ensures { status_value result ≡ machine.stalled_from count 0 (lines_behind consumers.now done.now) }
{
    for consumer in 0..consumers.len().min(done.len()) {
        if let Some(line) = line_awaited(consumers[consumer].as_slice(), done[consumer], count) {
            return Status::Stalled {
                consumer: consumer as u32,
                line,
            };
        }
    }
    Status::Fine
}

/// The number of the first line behind so many that waits after so many entries.
fn line_awaited(lines: &[Line], passed: usize, count: u32) -> Option<u32>
    ensures { result ≡ number_awaited (machine.lines_at count (drop passed lines.now)) }
{
    for place in passed..lines.len() {
        if !is_passed(&lines[place].what, count) {
            return Some(lines[place].number);
        }
    }
    None
}

/// Whether a line is passed by so many entries.
fn is_passed(what: &What, count: u32) -> bool
    ensures { result ≡ machine.is_passed count what.now }
{
    match what {
        What::Verb(_) => false,
        What::At(clock) => *clock <= u64::from(count),
    }
}
