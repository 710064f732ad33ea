ghost use Rattle.std.specs.Prelude.{◌≡◌, length, filter, map};
ghost use Rattle.ca_model.specs.Entries.{entry_of};
ghost use Rattle.ca_model.specs.Past as past;
ghost use Rattle.ca_script_order.specs.Summary as summary;
ghost use Rattle.ca_script_seed.specs.Counted.{test_of};

use ca_base::{Completion, Verdict, WcStatus};
use ca_model::{Entry, Mark};

/// What is counted of marks.
#[derive(Clone, Copy)]
pub enum Counted {
    /// The completions of sends with success.
    Success,
    /// The completions of sends that failed.
    Failure,
    /// The packets that were sent, also those that were lost.
    Sent,
    /// The packets that were lost.
    Lost,
    /// The atomics that acted.
    Atomic,
}

/// How many marks of these entries are counted so. The count has 128 bits, which no number of marks exceeds.
pub fn count(counted: Counted, entries: &[Entry]) -> u128
    ensures { result ≡ summary.count_of (test_of counted) (map entry_of entries.now) }
{
    let mut count = 0;
    for entry in entries {
        count += count_marks(counted, entry.marks.as_slice()) as u128;
    }
    count
}

/// How many of these marks are counted so.
fn count_marks(counted: Counted, marks: &[Mark]) -> usize
    ensures { result ≡ length (filter (test_of counted) marks.now) }
{
    marks
        .iter()
        .filter(|mark| is_counted(counted, mark))
        .count()
}

/// Whether a mark is counted so.
fn is_counted(counted: Counted, mark: &Mark) -> bool
    ensures { result ≡ test_of counted mark.now }
{
    match counted {
        Counted::Success => is_success(mark),
        Counted::Failure => is_failure(mark),
        Counted::Sent => is_packet_sent(mark),
        Counted::Lost => is_packet_lost(mark),
        Counted::Atomic => is_atomic(mark),
    }
}

/// Whether a send completed with success.
fn is_success(mark: &Mark) -> bool
    ensures { result ≡ summary.is_success mark.now }
{
    match mark {
        Mark::Done { completion, .. } => is_send_success(completion),
        _ => false,
    }
}

/// Whether a send failed.
fn is_failure(mark: &Mark) -> bool
    ensures { result ≡ summary.is_failure mark.now }
{
    match mark {
        Mark::Done { completion, .. } => !completion.receive && !is_send_success(completion),
        _ => false,
    }
}

/// Whether a packet was sent.
fn is_packet_sent(mark: &Mark) -> bool
    ensures { result ≡ summary.is_packet_sent mark.now }
{
    matches!(mark, Mark::Sent { .. })
}

/// Whether a packet was lost.
fn is_packet_lost(mark: &Mark) -> bool
    ensures { result ≡ summary.is_packet_lost mark.now }
{
    matches!(mark, Mark::Lost { .. })
}

/// Whether an atomic acted.
fn is_atomic(mark: &Mark) -> bool
    ensures { result ≡ summary.is_atomic_mark mark.now }
{
    match mark {
        Mark::Remote { verdict, .. } => matches!(verdict, Verdict::Swapped { .. }),
        _ => false,
    }
}

/// Whether a completion tells that a send succeeded.
fn is_send_success(completion: &Completion) -> bool
    ensures { result ≡ past.is_send_success completion.now }
{
    !completion.receive && completion.status == WcStatus::Success
}
