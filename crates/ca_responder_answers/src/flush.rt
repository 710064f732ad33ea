ghost use Rattle.std.specs.Prelude.{◌≡◌, ◌+◌, ◌++◌, ◌<◌, OnOk};
ghost use Rattle.ca_base.specs.objects.WorkQueue.{waiting_count};
ghost use Rattle.ca_model.specs.machine.CanStep.{CanStep};
ghost use Rattle.ca_model.specs.machine.Completions.{flush_marks};
ghost use Rattle.ca_model.specs.machine.Invariants.{IsReceives};
ghost use Rattle.ca_responder_answers.specs.declared.flush.FlushedReceives.{FlushedReceives};
ghost use Rattle.ca_responder_answers.specs.Flush.{CanFlush, first_behind, left_to_flush};

use ca_base::{Memory, RecvRequest};
use ca_model::Mark;
use ca_qp_rows::ca_qpstate::QueuePart;
use ca_qp_rows::{push_flushed, push_flushed_receives, push_flushed_sends};
use ca_workqueue::WorkQueue;

/// Which receives are flushed with the sends of a queue pair.
#[derive(Clone, Copy)]
pub enum FlushedReceives {
    /// That of the message in progress, and all that wait.
    All,
    /// All that wait.
    Waiting,
    /// All that wait behind the next one, which the packet takes.
    BehindNext,
}

/// Adds the completions of all that is posted and unfinished, flushed: the sends, and these receives.
pub fn push_flush(
    q: &QueuePart,
    receives: FlushedReceives,
    made: &mut Vec<Mark>,
) -> Result<(), Memory>
    requires step { CanStep q.now }
    requires receives { CanFlush receives q.now }
    ensures { OnOk result (made.new.items ≡ made.old.items ++ flush_marks (left_to_flush receives q.now)) }
{
    let oldest = q.requester.oldest;
    if let FlushedReceives::All = receives {
        push_flushed(q, oldest, made)?;
        return Ok(());
    }
    push_flushed_sends(q.queue, &q.sends, oldest, q.sends.next_place(), made)?;
    if let Some(own) = &q.receives {
        let posting = first_flushed(own, receives);
        push_flushed_receives(q.queue, own, posting, own.next_place(), made)?;
    }
    Ok(())
}

/// The posting place of the first of these receives that wait.
fn first_flushed(own: &WorkQueue<RecvRequest>, receives: FlushedReceives) -> u64
    requires own { IsReceives own.now }
    requires waits { receives ≡ FlushedReceives.BehindNext → 0 < waiting_count own.now }
    ensures { result ≡ own.now.next_taken + first_behind receives }
{
    match receives {
        FlushedReceives::BehindNext => own.next_place() - (u64::from(own.waiting()) - 1),
        _ => next_posting(own),
    }
}

/// The posting place of the next receive of a queue pair's own: those that wait stand at the end.
pub fn next_posting(receives: &WorkQueue<RecvRequest>) -> u64
    requires { IsReceives receives.now }
    ensures { result ≡ receives.now.next_taken }
{
    receives.next_place() - u64::from(receives.waiting())
}
