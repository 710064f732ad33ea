ghost use Rattle.std.specs.Prelude.{◌≡◌, ◌≤◌, ◌++◌, OnOk};
ghost use Rattle.ca_base.specs.objects.WorkQueue.{items_from, next_place};
ghost use Rattle.ca_qpstate.specs.ca_model.machine.Completions as completions;
ghost use Rattle.ca_qpstate.specs.ca_model.machine.Invariants.{IsQueue, IsReceives};
ghost use Rattle.ca_qp_rows.specs.Flush.{with_oldest};

use crate::completions::{failure_mark, receive_failure};
use ca_base::{Memory, Message, PostedSend, QueueId, RecvRequest, WcStatus};
use ca_qpstate::QueuePart;
use ca_qpstate::ca_model::Mark;
use ca_qpstate::ca_workqueue::WorkQueue;

/// Adds the completions of all that is posted and unfinished, flushed: the sends from a posting place on, the receive in
/// use, the posted receives.
pub fn push_flushed(q: &QueuePart, oldest: u64, made: &mut Vec<Mark>) -> Result<(), Memory>
    requires queue { IsQueue q.now }
    requires oldest { q.now.requester.oldest ≤ oldest }
    ensures { OnOk result (made.new.items ≡ made.old.items ++ completions.flush_marks (with_oldest oldest q.now)) }
{
    push_flushed_sends(q.queue, &q.sends, oldest, q.sends.next_place(), made)?;
    push_flushed_message(q.queue, &q.responder.message, made)?;
    if let Some(receives) = &q.receives {
        push_waiting_receives(q.queue, receives, made)?;
    }
    Ok(())
}

/// Adds the completions of the sends from a posting place on, flushed; `end` is that of the next send to be posted.
#[tactic(auto, using(crate::proofs::QueueLemmas::items_step, crate::proofs::QueueLemmas::items_past, crate::proofs::QueueLemmas::items_none))]
pub fn push_flushed_sends(
    queue: QueueId,
    sends: &WorkQueue<PostedSend>,
    posting: u64,
    end: u64,
    made: &mut Vec<Mark>,
) -> Result<(), Memory>
    requires posted { sends.now.first ≤ posting }
    requires end { end ≡ next_place sends.now }
    ensures { OnOk result (made.new.items
        ≡ made.old.items ++ completions.flushed_sends queue posting (items_from posting sends.now)) }
{
    if posting >= end {
        return Ok(());
    }
    let Some(posted) = sends.get(posting) else {
        return Ok(());
    };
    made.push(failure_mark(queue, posting, &posted.request, WcStatus::Flushed, None))?;
    push_flushed_sends(queue, sends, posting + 1, end, made)
}

fn push_flushed_message(
    queue: QueueId,
    message: &Option<Message>,
    made: &mut Vec<Mark>,
) -> Result<(), Memory>
    ensures { OnOk result (made.new.items ≡ made.old.items ++ completions.flushed_message queue message.now) }
{
    if let Some(Message::Send { place, receive, .. }) = message {
        made.push(receive_failure(queue, *place, receive, WcStatus::Flushed, None))?;
    }
    Ok(())
}

fn push_waiting_receives(
    queue: QueueId,
    receives: &WorkQueue<RecvRequest>,
    made: &mut Vec<Mark>,
) -> Result<(), Memory>
    requires { IsReceives receives.now }
    ensures { OnOk result (made.new.items
        ≡ made.old.items ++ completions.flushed_receives queue receives.now.next_taken
        (items_from receives.now.next_taken receives.now)) }
{
    let end = receives.next_place();
    push_flushed_receives(
        queue,
        receives,
        end - u64::from(receives.waiting()),
        end,
        made,
    )
}

/// Adds the completions of the receives from a posting place on, flushed; `end` is that of the next receive to be
/// posted.
#[tactic(auto, using(crate::proofs::QueueLemmas::items_step, crate::proofs::QueueLemmas::items_past, crate::proofs::QueueLemmas::items_none))]
pub fn push_flushed_receives(
    queue: QueueId,
    receives: &WorkQueue<RecvRequest>,
    posting: u64,
    end: u64,
    made: &mut Vec<Mark>,
) -> Result<(), Memory>
    requires posted { receives.now.first ≤ posting }
    requires end { end ≡ next_place receives.now }
    ensures { OnOk result (made.new.items
        ≡ made.old.items ++ completions.flushed_receives queue posting (items_from posting receives.now)) }
{
    if posting >= end {
        return Ok(());
    }
    let Some(receive) = receives.get(posting) else {
        return Ok(());
    };
    made.push(receive_failure(queue, posting, receive, WcStatus::Flushed, None))?;
    push_flushed_receives(queue, receives, posting + 1, end, made)
}
