ghost use Rattle.std.specs.Prelude.{◌≡◌, ◌-◌, ◌≤◌};
ghost use Rattle.ca_base.specs.declared.limits.TheConstants.{MAX_DEPTH};
ghost use Rattle.ca_model.specs.machine.Invariants.{IsQueue};
ghost use Rattle.ca_model.specs.machine.Row.{queue_and_marks};
ghost use Rattle.ca_qp_rows.specs.Made.{AreAdded, IsMade};
ghost use Rattle.ca_requester_sends.specs.Finished.{IsAhead, success_between};

use ca_base::Memory;
use ca_model::{Marks, SPARE_MARKS};
use ca_qp_rows::ca_qpstate::QueuePart;
use ca_qp_rows::push_success;

/// How many requests stand before a posting place, from the oldest unfinished one on.
pub fn finished_count(q: &QueuePart, end: u64) -> u32
    requires { IsAhead end q.now }
    ensures value { result ≡ end - q.now.requester.oldest }
    ensures few { result ≤ MAX_DEPTH }
{
    (end - q.requester.oldest) as u32
}

/// Adds the completions of the requests from a posting place on and before another, which succeeded, in the spare room. It
/// takes no memory.
#[inline(always)]
pub fn push_finished(q: &QueuePart, posting: u64, end: u64, marks: &mut Marks)
    requires queue { IsQueue q.now }
    requires posted { q.now.sends.first ≤ posting }
    requires spare { end - posting ≤ marks.old.room }
    ensures { AreAdded (success_between posting end q.now) marks.old marks.new }
{
    if posting < end {
        push_finished_from(q, posting, end, marks);
    }
}

/// The same, for where there mostly are some.
fn push_finished_from(q: &QueuePart, posting: u64, end: u64, marks: &mut Marks)
    requires queue { IsQueue q.now }
    requires posted { q.now.sends.first ≤ posting }
    requires spare { end - posting ≤ marks.old.room }
    ensures { AreAdded (success_between posting end q.now) marks.old marks.new }
{
    if posting >= end {
        return;
    }
    let Some(posted) = q.sends.get(posting) else {
        return;
    };
    push_success(q.queue, posting, &posted.request, marks);
    push_finished_from(q, posting + 1, end, marks)
}

/// The unfinished requests before a posting place complete.
#[inline(always)]
pub fn complete_before(q: &QueuePart, end: u64, marks: &mut Marks) -> Result<(), Memory>
    requires { IsAhead end q.now }
    ensures { IsMade result (queue_and_marks q.now (success_between q.now.requester.oldest end q.now))
        q.now q.now marks.old marks.new }
{
    marks.reserve(finished_count(q, end) + SPARE_MARKS)?;
    push_finished_from(q, q.requester.oldest, end, marks);
    Ok(())
}
