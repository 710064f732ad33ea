ghost use Rattle.std.specs.Prelude.{◌≡◌, ◌+◌, ◌≤◌, ◌<◌, ◌++◌, OnOk};
ghost use Rattle.ca_model.specs.declared.marks.TheConstants.{SPARE_MARKS};
ghost use Rattle.ca_model.specs.machine.Acknowledgements as acknowledgements;
ghost use Rattle.ca_model.specs.machine.Acknowledgements.{failure_effects};
ghost use Rattle.ca_model.specs.machine.Expected.{behind_marks};
ghost use Rattle.ca_model.specs.machine.Invariants.{IsQueue};
ghost use Rattle.ca_qp_rows.specs.Flush.{with_oldest};
ghost use Rattle.ca_qp_rows.specs.Made.{AreAdded, IsMade};
ghost use Rattle.ca_requester_sends.specs.Finished.{IsAhead};
ghost use Rattle.ca_requester_sends.specs.Outcome.{IsUnder, effects_behind, marks_of, numbers_of};

use crate::finished::{finished_count, push_finished};
use ca_base::{Memory, OpRefusal, RequesterNumbers, WcStatus};
use ca_model::{Mark, Marks, SPARE_MARKS};
use ca_qp_rows::ca_qpstate::QueuePart;
use ca_qp_rows::{failure_mark, push_flushed, reserve_for};

/// What an event makes of a requester's numbers.
#[derive(Clone, Copy)]
pub enum Outcome {
    /// It goes on with these.
    Goes(RequesterNumbers),
    /// The oldest unfinished request fails under these, and all that is posted behind it is flushed. The queue pair moves
    /// to Error, and its response queue is emptied.
    Fails(Failure),
}

/// How a request fails: the numbers, the status of its completion, and its cause where a local operation was refused.
#[derive(Clone, Copy)]
pub struct Failure {
    pub numbers: RequesterNumbers,
    pub status: WcStatus,
    pub cause: Option<OpRefusal>,
}

/// One retry, and back to a PSN: where the count of retries is used up, the oldest unfinished request fails.
pub fn one_retry(numbers: RequesterNumbers, psn: u64) -> Outcome
    requires { numbers.retries < 255 }
    ensures { IsUnder numbers (acknowledgements.one_retry psn) result }
{
    let counted = RequesterNumbers {
        retries: numbers.retries + 1,
        ..numbers
    };
    if numbers.retry <= numbers.retries {
        return Outcome::Fails(Failure {
            numbers: counted,
            status: WcStatus::RetryExceeded,
            cause: None,
        });
    }
    Outcome::Goes(RequesterNumbers {
        cursor: psn,
        ..counted
    })
}

/// Makes what an event decided: the requests before the oldest unfinished one of the outcome complete, then comes `first`,
/// if there is such a mark, and then the outcome.
pub fn make(
    q: &mut QueuePart,
    outcome: &Outcome,
    first: Option<Mark>,
    marks: &mut Marks,
) -> Result<(), Memory>
    requires { IsAhead (numbers_of outcome.now).oldest q.old }
    ensures { IsMade result (effects_behind (marks_of first) outcome.now q.old) q.old q.new marks.old marks.new }
{
    match outcome {
        Outcome::Goes(numbers) => go(q, numbers, first, marks),
        Outcome::Fails(failure) => fail(q, failure, first, marks),
    }
}

/// The requester goes on with these numbers.
fn go(
    q: &mut QueuePart,
    numbers: &RequesterNumbers,
    first: Option<Mark>,
    marks: &mut Marks,
) -> Result<(), Memory>
    requires { IsAhead numbers.now.oldest q.old }
    ensures { IsMade result (effects_behind (marks_of first) (Outcome.Goes numbers.now) q.old)
        q.old q.new marks.old marks.new }
{
    marks.reserve(finished_count(q, numbers.oldest) + 1 + SPARE_MARKS)?;
    push_finished(q, q.requester.oldest, numbers.oldest, marks);
    push_first(first, marks);
    q.requester = *numbers;
    Ok(())
}

/// The oldest unfinished request fails under these numbers: its completion comes, and those of all that is flushed. It
/// stands apart, since a failure is rare.
#[cold]
#[inline(never)]
fn fail(
    q: &mut QueuePart,
    failure: &Failure,
    first: Option<Mark>,
    marks: &mut Marks,
) -> Result<(), Memory>
    requires { IsAhead failure.now.numbers.oldest q.old }
    ensures { IsMade result (effects_behind (marks_of first) (Outcome.Fails failure.now) q.old)
        q.old q.new marks.old marks.new }
{
    let oldest = failure.numbers.oldest;
    let mut made = Vec::new(q.alloc());
    push_failure(q, oldest, failure.status, failure.cause, &mut made)?;
    reserve_for(
        made.as_slice(),
        finished_count(q, oldest) as usize + 1,
        marks,
    )?;
    push_finished(q, q.requester.oldest, oldest, marks);
    push_first(first, marks);
    marks.append(made);
    q.requester = failure.numbers;
    q.move_to_error();
    q.empty_answers();
    Ok(())
}

/// The oldest unfinished request fails now, behind `first`, if there is such a mark: nothing else completes before it.
pub(crate) fn fail_oldest(
    q: &mut QueuePart,
    status: WcStatus,
    cause: Option<OpRefusal>,
    first: Option<Mark>,
    marks: &mut Marks,
) -> Result<(), Memory>
    requires { IsQueue q.old }
    ensures { IsMade result (behind_marks (marks_of first) (failure_effects status cause q.old))
        q.old q.new marks.old marks.new }
{
    let failure = Failure {
        numbers: q.requester,
        status,
        cause,
    };
    fail(q, &failure, first, marks)
}

/// Adds a mark, if there is one, in the spare room.
fn push_first(first: Option<Mark>, marks: &mut Marks)
    requires { 1 ≤ marks.old.room }
    ensures { AreAdded (marks_of first) marks.old marks.new }
{
    if let Some(mark) = first {
        marks.push(mark);
    }
}

/// Adds the completion of the request at a posting place, which fails, and those of all that is posted behind it.
fn push_failure(
    q: &QueuePart,
    oldest: u64,
    status: WcStatus,
    cause: Option<OpRefusal>,
    made: &mut Vec<Mark>,
) -> Result<(), Memory>
    requires { IsAhead oldest q.now }
    ensures { OnOk result (made.new.items
        ≡ made.old.items ++ (failure_effects status cause (with_oldest oldest q.now)).marks) }
{
    if oldest >= q.sends.next_place() {
        return push_flushed(q, oldest, made);
    }
    match q.sends.get(oldest) {
        None => push_flushed(q, oldest, made),
        Some(posted) => {
            made.push(failure_mark(q.queue, oldest, &posted.request, status, cause))?;
            push_flushed(q, oldest + 1, made)
        }
    }
}
