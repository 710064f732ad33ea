ghost use Rattle.std.specs.Prelude.{◌≡◌};
ghost use Rattle.ca_keys.specs.Refusals.{first_of};
ghost use Rattle.ca_model.specs.machine.CanStep.{CanStep};
ghost use Rattle.ca_model.specs.machine.Timers as timers;
ghost use Rattle.ca_requester.specs.Timers.{IsPlainStep, IsStep};

use ca_base::limits::MAX_RETRY;
use ca_base::{ActError, Reason, RequesterNumbers};
use ca_model::{Mark, Marks};
use ca_requester_sends::ca_qpstate::QueuePart;
use ca_requester_sends::{is_sending, make, one_retry};

/// A timer fires, if nothing answers (`silent`) or the weather wants it (`hasten`): one retry, back to the first PSN that
/// is outstanding. Else the reason is the first of `State`, `Empty` and `NotDue`, and nothing changes, as where memory
/// ends. After Ok there is room for two more marks.
#[tactic(auto, using(ca_requester_sends::proofs::OutcomeLemmas::is_ahead_now))]
pub fn on_timeout(
    q: &mut QueuePart,
    silent: bool,
    hasten: bool,
    marks: &mut Marks,
) -> Result<(), ActError>
    requires { CanStep q.old }
    ensures { IsStep result (first_of (timers.timeout_refusals silent hasten q.old)) (timers.after_timeout silent q.old)
        q.old q.new marks.old marks.new }
{
    if let Some(reason) = timeout_refusal(q, silent, hasten) {
        return Err(ActError::NotReady(reason));
    }
    let counted = RequesterNumbers {
        timers: q.requester.timers + 1,
        ..q.requester
    };
    let mark = Mark::Timer {
        queue: q.queue,
        silent,
    };
    let outcome = one_retry(counted, q.requester.una);
    make(q, &outcome, Some(mark), marks)?;
    Ok(())
}

/// Why a timer does not fire.
fn timeout_refusal(q: &QueuePart, silent: bool, hasten: bool) -> Option<Reason>
    ensures { result ≡ first_of (timers.timeout_refusals silent hasten q.now) }
{
    if !is_sending(q.state) {
        return Some(Reason::State);
    }
    if q.requester.una >= q.requester.cursor {
        return Some(Reason::Empty);
    }
    if silent || hasten {
        None
    } else {
        Some(Reason::NotDue)
    }
}

/// The waiting after an RNR NAK ends. `peer_empty` says that a path leads to the peer and the peer has no receive to take.
/// Else the reason is the first of `State`, `Empty` and `RnrWait`, and nothing changes. It takes no memory.
pub fn on_rnr_wake(q: &mut QueuePart, peer_empty: bool) -> Result<(), Reason>
    ensures { IsPlainStep result (first_of (timers.wake_refusals peer_empty q.old))
        (timers.after_wake q.old) q.old q.new }
{
    if let Some(reason) = wake_refusal(q, peer_empty) {
        return Err(reason);
    }
    q.requester.waiting = false;
    Ok(())
}

/// Why a wake is not possible.
fn wake_refusal(q: &QueuePart, peer_empty: bool) -> Option<Reason>
    ensures { result ≡ first_of (timers.wake_refusals peer_empty q.now) }
{
    if !is_sending(q.state) {
        return Some(Reason::State);
    }
    if !q.requester.waiting {
        return Some(Reason::Empty);
    }
    if q.requester.rnr_retry == MAX_RETRY && peer_empty {
        return Some(Reason::RnrWait);
    }
    None
}
