ghost use Rattle.std.specs.Prelude.{◌≡◌, ◌+◌, ◌<◌, ◌^◌, ◌&&◌, max, nat_lt, suc};
ghost use Rattle.ca_model.specs.machine.CanStep.{CanStep};
ghost use Rattle.ca_model.specs.machine.Numbering.{is_answered_op, psn_end};
ghost use Rattle.ca_requester.specs.Progress.{IsAcknowledged, IsOldest, IsProgress, IsReached, numbers_behind, numbers_with_una, reached_numbers};
ghost use Rattle.ca_requester_sends.specs.Numbering.{IsNumbered, IsWithin};

use ca_base::RequesterNumbers;
use ca_requester_sends::ca_qp_rows::is_answered;
use ca_requester_sends::ca_qpstate::QueuePart;
use ca_requester_sends::{Numbered, begun_at};

/// Where the oldest unfinished request stands after an acknowledgement: its posting place, the first PSN that it has or
/// would get, and that request, where it has begun; and the PSN to which the requester goes back, if it does.
#[derive(Drop)]
pub(crate) struct Reached<'a> {
    pub posting: u64,
    pub first: u64,
    pub request: Option<Numbered<'a>>,
    pub back: Option<u64>,
}

/// How far an acknowledgement of all below a PSN goes among the requests from a posting place on that have begun: up to
/// the first READ or atomic with a PSN from `una` on and below it, or up to the first that does not end below it.
#[inline(always)]
fn reached_by(q: &QueuePart, posting: u64, first: u64, una: u64, psn: u64) -> Reached<'_>
    requires { IsWithin posting first q.now }
    ensures { IsReached posting first una psn q.now result }
{
    let mut posting = posting;
    let mut first = first;
    while let Some(n) = begun_at(q, posting, first) {
        if is_unanswered(&n, una, psn) {
            return Reached {
                posting,
                first,
                back: Some(una.max(n.first)),
                request: Some(n),
            };
        }
        if n.end() > una.max(psn) {
            return Reached {
                posting,
                first,
                back: None,
                request: Some(n),
            };
        }
        posting += 1;
        first += u64::from(n.count);
    }
    Reached {
        posting,
        first,
        back: None,
        request: None,
    }
}

/// `una` grows to a PSN, if it is above it; where it grew, retries are counted anew.
fn with_una(numbers: RequesterNumbers, psn: u64) -> RequesterNumbers
    ensures { result ≡ numbers_with_una psn numbers }
{
    if numbers.una >= psn {
        return numbers;
    }
    RequesterNumbers {
        una: psn,
        retries: 0,
        rnrs: 0,
        ..numbers
    }
}

/// The numbers after all below a PSN is acknowledged, with the oldest unfinished request there.
fn numbers_at(numbers: RequesterNumbers, psn: u64, posting: u64, first: u64) -> RequesterNumbers
    ensures { result ≡ reached_numbers psn posting first numbers }
{
    RequesterNumbers {
        oldest: posting,
        oldest_psn: first,
        ..with_una(numbers, psn)
    }
}

/// How far an acknowledgement goes, whether it went back, and the oldest unfinished request before it did: its posting
/// place, and the first PSN that it has or would get.
#[derive(Clone, Copy)]
pub(crate) struct Acknowledged {
    pub until: u64,
    pub went_back: bool,
    pub posting: u64,
    pub first: u64,
}

/// The numbers behind an acknowledgement, before it went back.
pub(crate) fn numbers_after(q: &QueuePart, acknowledged: Acknowledged) -> RequesterNumbers
    ensures { result ≡ numbers_behind acknowledged q.now }
{
    numbers_at(
        q.requester,
        acknowledged.until,
        acknowledged.posting,
        acknowledged.first,
    )
}

/// All below a PSN is acknowledged. A READ or an atomic there that was not answered is an implied NAK: the requester goes
/// back to it. It takes no memory.
#[inline(always)]
pub(crate) fn acknowledged_below(q: &QueuePart, psn: u64) -> Acknowledged
    requires { CanStep q.now }
    ensures { IsAcknowledged psn q.now result }
{
    oldest_below(q, psn).acknowledged
}

/// An acknowledgement of all below a PSN, and the oldest unfinished request behind it, where that has begun.
#[derive(Drop)]
pub(crate) struct OldestBelow<'a> {
    pub acknowledged: Acknowledged,
    pub oldest: Option<Numbered<'a>>,
}

/// All below a PSN is acknowledged, as above; with the request at which that ends.
#[inline(always)]
pub(crate) fn oldest_below(q: &QueuePart, psn: u64) -> OldestBelow<'_>
    requires { CanStep q.now }
    ensures acknowledged { IsAcknowledged psn q.now result.acknowledged }
    ensures oldest { IsOldest psn q.now result.acknowledged result.oldest }
{
    let reached = reached_by(
        q,
        q.requester.oldest,
        q.requester.oldest_psn,
        q.requester.una,
        psn,
    );
    match reached.back {
        None => OldestBelow {
            acknowledged: Acknowledged {
                until: psn,
                went_back: false,
                posting: reached.posting,
                first: reached.first,
            },
            oldest: reached.request,
        },
        Some(back) => OldestBelow {
            acknowledged: Acknowledged {
                until: back,
                went_back: true,
                posting: reached.posting,
                first: reached.first,
            },
            oldest: reached.request,
        },
    }
}

/// The PSN behind those that are acknowledged is acknowledged too, by an answer to the oldest unfinished request.
#[inline(always)]
pub(crate) fn acknowledged_by_answer(
    q: &QueuePart,
    before: &Acknowledged,
    oldest: &Numbered<'_>,
) -> Acknowledged
    requires progress { IsProgress before.now.until q.now.requester (numbers_behind before.now q.now) q.now }
    requires oldest { IsNumbered before.now.posting before.now.first q.now oldest.now }
    requires begun { before.now.posting < q.now.requester.next }
    requires narrow { before.now.until < 2 ^ 62 }
    ensures { IsProgress (suc before.now.until) (numbers_behind before.now q.now) (numbers_behind result q.now) q.now }
{
    let until = before.until + 1;
    let una = q.requester.una.max(until);
    if oldest.end() > una {
        return Acknowledged {
            until,
            went_back: false,
            posting: before.posting,
            first: before.first,
        };
    }
    let reached = reached_by(q, before.posting + 1, oldest.end(), una, una);
    Acknowledged {
        until,
        went_back: false,
        posting: reached.posting,
        first: reached.first,
    }
}

/// Whether a request is a READ or an atomic, and has a PSN from `una` on and below another.
fn is_unanswered(n: &Numbered<'_>, una: u64, psn: u64) -> bool
    requires { n.now.first + n.now.count < 2 ^ 63 }
    ensures { result ≡ (is_answered_op n.now.request.op && nat_lt una (psn_end n.now)
        && nat_lt (max una n.now.first) psn) }
{
    is_answered(n.op()) && una < n.end() && una.max(n.first) < psn
}
