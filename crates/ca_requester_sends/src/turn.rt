ghost use Rattle.std.specs.Prelude.{◌≡◌, ◌+◌, ◌<◌, ◌^◌, true, IfOk, IfErr, sum_by, nat_lt};
ghost use Rattle.std.specs.List.{list_any};
ghost use Rattle.ca_keys.specs.Refusals.{first_of};
ghost use Rattle.ca_model.specs.machine.CanStep.{AreNarrow, CanStep};
ghost use Rattle.ca_model.specs.machine.Invariants as invariants;
ghost use Rattle.ca_model.specs.machine.Numbering as numbering;
ghost use Rattle.ca_model.specs.machine.Requester as requester;
ghost use Rattle.ca_requester_sends.specs.Numbering.{numbers_from, begun_from, IsWithin, IsNext, IsSound};
ghost use Rattle.ca_requester_sends.specs.Turn as turns;
ghost use Rattle.ca_requester_sends.specs.Turn.{IsFound, IsPosted, IsSending, IsTurnFound, IsTurnOn, IsWaiting, PerformsFound, SendsFound};
ghost use Rattle.ca_requester_sends.specs.declared.numbering.Next as nexts;

use crate::numbering::{Next, Numbered, begun_at, next_request, numbered_at};
use crate::state::is_sending;
use ca_base::limits::{MAX_OUTSTANDING_PACKETS, MAX_OUTSTANDING_PSNS};
use ca_base::{Reason, State};
use ca_qp_rows::ca_qpstate::QueuePart;
use ca_qp_rows::{is_answered, is_local, is_read};

/// What a requester's turn does. It is found once, and handed to the calls that do it.
#[derive(Clone, Copy)]
pub enum Turn {
    /// It performs a local operation.
    Performs(Found),
    /// It sends a packet of a request.
    Sends(Found),
}

/// What stands for a posted request that a turn found: its posting place, its first PSN, how many it has or would get, and
/// whether it begins. It holds as long as the queue pair stays as it is.
#[derive(Clone, Copy)]
pub struct Found {
    pub place: u64,
    pub first: u64,
    pub count: u32,
    pub begins: bool,
}

/// What the requester's turn does, or the first reason for which it does nothing: `State`, `RnrWait`, `Empty`, `Fence`, and
/// of a packet `Outstanding`. It takes no memory.
#[tactic(auto, using(crate::proofs::TurnLemmas::is_packet))]
pub fn next_turn(q: &QueuePart) -> Result<Turn, Reason>
    requires { CanStep q.now }
    ensures waits { IfErr result (λ reason. IsWaiting q.now reason) }
    ensures does { IfOk result (λ turn. IsTurnFound q.now turn) }
{
    match turn_of(q) {
        Err(reason) => Err(reason),
        Ok(next) if is_local(next.request.op()) => Ok(Turn::Performs(found_of(&next))),
        Ok(next) if is_too_much(q, &next.request) => Err(Reason::Outstanding),
        Ok(next) => Ok(Turn::Sends(found_of(&next))),
    }
}

/// What stands for the request of which the next thing is.
#[inline(always)]
fn found_of(next: &Next<'_>) -> Found
    ensures { result ≡ turns.found_of next.now }
{
    Found {
        place: next.request.place,
        first: next.request.first,
        count: next.request.count,
        begins: next.begins,
    }
}

/// The request that was found.
#[tactic(auto, using(crate::proofs::TurnLemmas::same_next, crate::proofs::TurnLemmas::posted_there))]
#[inline(always)]
fn next_of<'a>(q: &'a QueuePart, found: &Found) -> Next<'a>
    requires { IsPosted q.now found.now }
    ensures { (next : nexts.Next) → IsFound q.now found.now next → result ≡ next }
{
    match q.sends.get(found.place) {
        Some(posted) => Next {
            request: Numbered {
                place: found.place,
                posted,
                first: found.first,
                count: found.count,
            },
            begins: found.begins,
        },
        None => unreachable!(),
    }
}

/// The request of which the turn sends a packet.
#[inline(always)]
pub(crate) fn sending_of<'a>(q: &'a QueuePart, found: &Found) -> Next<'a>
    requires { SendsFound q.now found.now }
    ensures { IsSending q.now result }
{
    next_of(q, found)
}

/// The local operation that the turn performs.
#[inline(always)]
pub(crate) fn performing_of<'a>(q: &'a QueuePart, found: &Found) -> Next<'a>
    requires { PerformsFound q.now found.now }
    ensures turn { requester.turn_of q.now ≡ requester.Performs result.request }
    ensures place { found.now.place ≡ result.request.place }
    ensures sound { IsSound q.now result.request }
{
    next_of(q, found)
}

/// The request on which a requester's turn does something, or the first reason for which it is not possible: `State`,
/// `RnrWait`, `Empty`, `Fence`.
#[inline(always)]
fn turn_of(q: &QueuePart) -> Result<Next<'_>, Reason>
    requires { CanStep q.now }
    ensures waits { IfErr result (λ reason. requester.turn_of q.now ≡ requester.Waits reason) }
    ensures acts { IfOk result (λ next. IsTurnOn q.now next) }
{
    if !is_sending(q.state) {
        return Err(Reason::State);
    }
    match next_request(q) {
        None if q.requester.waiting => Err(Reason::RnrWait),
        None => Err(Reason::Empty),
        Some(next) => match refusal(q, &next) {
            Some(reason) => Err(reason),
            None => Ok(next),
        },
    }
}

/// The first reason that stands against the next thing, which is one of this request.
#[inline(always)]
fn refusal(q: &QueuePart, next: &Next<'_>) -> Option<Reason>
    requires next { IsNext q.now next.now }
    requires sending { invariants.is_sending q.now.state ≡ true }
    ensures { result ≡ first_of (requester.turn_refusals q.now) }
{
    if next.begins && matches!(q.state, State::Sqd) {
        return Some(Reason::State);
    }
    if q.requester.waiting {
        return Some(Reason::RnrWait);
    }
    if is_fenced(q, next) {
        return Some(Reason::Fence);
    }
    None
}

/// Whether a request that begins has to wait for earlier ones: a local operation for all, one with the fence for READs
/// and atomics.
#[tactic(auto, using(crate::proofs::NumberingLemmas::start_within))]
#[inline(always)]
fn is_fenced(q: &QueuePart, next: &Next<'_>) -> bool
    requires { IsNext q.now next.now }
    ensures { result ≡ requester.is_fenced q.now }
{
    if !next.begins {
        return false;
    }
    if is_local(next.request.op()) && q.requester.oldest < q.requester.next {
        return true;
    }
    next.request.request().fence && awaits_answer(q, q.requester.oldest, q.requester.oldest_psn)
}

/// Whether one of the requests from a posting place on that have begun is a READ or an atomic.
fn awaits_answer(q: &QueuePart, posting: u64, first: u64) -> bool
    requires { IsWithin posting first q.now }
    ensures { result ≡ list_any (λ m. numbering.is_answered_op m.request.op) (begun_from posting first q.now) }
{
    match begun_at(q, posting, first) {
        None => false,
        Some(n) if is_answered(n.op()) => true,
        Some(n) => awaits_answer(q, posting + 1, first + u64::from(n.count)),
    }
}

/// The PSN behind the next packet: a READ Request takes those of all its responses.
pub(crate) fn end_of_packet(q: &QueuePart, n: &Numbered<'_>) -> u64
    requires narrow { AreNarrow q.now }
    requires sound { IsSound q.now n.now }
    ensures value { result ≡ requester.end_of_packet q.now n.now }
    ensures narrow { result < 2 ^ 63 }
{
    if is_read(n.op()) {
        n.end()
    } else {
        q.requester.cursor + 1
    }
}

/// Whether with the packet too much would be outstanding: PSNs, request packets, or READs and atomics. Where no more PSNs
/// would be than READs may be, nothing need be counted.
#[inline(always)]
fn is_too_much(q: &QueuePart, n: &Numbered<'_>) -> bool
    requires step { CanStep q.now }
    requires sound { IsSound q.now n.now }
    ensures { result ≡ requester.is_too_much q.now n.now }
{
    let upto = end_of_packet(q, n);
    if upto.saturating_sub(q.requester.una) <= u64::from(q.requester.reads) {
        return false;
    }
    is_too_much_below(q, upto)
}

/// Whether too much would be outstanding below a PSN, where all is counted.
#[tactic(auto, using(crate::proofs::NumberingLemmas::start_within))]
#[inline(never)]
fn is_too_much_below(q: &QueuePart, upto: u64) -> bool
    requires { CanStep q.now }
    ensures { (n : numbering.Numbered) → requester.end_of_packet q.now n ≡ upto
        → result ≡ requester.is_too_much q.now n }
{
    let oldest = q.requester.oldest;
    let psn = q.requester.oldest_psn;
    upto.saturating_sub(q.requester.una) > u64::from(MAX_OUTSTANDING_PSNS)
        || has_more_packets(q, oldest, psn, upto, u64::from(MAX_OUTSTANDING_PACKETS))
        || has_more_answers(q, oldest, psn, upto, u64::from(q.requester.reads))
}

/// Whether more request packets than so many lie from `una` on and below a PSN, among the requests from a posting place
/// on. No more lie there than PSNs.
fn has_more_packets(q: &QueuePart, posting: u64, first: u64, upto: u64, most: u64) -> bool
    requires { IsWithin posting first q.now }
    ensures { result ≡ nat_lt most
        (sum_by (requester.packets_between q.now.requester.una upto) (numbers_from posting first q.now)) }
{
    if upto.saturating_sub(q.requester.una.max(first)) <= most {
        return false;
    }
    let Some(n) = numbered_at(q, posting, first) else {
        return false;
    };
    let packets = packets_between(q.requester.una, upto, &n);
    packets > most
        || has_more_packets(
            q,
            posting + 1,
            first + u64::from(n.count),
            upto,
            most - packets,
        )
}

/// Whether more READs and atomics than so many lie there.
fn has_more_answers(q: &QueuePart, posting: u64, first: u64, upto: u64, most: u64) -> bool
    requires { IsWithin posting first q.now }
    ensures { result ≡ nat_lt most
        (sum_by (requester.answers_between q.now.requester.una upto) (numbers_from posting first q.now)) }
{
    if upto.saturating_sub(q.requester.una.max(first)) <= most {
        return false;
    }
    let Some(n) = numbered_at(q, posting, first) else {
        return false;
    };
    let answers = answers_between(q.requester.una, upto, &n);
    answers > most
        || has_more_answers(
            q,
            posting + 1,
            first + u64::from(n.count),
            upto,
            most - answers,
        )
}

/// How many request packets of a request lie from one PSN on and below another; a READ counts once.
fn packets_between(from: u64, upto: u64, n: &Numbered<'_>) -> u64
    requires { n.now.first + n.now.count < 2 ^ 63 }
    ensures { result ≡ requester.packets_between from upto n.now }
{
    let psns = psns_between(from, upto, n);
    if is_read(n.op()) { psns.min(1) } else { psns }
}

/// Whether a READ or an atomic has PSNs there, as 1 or 0.
fn answers_between(from: u64, upto: u64, n: &Numbered<'_>) -> u64
    requires { n.now.first + n.now.count < 2 ^ 63 }
    ensures { result ≡ requester.answers_between from upto n.now }
{
    if is_answered(n.op()) {
        psns_between(from, upto, n).min(1)
    } else {
        0
    }
}

/// How many PSNs of a request lie from one PSN on and below another.
fn psns_between(from: u64, upto: u64, n: &Numbered<'_>) -> u64
    requires { n.now.first + n.now.count < 2 ^ 63 }
    ensures { result ≡ requester.psns_between from upto n.now }
{
    upto.min(n.end()).saturating_sub(from.max(n.first))
}
