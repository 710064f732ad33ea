ghost use Rattle.std.specs.Prelude.{◌≡◌, ◌<◌, ◌^◌, true, Some, IfSome};
ghost use Rattle.std.specs.Option.{option_and_then};
ghost use Rattle.ca_model.specs.machine.Acknowledgements.{acknowledgement_below};
ghost use Rattle.ca_model.specs.machine.CanStep.{CanStep};
ghost use Rattle.ca_model.specs.machine.Responses as rows;
ghost use Rattle.ca_wire.specs.Syndrome.{syndrome_in};
ghost use Rattle.ca_requester.specs.Progress.{IsProgress, acknowledgement_of, if_has_psn, numbers_behind};
ghost use Rattle.ca_requester.specs.Responses.{IsArrival, bad_answer_effects, if_fits};
ghost use Rattle.ca_requester_sends.specs.Numbering.{IsRequestOf, IsSound};
ghost use Rattle.ca_requester_sends.specs.Outcome.{IsUnder, Makes, failure_of};
ghost use Rattle.ca_requester_sends.specs.declared.outcome.Outcome.TheVariants.{Fails};

use crate::progress::{Acknowledged, acknowledged_below, numbers_after};
use ca_base::limits::MAX_RETRY;
use ca_base::{RequesterNumbers, WcStatus};
use ca_model::Drop1;
use ca_psn::widen;
use ca_requester_sends::ca_qp_rows::{is_atomic, is_read, list_length, list_of};
use ca_requester_sends::ca_qpstate::QueuePart;
use ca_requester_sends::{Failure, Numbered, Outcome, is_sending, one_retry};
use ca_wire::opcode::{
    ACKNOWLEDGE, ATOMIC_ACKNOWLEDGE, RDMA_READ_RESPONSE_LAST, RDMA_READ_RESPONSE_ONLY,
};
use ca_wire::{NakCode, Packet, Syndrome};

/// What a response says, and the PSN of which it says it.
#[derive(Clone, Copy)]
pub(crate) enum Arrival {
    /// The packet is dropped.
    Drops(Drop1),
    /// All up to a PSN is acknowledged.
    Acks(u64),
    /// The peer has no receive for the request at a PSN.
    RnrNaks(u64),
    /// The request at a PSN is refused.
    Naks(u64, NakCode),
    /// It answers the request at a PSN, if it fits it.
    Fits(u64),
}

/// What a response says: it is dropped in the wrong state, or where its PSN is not outstanding. It takes no memory.
#[inline(always)]
pub(crate) fn arrival_of(q: &QueuePart, p: &Packet<'_>) -> Arrival
    requires step { CanStep q.now }
    requires psn { p.now.psn < 2 ^ 24 }
    ensures { IsArrival p.now q.now result }
{
    if !is_sending(q.state) {
        return Arrival::Drops(Drop1::State);
    }
    let psn = widen(q.requester.una, p.psn);
    if psn < q.requester.una || q.requester.cursor <= psn {
        return Arrival::Drops(Drop1::Stale);
    }
    if p.opcode != ACKNOWLEDGE {
        return Arrival::Fits(psn);
    }
    match syndrome_of(p) {
        None => Arrival::Drops(Drop1::Stale),
        Some(Syndrome::Ack(_)) => Arrival::Acks(psn),
        Some(Syndrome::RnrNak(_)) => Arrival::RnrNaks(psn),
        Some(Syndrome::Nak(code)) => Arrival::Naks(psn, code),
    }
}

/// What the packet's AETH says.
fn syndrome_of(p: &Packet<'_>) -> Option<Syndrome>
    ensures { result ≡ option_and_then (λ a. syndrome_in a.syndrome) p.now.aeth }
{
    match p.aeth {
        None => None,
        Some(aeth) => Syndrome::of(aeth.syndrome),
    }
}

/// A READ or an atomic that was not answered is an implied NAK: one retry, and back to it.
pub(crate) fn on_implied_nak(q: &QueuePart, acknowledged: Acknowledged) -> Outcome
    requires { IsProgress acknowledged.until q.now.requester (numbers_behind acknowledged q.now) q.now }
    ensures { Makes (acknowledgement_of true acknowledged.until q.now).effects q.now result }
{
    one_retry(numbers_after(q, acknowledged), acknowledged.until)
}

/// An RNR NAK of the request at a PSN.
pub(crate) fn on_rnr_nak(q: &QueuePart, psn: u64) -> Outcome
    requires { CanStep q.now }
    ensures { Makes (rows.unless_back (acknowledgement_below psn q.now) (rows.rnr_nak_effects psn)) q.now result }
{
    let acknowledged = acknowledged_below(q, psn);
    if acknowledged.went_back {
        return on_implied_nak(q, acknowledged);
    }
    rnr_nak(numbers_after(q, acknowledged), psn)
}

/// A NAK of the request at a PSN.
pub(crate) fn on_nak(q: &QueuePart, psn: u64, code: NakCode) -> Outcome
    requires { CanStep q.now }
    ensures { Makes (rows.unless_back (acknowledgement_below psn q.now) (rows.nak_effects psn code)) q.now result }
{
    let acknowledged = acknowledged_below(q, psn);
    if acknowledged.went_back {
        return on_implied_nak(q, acknowledged);
    }
    nak(numbers_after(q, acknowledged), psn, code)
}

/// An RNR NAK: where the count is used up the request fails, and else it is sent again after a wake. A limit of 7 has no
/// end.
fn rnr_nak(numbers: RequesterNumbers, psn: u64) -> Outcome
    requires { numbers.rnrs < 2 ^ 62 }
    ensures { IsUnder numbers (rows.rnr_nak_effects psn) result }
{
    let counted = RequesterNumbers {
        rnrs: numbers.rnrs + 1,
        ..numbers
    };
    if numbers.rnr_retry < MAX_RETRY && u64::from(numbers.rnr_retry) <= numbers.rnrs {
        return failure(counted, WcStatus::RnrRetryExceeded);
    }
    Outcome::Goes(RequesterNumbers {
        cursor: psn,
        waiting: true,
        ..counted
    })
}

/// A NAK: 0 asks for the packets again, the others fail the request.
fn nak(numbers: RequesterNumbers, psn: u64, code: NakCode) -> Outcome
    requires { numbers.retries < 255 }
    ensures { IsUnder numbers (rows.nak_effects psn code) result }
{
    match code {
        NakCode::PsnSequenceError => one_retry(numbers, psn),
        NakCode::InvalidRequest => failure(numbers, WcStatus::RemoteInvalidRequest),
        NakCode::RemoteAccessError => failure(numbers, WcStatus::RemoteAccess),
        NakCode::RemoteOperationalError => failure(numbers, WcStatus::RemoteOperation),
    }
}

/// The oldest unfinished request fails, and no local operation is its cause.
fn failure(numbers: RequesterNumbers, status: WcStatus) -> Outcome
    ensures { result ≡ Fails (failure_of numbers status) }
{
    Outcome::Fails(Failure {
        numbers,
        status,
        cause: None,
    })
}

/// An answer that does not fit its request fails it.
pub(crate) fn on_bad_answer(q: &QueuePart, acknowledged: Acknowledged) -> Outcome
    requires { IsProgress acknowledged.until q.now.requester (numbers_behind acknowledged q.now) q.now }
    ensures { Makes (bad_answer_effects acknowledged.until q.now) q.now result }
{
    failure(numbers_after(q, acknowledged), WcStatus::BadResponse)
}

/// The oldest unfinished request, where it has a PSN and a response fits it.
#[tactic(auto, using(crate::proofs::ResponseLemmas::fits_all, crate::proofs::ResponseLemmas::fits_not, crate::proofs::ResponseLemmas::has_not))]
#[inline(always)]
pub(crate) fn fitting_request<'a>(
    q: &'a QueuePart,
    p: &Packet<'_>,
    psn: u64,
    oldest: Option<Numbered<'a>>,
) -> Option<Numbered<'a>>
    requires { IfSome oldest (λ n. IsSound q.now n) }
    ensures value { result ≡ if_fits psn p.now q.now (if_has_psn psn oldest.entry) }
    ensures oldest { IfSome result (λ n. oldest.entry ≡ Some n) }
    ensures request { IfSome result (λ n. IsRequestOf psn q.now n) }
{
    match oldest {
        Some(request) if request.has_psn(psn) && fits(q, p, psn, &request) => Some(request),
        _ => None,
    }
}

/// Whether a response fits its request: a READ's segment by its length and by whether it is the last, an atomic's answer
/// an atomic.
#[inline(always)]
fn fits(q: &QueuePart, p: &Packet<'_>, psn: u64, n: &Numbered<'_>) -> bool
    requires { IsRequestOf psn q.now n.now }
    ensures { result ≡ rows.fits_request psn p.now q.now n.now }
{
    if p.opcode == ATOMIC_ACKNOWLEDGE {
        return is_atomic(n.op());
    }
    if !is_read(n.op()) || p.payload.len() as u64 != segment_length(q, psn, n) {
        return false;
    }
    ends_read(p.opcode) == (psn + 1 == n.end())
}

/// First and Middle do not end a READ, Last and Only do.
fn ends_read(opcode: u8) -> bool
    ensures { result ≡ rows.ends_read opcode }
{
    opcode == RDMA_READ_RESPONSE_LAST || opcode == RDMA_READ_RESPONSE_ONLY
}

/// How many bytes the segment of a request's message at a PSN has.
fn segment_length(q: &QueuePart, psn: u64, n: &Numbered<'_>) -> u64
    requires { IsRequestOf psn q.now n.now }
    ensures { result ≡ rows.segment_length psn q.now n.now }
{
    let mtu = u64::from(q.responder.mtu);
    let before = u64::from((psn - n.first) as u32) * mtu;
    mtu.min(u64::from(list_length(list_of(n.op()))).saturating_sub(before))
}
