ghost use Rattle.std.specs.Prelude.{◌≡◌, ◌≤◌, ◌<◌, ◌^◌, [], suc, true, IfSome, length};
ghost use Rattle.ca_keys.specs.declared.access.Kind.{Kind};
ghost use Rattle.ca_base.specs.declared.limits.TheConstants.{MAX_PAYLOAD_BYTES};
ghost use Rattle.ca_requester_sends.specs.ca_grant.Reaching.{AreAtHand};
ghost use Rattle.ca_model.specs.Packets.{is_response};
ghost use Rattle.ca_model.specs.machine.Acknowledgements.{acknowledgement_below, progress_to};
ghost use Rattle.ca_model.specs.machine.CanStep.{CanStep};
ghost use Rattle.ca_model.specs.machine.Responses as rows;
ghost use Rattle.ca_model.specs.machine.Row.{Does, ending_of};
ghost use Rattle.ca_wire.specs.Packet.{IsWellFormed};
ghost use Rattle.ca_requester.specs.Progress.{IsProgress, acknowledgement_of, numbers_behind};
ghost use Rattle.ca_requester.specs.Responses.{CanWriteBy, IsTakenAnswer, answer_effects, bad_answer_effects, denied_effects};
ghost use Rattle.ca_requester_sends.specs.ca_qp_rows.Asks.{AreAsksFor, IsFoundFirst};
ghost use Rattle.ca_requester_sends.specs.ca_qp_rows.Made.{IsMade, IsTaking};
ghost use Rattle.ca_requester_sends.specs.Numbering.{IsRequestOf};

use crate::progress::{
    Acknowledged, OldestBelow, acknowledged_below, acknowledged_by_answer, numbers_after,
    oldest_below,
};
use crate::responses::{
    Arrival, arrival_of, fitting_request, on_bad_answer, on_implied_nak, on_nak, on_rnr_nak,
};
use arrayvec::ArrayVec;
use ca_base::limits::{ATOMIC_BYTES, MAX_PIECES};
use ca_base::{Ask, DeniedAsk, Kind, Memory, WcStatus};
use ca_model::{Marks, SPARE_MARKS};
use ca_requester_sends::ca_grant::Reach;
use ca_requester_sends::ca_qp_rows::{
    Asker, JudgedAsks, drop_packet, fill_asks, judge_all, list_of, local_denial, push_writes,
    write_judged,
};
use ca_requester_sends::ca_qpstate::QueuePart;
use ca_requester_sends::{
    Failure, Numbered, Outcome, complete_before, finished_count, make, push_finished,
};
use ca_wire::opcode::ATOMIC_ACKNOWLEDGE;
use ca_wire::{NakCode, Packet};

/// The asks that `on_response` may make, in order; it makes no other. It takes no memory.
pub fn response_asks(q: &QueuePart, p: &Packet<'_>) -> ArrayVec<Ask, MAX_PIECES>
    requires step { CanStep q.now }
    requires packet { IsWellFormed p.now }
    ensures { result.items ≡ (rows.response_row p.now q.now).asks }
{
    match arrival_of(q, p) {
        Arrival::Fits(psn) => answer_asks(q, p, psn),
        Arrival::Drops(_) | Arrival::Acks(_) | Arrival::RnrNaks(_) | Arrival::Naks(_, _) => {
            ArrayVec::new()
        }
    }
}

/// The asks of an answer with this PSN.
fn answer_asks(q: &QueuePart, p: &Packet<'_>, psn: u64) -> ArrayVec<Ask, MAX_PIECES>
    requires step { CanStep q.now }
    requires packet { IsWellFormed p.now }
    requires psn { psn < 2 ^ 62 }
    ensures { result.items ≡ (rows.fitting_row psn p.now (acknowledgement_below psn q.now)).asks }
{
    let mut asks = ArrayVec::new();
    let OldestBelow {
        acknowledged,
        oldest,
    } = oldest_below(q, psn);
    if acknowledged.went_back {
        return asks;
    }
    if let Some(request) = fitting_request(q, p, psn, oldest) {
        fill_answer_asks(q, p, psn, &request, &mut asks);
    }
    asks
}

/// Puts the asks for the places in its request's list to which an answer's bytes go into a list that is empty.
#[inline(always)]
fn fill_answer_asks(
    q: &QueuePart,
    p: &Packet<'_>,
    psn: u64,
    request: &Numbered<'_>,
    asks: &mut ArrayVec<Ask, MAX_PIECES>,
)
    requires packet { IsWellFormed p.now }
    requires request { IsRequestOf psn q.now request.now }
    requires empty { asks.old.items ≡ [] }
    ensures value { asks.new.items ≡ rows.answer_asks psn p.now q.now request.now }
    ensures asks { AreAsksFor Kind.Write (length (rows.answer_bytes p.now)) asks.new.items }
{
    let asker = Asker {
        queue: q.queue,
        domain: q.domain,
        kind: Kind::Write,
    };
    fill_asks(
        asker,
        bytes_before(q, psn, request),
        answer_length(p),
        list_of(request.op()),
        asks,
    );
}

/// Where an answer's bytes begin in its request's message.
#[tactic(auto, using(ca_requester_sends::proofs::NumberingLemmas::few_before))]
fn bytes_before(q: &QueuePart, psn: u64, request: &Numbered<'_>) -> u32
    requires { IsRequestOf psn q.now request.now }
    ensures { result ≡ rows.segment_at psn q.now request.now }
{
    (psn - request.first) as u32 * u32::from(q.responder.mtu)
}

/// How many bytes an answer brings: its payload, or the eight of what an atomic found.
fn answer_length(p: &Packet<'_>) -> u32
    requires { IsWellFormed p.now }
    ensures value { result ≡ length (rows.answer_bytes p.now) }
    ensures few { result ≤ MAX_PAYLOAD_BYTES }
{
    if p.opcode == ATOMIC_ACKNOWLEDGE {
        ATOMIC_BYTES
    } else {
        p.payload.len() as u32
    }
}

/// Takes a response that arrived: what it acknowledges completes, an answer's bytes go to the list of their request,
/// and what was refused is sent again or fails. After Ok there is room for two more marks, and `Memory` changes
/// nothing.
///
/// The packet is well formed, with a response's opcode. The parts of the keys of `response_asks` are at hand, and where
/// none of them is denied, the bytes too.
pub fn on_response<R: Reach>(
    q: &mut QueuePart,
    reach: &mut R,
    p: &Packet<'_>,
    marks: &mut Marks,
) -> Result<(), Memory>
    requires step { CanStep q.old }
    requires packet { IsWellFormed p.now }
    requires response { is_response p.now.opcode ≡ true }
    requires at_hand { AreAtHand R.sight R.judges R.touches reach.old (rows.response_row p.now q.old).asks }
    ensures { IsTaking R.written result (ending_of (R.sight reach.old) (rows.response_row p.now q.old))
        q.old q.new marks.old marks.new reach.old reach.new }
{
    match arrival_of(q, p) {
        Arrival::Drops(cause) => drop_packet(q, cause, marks),
        Arrival::Acks(psn) => take_ack(q, psn, marks),
        Arrival::RnrNaks(psn) => take_rnr_nak(q, psn, marks),
        Arrival::Naks(psn, code) => take_nak(q, psn, code, marks),
        Arrival::Fits(psn) => take_answer(q, reach, p, psn, marks),
    }
}

/// All up to a PSN is acknowledged: the requests that end there complete.
#[inline(always)]
fn take_ack(q: &mut QueuePart, psn: u64, marks: &mut Marks) -> Result<(), Memory>
    requires step { CanStep q.old }
    requires psn { psn < 2 ^ 62 }
    ensures { IsMade result (acknowledgement_below (suc psn) q.old).effects q.old q.new marks.old marks.new }
{
    let acknowledged = acknowledged_below(q, psn + 1);
    if acknowledged.went_back {
        return take_implied_nak(q, acknowledged, marks);
    }
    go_on(q, acknowledged, marks)
}

/// The requests before the one that is the oldest now complete, and the requester goes on.
#[tactic(auto, using(ca_requester_sends::proofs::OutcomeLemmas::is_ahead))]
#[inline(always)]
fn go_on(q: &mut QueuePart, acknowledged: Acknowledged, marks: &mut Marks) -> Result<(), Memory>
    requires { IsProgress acknowledged.until q.old.requester (numbers_behind acknowledged q.old) q.old }
    ensures { IsMade result (progress_to acknowledged.until q.old) q.old q.new marks.old marks.new }
{
    complete_before(q, acknowledged.posting, marks)?;
    q.requester = numbers_after(q, acknowledged);
    Ok(())
}

/// An implied NAK: the requests before the one that is the oldest now complete, and the requester goes back. It stands
/// apart, since that is rare.
#[cold]
#[inline(never)]
fn take_implied_nak(
    q: &mut QueuePart,
    acknowledged: Acknowledged,
    marks: &mut Marks,
) -> Result<(), Memory>
    requires { IsProgress acknowledged.until q.old.requester (numbers_behind acknowledged q.old) q.old }
    ensures { IsMade result
        (acknowledgement_of true acknowledged.until q.old).effects q.old q.new marks.old marks.new }
{
    let outcome = on_implied_nak(q, acknowledged);
    make(q, &outcome, None, marks)
}

/// The peer has no receive for the request at a PSN. It stands apart, since that is rare.
#[cold]
#[inline(never)]
fn take_rnr_nak(q: &mut QueuePart, psn: u64, marks: &mut Marks) -> Result<(), Memory>
    requires { CanStep q.old }
    ensures { IsMade result (rows.unless_back (acknowledgement_below psn q.old) (rows.rnr_nak_effects psn))
        q.old q.new marks.old marks.new }
{
    let outcome = on_rnr_nak(q, psn);
    make(q, &outcome, None, marks)
}

/// The request at a PSN is refused. It stands apart, since that is rare.
#[cold]
#[inline(never)]
fn take_nak(q: &mut QueuePart, psn: u64, code: NakCode, marks: &mut Marks) -> Result<(), Memory>
    requires { CanStep q.old }
    ensures { IsMade result (rows.unless_back (acknowledgement_below psn q.old) (rows.nak_effects psn code))
        q.old q.new marks.old marks.new }
{
    let outcome = on_nak(q, psn, code);
    make(q, &outcome, None, marks)
}

/// An answer to the request at a PSN. What it needs is large, so it stands apart from an acknowledgement.
#[inline(never)]
fn take_answer<R: Reach>(
    q: &mut QueuePart,
    reach: &mut R,
    p: &Packet<'_>,
    psn: u64,
    marks: &mut Marks,
) -> Result<(), Memory>
    requires step { CanStep q.old }
    requires packet { IsWellFormed p.now }
    requires psn { psn < 2 ^ 62 }
    requires at_hand { AreAtHand R.sight R.judges R.touches reach.old
        (rows.fitting_row psn p.now (acknowledgement_below psn q.old)).asks }
    ensures { IsTaking R.written result
        (ending_of (R.sight reach.old) (rows.fitting_row psn p.now (acknowledgement_below psn q.old)))
        q.old q.new marks.old marks.new reach.old reach.new }
{
    let OldestBelow {
        acknowledged,
        oldest,
    } = oldest_below(q, psn);
    if acknowledged.went_back {
        return take_implied_nak(q, acknowledged, marks);
    }
    let Some(request) = fitting_request(q, p, psn, oldest) else {
        return take_bad_answer(q, acknowledged, marks);
    };
    let taken = Taken {
        before: acknowledged,
        after: acknowledged_by_answer(q, &acknowledged, &request),
    };
    let mut asks = ArrayVec::new();
    fill_answer_asks(q, p, psn, &request, &mut asks);
    let asks = asks.as_slice();
    let [ask, behind @ ..] = asks else {
        return place_none(q, reach, taken, marks);
    };
    let checked = reach.check(ask);
    match judge_all(reach, ask, &checked, behind) {
        Ok(found) => {
            let found = Some(found);
            place(q, reach, p, taken, &JudgedAsks { asks, found }, marks)
        }
        Err(denied) => deny(q, acknowledged, &denied, marks),
    }
}

/// The answer does not fit its request, which fails. It stands apart, since that is rare.
#[cold]
#[inline(never)]
fn take_bad_answer(
    q: &mut QueuePart,
    acknowledged: Acknowledged,
    marks: &mut Marks,
) -> Result<(), Memory>
    requires { IsProgress acknowledged.until q.old.requester (numbers_behind acknowledged q.old) q.old }
    ensures { IsMade result (bad_answer_effects acknowledged.until q.old) q.old q.new marks.old marks.new }
{
    let outcome = on_bad_answer(q, acknowledged);
    make(q, &outcome, None, marks)
}

/// What is acknowledged with an answer: all below its PSN, and then that PSN too.
#[derive(Clone, Copy)]
pub(crate) struct Taken {
    pub before: Acknowledged,
    pub after: Acknowledged,
}

/// The list is denied: the request fails. It stands apart, since that is rare.
#[tactic(auto, using(ca_requester_sends::proofs::OutcomeLemmas::is_ahead))]
#[cold]
#[inline(never)]
fn deny(
    q: &mut QueuePart,
    acknowledged: Acknowledged,
    denied: &DeniedAsk,
    marks: &mut Marks,
) -> Result<(), Memory>
    requires { IsProgress acknowledged.until q.old.requester (numbers_behind acknowledged q.old) q.old }
    ensures { IsMade result (denied_effects acknowledged.until denied.now q.old) q.old q.new marks.old marks.new }
{
    let failure = Outcome::Fails(Failure {
        numbers: numbers_after(q, acknowledged),
        status: WcStatus::LocalProtection,
        cause: None,
    });
    make(q, &failure, Some(local_denial(denied)), marks)
}

/// The answer has no bytes. It stands apart, since that is rare.
#[cold]
#[inline(never)]
fn place_none<R: Reach>(
    q: &mut QueuePart,
    reach: &mut R,
    taken: Taken,
    marks: &mut Marks,
) -> Result<(), Memory>
    requires taken { IsTakenAnswer q.old taken }
    ensures { IsTaking R.written result (Does (answer_effects taken.before.until [] [] q.old))
        q.old q.new marks.old marks.new reach.old reach.new }
{
    let none = JudgedAsks {
        asks: &[],
        found: None,
    };
    place_bytes(q, reach, &[], taken, &none, marks)
}

/// The answer's bytes go to the list: its payload, or those of the number that an atomic found.
#[inline(always)]
fn place<R: Reach>(
    q: &mut QueuePart,
    reach: &mut R,
    p: &Packet<'_>,
    taken: Taken,
    judged: &JudgedAsks<'_, '_>,
    marks: &mut Marks,
) -> Result<(), Memory>
    requires taken { IsTakenAnswer q.old taken }
    requires can { CanWriteBy R.sight R.judges R.touches reach.old judged.now.asks.now (rows.answer_bytes p.now) }
    requires found { IfSome judged.now.found (λ f. IsFoundFirst (R.sight reach.old) judged.now.asks.now f.now) }
    ensures { IsTaking R.written result
        (Does (answer_effects taken.before.until (rows.answer_bytes p.now) judged.now.asks.now q.old))
        q.old q.new marks.old marks.new reach.old reach.new }
{
    if p.opcode == ATOMIC_ACKNOWLEDGE {
        let found = p.result.unwrap_or(0).to_le_bytes();
        return place_bytes(q, reach, &found, taken, judged, marks);
    }
    place_bytes(q, reach, p.payload, taken, judged, marks)
}

/// These bytes go to the list, and all up to the answer's PSN is acknowledged.
#[inline(always)]
fn place_bytes<R: Reach>(
    q: &mut QueuePart,
    reach: &mut R,
    bytes: &[u8],
    taken: Taken,
    judged: &JudgedAsks<'_, '_>,
    marks: &mut Marks,
) -> Result<(), Memory>
    requires taken { IsTakenAnswer q.old taken }
    requires can { CanWriteBy R.sight R.judges R.touches reach.old judged.now.asks.now bytes.now }
    requires found { IfSome judged.now.found (λ f. IsFoundFirst (R.sight reach.old) judged.now.asks.now f.now) }
    ensures { IsTaking R.written result (Does (answer_effects taken.before.until bytes.now judged.now.asks.now q.old))
        q.old q.new marks.old marks.new reach.old reach.new }
{
    let count = finished_count(q, taken.after.posting) + judged.asks.len() as u32;
    marks.reserve(count + SPARE_MARKS)?;
    let before = marks.as_slice().len();
    push_finished(q, q.requester.oldest, taken.before.posting, marks);
    if let Err(memory) = push_writes(q.alloc(), judged.asks, bytes, marks) {
        marks.truncate(before);
        return Err(memory);
    }
    write_judged(reach, judged, bytes);
    push_finished(q, taken.before.posting, taken.after.posting, marks);
    q.requester = numbers_after(q, taken.after);
    Ok(())
}
