ghost use Rattle.std.specs.Prelude.{◌≡◌, ℕ, IfOk, None, false};
ghost use Rattle.ca_keys.specs.Memory.{little_endian, little_endian_bytes};
ghost use Rattle.ca_base.specs.Sight.{bytes_in};
ghost use Rattle.ca_grant.specs.Reaching.{IsFound, kind_of};
ghost use Rattle.ca_base.specs.declared.limits.TheConstants.{ATOMIC_BYTES};
ghost use Rattle.ca_memory.specs.Number.{number_after};
ghost use Rattle.ca_wire.specs.Shapes.{IsAtomicKind};
ghost use Rattle.ca_wire.specs.declared.shape.Shape.{Shape};
ghost use Rattle.ca_model.specs.machine.Arrivals as arrivals;
ghost use Rattle.ca_model.specs.machine.CanStep.{CanStep};
ghost use Rattle.ca_model.specs.machine.Expected as rows;
ghost use Rattle.ca_responder_answers.specs.ca_qp_rows.Made.{IsMade};
ghost use Rattle.ca_responder_operations.specs.Requests.{IsRequest};
ghost use Rattle.ca_responder_operations.specs.Taking.{CanMeet, IsTaken, outcome_in};
ghost use Rattle.ca_responder_operations.specs.Access.{read_effects};
ghost use Rattle.ca_responder_operations.specs.Atomics.{IsAtomicRequest, number_found, number_left};

use crate::request::{Request, SharedReceive};
use crate::write::deny;
use ca_base::limits::ATOMIC_BYTES;
use ca_base::{Ask, AtomicOp, DeniedAsk, Kind, Memory, Queued, Span, Verdict};
use ca_grant::Reach;
use ca_model::{Marks, SPARE_MARKS};
use ca_responder_answers::ca_qp_rows::segments;
use ca_responder_answers::ca_qpstate::QueuePart;
use ca_responder_answers::{packet_ask, pass, refuse_invalid, remote_mark};
use ca_wire::AtomicEth;

/// A READ Request is queued. It is judged as it is answered.
pub fn take_read(
    q: &mut QueuePart,
    request: &Request<'_>,
    marks: &mut Marks,
) -> Result<SharedReceive, Memory>
    requires { CanStep q.old }
    ensures made { IsMade result (read_effects (arrivals.with_flag false q.old) request.now.packet.now
        request.now.envelope) q.old q.new marks.old marks.new }
    ensures stays { IfOk result (λ shared. shared ≡ SharedReceive.Stays) }
{
    let p = request.packet;
    let Some(h) = p.reth else {
        refuse_invalid(q, marks)?;
        return Ok(SharedReceive::Stays);
    };
    let count = segments(q.responder.mtu, h.length);
    marks.reserve(SPARE_MARKS)?;
    q.responder.answers.push(Queued::Read {
        psn: q.responder.expected,
        key: h.key,
        address: h.address,
        left: h.length,
        first: true,
        envelope: request.envelope,
        duplicate: false,
    })?;
    pass(q, count, true);
    Ok(SharedReceive::Stays)
}

/// An atomic, which is judged for its eight bytes. It acts once, and what it found is saved and queued.
pub fn take_atomic<R: Reach>(
    q: &mut QueuePart,
    reach: &mut R,
    request: &Request<'_>,
    kind: Kind,
    marks: &mut Marks,
) -> Result<SharedReceive, Memory>
    requires step { CanStep q.old }
    requires request { IsRequest request.now }
    requires shape { request.now.shape ≡ Shape.Atomic kind }
    requires valid { rows.is_invalid q.old request.now.packet.now request.now.shape ≡ false }
    requires at_hand { CanMeet R.sight R.judges R.touches R.ends reach.old q.old
        (rows.valid_row (arrivals.with_flag false q.old) request.now.packet.now request.now.envelope None
        (Shape.Atomic kind)) }
    ensures taken { IsTaken R.written R.revoked result (outcome_in (R.sight reach.old)
        (rows.valid_row (arrivals.with_flag false q.old) request.now.packet.now request.now.envelope None
        (Shape.Atomic kind)))
        q.old q.new marks.old marks.new reach.old reach.new }
{
    let p = request.packet;
    let Some(a) = p.atomic else {
        refuse_invalid(q, marks)?;
        return Ok(SharedReceive::Stays);
    };
    let ask = packet_ask(q, a.key, kind, a.address, ATOMIC_BYTES, ATOMIC_BYTES);
    let found = match reach.check(&ask) {
        Ok(found) => found,
        Err(denial) => {
            deny(q, &DeniedAsk { ask, denial }, request.envelope, marks)?;
            return Ok(SharedReceive::Stays);
        }
    };
    place_atomic(
        q,
        reach,
        request,
        &AtomicAccess {
            ask,
            found,
            operands: a,
        },
        marks,
    )
}

/// The access of an atomic that is not denied: its ask, the places of its eight bytes, and its operands.
#[derive(Clone, Copy)]
pub struct AtomicAccess {
    pub ask: Ask,
    pub found: Span,
    pub operands: AtomicEth,
}

/// An atomic that is not denied acts. Its answer is queued before, and gets the number that was found, which is saved too.
fn place_atomic<R: Reach>(
    q: &mut QueuePart,
    reach: &mut R,
    request: &Request<'_>,
    access: &AtomicAccess,
    marks: &mut Marks,
) -> Result<SharedReceive, Memory>
    requires step { CanStep q.old }
    requires ask { access.now.ask ≡ arrivals.packet_ask q.old access.now.operands.key access.now.ask.kind
        access.now.operands.address ATOMIC_BYTES ATOMIC_BYTES }
    requires atomic { IsAtomicRequest R.sight R.judges R.touches reach.old access.now.ask }
    requires found { IsFound (R.sight reach.old) access.now.ask access.now.found }
    ensures taken { IsTaken R.written R.revoked result (outcome_in (R.sight reach.old)
        (rows.atomic_row (arrivals.with_flag false q.old) request.now.packet.now request.now.envelope
        access.now.ask.kind access.now.operands))
        q.old q.new marks.old marks.new reach.old reach.new }
{
    marks.reserve(SPARE_MARKS + 1)?;
    let psn = q.responder.expected;
    q.responder.answers.push(atomic_answer(psn, 0))?;
    let verdict = act(reach, access);
    let found = number_found(&verdict);
    q.responder.answers.set_last(atomic_answer(psn, found));
    q.saved.keep(psn, found);
    pass(q, 1, true);
    marks.push(remote_mark(&access.ask, request.envelope, verdict));
    Ok(SharedReceive::Stays)
}

/// The atomic acts: the eight bytes are found, and what it makes of them is put.
fn act<R: Reach>(reach: &mut R, access: &AtomicAccess) -> Verdict
    requires atomic { IsAtomicRequest R.sight R.judges R.touches reach.old access.now.ask }
    requires found { IsFound (R.sight reach.old) access.now.ask access.now.found }
    ensures verdict { let found = little_endian (bytes_in (R.sight reach.old) access.now.ask) in
        result ≡ Verdict.Swapped found (number_left access.now.ask.kind access.now.operands found) }
    ensures wrote { reach.new ≡ R.written reach.old access.now.ask
        (little_endian_bytes (number_left access.now.ask.kind access.now.operands
        (little_endian (bytes_in (R.sight reach.old) access.now.ask)))) }
{
    let op = atomic_op(access.ask.kind, &access.operands);
    reach.atomic_at(&access.ask, &access.found, op)
}

/// What an atomic does.
fn atomic_op(kind: Kind, a: &AtomicEth) -> AtomicOp
    requires { IsAtomicKind kind }
    ensures kind { kind_of result ≡ kind }
    ensures puts { (number : ℕ) → number_after result number ≡ number_left kind a.now number }
{
    match kind {
        Kind::CmpSwap => AtomicOp::CmpSwap {
            compare: a.compare,
            swap: a.swap,
        },
        _ => AtomicOp::FetchAdd { add: a.swap },
    }
}

/// The answer to an atomic that came for the first time.
fn atomic_answer(psn: u64, found: u64) -> Queued
    ensures { result ≡ Queued.Atomic psn found false }
{
    Queued::Atomic {
        psn,
        found,
        duplicate: false,
    }
}

/// The number that an atomic found.
fn number_found(verdict: &Verdict) -> u64
    ensures { result ≡ number_found verdict.now }
{
    match verdict {
        Verdict::Swapped { found, .. } => *found,
        _ => 0,
    }
}
