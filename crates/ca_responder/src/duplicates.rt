ghost use Rattle.std.specs.Prelude.{◌≡◌, ◌<◌, ◌^◌, ◌∷◌, [], ◌++◌, if◌then◌else◌, OnOk, OnErr, false};
ghost use Rattle.ca_base.specs.objects.Answers.{answers_before, has_nak_from};
ghost use Rattle.ca_model.specs.machine.Duplicates as rows;
ghost use Rattle.ca_model.specs.machine.Invariants.{IsQueue};
ghost use Rattle.ca_model.specs.machine.CanStep.{CanStep};
ghost use Rattle.ca_responder_operations.specs.ca_qp_rows.Made.{IsMade};

use ca_base::limits::MAX_DUPLICATES;
use ca_base::{Answers, Memory, Queued};
use ca_model::{Drop1, Marks, SPARE_MARKS};
use ca_responder_operations::Request;
use ca_responder_operations::ca_qp_rows::{drop_packet, segments};
use ca_responder_operations::ca_qpstate::QueuePart;
use ca_responder_operations::ca_responder_answers::queue_answer;
use ca_wire::{NakCode, Reth, Shape};

/// A packet ahead of the expected one: the first asks for what is missing, the others are dropped.
pub fn take_ahead(q: &mut QueuePart, marks: &mut Marks) -> Result<(), Memory>
    ensures { IsMade result (rows.ahead_effects q.old) q.old q.new marks.old marks.new }
{
    if q.responder.nak_sent {
        return drop_packet(q, Drop1::Stale, marks);
    }
    let answer = Queued::Nak {
        psn: q.responder.expected,
        code: NakCode::PsnSequenceError.code(),
    };
    queue_answer(q, answer, true, marks)
}

/// A packet that comes once more, by its whole PSN. It is answered once more, and nothing of it is done again.
pub fn take_duplicate(
    q: &mut QueuePart,
    psn: u64,
    request: &Request<'_>,
    marks: &mut Marks,
) -> Result<(), Memory>
    requires step { CanStep q.old }
    requires some { 0 < psn }
    requires narrow { psn < 2 ^ 62 }
    ensures { IsMade result (rows.duplicate_effects psn request.now.packet.now request.now.envelope
        request.now.shape q.old)
        q.old q.new marks.old marks.new }
{
    if q.responder.answers.duplicate_count() >= MAX_DUPLICATES {
        return drop_packet(q, Drop1::Unsaved, marks);
    }
    let p = request.packet;
    match request.shape {
        Shape::Send(_) => ack_again(q, marks),
        Shape::Write(_) => ack_again(q, marks),
        Shape::Read => match p.reth {
            Some(h) => read_again(q, psn, request.envelope, &h, marks),
            None => drop_packet(q, Drop1::Unsaved, marks),
        },
        Shape::Atomic(_) => match q.saved.find(psn) {
            Some(found) => {
                let answer = Queued::Atomic {
                    psn,
                    found,
                    duplicate: true,
                };
                answer_again(q, psn, answer, marks)
            }
            None => drop_packet(q, Drop1::Unsaved, marks),
        },
    }
}

/// A SEND or a WRITE once more: an acknowledgement of all that came, where nothing waits to be answered.
fn ack_again(q: &mut QueuePart, marks: &mut Marks) -> Result<(), Memory>
    requires { IsQueue q.old }
    ensures { IsMade result (rows.ack_again q.old) q.old q.new marks.old marks.new }
{
    if q.responder.answers.len() != 0 {
        return drop_packet(q, Drop1::Unsaved, marks);
    }
    let psn = q.responder.expected - 1;
    let sent = q.responder.nak_sent;
    queue_answer(q, Queued::Ack { psn }, sent, marks)
}

/// A READ once more, where all its PSNs lie before the expected one.
fn read_again(
    q: &mut QueuePart,
    psn: u64,
    envelope: Option<u64>,
    h: &Reth,
    marks: &mut Marks,
) -> Result<(), Memory>
    requires queue { IsQueue q.old }
    requires some { 0 < psn }
    requires narrow { psn < 2 ^ 62 }
    ensures { IsMade result (rows.read_again psn envelope h.now q.old) q.old q.new marks.old marks.new }
{
    if psn + segments(q.responder.mtu, h.length) > q.responder.expected {
        return drop_packet(q, Drop1::Unsaved, marks);
    }
    let answer = Queued::Read {
        psn,
        key: h.key,
        address: h.address,
        left: h.length,
        first: true,
        envelope,
        duplicate: true,
    };
    answer_again(q, psn, answer, marks)
}

/// An answer is given once more: those from its PSN on are removed, and where a NAK is among them the flag goes.
fn answer_again(
    q: &mut QueuePart,
    psn: u64,
    answer: Queued,
    marks: &mut Marks,
) -> Result<(), Memory>
    requires { 0 < psn }
    ensures { IsMade result (rows.answer_again psn answer q.old) q.old q.new marks.old marks.new }
{
    marks.reserve(SPARE_MARKS)?;
    let sent = keeps_flag(q, psn);
    replace_from(&mut q.responder.answers, psn, answer)?;
    q.responder.nak_sent = sent;
    Ok(())
}

/// The flag, where no NAK and no RNR NAK is removed with the answers from a PSN on.
fn keeps_flag(q: &QueuePart, psn: u64) -> bool
    ensures { result ≡ (if has_nak_from psn q.now.responder.answers then false else q.now.responder.nak_sent) }
{
    !q.responder.answers.has_nak_from(psn) && q.responder.nak_sent
}

/// Puts an answer in the place of those from a PSN on. An acknowledgement that stays is where the answer will be while
/// the others are removed, so that `Memory` leaves the queue as it was.
fn replace_from(answers: &mut Answers, psn: u64, answer: Queued) -> Result<(), Memory>
    requires { 0 < psn }
    ensures ok { OnOk result (answers.new ≡ answers_before psn answers.old ++ answer ∷ []) }
    ensures err { OnErr result (answers.new ≡ answers.old) }
{
    answers.push(Queued::Ack { psn: psn - 1 })?;
    answers.keep_before(psn);
    answers.set_last(answer);
    Ok(())
}
