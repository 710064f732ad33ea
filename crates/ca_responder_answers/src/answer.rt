ghost use Rattle.std.specs.Prelude.{◌≡◌, Some, IfOk, MatchResult, slice_get};
ghost use Rattle.ca_model.specs.machine.Respond as rows;
ghost use Rattle.ca_model.specs.machine.Row.{plain_row, NotPossible};

use ca_base::{Queued, Reason, State};
use ca_qp_rows::ca_qpstate::QueuePart;

/// The answer that the responder sends next, or why there is none: the first of the row's reasons.
pub fn next_answer(q: &QueuePart, room: bool) -> Result<Queued, Reason>
    ensures row { MatchResult result
        (λ answer. rows.respond_row room q.now ≡ rows.answer_turn q.now answer)
        (λ reason. rows.respond_row room q.now ≡ plain_row (NotPossible reason)) }
    ensures front { IfOk result (λ answer. slice_get q.now.responder.answers 0 ≡ Some answer) }
{
    if matches!(q.state, State::Reset | State::Init) {
        return Err(Reason::State);
    }
    let Some(answer) = q.responder.answers.get(0) else {
        return Err(Reason::Empty);
    };
    if !room {
        return Err(Reason::NoRoom);
    }
    Ok(answer)
}
