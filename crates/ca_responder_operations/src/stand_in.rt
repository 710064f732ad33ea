ghost use Rattle.std.specs.Prelude.{◌≡◌, ◌<◌, ◌^◌, ◌++◌, ◌∷◌, [], List, MatchResult, if◌then◌else◌};
ghost use Rattle.ca_base.specs.declared.queue_numbers.Queued.{Queued};
ghost use Rattle.ca_base.specs.objects.Answers.{ends_with_ack, with_ack_at_end};
ghost use Rattle.ca_wire.specs.Syndrome.{nak_code};
ghost use Rattle.ca_wire.specs.declared.syndrome.NakCode.{NakCode};
ghost use Rattle.ca_responder_operations.specs.StandIn.{AreUntil, with_stand_in};

use ca_base::{Answers, Memory, Queued};
use ca_wire::NakCode;

/// Queues an answer that stands for the one to come, behind all PSNs that wait.
pub fn queue_stand_in(answers: &mut Answers, psn: u64) -> Result<(), Memory>
    requires { psn < 2 ^ 62 }
    ensures { MatchResult result (λ done. answers.new ≡ with_stand_in psn answers.old) (λ memory. answers.new
        ≡ answers.old) }
{
    answers.push(Queued::Ack { psn: psn + 1 })
}

/// Puts an acknowledgement in the place of what stands in, where one is asked for, and else removes it. An acknowledgement
/// that stands before it makes room for the new one.
pub fn replace_by_ack(answers: &mut Answers, psn: u64, ack: bool)
    requires { psn < 2 ^ 62 }
    ensures { (before : List Queued) → answers.old ≡ with_stand_in psn before → AreUntil psn before
        → answers.new ≡ (if ack then with_ack_at_end psn before else before) }
{
    if !ack {
        answers.keep_before(psn + 1);
        return;
    }
    if is_behind_ack(answers) {
        answers.keep_before(psn + 1);
        answers.set_last(Queued::Ack { psn });
        return;
    }
    answers.set_last(Queued::Ack { psn });
}

/// Puts a NAK in the place of what stands in, which says that the responder could not do what was asked.
pub fn replace_by_nak(answers: &mut Answers, psn: u64)
    ensures { (before : List Queued) → answers.old ≡ with_stand_in psn before
        → answers.new ≡ before ++ Queued.Nak psn (nak_code NakCode.RemoteOperationalError) ∷ [] }
{
    answers.set_last(Queued::Nak {
        psn,
        code: NakCode::RemoteOperationalError.code(),
    });
}

/// Whether an acknowledgement stands before the answer at the end.
fn is_behind_ack(answers: &Answers) -> bool
    ensures { (before : List Queued) (answer : Queued) → answers.now ≡ before ++ answer ∷ []
        → result ≡ ends_with_ack before }
{
    let Some(index) = answers.len().checked_sub(2) else {
        return false;
    };
    match answers.get(index) {
        Some(answer) => answer.is_ack(),
        None => false,
    }
}
