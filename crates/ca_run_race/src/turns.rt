ghost use Rattle.std.specs.Prelude.{◌≡◌, true};
ghost use Rattle.ca_verbs_scripts.specs.Work.{IsWorkersTurn};

use ca_base::Turn;

/// Whether a worker tries a turn: a delivery of what is due, a response or a request, and no timer.
pub(crate) fn is_workers(turn: Turn) -> bool
    ensures { result ≡ true → IsWorkersTurn turn }
{
    match turn {
        Turn::Request(_) | Turn::Due(_) | Turn::Respond(_) => true,
        Turn::Deliver(_, _) | Turn::Timeout(_) | Turn::RnrWake(_) => false,
    }
}
