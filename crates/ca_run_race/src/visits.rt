ghost use Rattle.std.specs.Prelude.{OnOk};
ghost use Rattle.ca_run_race.specs.Workers.{IsAtWork, IsSameWorker};
ghost use Rattle.ca_script.specs.Script.{script_value};

use crate::calls::next_call;
use crate::turns::is_workers;
use crate::worker::{Reach, Worker};
use ca_base::{Memory, Turn};
use ca_engine::{Offer, Outcome};
use ca_outside::Gate;
use ca_script::Script;
use ca_verbs::{Fabric, TryError};

/// What is told the engine of all that a worker did not do, whatever the reason: it names one clock always, so that a round
/// in which the worker did nothing is quiet, be others as busy as they may.
const NOTHING: Outcome = Outcome::NotReady(0);

/// A worker tries what is offered in a round that reaches so far. Where a timer is, it does nothing.
pub(crate) fn visit<G: Gate>(
    fabric: &Fabric,
    script: &Script,
    gate: &G,
    reach: Reach,
    offer: Offer,
    worker: &mut Worker,
) -> Result<Outcome, Memory>
    requires work { IsAtWork fabric.now (script_value script.now) worker.old }
    ensures work { OnOk result (IsAtWork fabric.now (script_value script.now) worker.new) }
    ensures same { IsSameWorker worker.old worker.new }
{
    match offer {
        Offer::Consumer(consumer) => visit_consumer(fabric, script, gate, consumer, worker),
        Offer::Turn(turn) if worker.goes_through(reach, turn) => {
            visit_engine(fabric, script, gate, turn, worker)
        }
        Offer::Turn(_) => Ok(NOTHING),
        Offer::Quiet => Ok(Outcome::Ended),
    }
}

/// One of its consumers calls its next verb, where that is possible and the clock has come for which it waits. A consumer of
/// another worker has nothing to do here.
fn visit_consumer<G: Gate>(
    fabric: &Fabric,
    script: &Script,
    gate: &G,
    consumer: u32,
    worker: &mut Worker,
) -> Result<Outcome, Memory>
    requires work { IsAtWork fabric.now (script_value script.now) worker.old }
    ensures work { OnOk result (IsAtWork fabric.now (script_value script.now) worker.new) }
    ensures same { IsSameWorker worker.old worker.new }
{
    if !worker.is_own(consumer) {
        return Ok(Outcome::Ended);
    }
    let Some(next) = next_call(script, worker.work.done.as_slice(), consumer) else {
        return Ok(Outcome::Ended);
    };
    let now = fabric.clock(&mut worker.work.pass);
    if now < next.clock {
        return Ok(NOTHING);
    }
    worker.ask(gate);
    match fabric.try_verb(&mut worker.work.pass, consumer, next.verb) {
        Ok(_) => {
            worker.work.done[consumer as usize] = next.at + 1;
            Ok(Outcome::Did)
        }
        Err(error) => outcome_of(error),
    }
}

/// A turn of a queue pair's engine is tried under the script's weather.
fn visit_engine<G: Gate>(
    fabric: &Fabric,
    script: &Script,
    gate: &G,
    turn: Turn,
    worker: &mut Worker,
) -> Result<Outcome, Memory>
    requires work { IsAtWork fabric.now (script_value script.now) worker.old }
    ensures work { OnOk result (IsAtWork fabric.now (script_value script.now) worker.new) }
    ensures same { IsSameWorker worker.old worker.new }
{
    if !is_workers(turn) {
        return Ok(NOTHING);
    }
    worker.ask(gate);
    match fabric.try_turn(&mut worker.work.pass, turn, &script.weather) {
        Ok(_) => Ok(Outcome::Did),
        Err(error) => outcome_of(error),
    }
}

/// What is told the engine of a try that made no entry. Only want of memory ends the work.
fn outcome_of(error: TryError) -> Result<Outcome, Memory> {
    match error {
        TryError::Busy(_) | TryError::HistoryFull(_) | TryError::NotReady(_, _) => Ok(NOTHING),
        TryError::Memory => Err(Memory),
    }
}
