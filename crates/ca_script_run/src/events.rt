ghost use Rattle.std.specs.Prelude.{◌≡◌, ◌-◌, ◌<◌, ◌^◌, List, OnOk};
ghost use Rattle.ca_script_order.specs.Order.{Stage};
ghost use Rattle.ca_script.specs.Script.{ScriptValue};
ghost use Rattle.ca_engine.specs.declared.offer.Offer.{Offer};
ghost use Rattle.ca_script_run.specs.Known.{KeepsKnown};
ghost use Rattle.ca_script_run.specs.Progress.{IsAt, IsLeftBy, IsTried, IsUnderWay};

use crate::known::Known;
use crate::progress::Progress;
use ca_base::{ActError, Memory};
use ca_engine::Outcome;
use ca_model::{Entry, Event};
use std::alloc::Global;

/// Makes an event where it is possible, and forgets what was known by its parts.
pub(crate) fn make_known(
    alloc: Global,
    event: Event,
    known: &mut Known,
    progress: &mut Progress,
) -> Result<Outcome, Memory>
    requires under_way { IsUnderWay progress.old }
    requires few { progress.old.row.count < 2 ^ 32 - 2 }
    ensures tried { (s : ScriptValue) (g : Stage) → IsAt s g progress.old → IsTried s event g progress.new result }
    ensures done { progress.new.done ≡ progress.old.done }
    ensures known { OnOk result ((round : List Offer)
        → KeepsKnown round progress.old.row progress.new.row known.old known.new) }
{
    match make(alloc, event, progress)? {
        Outcome::Did => {
            known.forget(progress.row.taken.as_slice());
            Ok(Outcome::Did)
        }
        outcome => Ok(outcome),
    }
}

/// Makes an event where it is possible, and adds its entry.
fn make(alloc: Global, event: Event, progress: &mut Progress) -> Result<Outcome, Memory>
    requires under_way { IsUnderWay progress.old }
    requires few { progress.old.row.count < 2 ^ 32 - 2 }
    ensures tried { (s : ScriptValue) (g : Stage) → IsAt s g progress.old → IsTried s event g progress.new result }
    ensures done { progress.new.done ≡ progress.old.done }
    ensures rest { IsLeftBy result progress.old.row progress.new.row }
{
    let stamp = u64::from(progress.row.count);
    match progress.row.make(alloc, &event) {
        Ok(marks) => {
            let entry = Entry {
                stamp,
                pass: 0,
                event,
                marks,
            };
            progress.history.push(entry)?;
            Ok(Outcome::Did)
        }
        Err(ActError::NotReady(_)) => Ok(Outcome::NotReady(stamp)),
        Err(ActError::Memory) => Err(Memory),
    }
}
