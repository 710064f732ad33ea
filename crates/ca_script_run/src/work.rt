ghost use Rattle.std.specs.Prelude.{◌≡◌, ◌-◌, ◌<◌, ◌^◌, List, IfOk, OnOk, length, reverse};
ghost use Rattle.ca_base.specs.Configuration.{configuration_of};
ghost use Rattle.ca_engine.specs.Engine.{opening_engine};
ghost use Rattle.ca_engine.specs.declared.offer.Offer as declared;
ghost use Rattle.ca_model.specs.machine.Sound.{AreLimited};
ghost use Rattle.ca_model.specs.machine.World.{World};
ghost use Rattle.ca_script_order.specs.OfScript as machine;
ghost use Rattle.ca_script_order.specs.Order.{Stage, ending, ending_from, opening_stage, order};
ghost use Rattle.ca_adapter_store.specs.Rows.{IsRowOf};
ghost use Rattle.ca_script.specs.Script.{script_value};
ghost use Rattle.ca_script_run.specs.Known.{AreKnown, IsOfferedAt, KeepsKnown};
ghost use Rattle.ca_script_run.specs.Progress.{IsAt, IsUnderWay, IsUnderWayOn};
ghost use Rattle.ca_script_run.specs.Statuses.{status_value};
ghost use Rattle.ca_script_run.specs.Working.{IsOffered, IsWorkable, IsWorked};

use crate::known::Known;
use crate::progress::Progress;
use crate::status::{Status, status_of};
use crate::visits::{visit_consumer, visit_engine};
use ca_adapter_store::Row;
use ca_adapter_store::ca_adapter_opening::zero_contents;
use ca_base::Memory;
use ca_engine::{Engine, Offer, Outcome};
use ca_model::{History, Opening};
use ca_script::Script;
use std::alloc::Global;

/// What came of a script: its history, how it ended, and the parts at its end.
#[derive(Drop)]
pub struct Worked {
    pub history: History,
    pub status: Status,
    pub row: Row,
}

/// Works a script in its order, from buffers of zeros to its end. `Memory` is its only refusal.
pub fn work_script(alloc: Global, script: Script) -> Result<Worked, Memory>
    requires { IsWorkable (script_value script) }
    ensures history { IfOk result (λ worked. worked.history ≡ order (script_value script)) }
    ensures status { IfOk result (λ worked. status_value worked.status
        ≡ machine.status_of (script_value script) (ending (script_value script))) }
    ensures row { IfOk result (λ worked. IsRowOf (script_value script).config (ending (script_value script)).world
        worked.row) }
{
    let (script, progress) = open(alloc, script)?;
    finish_script(alloc, &script, progress)
}

/// Goes on with a script in rounds, from as far as it is worked to its end. Whoever worked it so far, what it makes are
/// the rounds from there, and the entries that it adds have the pass 0. `Memory` is its only refusal.
pub fn finish_script(
    alloc: Global,
    script: &Script,
    mut progress: Progress,
) -> Result<Worked, Memory>
    requires workable { IsWorkable (script_value script.now) }
    requires under_way { IsUnderWayOn (script_value script.now) progress }
    ensures history { IfOk result (λ worked. (g : Stage) → IsAt (script_value script.now) g progress
        → worked.history ≡ reverse (ending_from (script_value script.now) g).past) }
    ensures status { IfOk result (λ worked. (g : Stage) → IsAt (script_value script.now) g progress
        → status_value worked.status
        ≡ machine.status_of (script_value script.now) (ending_from (script_value script.now) g)) }
    ensures row { IfOk result (λ worked. (g : Stage) → IsAt (script_value script.now) g progress
        → IsRowOf (script_value script.now).config (ending_from (script_value script.now) g).world worked.row) }
{
    let consumers = script.consumers.as_slice().len() as u32;
    let mut engine = Engine::new(alloc, &script.config, consumers)?;
    let mut known = Known::new(alloc, &script.config, consumers)?;
    work_on(alloc, script, &mut engine, &mut known, &mut progress)?;
    let status = status_of(script, &progress);
    Ok(Worked {
        history: progress.history,
        status,
        row: progress.row,
    })
}

/// What is kept of a script before the first round, and the script.
fn open(alloc: Global, script: Script) -> Result<(Script, Progress), Memory>
    requires { AreLimited (configuration_of script.config) }
    ensures script { IfOk result (λ opened. script_value opened.0 ≡ script_value script) }
    ensures progress { IfOk result
        (λ opened. IsAt (script_value script) (opening_stage (script_value script)) opened.1) }
{
    let Script {
        config,
        weather,
        consumers,
    } = script;
    let contents = zero_contents(alloc, &config)?;
    let opening = Opening { config, contents };
    let row = Row::open(alloc, &opening)?;
    let progress = Progress {
        row,
        done: vec![in alloc; 0; consumers.as_slice().len()]?,
        history: History::empty(alloc),
    };
    let Opening {
        config,
        contents: _,
    } = opening;
    let script = Script {
        config,
        weather,
        consumers,
    };
    Ok((script, progress))
}

/// Takes what an engine offers, until as many events were made as the script allows, or Quiet is offered. Turns that are
/// known to be in vain are passed over.
fn work_on(
    alloc: Global,
    script: &Script,
    engine: &mut Engine,
    known: &mut Known,
    progress: &mut Progress,
) -> Result<(), Memory>
    requires workable { IsWorkable (script_value script.now) }
    requires engine { engine.old ≡ opening_engine (script_value script.now).config
        (length (script_value script.now).consumers) }
    requires under_way { IsUnderWayOn (script_value script.now) progress.old }
    requires known { (w : World) → AreKnown engine.old.round w known.old }
    ensures { OnOk result ((g : Stage) → IsAt (script_value script.now) g progress.old
        → IsWorked (script_value script.now) g progress.new) }
{
    for _ in 0..u64::MAX {
        if script.config.events <= progress.row.count {
            return Ok(());
        }
        known.pass_over(engine, u64::from(progress.row.count));
        let at = engine.place();
        match visit(alloc, script, engine.next(), at, known, progress)? {
            Some(outcome) => engine.tell(outcome),
            None => return Ok(()),
        }
    }
    Ok(())
}

/// Visits whoever is offered, at this place of a round. None comes where Quiet is.
fn visit(
    alloc: Global,
    script: &Script,
    offer: Offer,
    place: Option<usize>,
    known: &mut Known,
    progress: &mut Progress,
) -> Result<Option<Outcome>, Memory>
    requires under_way { IsUnderWay progress.old }
    requires few { progress.old.row.count < 2 ^ 32 - 2 }
    ensures offered { (g : Stage) → IsAt (script_value script.now) g progress.old
        → IsOffered (script_value script.now) offer g progress.new result }
    ensures known { OnOk result ((round : List declared.Offer) → IsOfferedAt round place offer
        → KeepsKnown round progress.old.row progress.new.row known.old known.new) }
{
    match offer {
        Offer::Consumer(consumer) => {
            Ok(Some(visit_consumer(alloc, script, consumer, known, progress)?))
        }
        Offer::Turn(turn) => Ok(Some(visit_engine(alloc, script, turn, place, known, progress)?)),
        Offer::Quiet => Ok(None),
    }
}
