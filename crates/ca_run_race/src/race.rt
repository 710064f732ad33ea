ghost use Rattle.std.specs.Prelude.{◌≡◌, ◌<◌, IfOk};
ghost use Rattle.ca_base.specs.Configuration.{configuration_in, configuration_of};
ghost use Rattle.ca_parts.specs.Views.{first_view};
ghost use Rattle.ca_run_race.specs.Raced.{IsRaced};
ghost use Rattle.ca_script.specs.Script.{script_value};
ghost use Rattle.ca_script_run.specs.Statuses.{status_value};
ghost use Rattle.ca_script_run.specs.Working.{IsWorkable};
ghost use Rattle.ca_verbs.specs.Passes.{IsOf, known_of, settings_in};

use crate::gathering::gather;
use crate::workers::{Workers, work_all};
use ca_base::{Config, Memory};
use ca_outside::Gate;
use ca_script::Script;
use ca_script_run::{Worked, finish_script};
use ca_verbs::{Fabric, Pass};
use std::alloc::Global;
use std::sync::Wait;
use std::thread::Threads;

/// Races a script from buffers of zeros to its end: so many workers work it, consumer k on worker `k mod workers`, until none
/// of them finds anything to do; then the caller goes on alone, in the script's order. Timers and wakes come only then.
/// `Memory` is its only refusal. It may wait.
pub fn race_script<R: Threads + Wait + Sync, G: Gate + Sync>(
    rt: &R,
    alloc: Global,
    script: &Script,
    workers: u32,
    gate: &G,
) -> Result<Worked, Memory>
    requires workable { IsWorkable (script_value script.now) }
    requires workers { 0 < workers }
    ensures { IfOk result (λ worked. IsRaced (script_value script.now) worked.history (status_value worked.status)) }
{
    let (fabric, pass) = start(alloc, &script.config)?;
    let team = Workers {
        first: 0,
        end: workers,
        workers,
        pass,
    };
    let work = work_all(rt, alloc, &fabric, script, gate, team)?;
    let progress = gather(alloc, script, fabric, work)?;
    finish_script(alloc, script, progress)
}

/// A fabric of a configuration that keeps to its limits, and its first pass. So want of memory is the only refusal.
fn start(alloc: Global, config: &Config) -> Result<(Fabric, Pass), Memory>
    ensures of { IfOk result (λ r. IsOf r.0 r.1) }
    ensures settings { IfOk result (λ r. configuration_in (settings_in r.0) ≡ configuration_of config.now) }
    ensures first { IfOk result (λ r. known_of r.1 ≡ first_view (settings_in r.0)) }
{
    let Ok(copy) = config.clone() else {
        return Err(Memory);
    };
    match Fabric::start(alloc, copy) {
        Ok(started) => Ok(started),
        Err(_) => Err(Memory),
    }
}
