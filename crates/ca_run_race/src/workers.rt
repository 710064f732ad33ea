ghost use Rattle.std.specs.Prelude.{◌≡◌, ◌<◌, ◌^◌, [], IfOk, length};
ghost use Rattle.std.specs.Thread.{IsSync};
ghost use Rattle.ca_run_race.specs.Workers.{IsWorkOf};
ghost use Rattle.ca_script.specs.Script.{script_value};
ghost use Rattle.ca_verbs.specs.Passes.{IsOf, known_of};

use crate::merging::merge;
use crate::work::Work;
use crate::worker::{Worker, work};
use ca_base::Memory;
use ca_outside::Gate;
use ca_script::Script;
use ca_verbs::{Fabric, Pass};
use std::alloc::Global;
use std::sync::Wait;
use std::thread::{Threads, join};

/// The workers from one number up to another, of so many, with the pass that they share out.
#[derive(Drop)]
pub(crate) struct Workers {
    pub(crate) first: u32,
    pub(crate) end: u32,
    pub(crate) workers: u32,
    pub(crate) pass: Pass,
}

/// The first of them works alone, and calls with all of the pass. Want of memory is the only refusal. It may wait.
fn work_alone<R: Wait, G: Gate>(
    rt: &R,
    alloc: Global,
    fabric: &Fabric,
    script: &Script,
    gate: &G,
    team: Workers,
) -> Result<Work, Memory>
    requires of { IsOf fabric.now team.pass }
    requires none { (known_of team.pass).entries ≡ [] }
    requires some { team.first < team.end }
    requires few { length script.now.consumers < 2 ^ 32 }
    ensures { IfOk result (λ work. IsWorkOf fabric.now (script_value script.now) team.first team.end team.workers work) }
{
    let worker = Worker::begin(alloc, script, team.first, team.workers, team.pass)?;
    work(rt, alloc, fabric, script, gate, worker)
}

/// All of them work, each on a thread of its own where one can be started: half of them here and half on another thread, each
/// half with half of the pass. What they did is joined. Want of memory is the only refusal. It may wait.
pub(crate) fn work_all<R: Threads + Wait + Sync, G: Gate + Sync>(
    rt: &R,
    alloc: Global,
    fabric: &Fabric,
    script: &Script,
    gate: &G,
    mut team: Workers,
) -> Result<Work, Memory>
    requires of { IsOf fabric.now team.pass }
    requires none { (known_of team.pass).entries ≡ [] }
    requires some { team.first < team.end }
    requires few { length script.now.consumers < 2 ^ 32 }
    ensures { IfOk result (λ work. IsWorkOf fabric.now (script_value script.now) team.first team.end team.workers work) }
{
    let half = (team.end - team.first) / 2;
    if half == 0 {
        return work_alone(rt, alloc, fabric, script, gate, team);
    }
    let other = match fabric.split(&mut team.pass) {
        Ok(other) => other,
        Err(_) => return work_alone(rt, alloc, fabric, script, gate, team),
    };
    let Workers {
        first,
        end,
        workers,
        pass,
    } = team;
    let middle = first + half;
    let (lower, upper) = join(
        rt,
        move || -> Result<Work, Memory>
            requires { IsSync R.row × IsSync G.row × IsOf fabric.now pass × ((known_of pass).entries ≡ [])
                × (first < middle) × (length script.now.consumers < 2 ^ 32) }
            ensures { IfOk result (λ work. IsWorkOf fabric.entry.now (script_value script.entry.now) first middle workers
                work) }
        {
            let lower = Workers {
                first,
                end: middle,
                workers,
                pass,
            };
            work_all(rt, alloc, fabric, script, gate, lower)
        },
        move || -> Result<Work, Memory>
            requires { IsSync R.row × IsSync G.row × IsOf fabric.now other × ((known_of other).entries ≡ [])
                × (middle < end) × (length script.now.consumers < 2 ^ 32) }
            ensures { IfOk result (λ work. IsWorkOf fabric.entry.now (script_value script.entry.now) middle end workers
                work) }
        {
            let upper = Workers {
                first: middle,
                end,
                workers,
                pass: other,
            };
            work_all(rt, alloc, fabric, script, gate, upper)
        },
    );
    merge(fabric, lower?, upper?)
}
