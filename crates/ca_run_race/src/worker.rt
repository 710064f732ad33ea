ghost use Rattle.std.specs.Prelude.{◌≡◌, ◌<◌, ◌%◌, ◌^◌, [], suc, true, IfOk, length};
ghost use Rattle.ca_run_race.specs.Workers.{IsAtWork, IsSameWorker, IsWorkOf};
ghost use Rattle.ca_script.specs.Script.{script_value};
ghost use Rattle.ca_verbs.specs.Passes.{IsOf, known_of};
ghost use Rattle.ca_verbs.specs.declared.fabric.Fabric as shared;

use crate::visits::visit;
use crate::work::Work;
use ca_base::{Memory, Turn};
use ca_engine::{Engine, Offer, Outcome};
use ca_outside::Gate;
use ca_script::Script;
use ca_verbs::{Fabric, Pass};
use std::alloc::Global;
use std::sync::Wait;
use std::thread;

/// A worker returns after so many rounds on end in which it went through all queue pairs and did nothing.
const IDLE_ROUNDS: u32 = 32;

/// Which queue pairs a worker goes through in a round. While it finds something to do among its own it leaves the others
/// to others, so that workers stand in each other's way only where one of them has nothing to do.
#[derive(Clone, Copy)]
pub(crate) enum Reach {
    /// Those of its own domains: domain d of each adapter is that of worker d mod the number of workers.
    Own,
    /// All.
    All,
}

/// A worker among so many, with what it did, and how many calls it made on the fabric.
#[derive(Drop)]
pub(crate) struct Worker {
    pub(crate) number: u32,
    pub(crate) workers: u32,
    pub(crate) calls: u64,
    pub(crate) work: Work,
}

impl Worker {
    /// A worker of this number that did nothing yet.
    pub(crate) fn begin(
        alloc: Global,
        script: &Script,
        number: u32,
        workers: u32,
        pass: Pass,
    ) -> Result<Worker, Memory>
        ensures worker { IfOk result (λ worker. (worker.number ≡ number) × (worker.workers ≡ workers)) }
        ensures work { IfOk result (λ worker. (fabric : shared.Fabric) → IsOf fabric pass
            → (known_of pass).entries ≡ [] → IsAtWork fabric (script_value script.now) worker) }
    {
        let done = vec![in alloc; 0; script.consumers.as_slice().len()]?;
        Ok(Worker {
            number,
            workers,
            calls: 0,
            work: Work { pass, done },
        })
    }

    /// Whether a consumer is one of this worker's.
    pub(crate) fn is_own(&self, consumer: u32) -> bool
        ensures { result ≡ true → consumer % self.now.workers ≡ self.now.number }
    {
        self.workers > 0 && consumer % self.workers == self.number
    }

    /// Whether it goes through a turn in a round that reaches so far.
    pub(crate) fn goes_through(&self, reach: Reach, turn: Turn) -> bool {
        match reach {
            Reach::Own => self.is_own(domain_of(turn)),
            Reach::All => true,
        }
    }

    /// Goes through the gate before a call on the fabric.
    pub(crate) fn ask<G: Gate>(&mut self, gate: &G)
        ensures worker { IsSameWorker self.old self.new }
        ensures work { self.new.work ≡ self.old.work }
    {
        gate.at(self.number, self.calls);
        self.calls = self.calls.saturating_add(1);
    }
}

/// The domain, by its number at its adapter, of the queue pair whose turn it is.
fn domain_of(turn: Turn) -> u32 {
    let queue = match turn {
        Turn::Request(queue)
        | Turn::Due(queue)
        | Turn::Deliver(queue, _)
        | Turn::Respond(queue)
        | Turn::Timeout(queue)
        | Turn::RnrWake(queue) => queue,
    };
    (queue.number / 256).saturating_sub(1)
}

/// A worker goes round and round its consumers and the turns of its own queue pairs, and of all where it did nothing in the
/// round before, until it did nothing in so many rounds. Want of memory is its only refusal. It may wait.
pub(crate) fn work<R: Wait, G: Gate>(
    rt: &R,
    alloc: Global,
    fabric: &Fabric,
    script: &Script,
    gate: &G,
    mut worker: Worker,
) -> Result<Work, Memory>
    requires work { IsAtWork fabric.now (script_value script.now) worker }
    requires few { length script.now.consumers < 2 ^ 32 }
    ensures { IfOk result (λ work. IsWorkOf fabric.now (script_value script.now) worker.number (suc worker.number)
        worker.workers work) }
{
    let consumers = script.consumers.as_slice().len() as u32;
    let mut engine = Engine::new(alloc, &script.config, consumers)?;
    let mut idle = 0u32;
    for _ in rt.forever() {
        let offer = engine.next();
        if offer == Offer::Quiet {
            idle = idle.saturating_add(1);
            if idle > IDLE_ROUNDS {
                return Ok(worker.work);
            }
            thread::yield_now();
        }
        let reach = if idle == 0 { Reach::Own } else { Reach::All };
        let outcome = visit(fabric, script, gate, reach, offer, &mut worker)?;
        if outcome == Outcome::Did {
            idle = 0;
        }
        engine.tell(outcome);
    }
    unreachable!()
}
