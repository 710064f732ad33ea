ghost use Rattle.ca_verbs.specs.Passes.{IsOf};

use crate::verbs::{create, register, to_receive, to_send};
use ca_base::{Change, DomainId, Slot, Turn};
use ca_mailbox::Weather;
use ca_model::Verb;
use ca_verbs::{Fabric, Pass, Receipt, TryError};

/// What is done on a fabric: a consumer calls a verb, or a turn is made where nothing befalls packets.
#[derive(Drop)]
pub enum Step {
    Call(u32, Verb),
    Make(Turn),
}

/// Tries a step once.
pub fn try_step(fabric: &Fabric, pass: &mut Pass, step: &Step) -> Result<Receipt, TryError>
    requires { IsOf fabric.now pass.old }
    ensures { IsOf fabric.now pass.new }
{
    match step {
        Step::Call(by, verb) => fabric.try_verb(pass, *by, verb),
        Step::Make(turn) => fabric.try_turn(pass, *turn, &Weather::Calm),
    }
}

/// Adds the call of a verb to steps. False comes where there is no memory.
fn add(steps: &mut Vec<Step>, by: u32, verb: Verb) -> bool {
    steps.push(Step::Call(by, verb)).ok().is_some()
}

/// Adds the calls that allocate a domain, and register so many bytes of a buffer in its slot 0. False comes where there is no
/// memory.
pub fn add_region(
    steps: &mut Vec<Step>,
    by: u32,
    domain: DomainId,
    buffer: u16,
    length: u32,
) -> bool {
    add(steps, by, Verb::AllocPd { domain }) && add(steps, by, register(domain, buffer, length))
}

/// Adds the calls that create a queue pair and its completion queue in slots of the same number, and have it send to its
/// peer. False comes where there is no memory.
pub fn add_queue_pair(steps: &mut Vec<Step>, by: u32, slot: Slot, peer: Slot) -> bool {
    add(steps, by, Verb::CreateCq { slot, capacity: 8 })
        && add(steps, by, create(slot))
        && add_change(steps, by, slot, Change::Init)
        && add_change(steps, by, slot, to_receive(peer))
        && add_change(steps, by, slot, to_send())
}

/// Adds a change of the state of a queue pair.
fn add_change(steps: &mut Vec<Step>, by: u32, slot: Slot, change: Change) -> bool {
    add(steps, by, Verb::ModifyQp { slot, change })
}
