ghost use Rattle.ca_verbs.specs.Passes.{IsOf};

use crate::verbs::{create, register, to_receive, to_send};
use ca_base::{Change, DomainId, Key, Slot, Turn};
use ca_mailbox::Weather;
use ca_model::{Answer, Mark, Verb};
use ca_verbs::{Fabric, Pass};
use std::sync::Wait;

/// What the latest call with this pass answered.
pub fn answer(pass: &Pass) -> Option<&Answer> {
    let entry = pass.latest()?;
    match entry.marks.as_slice().first() {
        Some(Mark::Verb { answer, .. }) => Some(answer),
        _ => None,
    }
}

/// Calls a verb. None comes where it is not made, and where it is refused.
pub fn call<R: Wait>(rt: &R, fabric: &Fabric, pass: &mut Pass, by: u8, verb: &Verb) -> Option<()>
    requires { IsOf fabric.now pass.old }
    ensures { IsOf fabric.now pass.new }
{
    if fabric.verb(rt, pass, u32::from(by), verb).is_err() {
        return None;
    }
    match answer(pass)? {
        Answer::Refused(_) => None,
        _ => Some(()),
    }
}

/// Makes a turn, where nothing befalls packets.
pub fn turn<R: Wait>(rt: &R, fabric: &Fabric, pass: &mut Pass, turn: Turn) -> Option<()>
    requires { IsOf fabric.now pass.old }
    ensures { IsOf fabric.now pass.new }
{
    fabric.turn(rt, pass, turn, &Weather::Calm).ok()?;
    Some(())
}

/// Allocates a domain, and registers so many bytes of the buffer in its slot 0, to be written and to be used by atomics from
/// afar; the key of the region.
pub fn region<R: Wait>(
    rt: &R,
    fabric: &Fabric,
    pass: &mut Pass,
    by: u8,
    domain: DomainId,
    buffer: u16,
    length: u32,
) -> Option<Key>
    requires { IsOf fabric.now pass.old }
    ensures { IsOf fabric.now pass.new }
{
    call(rt, fabric, pass, by, &Verb::AllocPd { domain })?;
    call(rt, fabric, pass, by, &register(domain, buffer, length))?;
    match answer(pass)? {
        Answer::Key(key) => Some(*key),
        _ => None,
    }
}

/// Creates a queue pair and its completion queue in slots of the same number, and has it send to its peer.
pub fn queue_pair<R: Wait>(
    rt: &R,
    fabric: &Fabric,
    pass: &mut Pass,
    by: u8,
    slot: Slot,
    peer: Slot,
) -> Option<()>
    requires { IsOf fabric.now pass.old }
    ensures { IsOf fabric.now pass.new }
{
    call(rt, fabric, pass, by, &Verb::CreateCq { slot, capacity: 8 })?;
    call(rt, fabric, pass, by, &create(slot))?;
    modify(rt, fabric, pass, by, slot, Change::Init)?;
    modify(rt, fabric, pass, by, slot, to_receive(peer))?;
    modify(rt, fabric, pass, by, slot, to_send())
}

/// Changes the state of a queue pair.
fn modify<R: Wait>(
    rt: &R,
    fabric: &Fabric,
    pass: &mut Pass,
    by: u8,
    slot: Slot,
    change: Change,
) -> Option<()>
    requires { IsOf fabric.now pass.old }
    ensures { IsOf fabric.now pass.new }
{
    call(rt, fabric, pass, by, &Verb::ModifyQp { slot, change })
}
