ghost use Rattle.test_fixture_fabric.specs.ca_verbs.Passes.{IsOf};

use crate::tests::beds::{is, is_made, join_to, joined_when_refused, started, upper_half};
use arrayvec::ArrayVec;
use ca_base::{AdapterConfig, Config, DomainId, Slot};
use ca_model::{Entry, Verb};
use std::process::Abort;
use std::thread::join;
use test_fixture_fabric::ca_verbs::{Fabric, Pass, Receipt, TryError};

/// How often a verb is tried while a part of it is taken.
const TRIES: u32 = 10_000_000;

// The domain of this adapter.
fn domain_of(adapter: u8) -> DomainId {
    DomainId { adapter, domain: 0 }
}

// This many adapters of one domain and one completion queue each, for at most so many events.
fn config(adapters: u32, events: u32, cqs: u16) -> Config {
    let mut config = Config {
        adapters: ArrayVec::new(),
        events,
    };
    for _ in 0..adapters {
        let adapter = AdapterConfig {
            buffers: ArrayVec::new(),
            domains: 1,
            regions: 1,
            windows: 1,
            cqs,
            srqs: 1,
            qps: 2,
        };
        let _fits = config.adapters.try_push(adapter);
    }
    config
}

// How many entries a history has; None where there is none, or the stamp of one is not its place.
fn in_order(history: Option<&Vec<Entry>>) -> Option<u64> {
    let mut at = 0u64;
    for entry in history?.as_slice() {
        if entry.stamp != at {
            return None;
        }
        at = at.wrapping_add(1);
    }
    Some(at)
}

// The stamp of the latest entry of a pass.
fn latest_stamp(pass: &Pass) -> Option<u64> {
    Some(pass.latest()?.stamp)
}

// The verb that opens the domain of this adapter.
fn open(adapter: u8) -> Verb {
    Verb::AllocPd {
        domain: domain_of(adapter),
    }
}

// The verb that creates the completion queue of adapter 0.
fn queue() -> Verb {
    Verb::CreateCq {
        slot: Slot {
            domain: domain_of(0),
            slot: 0,
        },
        capacity: 8,
    }
}

// The stamp of what was made.
fn stamp(tried: Result<Receipt, TryError>) -> Option<u64> {
    match tried {
        Ok(receipt) => Some(receipt.stamp),
        Err(_) => None,
    }
}

#[test]
fn the_history_of_two_passes_is_in_the_order_of_their_stamps(rt: HostRuntime) {
    let (fabric, mut first) = started(&rt, rt.alloc(), config(2, 10, 1));
    let mut second = upper_half(&rt, &fabric, &mut first);
    let tried = fabric.try_verb(&mut first, 0, &open(0));
    is(&rt, "the first verb", stamp(tried), 0);
    let tried = fabric.try_verb(&mut second, 1, &open(1));
    is(&rt, "the second verb", stamp(tried), 1);
    let tried = fabric.try_verb(&mut first, 0, &queue());
    is(&rt, "the third verb", stamp(tried), 2);
    let clock = fabric.clock(&mut second);
    is(&rt, "the clock", Some(clock), 3);
    is(&rt, "the latest entry", latest_stamp(&first), 2);
    let (fabric, first) = joined_when_refused(&rt, fabric, first, second);
    let history = fabric.close(first).ok();
    is(&rt, "the history", in_order(history.as_ref()), 3);
}

// Makes this many verbs on the domain, each tried again while a part of it is taken.
fn open_domain(fabric: &Fabric, mut pass: Pass, adapter: u8, count: u32) -> Pass
    requires { IsOf fabric.now pass }
    ensures { IsOf fabric.now result }
{
    let open = open(adapter);
    for _ in 0..count {
        open_once(fabric, &mut pass, &open);
    }
    pass
}

// Makes the verb once.
fn open_once(fabric: &Fabric, pass: &mut Pass, open: &Verb)
    requires { IsOf fabric.now pass.old }
    ensures { IsOf fabric.now pass.new }
{
    for _ in 0..TRIES {
        match fabric.try_verb(pass, 0, open) {
            Err(TryError::Busy(_name)) => {}
            _ => return,
        }
    }
}

#[test]
fn two_threads_make_one_history(rt: HostRuntime) {
    let (fabric, mut first) = started(&rt, rt.alloc(), config(2, 2000, 1));
    let second = upper_half(&rt, &fabric, &mut first);
    let shared = &fabric;
    let (mut first, second) = join(
        &rt,
        move || -> Pass
            requires { IsOf shared.now first }
            ensures { IsOf shared.entry.now result }
        { open_domain(shared, first, 0, 500) },
        move || -> Pass
            requires { IsOf shared.now second }
            ensures { IsOf shared.entry.now result }
        { open_domain(shared, second, 0, 500) },
    );
    join_to(&rt, &fabric, &mut first, second);
    let history = fabric.close(first).ok();
    is(&rt, "the history", in_order(history.as_ref()), 1000);
}

// Splits a pass so often. While all of them are out, each makes the verb once; then they are joined. Whether all was made.
fn spread(fabric: &Fabric, pass: &mut Pass, open: &Verb, splits: u32) -> bool
    requires { IsOf fabric.now pass.old }
    ensures { IsOf fabric.now pass.new }
{
    if splits == 0 {
        return fabric.try_verb(pass, 0, open).is_ok();
    }
    let Ok(mut upper) = fabric.split(pass) else {
        return false;
    };
    let below = spread(fabric, pass, open, splits - 1);
    let made = fabric.try_verb(&mut upper, 0, open).is_ok();
    let joined = fabric.join(pass, upper).ok().is_some();
    below && made && joined
}

// The first pass, which was split 32 times, is not split once more.
fn is_spent(rt: &impl Abort, spent: bool) {
    assert!(rt; spent, "one number is left");
}

#[test]
fn thirty_four_passes_make_one_history(rt: HostRuntime) {
    let open = open(0);
    let (fabric, mut first) = started(&rt, rt.alloc(), config(2, 100, 1));
    let mut second = upper_half(&rt, &fabric, &mut first);
    is_made(&rt, spread(&fabric, &mut first, &open, 31));
    is_made(&rt, spread(&fabric, &mut second, &open, 1));
    is_spent(&rt, fabric.split(&mut first).ok().is_none());
    join_to(&rt, &fabric, &mut first, second);
    let history = fabric.close(first).ok();
    is(&rt, "the history", in_order(history.as_ref()), 34);
}
