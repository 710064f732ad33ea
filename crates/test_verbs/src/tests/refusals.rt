use crate::tests::beds::{config, is, is_made, started};
use arrayvec::ArrayVec;
use ca_base::{AdapterConfig, Config, DomainId, QueueId, Reason, Slot, Turn};
use ca_mailbox::Weather;
use ca_model::Verb;
use std::alloc::Global;
use std::process::Abort;
use test_fixture_fabric::ca_verbs::{Fabric, Receipt, StartError, TryError};
use test_fixture_fabric::call;

// The domain of adapter 0, and its completion queue and queue pair.
const DOMAIN: DomainId = DomainId {
    adapter: 0,
    domain: 0,
};

const SLOT: Slot = Slot {
    domain: DOMAIN,
    slot: 0,
};

// The entries before the look that found a queue empty.
fn empty_after(tried: Result<Receipt, TryError>) -> Option<u64> {
    match tried {
        Err(TryError::NotReady(entries, Reason::Empty)) => Some(entries),
        _ => None,
    }
}

// The entries of a history that is full.
fn full_at(tried: Result<Receipt, TryError>) -> Option<u64> {
    match tried {
        Err(TryError::HistoryFull(entries)) => Some(entries),
        _ => None,
    }
}

// The verbs that open the domain, create its completion queue, and poll it.
fn open() -> Verb {
    Verb::AllocPd { domain: DOMAIN }
}

fn create() -> Verb {
    Verb::CreateCq {
        slot: SLOT,
        capacity: 8,
    }
}

fn poll() -> Verb {
    Verb::Poll {
        slot: SLOT,
        n: 1,
        least: 1,
    }
}

#[test]
fn what_is_not_ready_names_the_entries_before_its_look(rt: HostRuntime) {
    let due = Turn::Due(QueueId::of_slot(SLOT));
    let (fabric, mut pass) = started(&rt, rt.alloc(), config(10));
    let turned = fabric.turn(&rt, &mut pass, due, &Weather::Calm);
    is(&rt, "nothing is due", empty_after(turned), 0);
    is_made(&rt, call(&rt, &fabric, &mut pass, 0, &open()).is_some());
    is_made(&rt, call(&rt, &fabric, &mut pass, 0, &create()).is_some());
    let polled = fabric.verb(&rt, &mut pass, 0, &poll());
    is(&rt, "nothing is there", empty_after(polled), 2);
    let clock = fabric.clock(&mut pass);
    is(&rt, "the clock", Some(clock), 2);
    drop(fabric);
    drop(pass);
}

// Eight adapters of 16 domains each: so many regions a domain, and so many buffers of 4096 bytes at each adapter or, where
// there is one in all, at the first.
fn eight_adapters(regions: u16, buffers: u8, is_one: bool) -> Config {
    let mut config = Config {
        adapters: ArrayVec::new(),
        events: 3,
    };
    for number in 0..8u8 {
        let mut adapter = AdapterConfig {
            buffers: ArrayVec::new(),
            domains: 16,
            regions,
            windows: 8,
            cqs: 4,
            srqs: 2,
            qps: 4,
        };
        for _ in 0..if is_one && number > 0 { 0 } else { buffers } {
            let _fits = adapter.buffers.try_push(4096);
        }
        let _fits = config.adapters.try_push(adapter);
    }
    config
}

// Why no fabric of this configuration is started; None where one is.
fn refusal_of(alloc: Global, config: Config) -> Option<StartError> {
    Fabric::start(alloc, config).err()
}

#[test]
fn the_most_parts_start_and_one_more_does_not(rt: HostRuntime) {
    let most = refusal_of(rt.alloc(), eight_adapters(8, 16, false));
    assert!(rt; matches!(most, None));
    let one_more = refusal_of(rt.alloc(), eight_adapters(9, 1, true));
    assert!(rt; matches!(one_more, Some(StartError::TooManyParts(4097))));
    let beyond = refusal_of(rt.alloc(), eight_adapters(65_535, 1, true));
    assert!(rt; matches!(beyond, Some(StartError::BadConfig)));
}

// One adapter of so many domains and a buffer of so many bytes, for so many events.
fn one_adapter(domains: u8, bytes: u32, events: u32) -> Config {
    let mut config = Config {
        adapters: ArrayVec::new(),
        events,
    };
    let mut adapter = AdapterConfig {
        buffers: ArrayVec::new(),
        domains,
        regions: 0,
        windows: 0,
        cqs: 0,
        srqs: 0,
        qps: 0,
    };
    let _fits = adapter.buffers.try_push(bytes);
    let _fits = config.adapters.try_push(adapter);
    config
}

#[test]
fn the_least_numbers_start_and_none_is_refused(rt: HostRuntime) {
    let least = refusal_of(rt.alloc(), one_adapter(1, 1, 1));
    assert!(rt; matches!(least, None));
    let no_adapter = Config {
        adapters: ArrayVec::new(),
        events: 3,
    };
    assert!(rt;
        matches!(
            refusal_of(rt.alloc(), no_adapter),
            Some(StartError::BadConfig)
        )
    );
    let no_domain = refusal_of(rt.alloc(), one_adapter(0, 4096, 3));
    assert!(rt; matches!(no_domain, Some(StartError::BadConfig)));
    let no_bytes = refusal_of(rt.alloc(), one_adapter(1, 0, 3));
    assert!(rt; matches!(no_bytes, Some(StartError::BadConfig)));
    let no_events = refusal_of(rt.alloc(), one_adapter(1, 4096, 0));
    assert!(rt; matches!(no_events, Some(StartError::BadConfig)));
}

#[test]
fn a_history_of_three_entries_is_full(rt: HostRuntime) {
    let open = open();
    let (fabric, mut pass) = started(&rt, rt.alloc(), config(3));
    is_made(&rt, fabric.try_verb(&mut pass, 0, &open).is_ok());
    is_made(&rt, fabric.try_verb(&mut pass, 0, &open).is_ok());
    is_made(&rt, fabric.try_verb(&mut pass, 0, &open).is_ok());
    let tried = fabric.try_verb(&mut pass, 0, &open);
    is(&rt, "the history", full_at(tried), 3);
    let called = fabric.verb(&rt, &mut pass, 0, &open);
    is(
        &rt,
        "the history, of a call that may wait",
        full_at(called),
        3,
    );
    let due = Turn::Due(QueueId::of_slot(SLOT));
    let turned = fabric.turn(&rt, &mut pass, due, &Weather::Calm);
    is(
        &rt,
        "the history, of a turn that may wait",
        full_at(turned),
        3,
    );
    drop(fabric);
    drop(pass);
}
