use super::texts_are;
use ca_base::{
    Ask, AtomicOp, DomainId, Key, Kind, QueueId, Rights, Run, Slot, Verdict, WindowCount,
};
use ca_grant::Reach;
use std::test::Fail;
use test_fixture_reach::{Outcome, SmallReach, turn};

const DOMAIN: DomainId = DomainId {
    adapter: 0,
    domain: 0,
};

const QUEUE: QueueId = QueueId {
    adapter: 0,
    number: 256,
};

const SLOT: Slot = Slot {
    domain: DOMAIN,
    slot: 0,
};

const AT: Run = Run {
    adapter: 0,
    buffer: 0,
    offset: 0,
    length: 64,
};

const ALL: Rights = Rights {
    local_write: true,
    remote_read: true,
    remote_write: true,
    remote_atomic: true,
    window_bind: true,
};

const FIRST: u64 = 0x1_0000_0000;

/// The last eight bytes of the region.
const LAST: Ask = Ask {
    queue: QUEUE,
    domain: DOMAIN,
    key: Key(1),
    local: false,
    kind: Kind::FetchAdd,
    address: FIRST + 56,
    length: 8,
    touch: 8,
};

#[test]
fn an_atomic_acts_on_the_last_eight_bytes(rt: HostRuntime) -> Result<(), Fail> {
    let made = SmallReach::registered(rt.alloc(), SLOT, AT, 64, ALL);
    let mut reach = made.ok().ok_or("memory")?;
    let op = AtomicOp::FetchAdd { add: 7 };
    let (mut before, mut after) = (9, 9);
    if let Ok(places) = reach.check(&LAST) {
        if let Verdict::Swapped { found, put } = reach.atomic_at(&LAST, &places, op) {
            before = found;
            after = put;
        }
    }
    texts_are(
        &rt,
        if before == 0 && after == 7 {
            "0 7"
        } else {
            "other"
        },
        "0 7",
    );
    Ok(())
}

fn outcome_text(outcome: Option<Outcome>) -> &'static str {
    match outcome {
        None => "memory",
        Some(Outcome::Denied(_)) => "denied",
        Some(Outcome::Refused(_)) => "refused",
        Some(Outcome::Done) => "done",
    }
}

#[test]
fn a_turn_is_denied_by_the_first_ask_or_ends_with_its_key(rt: HostRuntime) -> Result<(), Fail> {
    let made = SmallReach::registered(rt.alloc(), SLOT, AT, 64, ALL);
    let mut reach = made.ok().ok_or("memory")?;
    let mut windows = WindowCount { count: 1 };
    let read = Ask {
        kind: Kind::Read,
        ..LAST
    };
    let write = Ask {
        kind: Kind::Write,
        address: FIRST,
        ..LAST
    };
    let key = Key(0x0080_0009);
    let given = turn(
        rt.alloc(),
        &mut reach,
        &[read],
        &write,
        key,
        QUEUE,
        &mut windows,
    );
    texts_are(&rt, outcome_text(given.ok()), "refused");
    Ok(())
}
