ghost use Rattle.std.specs.Thread.{IsSync};
ghost use Rattle.test_fixture_fabric.specs.ca_verbs.Passes.{IsOf};

use crate::tests::beds::{BUFFER_BYTES, config, is, is_made, join_to, started, upper_half};
use arrayvec::ArrayVec;
use ca_base::{
    DomainId, Key, Piece, QueueId, SendOp, SendRequest, Slot, Turn, Verdict, first_address,
};
use ca_model::{Answer, Entry, Mark, Verb};
use std::process::Abort;
use std::sync::Wait;
use std::thread::{Threads, join};
use test_fixture_fabric::ca_verbs::{Fabric, Pass};
use test_fixture_fabric::{answer, call, queue_pair, region, turn};

// How many fetch and adds each consumer makes.
const ADDS: u16 = 2500;

// The domain of adapter 1.
const SHARED: DomainId = DomainId {
    adapter: 1,
    domain: 0,
};

// The queue pair of a consumer, in a domain of its own of adapter 0.
fn own_slot(consumer: u8) -> Slot {
    Slot {
        domain: DomainId {
            adapter: 0,
            domain: consumer,
        },
        slot: 0,
    }
}

// Its peer, in the domain of adapter 1.
fn peer_slot(consumer: u8) -> Slot {
    Slot {
        domain: SHARED,
        slot: u16::from(consumer),
    }
}

// Adds one to the first number of adapter 1, under this key; the number that it found goes to the consumer's own buffer.
fn one_more(consumer: u8, own: Key, key: Key) -> Verb {
    let mut list = ArrayVec::new();
    let _fits = list.try_push(Piece {
        address: first_address(u16::from(consumer)),
        key: own,
        length: 8,
    });
    Verb::PostSend {
        slot: own_slot(consumer),
        request: SendRequest {
            id: 1,
            signalled: true,
            fence: false,
            solicited: false,
            op: SendOp::FetchAdd {
                address: first_address(0),
                key,
                add: 1,
                list,
            },
        },
    }
}

// Makes the consumer's domain and the two queue pairs; the key of its own region.
fn set_up<R: Wait>(rt: &R, fabric: &Fabric, pass: &mut Pass, consumer: u8) -> Option<Key>
    requires { IsOf fabric.now pass.old }
    ensures { IsOf fabric.now pass.new }
{
    let slot = own_slot(consumer);
    let peer = peer_slot(consumer);
    let buffer = u16::from(consumer);
    let own = region(
        rt,
        fabric,
        pass,
        consumer,
        slot.domain,
        buffer,
        BUFFER_BYTES,
    )?;
    queue_pair(rt, fabric, pass, consumer, slot, peer)?;
    queue_pair(rt, fabric, pass, consumer, peer, slot)?;
    Some(own)
}

// Polls the completion of a consumer.
fn poll<R: Wait>(rt: &R, fabric: &Fabric, pass: &mut Pass, consumer: u8) -> Option<()>
    requires { IsOf fabric.now pass.old }
    ensures { IsOf fabric.now pass.new }
{
    let poll = Verb::Poll {
        slot: own_slot(consumer),
        n: 1,
        least: 1,
    };
    call(rt, fabric, pass, consumer, &poll)
}

// Posts a fetch and add, brings it to the peer and the answer back, and polls its completion.
fn add<R: Wait>(rt: &R, fabric: &Fabric, pass: &mut Pass, consumer: u8, post: &Verb) -> Option<()>
    requires { IsOf fabric.now pass.old }
    ensures { IsOf fabric.now pass.new }
{
    let requester = QueueId::of_slot(own_slot(consumer));
    let responder = QueueId::of_slot(peer_slot(consumer));
    call(rt, fabric, pass, consumer, post)?;
    turn(rt, fabric, pass, Turn::Request(requester))?;
    turn(rt, fabric, pass, Turn::Due(responder))?;
    turn(rt, fabric, pass, Turn::Respond(responder))?;
    turn(rt, fabric, pass, Turn::Due(requester))?;
    poll(rt, fabric, pass, consumer)
}

// What a consumer does with its pass. It ends at the first call that is not made.
fn consume<R: Wait>(rt: &R, fabric: &Fabric, mut pass: Pass, consumer: u8, key: Key) -> Pass
    requires { IsOf fabric.now pass }
    ensures { IsOf fabric.now result }
{
    let Some(own) = set_up(rt, fabric, &mut pass, consumer) else {
        return pass;
    };
    let post = one_more(consumer, own, key);
    for _ in 0..ADDS {
        if add(rt, fabric, &mut pass, consumer, &post).is_none() {
            return pass;
        }
    }
    pass
}

// Two consumers, each on a thread of its own.
fn consume_two<R: Threads + Wait + Sync>(
    rt: &R,
    fabric: &Fabric,
    first: Pass,
    second: Pass,
    consumer: u8,
    key: Key,
) -> (Pass, Pass)
    requires { IsOf fabric.now first × IsOf fabric.now second }
    ensures { IsOf fabric.now result.0 × IsOf fabric.now result.1 }
{
    join(
        rt,
        move || -> Pass
            requires { IsSync R.row × IsOf fabric.now first }
            ensures { IsOf fabric.entry.now result }
        { consume(rt, fabric, first, consumer, key) },
        move || -> Pass
            requires { IsSync R.row × IsOf fabric.now second }
            ensures { IsOf fabric.entry.now result }
        { consume(rt, fabric, second, consumer.wrapping_add(1), key) },
    )
}

// Of the marks of a history, those that changed the number of adapter 1: the k-th of them found k and put k + 1, each under
// the same key. How many there are; None where one is otherwise.
fn swaps(history: &[Entry], under: Key) -> Option<u64> {
    let mut count = 0u64;
    for entry in history {
        for mark in entry.marks.as_slice() {
            if let Mark::Remote {
                key,
                address,
                verdict,
                ..
            } = mark
            {
                let next = count.wrapping_add(1);
                match verdict {
                    Verdict::Swapped { found, put }
                        if *found == count
                            && *put == next
                            && *key == under
                            && *address == first_address(0) => {
                        count = next;
                    }
                    _ => return None,
                }
            }
        }
    }
    Some(count)
}

// How many requests were posted, and how many completions were polled.
fn posts_and_polls(history: &[Entry]) -> (u64, u64) {
    let mut posts = 0u64;
    let mut polls = 0u64;
    for entry in history {
        match entry.marks.as_slice().first() {
            Some(
                Mark::Verb {
                    answer: Answer::Posted(_),
                    ..
                },
            ) => posts = posts.wrapping_add(1),
            Some(
                Mark::Verb {
                    answer: Answer::Polled(_),
                    ..
                },
            ) => polls = polls.wrapping_add(1),
            _ => {}
        }
    }
    (posts, polls)
}

// The verb that loads the bytes of the number of adapter 1.
fn load() -> Verb {
    Verb::Load {
        adapter: 1,
        buffer: 0,
        offset: 0,
        length: 8,
    }
}

// An answer with the bytes of this number.
fn loads(rt: &impl Abort, answer: Option<&Answer>, number: u64) {
    match answer {
        Some(Answer::Loaded(bytes)) => {
            assert!(rt; bytes.as_slice() == number.to_le_bytes().as_slice());
        }
        _ => panic!(rt; "the number is there"),
    }
}

// The key of a region that is registered.
fn registered(rt: &impl Abort, region: Option<Key>) -> Key {
    match region {
        Some(key) => key,
        None => panic!(rt; "the number is registered"),
    }
}

// A history in which so many requests were posted and polled, and each added one.
fn adds_are(rt: &impl Abort, history: Option<&Vec<Entry>>, key: Key, count: u64) {
    match history {
        Some(history) => {
            let (posts, polls) = posts_and_polls(history.as_slice());
            is(rt, "what was posted", Some(posts), count);
            is(rt, "what was polled", Some(polls), count);
            is(rt, "what was added", swaps(history.as_slice(), key), count);
        }
        None => panic!(rt; "no pass is out"),
    }
}

#[test]
fn four_threads_add_to_one_number(rt: HostRuntime) {
    let (fabric, mut first) = started(&rt, rt.alloc(), config(100_000));
    let region = region(&rt, &fabric, &mut first, 0, SHARED, 0, BUFFER_BYTES);
    let key = registered(&rt, region);
    let mut third = upper_half(&rt, &fabric, &mut first);
    let second = upper_half(&rt, &fabric, &mut first);
    let fourth = upper_half(&rt, &fabric, &mut third);
    let shared = &fabric;
    let runtime = &rt;
    let ((mut first, second), (third, fourth)) = join(
        runtime,
        move || -> (Pass, Pass)
            requires { IsOf shared.now first × IsOf shared.now second }
            ensures { IsOf shared.entry.now result.0 × IsOf shared.entry.now result.1 }
        { consume_two(runtime, shared, first, second, 0, key) },
        move || -> (Pass, Pass)
            requires { IsOf shared.now third × IsOf shared.now fourth }
            ensures { IsOf shared.entry.now result.0 × IsOf shared.entry.now result.1 }
        { consume_two(runtime, shared, third, fourth, 2, key) },
    );
    join_to(&rt, &fabric, &mut first, second);
    join_to(&rt, &fabric, &mut first, third);
    join_to(&rt, &fabric, &mut first, fourth);
    is_made(&rt, call(&rt, &fabric, &mut first, 0, &load()).is_some());
    loads(&rt, answer(&first), 10_000);
    let history = fabric.close(first).ok();
    adds_are(&rt, history.as_ref(), key, 10_000);
}
