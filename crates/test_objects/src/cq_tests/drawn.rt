ghost use Rattle.std.specs.Prelude.{◌≡◌, ◌≤◌, length, nat_lt};

use super::{FIRST, SECOND, Seen, completion, dropped, same, seen, seen_at};
use ca_base::QueueId;
use ca_cq::Cq;
use rand_core::utils::NextWord;
use rand_pcg::Pcg32;
use std::process::Abort;
use std::test::Fail;

/// How many calls the drawn run makes.
const CALLS: u64 = 3000;

const CAPACITY: u16 = 7;

// Whether there is room for one more.
fn has_room(queue: &Cq) -> bool
    ensures { result ≡ nat_lt (length queue.now.waiting) 7 }
{
    queue.at(CAPACITY - 1).is_none()
}

// Puts a completion at both, where there is room.
fn put(queue: &mut Cq, plain: &mut Vec<Seen>, of: QueueId, number: u64) -> Result<(), Fail>
    requires { (queue.old.capacity ≡ 7) × (length queue.old.waiting ≤ 7) }
    ensures { (queue.new.capacity ≡ 7) × (length queue.new.waiting ≤ 7) }
{
    if has_room(queue) {
        let put = completion(of, number % 2 == 0, number);
        queue.put(put);
        plain.push(seen(&put))?;
    }
    Ok(())
}

// Polls both.
fn poll(rt: &impl Abort, queue: &mut Cq, plain: &mut Vec<Seen>, n: u8)
    requires few { n ≤ 16 }
    requires queue { (queue.old.capacity ≡ 7) × (length queue.old.waiting ≤ 7) }
    ensures { (queue.new.capacity ≡ 7) × (length queue.new.waiting ≤ 7) }
{
    let polled = queue.poll(n);
    same(
        rt,
        polled.len(),
        plain.len().min(usize::from(n)),
        "how many are polled",
    );
    for got in polled.as_slice() {
        if !plain.is_empty() {
            same(rt, seen(got), plain.remove(0), "a drawn poll");
        }
    }
}

// Drops a queue pair at both.
fn drop_queue(rt: &impl Abort, queue: &mut Cq, plain: &mut Vec<Seen>, of: QueueId)
    requires { (queue.old.capacity ≡ 7) × (length queue.old.waiting ≤ 7) }
    ensures { (queue.new.capacity ≡ 7) × (length queue.new.waiting ≤ 7) }
{
    let places = dropped(queue, of);
    let mut given = 0;
    for (number, receive, place) in plain.as_slice() {
        if *number == of.number && *receive {
            same(
                rt,
                places.as_slice().get(given).copied(),
                Some(*place),
                "a drawn place",
            );
            given = given.wrapping_add(1);
        }
    }
    same(rt, places.len(), given, "how many places");
    plain.retain(|seen| seen.0 != of.number);
}

// One drawn call, and what both have then.
fn step(rt: &impl Abort, queue: &mut Cq, plain: &mut Vec<Seen>, word: u32) -> Result<(), Fail>
    requires { (queue.old.capacity ≡ 7) × (length queue.old.waiting ≤ 7) }
    ensures { (queue.new.capacity ≡ 7) × (length queue.new.waiting ≤ 7) }
{
    let of = if word / 8 % 2 == 0 { FIRST } else { SECOND };
    match word % 8 {
        0 => drop_queue(rt, queue, plain, of),
        1 => poll(rt, queue, plain, (word / 16 % 5) as u8),
        _ => put(queue, plain, of, u64::from(word / 16 % 32))?,
    }
    for i in 0..CAPACITY {
        same(
            rt,
            seen_at(queue, i),
            plain.get(usize::from(i)).copied(),
            "what waits",
        );
    }
    Ok(())
}

#[test]
fn a_drawn_run_is_that_of_a_plain_list(rt: HostRuntime) -> Result<(), Fail> {
    let mut generator = Pcg32::new(4, 1);
    let mut queue = Cq::create(rt.alloc(), CAPACITY)?;
    let mut plain = Vec::new(rt.alloc());
    for _ in 0..CALLS {
        step(&rt, &mut queue, &mut plain, generator.next_word())?;
    }
    Ok(())
}
