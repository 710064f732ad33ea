ghost use Rattle.std.specs.Prelude.{◌≡◌, ◌<◌, ◌≤◌, ◌^◌, suc};
ghost use Rattle.ca_base.specs.objects.WorkQueue.{next_place};

use super::{CALLS, draw, same};
use ca_workqueue::WorkQueue;
use rand_pcg::Pcg32;
use std::process::Abort;
use std::test::Fail;

#[test]
fn a_full_queue_is_freed_up_to_a_later_place(rt: HostRuntime) -> Result<(), Fail> {
    let mut queue = WorkQueue::create(rt.alloc(), 3)?;
    same(&rt, queue.post(10), Ok(0), "the first place");
    same(&rt, queue.post(11), Ok(1), "the second place");
    same(&rt, queue.post(12), Ok(2), "the third place");
    same(&rt, queue.post(13), Err(13), "a full queue");
    same(&rt, queue.take_next(), Some(0), "the first is taken");
    same(&rt, queue.take_next(), Some(1), "the second is taken");
    same(
        &rt,
        queue.get(0).copied(),
        Some(10),
        "what was taken stays readable",
    );
    same(
        &rt,
        queue.post(13),
        Err(13),
        "what was taken still occupies the queue",
    );
    queue.retire(1);
    same(&rt, queue.get(1).copied(), None, "a place that was freed");
    same(&rt, queue.get(2).copied(), Some(12), "a place behind it");
    same(&rt, queue.occupied(), 1, "occupied places");
    same(&rt, queue.post(13), Ok(3), "a place keeps its number");
    Ok(())
}

#[test]
fn all_that_wait_are_taken_and_a_reset_begins_anew(rt: HostRuntime) -> Result<(), Fail> {
    let mut queue = WorkQueue::create(rt.alloc(), 2)?;
    same(&rt, queue.next_place(), 0, "the place of the first post");
    same(&rt, queue.waiting(), 0, "none waits yet");
    same(&rt, queue.post(10), Ok(0), "the first place");
    same(&rt, queue.is_full(), false, "a place is free");
    same(&rt, queue.post(11), Ok(1), "the second place");
    same(&rt, queue.next_place(), 2, "the place of the third post");
    same(&rt, queue.waiting(), 2, "two wait");
    same(&rt, queue.is_full(), true, "no place is free");
    same(&rt, queue.depth(), 2, "the depth");
    queue.take_all();
    same(&rt, queue.waiting(), 0, "none waits any more");
    same(&rt, queue.take_next(), None, "none waits");
    same(&rt, queue.occupied(), 2, "what was taken still occupies");
    queue.retire(0);
    queue.reset();
    same(&rt, queue.occupied(), 0, "an empty queue");
    same(&rt, queue.post(12), Ok(0), "places begin anew");
    same(&rt, queue.post(13), Ok(1), "the depth stays");
    same(&rt, queue.post(14), Err(14), "a full queue once more");
    same(&rt, queue.take_next(), Some(0), "takes begin anew");
    Ok(())
}

// A queue beside which a plain list of all that was ever posted stands.
#[derive(Drop)]
struct Plain {
    posted: Vec<u64>,
    first: usize,
    taken: usize,
}

const DEPTH: usize = 7;

impl Plain {
    fn is_full(&self) -> bool {
        self.posted.len().wrapping_sub(self.first) >= DEPTH
    }

    fn at(&self, place: u64) -> Option<u64> {
        if place < self.first as u64 {
            return None;
        }
        self.posted.get(place as usize).copied()
    }
}

// Posts at both.
fn post(
    rt: &impl Abort,
    queue: &mut WorkQueue<u64>,
    plain: &mut Plain,
    request: u64,
) -> Result<(), Fail>
    requires { suc (next_place queue.old) < 2 ^ 64 }
    ensures { next_place queue.new ≤ suc (next_place queue.old) }
{
    let place = plain.posted.len() as u64;
    if plain.is_full() {
        same(
            rt,
            queue.post(request),
            Err(request),
            "a drawn post at a full queue",
        );
        return Ok(());
    }
    same(rt, queue.post(request), Ok(place), "a drawn post");
    plain.posted.push(request)?;
    Ok(())
}

// Takes from both.
fn take(rt: &impl Abort, queue: &mut WorkQueue<u64>, plain: &mut Plain)
    ensures { next_place queue.new ≡ next_place queue.old }
{
    let place = plain.taken;
    let waits = place < plain.posted.len();
    same(
        rt,
        queue.take_next(),
        waits.then_some(place as u64),
        "a drawn take",
    );
    if waits {
        plain.taken = place.wrapping_add(1);
    }
}

// Frees at both up to a place, where it is occupied.
fn retire(rt: &impl Abort, queue: &mut WorkQueue<u64>, plain: &mut Plain, place: u64)
    ensures { next_place queue.new ≡ next_place queue.old }
{
    let got = queue.get(place).copied();
    same(rt, got, plain.at(place), "a drawn place");
    if queue.get(place).is_some() && place < queue.next_place() {
        queue.retire(place);
        plain.first = (place as usize).wrapping_add(1);
    }
}

// One drawn call.
fn step(
    rt: &impl Abort,
    queue: &mut WorkQueue<u64>,
    plain: &mut Plain,
    drawn: (u32, u64),
) -> Result<(), Fail>
    requires { suc (next_place queue.old) < 2 ^ 64 }
    ensures { next_place queue.new ≤ suc (next_place queue.old) }
{
    let (which, number) = drawn;
    match which {
        0 => take(rt, queue, plain),
        1 => {
            let place = (plain.first as u64).wrapping_add(number % 9);
            retire(rt, queue, plain, place);
        }
        _ => return post(rt, queue, plain, number),
    }
    Ok(())
}

#[test]
fn a_drawn_run_is_that_of_a_plain_list(rt: HostRuntime) -> Result<(), Fail> {
    let mut generator = Pcg32::new(2, 1);
    let mut queue = WorkQueue::create(rt.alloc(), DEPTH as u16)?;
    let mut plain = Plain {
        posted: Vec::new(rt.alloc()),
        first: 0,
        taken: 0,
    };
    for _ in 0..CALLS {
        step(&rt, &mut queue, &mut plain, draw(&mut generator))?;
    }
    let occupied = plain.posted.len().wrapping_sub(plain.first);
    same(
        &rt,
        usize::from(queue.occupied()),
        occupied,
        "occupied at the end",
    );
    Ok(())
}
