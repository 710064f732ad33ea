ghost use Rattle.std.specs.Prelude.{◌≡◌, ◌<◌, ◌≤◌, ◌^◌, suc};

use super::{CALLS, draw, same};
use arrayvec::ArrayVec;
use ca_base::RecvRequest;
use ca_srq::Srq;
use rand_pcg::Pcg32;
use std::process::Abort;
use std::test::Fail;

// A receive without a list.
fn receive(id: u64) -> RecvRequest {
    RecvRequest {
        id,
        list: ArrayVec::new(),
    }
}

// Posts a receive, and gives its place, or the id of what came back.
fn post(queue: &mut Srq, id: u64) -> Result<u64, u64>
    requires { suc queue.old.next < 2 ^ 64 }
    ensures { queue.new.next ≤ suc queue.old.next }
{
    match queue.post(receive(id)) {
        Ok(place) => Ok(place),
        Err(refused) => Err(refused.id),
    }
}

// Takes a receive, and gives its place and its id.
fn take(queue: &mut Srq) -> Option<(u64, u64)>
    ensures { queue.new.next ≡ queue.old.next }
{
    match queue.take_next() {
        Some((place, taken)) => Some((place, taken.id)),
        None => None,
    }
}

#[test]
fn a_place_is_freed_alone(rt: HostRuntime) -> Result<(), Fail> {
    let mut queue = Srq::create(rt.alloc(), 2)?;
    same(&rt, queue.waiting(), 0, "none waits yet");
    same(&rt, post(&mut queue, 10), Ok(0), "the first place");
    same(&rt, queue.is_full(), false, "a place is free");
    same(&rt, post(&mut queue, 11), Ok(1), "the second place");
    same(&rt, queue.waiting(), 2, "two wait");
    same(&rt, queue.is_full(), true, "no place is free");
    same(&rt, queue.depth(), 2, "the depth");
    same(&rt, post(&mut queue, 12), Err(12), "a full queue");
    same(&rt, take(&mut queue), Some((0, 10)), "the first is taken");
    same(&rt, take(&mut queue), Some((1, 11)), "the second is taken");
    same(&rt, take(&mut queue), None, "none waits");
    same(
        &rt,
        post(&mut queue, 12),
        Err(12),
        "what was taken still occupies the queue",
    );
    queue.retire(1);
    same(
        &rt,
        queue.occupied(),
        1,
        "one place is freed, and not the one before it",
    );
    same(&rt, post(&mut queue, 12), Ok(2), "a place keeps its number");
    same(&rt, post(&mut queue, 13), Err(13), "full again");
    Ok(())
}

const DEPTH: usize = 7;

// A plain list of the receives that were ever posted, by place, and the places that are taken.
#[derive(Drop)]
struct Plain {
    posted: Vec<u64>,
    next: usize,
    taken: Vec<u64>,
}

impl Plain {
    fn waiting(&self) -> usize {
        self.posted.len().wrapping_sub(self.next)
    }

    fn is_full(&self) -> bool {
        self.waiting().wrapping_add(self.taken.len()) >= DEPTH
    }
}

// Posts at both.
fn post_at_both(rt: &impl Abort, queue: &mut Srq, plain: &mut Plain, id: u64) -> Result<(), Fail>
    requires { suc queue.old.next < 2 ^ 64 }
    ensures { queue.new.next ≤ suc queue.old.next }
{
    let place = plain.posted.len() as u64;
    if plain.is_full() {
        same(rt, post(queue, id), Err(id), "a drawn post at a full queue");
        return Ok(());
    }
    same(rt, post(queue, id), Ok(place), "a drawn post");
    plain.posted.push(id)?;
    Ok(())
}

// Takes from both.
fn take_at_both(rt: &impl Abort, queue: &mut Srq, plain: &mut Plain) -> Result<(), Fail>
    ensures { queue.new.next ≡ queue.old.next }
{
    let place = plain.next as u64;
    let Some(id) = plain.posted.get(plain.next).copied() else {
        same(rt, take(queue), None, "a drawn take where none waits");
        return Ok(());
    };
    same(rt, take(queue), Some((place, id)), "a drawn take");
    plain.next = plain.next.wrapping_add(1);
    plain.taken.push(place)?;
    Ok(())
}

// Frees at both the place of that number among those that were taken, if there are so many.
fn retire_at_both(queue: &mut Srq, plain: &mut Plain, number: usize)
    ensures { queue.new.next ≡ queue.old.next }
{
    if number < plain.taken.len() {
        queue.retire(plain.taken.remove(number));
    }
}

// One drawn call, and what both have then.
fn step(rt: &impl Abort, queue: &mut Srq, plain: &mut Plain, drawn: (u32, u64)) -> Result<(), Fail>
    requires { suc queue.old.next < 2 ^ 64 }
    ensures { queue.new.next ≤ suc queue.old.next }
{
    let (which, number) = drawn;
    match which {
        0 => take_at_both(rt, queue, plain)?,
        1 => retire_at_both(queue, plain, (number % 8) as usize),
        _ => post_at_both(rt, queue, plain, number)?,
    }
    same(
        rt,
        usize::from(queue.waiting()),
        plain.waiting(),
        "what waits",
    );
    let first = queue.first().map(|first| first.id);
    same(
        rt,
        first,
        plain.posted.get(plain.next).copied(),
        "the first",
    );
    Ok(())
}

#[test]
fn a_drawn_run_is_that_of_plain_lists(rt: HostRuntime) -> Result<(), Fail> {
    let mut generator = Pcg32::new(3, 1);
    let mut queue = Srq::create(rt.alloc(), DEPTH as u16)?;
    let mut plain = Plain {
        posted: Vec::new(rt.alloc()),
        next: 0,
        taken: Vec::new(rt.alloc()),
    };
    for _ in 0..CALLS {
        step(&rt, &mut queue, &mut plain, draw(&mut generator))?;
    }
    Ok(())
}
