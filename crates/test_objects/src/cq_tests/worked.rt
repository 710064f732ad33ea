use super::{FIRST, SECOND, completion, dropped, same, seen, seen_at};
use ca_base::{QueueId, Reserve};
use ca_cq::{Cq, CqError};
use std::test::Fail;

const THIRD: QueueId = QueueId {
    adapter: 1,
    number: 256,
};

#[test]
fn a_capacity_of_seven_is_too_small_for_four_and_four(rt: HostRuntime) -> Result<(), Fail> {
    let mut queue = Cq::create(rt.alloc(), 7)?;
    same(&rt, queue.in_use(), false, "no reservation");
    let sends = queue.reserve(Reserve::Sends(FIRST), 4);
    same(&rt, sends, Ok(()), "four of seven");
    let both = queue.is_too_small(Reserve::Receives(FIRST), 4);
    same(&rt, both, true, "four more are too many");
    let receives = queue.reserve(Reserve::Receives(FIRST), 4);
    same(&rt, receives, Err(CqError::TooSmall), "four more");
    let fewer = queue.reserve(Reserve::Receives(FIRST), 3);
    same(&rt, fewer, Ok(()), "a refusal changes nothing");
    same(&rt, queue.in_use(), true, "two reservations");
    queue.release(Reserve::Sends(FIRST));
    let other = queue.reserve(Reserve::Sends(SECOND), 5);
    same(&rt, other, Err(CqError::TooSmall), "the receives stay");
    let fits = queue.reserve(Reserve::Sends(SECOND), 4);
    same(&rt, fits, Ok(()), "what was released is free");
    Ok(())
}

// The reservation of a queue pair that uses the shared receive queue 3.
fn shared(user: QueueId) -> Reserve {
    Reserve::Shared { srq: 3, user }
}

#[test]
fn a_second_side_is_tried_after_the_first(rt: HostRuntime) -> Result<(), Fail> {
    let queue = Cq::create(rt.alloc(), 7)?;
    let sends = Reserve::Sends(FIRST);
    let receives = Reserve::Receives(FIRST);
    let four = queue.is_too_small_after(sends, 4, receives, 4);
    same(&rt, four, true, "four and four");
    let three = queue.is_too_small_after(sends, 4, receives, 3);
    same(&rt, three, false, "four and three");
    let users = queue.is_too_small_after(shared(FIRST), 4, shared(SECOND), 4);
    same(&rt, users, false, "two users of one shared receive queue");
    Ok(())
}

#[test]
fn completions_are_put_together_and_taken_one_by_one(rt: HostRuntime) -> Result<(), Fail> {
    let mut queue = Cq::create(rt.alloc(), 3)?;
    queue.put(completion(FIRST, true, 1));
    let more = [completion(SECOND, true, 2), completion(FIRST, false, 3)];
    queue.put_all(more.as_slice());
    let first = queue.poll_first();
    same(&rt, first.as_ref().map(seen), Some((256, true, 1)), "first");
    let second = queue.poll_first();
    same(
        &rt,
        second.as_ref().map(seen),
        Some((257, true, 2)),
        "second",
    );
    let third = queue.poll_first();
    same(
        &rt,
        third.as_ref().map(seen),
        Some((256, false, 3)),
        "third",
    );
    same(&rt, queue.poll_first().is_none(), true, "none waits");
    Ok(())
}

#[test]
fn a_shared_receive_queue_counts_once(rt: HostRuntime) -> Result<(), Fail> {
    let mut queue = Cq::create(rt.alloc(), 5)?;
    let first = queue.reserve(shared(FIRST), 4);
    same(&rt, first, Ok(()), "the first user");
    let second = queue.reserve(shared(SECOND), 4);
    same(&rt, second, Ok(()), "a second user takes no room");
    let sends = queue.reserve(Reserve::Sends(THIRD), 2);
    same(&rt, sends, Err(CqError::TooSmall), "one is left");
    same(&rt, queue.source(FIRST), Some(3), "a user");
    same(&rt, queue.source(THIRD), None, "no user");
    queue.release(shared(FIRST));
    same(&rt, queue.source(FIRST), None, "no user any more");
    same(&rt, queue.source(SECOND), Some(3), "the other user");
    let still = queue.reserve(Reserve::Sends(THIRD), 2);
    same(&rt, still, Err(CqError::TooSmall), "its room stays");
    queue.release(shared(SECOND));
    let free = queue.reserve(Reserve::Sends(THIRD), 5);
    same(&rt, free, Ok(()), "the last user's room is free");
    Ok(())
}

#[test]
fn a_dropped_queue_pair_gives_the_places_of_its_receives(rt: HostRuntime) -> Result<(), Fail> {
    let mut queue = Cq::create(rt.alloc(), 6)?;
    queue.put(completion(FIRST, true, 9));
    queue.put(completion(SECOND, true, 4));
    queue.put(completion(FIRST, false, 5));
    queue.put(completion(FIRST, true, 2));
    queue.put(completion(THIRD, false, 7));
    same(&rt, seen_at(&queue, 3), Some((256, true, 2)), "the fourth");
    same(&rt, seen_at(&queue, 5), None, "behind all");
    let places = dropped(&mut queue, FIRST);
    same(&rt, places.as_slice(), [9, 2].as_slice(), "its receives");
    let first = queue.poll(1);
    same(
        &rt,
        first.first().map(seen),
        Some((257, true, 4)),
        "the first that stays",
    );
    let others = queue.poll(16);
    same(&rt, others.len(), 1, "as many as wait");
    same(
        &rt,
        others.first().map(seen),
        Some((256, false, 7)),
        "one of another adapter",
    );
    Ok(())
}
