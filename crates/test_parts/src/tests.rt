use crate::holding::take_one;
use crate::{Amount, Move, Opening, race, start};
use ca_parts::{Busy, Spent};
use std::process::Abort;
use std::test::Fail;

// The sum of the numbers of a closed row.
fn sum(values: &[Amount]) -> u64 {
    let mut all = 0u64;
    for x in values {
        all = all.wrapping_add(x.0);
    }
    all
}

#[test]
fn two_threads_keep_the_sum(rt: HostRuntime) -> Result<(), Fail> {
    let end = race(&rt, rt.alloc(), Opening { each: 1_000_000 }, 100_000);
    let (values, made) = end.expect(&rt, "memory");
    assert!(rt; values.len() == 8);
    assert!(rt; sum(values.as_slice()) == 8_000_000);
    assert!(rt; made > 0 && made <= 200_000);
    Ok(())
}

#[test]
fn a_held_part_is_busy_and_the_part_beside_it_is_taken(rt: HostRuntime) -> Result<(), Fail> {
    let (parts, mut first) = start(rt.alloc(), Opening { each: 5 }).expect(&rt, "memory");
    let mut second = parts.split(&mut first).expect(&rt, "two numbers are left");
    let held = Move {
        from: 2,
        to: 3,
        amount: 1,
    };
    let beside = Move {
        from: 3,
        to: 4,
        amount: 1,
    };
    let Ok(t) = take_one(&parts, &mut first, held, 2) else {
        panic!(rt; "part 2 was free")
    };
    match take_one(&parts, &mut second, held, 2) {
        Ok(again) => {
            parts.give(&mut second, again);
            panic!(rt; "part 2 was taken twice")
        }
        Err(Busy) => {}
    }
    let Ok(u) = take_one(&parts, &mut second, beside, 3) else {
        panic!(rt; "part 3 was free")
    };
    parts.give(&mut second, u);
    parts.give(&mut first, t);
    let Ok(t) = take_one(&parts, &mut second, held, 2) else {
        panic!(rt; "part 2 was given back")
    };
    parts.give(&mut second, t);
    Ok(())
}

#[test]
fn the_first_pass_splits_thirty_two_times(rt: HostRuntime) -> Result<(), Fail> {
    let (parts, mut first) = start(rt.alloc(), Opening { each: 1 }).expect(&rt, "memory");
    let mut all: u64 = 0;
    for _split in 0..32 {
        let other = parts
            .split(&mut first)
            .expect(&rt, "more than one number is left");
        all = all.wrapping_add(other.share());
    }
    assert!(rt; first.number() == 0 && first.share() == 1 && all == 0xffff_ffff);
    match parts.split(&mut first) {
        Ok(_) => panic!(rt; "one number was left"),
        Err(Spent) => {}
    }
    assert!(rt; first.share() == 1);
    Ok(())
}

#[test]
fn close_with_a_pass_out_gives_both_back(rt: HostRuntime) -> Result<(), Fail> {
    let (parts, mut first) = start(rt.alloc(), Opening { each: 7 }).expect(&rt, "memory");
    let second = parts.split(&mut first).expect(&rt, "two numbers are left");
    assert!(rt;
        first.share() == 1 << 31 && second.share() == 1 << 31 && second.number() == 1 << 31
    );
    let Err((parts, mut first)) = parts.close(first) else {
        panic!(rt; "a pass was out")
    };
    assert!(rt; first.share() == 1 << 31 && first.number() == 0 && parts.settings().each == 7);
    parts.join(&mut first, second);
    assert!(rt; first.share() == 1 << 32);
    let Ok((values, clock)) = parts.close(first) else {
        panic!(rt; "no pass was out")
    };
    assert!(rt; clock == 0 && values.len() == 8 && sum(values.as_slice()) == 56);
    Ok(())
}
