use super::{ROUND, TIMERS, config, goes};
use ca_engine::{Engine, Offer, Outcome};
use std::test::Fail;

const NOT_READY: Outcome = Outcome::NotReady(7);

#[test]
fn quiet_comes_behind_a_round_and_the_timers(rt: HostRuntime) -> Result<(), Fail> {
    let mut engine = Engine::new(rt.alloc(), &config(), 2)?;
    goes(&rt, &mut engine, &ROUND, NOT_READY, "a round");
    goes(&rt, &mut engine, &TIMERS, NOT_READY, "the timers");
    assert!(rt; engine.next() == Offer::Quiet, "Quiet");
    assert!(rt; engine.next() == Offer::Quiet, "still Quiet");
    engine.tell(NOT_READY);
    goes(&rt, &mut engine, &ROUND, NOT_READY, "a round behind Quiet");
    Ok(())
}

#[test]
fn a_line_that_passes_makes_a_round_more(rt: HostRuntime) -> Result<(), Fail> {
    let mut engine = Engine::new(rt.alloc(), &config(), 2)?;
    goes(
        &rt,
        &mut engine,
        &ROUND[..1],
        NOT_READY,
        "the first consumer",
    );
    goes(
        &rt,
        &mut engine,
        &ROUND[1..2],
        Outcome::Did,
        "an `at` passes",
    );
    goes(&rt, &mut engine, &ROUND[2..], NOT_READY, "the turns");
    goes(&rt, &mut engine, &ROUND, NOT_READY, "a round more");
    goes(&rt, &mut engine, &TIMERS[..1], NOT_READY, "the timers");
    Ok(())
}

#[test]
fn a_timer_pass_ends_at_its_first(rt: HostRuntime) -> Result<(), Fail> {
    let mut engine = Engine::new(rt.alloc(), &config(), 2)?;
    goes(&rt, &mut engine, &ROUND, NOT_READY, "a round");
    goes(&rt, &mut engine, &TIMERS[..1], NOT_READY, "the first wake");
    goes(
        &rt,
        &mut engine,
        &TIMERS[1..2],
        Outcome::Did,
        "the first timer",
    );
    goes(&rt, &mut engine, &ROUND, NOT_READY, "a round more");
    goes(
        &rt,
        &mut engine,
        &TIMERS[..1],
        NOT_READY,
        "the timers again",
    );
    Ok(())
}

#[test]
fn a_consumer_at_its_end_is_offered_in_each_round(rt: HostRuntime) -> Result<(), Fail> {
    let mut engine = Engine::new(rt.alloc(), &config(), 2)?;
    goes(&rt, &mut engine, &ROUND[..1], Outcome::Ended, "at its end");
    goes(
        &rt,
        &mut engine,
        &ROUND[1..2],
        Outcome::Did,
        "the other calls a verb",
    );
    goes(&rt, &mut engine, &ROUND[2..], NOT_READY, "the turns");
    goes(
        &rt,
        &mut engine,
        &ROUND[..2],
        Outcome::Ended,
        "both at their ends",
    );
    goes(&rt, &mut engine, &ROUND[2..], NOT_READY, "the turns again");
    goes(&rt, &mut engine, &TIMERS, NOT_READY, "the timers");
    assert!(rt; engine.next() == Offer::Quiet, "Quiet");
    Ok(())
}

#[test]
fn another_clock_and_a_held_part_make_a_round_more(rt: HostRuntime) -> Result<(), Fail> {
    let mut engine = Engine::new(rt.alloc(), &config(), 2)?;
    goes(&rt, &mut engine, &ROUND[..10], NOT_READY, "all but one");
    goes(
        &rt,
        &mut engine,
        &ROUND[10..],
        Outcome::NotReady(8),
        "another clock",
    );
    goes(&rt, &mut engine, &ROUND[..4], NOT_READY, "a round more");
    goes(&rt, &mut engine, &ROUND[4..5], Outcome::Busy, "a held part");
    goes(&rt, &mut engine, &ROUND[5..], NOT_READY, "the others");
    goes(&rt, &mut engine, &ROUND, NOT_READY, "a third round");
    goes(&rt, &mut engine, &TIMERS[..2], NOT_READY, "two timers");
    goes(
        &rt,
        &mut engine,
        &TIMERS[2..3],
        Outcome::NotReady(8),
        "another clock",
    );
    goes(&rt, &mut engine, &ROUND[..1], NOT_READY, "a fourth round");
    Ok(())
}

#[test]
fn with_nothing_to_offer_all_is_quiet(rt: HostRuntime) -> Result<(), Fail> {
    let mut none = config();
    none.adapters.clear();
    let mut engine = Engine::new(rt.alloc(), &none, 0)?;
    assert!(rt; engine.next() == Offer::Quiet, "Quiet at once");
    Ok(())
}
