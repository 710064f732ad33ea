use super::same;
use ca_base::{Lot, QueueId};
use ca_mailbox::{Weather, WeatherLine, WeatherList};
use std::process::Abort;
use std::test::Fail;

const FIRST: QueueId = QueueId {
    adapter: 0,
    number: 256,
};

const SECOND: QueueId = QueueId {
    adapter: 1,
    number: 513,
};

// Of the first 64 envelopes of two mailboxes under seed 7 those that do not pass, and of the first 64 timers those that
// are hastened, as another program draws them by the definition of the generator.
const FIRST_LOTS: [(u64, Lot); 7] = [
    (2, Lot::Lose),
    (16, Lot::Lose),
    (18, Lot::Lose),
    (22, Lot::Repeat(1)),
    (24, Lot::Lose),
    (28, Lot::Lose),
    (43, Lot::Lose),
];

const SECOND_LOTS: [(u64, Lot); 4] = [
    (27, Lot::Lose),
    (28, Lot::Hold(1)),
    (37, Lot::Lose),
    (48, Lot::Repeat(1)),
];

const FIRST_TIMERS: [u64; 3] = [7, 29, 35];

const SECOND_TIMERS: [u64; 5] = [4, 5, 26, 42, 58];

/// A lot as a number of its own, by which lots are compared.
fn number_of(lot: Lot) -> u16 {
    match lot {
        Lot::Pass => 0,
        Lot::Lose => 1,
        Lot::Repeat(k) => 256 + u16::from(k),
        Lot::Hold(k) => 512 + u16::from(k),
    }
}

fn lot_is(rt: &impl Abort, lot: Lot, want: Lot, what: &str) {
    same(rt, number_of(lot), number_of(want), what);
}

fn lot_in(lots: &[(u64, Lot)], index: u64) -> Lot {
    for (at, lot) in lots {
        if *at == index {
            return *lot;
        }
    }
    Lot::Pass
}

fn draws(rt: &impl Abort, queue: QueueId, lots: &[(u64, Lot)], timers: &[u64]) {
    let weather = Weather::Seeded(7);
    for number in 0..64 {
        lot_is(
            rt,
            weather.lot(queue, number),
            lot_in(lots, number),
            "a seeded lot",
        );
        same(
            rt,
            weather.hasten(queue, number),
            timers.contains(&number),
            "a seeded timer",
        );
    }
}

#[test]
fn a_seed_draws_what_its_generator_does(rt: HostRuntime) {
    draws(&rt, FIRST, FIRST_LOTS.as_slice(), FIRST_TIMERS.as_slice());
    draws(
        &rt,
        SECOND,
        SECOND_LOTS.as_slice(),
        SECOND_TIMERS.as_slice(),
    );
}

const LINES: [WeatherLine; 3] = [
    WeatherLine::Hasten {
        queue: FIRST,
        nth: 2,
    },
    WeatherLine::Lot {
        queue: FIRST,
        index: 1,
        lot: Lot::Hold(2),
    },
    WeatherLine::Lot {
        queue: FIRST,
        index: 1,
        lot: Lot::Lose,
    },
];

#[test]
fn listed_weather_follows_its_lines(rt: HostRuntime) -> Result<(), Fail> {
    let mut list = WeatherList::empty(rt.alloc());
    for line in LINES.as_slice() {
        list.push(*line)?;
    }
    let weather = Weather::Listed(list);
    lot_is(&rt, weather.lot(FIRST, 1), Lot::Hold(2), "the first line");
    lot_is(&rt, weather.lot(FIRST, 2), Lot::Pass, "another packet");
    lot_is(&rt, weather.lot(SECOND, 1), Lot::Pass, "another mailbox");
    same(&rt, weather.hasten(FIRST, 2), true, "a hastened timer");
    same(&rt, weather.hasten(FIRST, 1), false, "another timer");
    lot_is(&rt, Weather::Calm.lot(FIRST, 1), Lot::Pass, "calm");
    Ok(())
}
