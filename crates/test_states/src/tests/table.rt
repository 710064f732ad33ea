use super::{DONE, TO_RTR, TO_RTS, TRANSITION, WINDOWS_BOUND, change, created, settings, tries};
use ca_base::Settings;
use ca_qpstate::{Change, State};
use std::alloc::Global;
use std::process::Abort;

/// The states in the order of their numbers.
const STATES: [State; 6] = [
    State::Reset,
    State::Init,
    State::Rtr,
    State::Rts,
    State::Sqd,
    State::Error,
];

// The changes that lead from Reset to a state.
const WAY_TO_SQD: [Change; 4] = [Change::Init, TO_RTR, TO_RTS, Change::Sqd];

const WAY_TO_ERROR: [Change; 2] = [Change::Init, Change::Error];

/// No change leads from there.
const NONE: u8 = 9;

/// Each change, and to which state it leads from Reset, Init, Rtr, Rts, Sqd and Error.
const TABLE: [(Change, [u8; 6]); 7] = [
    (Change::Init, [1, NONE, NONE, NONE, NONE, NONE]),
    (TO_RTR, [NONE, 2, NONE, NONE, NONE, NONE]),
    (TO_RTS, [NONE, NONE, 3, NONE, NONE, NONE]),
    (Change::Sqd, [NONE, NONE, NONE, 4, NONE, NONE]),
    (Change::Resume, [NONE, NONE, NONE, NONE, 3, NONE]),
    (Change::Error, [NONE, 5, 5, 5, 5, 5]),
    (Change::Reset, [0, 0, 0, 0, 0, 0]),
];

fn way_to(state: State) -> &'static [Change] {
    match state {
        State::Reset => &[],
        State::Init => &[Change::Init],
        State::Rtr => &[Change::Init, TO_RTR],
        State::Rts => &[Change::Init, TO_RTR, TO_RTS],
        State::Sqd => WAY_TO_SQD.as_slice(),
        State::Error => WAY_TO_ERROR.as_slice(),
    }
}

// Tries a change in a state, with windows bound or without, and says what has to come of it.
fn tries_from(
    rt: &impl Abort,
    alloc: Global,
    settings: &Settings,
    state: State,
    (by, leads_to, windows): (&Change, u8, u32),
) {
    let mut q = created(rt, alloc);
    for next in way_to(state) {
        change(rt, &mut q, settings, next);
    }
    q.windows.count = windows;
    let want = if leads_to == NONE {
        (TRANSITION, state as u8)
    } else if matches!(by, Change::Reset) && windows > 0 {
        (WINDOWS_BOUND, state as u8)
    } else {
        (DONE, leads_to)
    };
    tries(rt, &mut q, settings, by, want);
}

fn goes_through_the_table(rt: &impl Abort, alloc: Global, windows: u32) {
    let settings = settings(rt);
    for (by, leads_to) in TABLE.as_slice() {
        for (state, to) in STATES.as_slice().iter().zip(leads_to.as_slice()) {
            tries_from(rt, alloc, &settings, *state, (by, *to, windows));
        }
    }
}

#[test]
fn each_change_from_each_state(rt: HostRuntime) {
    goes_through_the_table(&rt, rt.alloc(), 0);
}

#[test]
fn a_bound_window_refuses_reset_alone(rt: HostRuntime) {
    goes_through_the_table(&rt, rt.alloc(), 1);
}
