use super::drawn_rows::{DRAWN_1, DRAWN_2};
use super::hostile_rows::HOSTILE_1;
use super::worked_rows::{ROWS_1, ROWS_2};
use super::{ROWS_SETUP, runs_from};

#[test]
fn worked_rows_are_as_another_program_reckoned(rt: HostRuntime) {
    runs_from(&rt, rt.alloc(), ROWS_SETUP, ROWS_1);
    runs_from(&rt, rt.alloc(), ROWS_SETUP, ROWS_2);
}

#[test]
fn hostile_packets_are_as_another_program_reckoned(rt: HostRuntime) {
    runs_from(&rt, rt.alloc(), ROWS_SETUP, HOSTILE_1);
}

#[test]
fn drawn_rows_are_as_another_program_reckoned(rt: HostRuntime) {
    runs_from(&rt, rt.alloc(), ROWS_SETUP, DRAWN_1);
    runs_from(&rt, rt.alloc(), ROWS_SETUP, DRAWN_2);
}
