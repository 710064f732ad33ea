use super::drawn_rows::{DRAWN_1, DRAWN_2};
use super::runs;
use super::worked_rows::{ROWS_1, ROWS_2};

#[test]
fn worked_rows_are_as_another_program_reckoned(rt: HostRuntime) {
    runs(&rt, rt.alloc(), ROWS_1);
}

#[test]
fn further_worked_rows_are_as_another_program_reckoned(rt: HostRuntime) {
    runs(&rt, rt.alloc(), ROWS_2);
}

#[test]
fn drawn_rows_are_as_another_program_reckoned(rt: HostRuntime) {
    runs(&rt, rt.alloc(), DRAWN_1);
}

#[test]
fn further_drawn_rows_are_as_another_program_reckoned(rt: HostRuntime) {
    runs(&rt, rt.alloc(), DRAWN_2);
}
