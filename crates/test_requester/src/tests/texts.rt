use super::texts_are;
use std::alloc::Global;
use std::process::Abort;
use test_fixture_requester::full_text;

const SETUP: &str = "@0 p0 c0 init 0/0/0 -> ok
@1 p0 c0 rts 0/0/0 0 7 7 16 -> ok
";

fn is_full(rt: &impl Abort, alloc: Global, run: &str, want: &str) {
    match full_text(alloc, SETUP, run) {
        None => texts_are(rt, b"no text", want.as_bytes(), run),
        Some(full) => texts_are(rt, full.as_bytes(), want.as_bytes(), run),
    }
}

const SHORT: &str = "@1 p0 c0 rts 0/0/0 0 1 7 16 -> ok
@2 p0 c0 inject 0/256 0600ab*3 -> ok
 wrote cd*2
 done";

const FULL: &str = "@0 p0 c0 init 0/0/0 -> ok
@1 p0 c0 rts 0/0/0 0 1 7 16 -> ok
@2 p0 c0 inject 0/256 0600ababab -> ok
 wrote cdcd
 done";

#[test]
fn a_run_has_the_lines_of_its_setup_and_all_its_bytes(rt: HostRuntime) {
    is_full(&rt, rt.alloc(), SHORT, FULL);
    is_full(&rt, rt.alloc(), "", SETUP);
    is_full(&rt, rt.alloc(), "whole\n wrote ab*1\n", " wrote ab\n");
    is_full(&rt, rt.alloc(), "whole\n wrote ab*\n", "no text");
}
