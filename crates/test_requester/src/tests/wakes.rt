use super::is_run;

const WITHOUT_END: &str = "@3 p0 c0 post 0/0/0 1 s write 0x100000000 0x00000001 - -> posted -
@4 p0 request 0/256 pass
 sent 0/256 1/256 - 0 0a00ffff000001008000000000000001000000000000000100000000
@5 p0 c0 inject 0/256 1100ffff00000100000000002c000001 -> ok
@6 p0 wake 0/256
 reason rnr-wait
";

const OF_SIX: &str = "@2 p0 c0 rts 0/0/0 0 7 6 16 -> ok
@3 p0 c0 post 0/0/0 1 s write 0x100000000 0x00000001 - -> posted -
@4 p0 request 0/256 pass
 sent 0/256 1/256 - 0 0a00ffff000001008000000000000001000000000000000100000000
@5 p0 c0 inject 0/256 1100ffff00000100000000002c000001 -> ok
@6 p0 wake 0/256
@4 p0 request 0/256 pass
 sent 0/256 1/256 - 0 0a00ffff000001008000000000000001000000000000000100000000
";

#[test]
fn only_an_rnr_limit_without_end_waits_for_a_receive(rt: HostRuntime) {
    is_run(&rt, rt.alloc(), WITHOUT_END, true);
    is_run(&rt, rt.alloc(), OF_SIX, true);
}
