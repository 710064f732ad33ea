use super::is_run;

const FENCE: &str =
    "@3 p0 c0 post 0/0/0 1 s read 0x100000000 0x00000001 0x00000001:0x100000000:1 -> posted -
@3 p0 c0 post 0/0/0 2 sf write 0x100000000 0x00000001 - -> posted -
@3 p0 c0 post 0/0/0 3 s write 0x100000000 0x00000001 - -> posted -
@4 p0 request 0/256 pass
 sent 0/256 1/256 - 0 0c00ffff000001008000000000000001000000000000000100000001
@4 p0 request 0/256 pass
 reason fence
@5 p0 c0 inject 0/256 1030ffff00000100000000001f000001ab000000 -> ok
 local 0/256 0/0 0x00000001 write 0x100000000 1 wrote ab
 done 0/256 send 0 1 read success 1 - - -
@4 p0 request 0/256 pass
 sent 0/256 1/256 - 1 0a00ffff000001008000000100000001000000000000000100000000
@4 p0 request 0/256 pass
 sent 0/256 1/256 - 2 0a00ffff000001008000000200000001000000000000000100000000
";

const FENCE_WRITE: &str = "@3 p0 c0 post 0/0/0 1 s write 0x100000000 0x00000001 - -> posted -
@3 p0 c0 post 0/0/0 2 sf write 0x100000000 0x00000001 - -> posted -
@4 p0 request 0/256 pass
 sent 0/256 1/256 - 0 0a00ffff000001008000000000000001000000000000000100000000
@4 p0 request 0/256 pass
 sent 0/256 1/256 - 1 0a00ffff000001008000000100000001000000000000000100000000
";

const LOCAL: &str = "@3 p0 c0 post 0/0/0 1 s write 0x100000000 0x00000001 - -> posted -
@3 p0 c0 post 0/0/0 2 s inv 0x00800009 -> posted -
@3 p0 c0 post 0/0/0 3 s write 0x100000000 0x00000001 - -> posted -
@4 p0 request 0/256 pass
 sent 0/256 1/256 - 0 0a00ffff000001008000000000000001000000000000000100000000
@4 p0 request 0/256 pass
 reason fence
@5 p0 c0 inject 0/256 1100ffff00000100000000001f000001 -> ok
 done 0/256 send 0 1 write success 0 - - -
@4 p0 request 0/256 pass
 done 0/256 send 1 2 local-inv success 0 - - -
@4 p0 request 0/256 pass
 sent 0/256 1/256 - 2 0a00ffff000001008000000100000001000000000000000100000000
";

const DRAIN: &str = "@3 p0 c0 post 0/0/0 1 s send 0x00000001:0x100000000:300 -> posted -
@3 p0 c0 post 0/0/0 2 s write 0x100000000 0x00000001 - -> posted -
@4 p0 request 0/256 pass
 local 0/256 0/0 0x00000001 read 0x100000000 256 read 00*256
 sent 0/256 1/256 - 0 0000ffff000001000000000000*256
@8 p0 c0 sqd 0/0/0 -> ok
@4 p0 request 0/256 pass
 local 0/256 0/0 0x00000001 read 0x100000100 44 read 00*44
 sent 0/256 1/256 - 0 0200ffff000001008000000100*44
@4 p0 request 0/256 pass
 reason state
@7 p0 timeout 0/256 silent
 timer 0/256 silent
@4 p0 request 0/256 pass
 local 0/256 0/0 0x00000001 read 0x100000000 256 read 00*256
 sent 0/256 1/256 - 0 0000ffff000001000000000000*256
@4 p0 request 0/256 pass
 local 0/256 0/0 0x00000001 read 0x100000100 44 read 00*44
 sent 0/256 1/256 - 0 0200ffff000001008000000100*44
@5 p0 c0 inject 0/256 1100ffff00000100000000011f000001 -> ok
 done 0/256 send 0 1 send success 0 - - -
@4 p0 request 0/256 pass
 reason state
@9 p0 c0 resume 0/0/0 -> ok
@4 p0 request 0/256 pass
 sent 0/256 1/256 - 1 0a00ffff000001008000000200000001000000000000000100000000
";

const STATE: &str = "whole
@0 p0 c0 reg 0/0/0 0 0 4096 lrwab -> key 0x00000001
@0 p0 c0 qp 0/0/0 0 0 4 0 0 -> qp 256 1
@0 p0 c0 init 0/0/0 -> ok
@4 p0 request 0/256 pass
 reason state
@1 p0 c0 rtr 0/0/0 1/256 1 0 256 12 -> ok
@3 p0 c0 post 0/0/0 1 s write 0x100000000 0x00000001 - -> posted -
@4 p0 request 0/256 pass
 reason state
@7 p0 timeout 0/256 silent
 reason state
@6 p0 wake 0/256
 reason state
@5 p0 c0 inject 0/256 1100ffff00000100000000001f000001 -> ok
 dropped 0/256 state
";

const EMPTY: &str = "@4 p0 request 0/256 pass
 reason empty
@7 p0 timeout 0/256 silent
 reason empty
@6 p0 wake 0/256
 reason empty
@5 p0 c0 inject 0/256 1100ffff00000100000000001f000001 -> ok
 dropped 0/256 stale
";

const NO_ROOM: &str = "@3 p0 c0 post 0/0/0 1 s write 0x100000000 0x00000001 - -> posted -
@4 p0 request 0/256 lose
 reason no-room
@4 p0 request 0/256 pass
 sent 0/256 1/256 - 0 0a00ffff000001008000000000000001000000000000000100000000
@4 p0 request 0/256 lose
 reason empty
";

const DENIED: &str = "@3 p0 c0 post 0/0/0 1 s write 0x100000000 0x00000001 - -> posted -
@3 p0 c0 post 0/0/0 2 s write 0x100000000 0x00000001 0x00000005:0x100000000:1 -> posted -
@3 p0 c0 post 0/0/0 3 s write 0x100000000 0x00000001 - -> posted -
@4 p0 request 0/256 pass
 sent 0/256 1/256 - 0 0a00ffff000001008000000000000001000000000000000100000000
@4 p0 request 0/256 pass
 reason outstanding
@5 p0 c0 inject 0/256 1100ffff00000100000000001f000001 -> ok
 done 0/256 send 0 1 write success 0 - - -
@4 p0 request 0/256 lose
 reason no-room
@4 p0 request 0/256 pass
 local 0/256 0/0 0x00000005 read 0x100000000 1 denied no-grant
 done 0/256 send 1 2 write local-protection 0 - - -
 done 0/256 send 2 3 write flushed 0 - - -
@4 p0 request 0/256 pass
 reason state
";

#[test]
fn a_fence_waits_for_reads_before_it(rt: HostRuntime) {
    is_run(&rt, rt.alloc(), FENCE, false);
}

#[test]
fn a_fence_waits_for_no_write(rt: HostRuntime) {
    is_run(&rt, rt.alloc(), FENCE_WRITE, false);
}

#[test]
fn a_local_operation_waits_for_all_before_it(rt: HostRuntime) {
    is_run(&rt, rt.alloc(), LOCAL, false);
}

#[test]
fn a_drain_goes_on_and_begins_nothing(rt: HostRuntime) {
    is_run(&rt, rt.alloc(), DRAIN, false);
}

#[test]
fn in_ready_to_receive_nothing_is_possible(rt: HostRuntime) {
    is_run(&rt, rt.alloc(), STATE, false);
}

#[test]
fn with_nothing_posted_nothing_is_to_do(rt: HostRuntime) {
    is_run(&rt, rt.alloc(), EMPTY, false);
}

#[test]
fn without_room_at_the_peer_nothing_is_sent(rt: HostRuntime) {
    is_run(&rt, rt.alloc(), NO_ROOM, false);
}

#[test]
fn a_denied_list_fails_once_nothing_is_outstanding(rt: HostRuntime) {
    is_run(&rt, rt.alloc(), DENIED, false);
}
