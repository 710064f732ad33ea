use super::is_run;

const IMPLIED: &str = "@2 p0 c0 rts 0/0/0 0 1 7 16 -> ok
@3 p0 c0 post 0/0/0 1 s read 0x100000000 0x00000001 0x00000001:0x100000000:1 -> posted -
@3 p0 c0 post 0/0/0 2 s write 0x100000000 0x00000001 - -> posted -
@4 p0 request 0/256 pass
 sent 0/256 1/256 - 0 0c00ffff000001008000000000000001000000000000000100000001
@4 p0 request 0/256 pass
 sent 0/256 1/256 - 1 0a00ffff000001008000000100000001000000000000000100000000
@5 p0 c0 inject 0/256 1100ffff00000100000000011f000001 -> ok
@4 p0 request 0/256 pass
 sent 0/256 1/256 - 0 0c00ffff000001008000000000000001000000000000000100000001
@4 p0 request 0/256 pass
 sent 0/256 1/256 - 1 0a00ffff000001008000000100000001000000000000000100000000
@5 p0 c0 inject 0/256 1100ffff00000100000000011f000001 -> ok
 done 0/256 send 0 1 read retry-exceeded 0 - - -
 done 0/256 send 1 2 write flushed 0 - - -
";

const READ_REST: &str =
    "@3 p0 c0 post 0/0/0 1 s read 0x100000000 0x00000001 0x00000001:0x100000000:600 -> posted -
@4 p0 request 0/256 pass
 sent 0/256 1/256 - 0 0c00ffff000001008000000000000001000000000000000100000258
@5 p0 c0 inject 0/256 0d00ffff00000100000000001f000001ab*256 -> ok
 local 0/256 0/0 0x00000001 write 0x100000000 256 wrote ab*256
@7 p0 timeout 0/256 silent
 timer 0/256 silent
@4 p0 request 0/256 pass
 sent 0/256 1/256 - 0 0c00ffff000001008000000100000001000001000000000100000158
";

const NAK_1: &str = "@3 p0 c0 post 0/0/0 1 s write 0x100000000 0x00000001 - -> posted -
@3 p0 c0 post 0/0/0 2 s write 0x100000000 0x00000001 - -> posted -
@3 p0 c0 post 0/0/0 3 s write 0x100000000 0x00000001 - -> posted -
@4 p0 request 0/256 pass
 sent 0/256 1/256 - 0 0a00ffff000001008000000000000001000000000000000100000000
@4 p0 request 0/256 pass
 sent 0/256 1/256 - 1 0a00ffff000001008000000100000001000000000000000100000000
@5 p0 c0 inject 0/256 1100ffff000001000000000161000001 -> ok
 done 0/256 send 0 1 write success 0 - - -
 done 0/256 send 1 2 write remote-invalid-request 0 - - -
 done 0/256 send 2 3 write flushed 0 - - -
";

const NAK_2: &str = "@3 p0 c0 post 0/0/0 1 s write 0x100000000 0x00000001 - -> posted -
@3 p0 c0 post 0/0/0 2 s write 0x100000000 0x00000001 - -> posted -
@3 p0 c0 post 0/0/0 3 s write 0x100000000 0x00000001 - -> posted -
@4 p0 request 0/256 pass
 sent 0/256 1/256 - 0 0a00ffff000001008000000000000001000000000000000100000000
@4 p0 request 0/256 pass
 sent 0/256 1/256 - 1 0a00ffff000001008000000100000001000000000000000100000000
@5 p0 c0 inject 0/256 1100ffff000001000000000162000001 -> ok
 done 0/256 send 0 1 write success 0 - - -
 done 0/256 send 1 2 write remote-access 0 - - -
 done 0/256 send 2 3 write flushed 0 - - -
";

const NAK_3: &str = "@3 p0 c0 post 0/0/0 1 s write 0x100000000 0x00000001 - -> posted -
@3 p0 c0 post 0/0/0 2 s write 0x100000000 0x00000001 - -> posted -
@3 p0 c0 post 0/0/0 3 s write 0x100000000 0x00000001 - -> posted -
@4 p0 request 0/256 pass
 sent 0/256 1/256 - 0 0a00ffff000001008000000000000001000000000000000100000000
@4 p0 request 0/256 pass
 sent 0/256 1/256 - 1 0a00ffff000001008000000100000001000000000000000100000000
@5 p0 c0 inject 0/256 1100ffff000001000000000163000001 -> ok
 done 0/256 send 0 1 write success 0 - - -
 done 0/256 send 1 2 write remote-operation 0 - - -
 done 0/256 send 2 3 write flushed 0 - - -
";

const BAD_RESPONSE: &str =
    "@3 p0 c0 post 0/0/0 1 s read 0x100000000 0x00000001 0x00000001:0x100000000:2 -> posted -
@3 p0 c0 post 0/0/0 2 s write 0x100000000 0x00000001 - -> posted -
@4 p0 request 0/256 pass
 sent 0/256 1/256 - 0 0c00ffff000001008000000000000001000000000000000100000002
@5 p0 c0 inject 0/256 1030ffff00000100000000001f000001ab000000 -> ok
 done 0/256 send 0 1 read bad-response 0 - - -
 done 0/256 send 1 2 write flushed 0 - - -
";

const UNSIGNALLED: &str = "@3 p0 c0 post 0/0/0 1 - write 0x100000000 0x00000001 - -> posted -
@3 p0 c0 post 0/0/0 2 s write 0x100000000 0x00000001 - -> posted -
@4 p0 request 0/256 pass
 sent 0/256 1/256 - 0 0a00ffff000001008000000000000001000000000000000100000000
@4 p0 request 0/256 pass
 sent 0/256 1/256 - 1 0a00ffff000001008000000100000001000000000000000100000000
@5 p0 c0 inject 0/256 1100ffff00000100000000011f000001 -> ok
 done 0/256 send 1 2 write success 0 - - -
";

#[test]
fn an_acknowledgement_behind_a_read_is_an_implied_nak(rt: HostRuntime) {
    is_run(&rt, rt.alloc(), IMPLIED, false);
}

#[test]
fn a_read_that_goes_on_asks_for_the_rest(rt: HostRuntime) {
    is_run(&rt, rt.alloc(), READ_REST, false);
}

#[test]
fn nak_1_is_remote_invalid_request(rt: HostRuntime) {
    is_run(&rt, rt.alloc(), NAK_1, false);
}

#[test]
fn nak_2_is_remote_access(rt: HostRuntime) {
    is_run(&rt, rt.alloc(), NAK_2, false);
}

#[test]
fn nak_3_is_remote_operation(rt: HostRuntime) {
    is_run(&rt, rt.alloc(), NAK_3, false);
}

#[test]
fn a_response_of_the_wrong_length_is_bad(rt: HostRuntime) {
    is_run(&rt, rt.alloc(), BAD_RESPONSE, false);
}

#[test]
fn an_unsignalled_success_makes_no_completion(rt: HostRuntime) {
    is_run(&rt, rt.alloc(), UNSIGNALLED, false);
}
