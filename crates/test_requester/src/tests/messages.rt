use super::{fails, is_run};
use ca_base::{OpRefusal, WindowError};

const IMMEDIATE: &str = "@0 p0 c0 rtr 0/0/0 1/256 1 0 256 12 -> ok
@0 p0 c0 rts 0/0/0 0 7 7 16 -> ok
@0 p0 c0 post 0/0/0 1 s writeimm 0x100000800 0x00000001 9 0x00000001:0x100000000:300 -> posted -
@0 p0 c0 post 0/0/0 2 s sendimm 9 0x00000001:0x100000000:1 -> posted -
@0 p0 request 0/256 pass
 local 0/256 0/0 0x00000001 read 0x100000000 256 read 00*256
 sent 0/256 1/256 - 0 0600ffff00000100000000000000000100000800000000010000012c00*256
@0 p0 request 0/256 pass
 local 0/256 0/0 0x00000001 read 0x100000100 44 read 00*44
 sent 0/256 1/256 - 0 0900ffff00000100800000010000000900*44
@0 p0 request 0/256 pass
 local 0/256 0/0 0x00000001 read 0x100000000 1 read 00
 sent 0/256 1/256 - 1 0530ffff00000100800000020000000900000000
@0 p0 c0 inject 0/256 1100ffff00000100000000021f000002 -> ok
 done 0/256 send 0 1 write success 0 - - -
 done 0/256 send 1 2 send success 0 - - -
";

const INVALIDATE: &str = "@0 p0 c0 rtr 0/0/0 1/256 1 0 256 12 -> ok
@0 p0 c0 rts 0/0/0 0 7 7 16 -> ok
@0 p0 c0 post 0/0/0 1 s sendinv 0x00800009 0x00000001:0x100000000:257 -> posted -
@0 p0 c0 post 0/0/0 2 s sendinv 0x00800009 - -> posted -
@0 p0 request 0/256 pass
 local 0/256 0/0 0x00000001 read 0x100000000 256 read 00*256
 sent 0/256 1/256 - 0 0000ffff000001000000000000*256
@0 p0 request 0/256 pass
 local 0/256 0/0 0x00000001 read 0x100000100 1 read 00
 sent 0/256 1/256 - 0 1630ffff00000100800000010080000900000000
@0 p0 request 0/256 pass
 sent 0/256 1/256 - 1 1700ffff000001008000000200800009
@0 p0 c0 inject 0/256 1100ffff00000100000000011f000001 -> ok
 done 0/256 send 0 1 send success 0 - - -
@0 p0 c0 inject 0/256 1100ffff00000100000000021f000002 -> ok
 done 0/256 send 1 2 send success 0 - - -
";

const WRITE_OF_THREE: &str = "@0 p0 c0 rtr 0/0/0 1/256 1 0 256 12 -> ok
@0 p0 c0 rts 0/0/0 0 7 7 16 -> ok
@0 p0 c0 post 0/0/0 1 s write 0x100000000 0x00000001 0x00000001:0x100000000:100,0x00000001:0x100000064:413 -> posted -
@0 p0 request 0/256 pass
 local 0/256 0/0 0x00000001 read 0x100000000 100 read 00*100
 local 0/256 0/0 0x00000001 read 0x100000064 156 read 00*156
 sent 0/256 1/256 - 0 0600ffff00000100000000000000000100000000000000010000020100*256
@0 p0 request 0/256 pass
 local 0/256 0/0 0x00000001 read 0x100000100 256 read 00*256
 sent 0/256 1/256 - 0 0700ffff000001000000000100*256
@0 p0 request 0/256 pass
 local 0/256 0/0 0x00000001 read 0x100000200 1 read 00
 sent 0/256 1/256 - 0 0830ffff000001008000000200000000
@0 p0 c0 inject 0/256 1100ffff00000100000000021f000001 -> ok
 done 0/256 send 0 1 write success 0 - - -
";

const REFUSED: &str = "@0 p0 c0 rtr 0/0/0 1/256 1 0 256 12 -> ok
@0 p0 c0 rts 0/0/0 0 7 7 16 -> ok
@0 p0 c0 post 0/0/0 1 s inv 0x00800009 -> posted -
@0 p0 c0 post 0/0/0 2 s write 0x100000000 0x00000001 - -> posted -
";

const REFUSED_MARKS: &str = " done 0/256 send 0 1 local-inv memory-management 0 - - window:not-bound
 done 0/256 send 1 2 write flushed 0 - - -
";

#[test]
fn immediate_data_go_with_the_last_packet(rt: HostRuntime) {
    is_run(&rt, rt.alloc(), IMMEDIATE, false);
}

#[test]
fn the_key_that_is_to_end_goes_with_the_last_packet(rt: HostRuntime) {
    is_run(&rt, rt.alloc(), INVALIDATE, false);
}

#[test]
fn a_write_of_three_packets_names_its_place_once(rt: HostRuntime) {
    is_run(&rt, rt.alloc(), WRITE_OF_THREE, false);
}

#[test]
fn a_local_operation_that_is_refused_fails_its_request(rt: HostRuntime) {
    let cause = OpRefusal::Window(WindowError::NotBound);
    fails(&rt, rt.alloc(), REFUSED, cause, REFUSED_MARKS);
}
