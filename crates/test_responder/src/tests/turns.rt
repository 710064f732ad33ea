use super::{SETUP, is_run, runs};

const REASONS: &str = "whole
@0 p0 c0 reg 0/0/0 0 0 4096 lrwab -> key 0x00000001
@0 p0 c0 qp 0/0/0 0 0 4 4 - -> qp 256 1
@0 p0 respond 0/256 pass
 reason state
@0 p0 c0 init 0/0/0 -> ok
@0 p0 respond 0/256 pass
 reason state
@0 p0 c0 rtr 0/0/0 1/256 1 0 256 12 -> ok
@0 p0 respond 0/256 lose
 reason empty
@0 p0 c0 inject 0/256 0a30ffff000001008000000000000001000000000000000100000001ab000000 -> ok
 remote 0/256 0/0 - 0x00000001 write 0x100000000 1 wrote ab
@0 p0 c0 inject 0/256 0c00ffff000001008000000100000001000000000000000100000001 -> ok
@0 p0 respond 0/256 lose
 reason no-room
@0 p0 respond 0/256 pass
 sent 0/256 1/256 - - 1100ffff00000100000000001f000002
@0 p0 respond 0/256 lose
 reason no-room
@0 p0 c0 rts 0/0/0 0 7 7 16 -> ok
@0 p0 c0 sqd 0/0/0 -> ok
@0 p0 respond 0/256 pass
 remote 0/256 0/0 - 0x00000001 read 0x100000000 1 read ab
 sent 0/256 1/256 - - 1030ffff00000100000000011f000002ab000000
@0 p0 respond 0/256 lose
 reason empty
@0 p0 c0 reset 0/0/0 -> ok
@0 p0 respond 0/256 pass
 reason state
";

const SHARED: &str = "@0 p0 c0 qp 0/0/0 0 0 4 0 0 -> qp 256 1
@0 p0 c0 srecv 0/0/0 21 0x00000001:0x100000000:300 -> posted -
@0 p0 c0 srecv 0/0/0 22 0x00000001:0x100000200:4 -> posted -
@0 p0 c0 inject 0/256 0000ffff000001000000000000*256 -> ok
 local 0/256 0/0 0x00000001 write 0x100000000 256 wrote 00*256
@0 p0 c0 inject 0/256 0330ffff000001008000000100000009ab000000 -> ok
 local 0/256 0/0 0x00000001 write 0x100000100 1 wrote ab
 done 0/256 recv 0 21 recv success 257 9 - -
@0 p0 c0 inject 0/256 0b30ffff00000100800000020000000100000000000000010000000100000009cd000000 -> ok
 remote 0/256 0/0 - 0x00000001 write 0x100000000 1 wrote cd
 done 0/256 recv 1 22 recv-imm success 1 9 - -
@0 p0 c0 inject 0/256 0430ffff0000010080000003ab000000 -> ok
@0 p0 respond 0/256 pass
 sent 0/256 1/256 - - 1100ffff00000100000000021f000002
@0 p0 respond 0/256 pass
 sent 0/256 1/256 - - 1100ffff00000100000000032c000002

@0 p0 c0 qp 0/0/0 0 0 4 0 0 -> qp 256 1
@0 p0 c0 srecv 0/0/0 21 0x00000001:0x100000000:300 -> posted -
@0 p0 c0 srecv 0/0/0 22 0x00000001:0x100000200:4 -> posted -
@0 p0 c0 post 0/0/0 7 s write 0x100000000 0x00000001 - -> posted -
@0 p0 c0 inject 0/256 0000ffff000001000000000000*256 -> ok
 local 0/256 0/0 0x00000001 write 0x100000000 256 wrote 00*256
@0 p0 c0 inject 0/256 0a30ffff000001008000000100000001000000000000000100000001cd000000 -> ok
 done 0/256 send 0 7 write flushed 0 - - -
 done 0/256 recv 0 21 recv flushed 0 - - -
@0 p0 respond 0/256 pass
 sent 0/256 1/256 - - 1100ffff000001000000000161000000

@0 p0 c0 qp 0/0/0 0 0 4 0 0 -> qp 256 1
@0 p0 c0 srecv 0/0/0 21 0x00000001:0x100000000:1 -> posted -
@0 p0 c0 srecv 0/0/0 22 0x00000001:0x100000200:4 -> posted -
@0 p0 c0 inject 0/256 0420ffff0000010080000000abcd0000 -> ok
 done 0/256 recv 0 21 recv local-length 0 - - -
@0 p0 respond 0/256 pass
 sent 0/256 1/256 - - 1100ffff000001000000000061000000
";

const IMMEDIATE: &str = "@0 p0 c0 recv 0/0/0 11 - -> posted -
@0 p0 c0 recv 0/0/0 12 0x00000001:0x100000000:600 -> posted -
@0 p0 c0 inject 0/256 0600ffff00000100000000000000000100000000000000010000010100*256 -> ok
 remote 0/256 0/0 - 0x00000001 write 0x100000000 257 wrote 00*256
@0 p0 c0 inject 0/256 0930ffff000001008000000100000009ab000000 -> ok
 remote 0/256 0/0 - 0x00000001 write 0x100000100 1 wrote ab
 done 0/256 recv 0 11 recv-imm success 257 9 - -
@0 p0 respond 0/256 pass
 sent 0/256 1/256 - - 1100ffff00000100000000011f000001
@0 p0 c0 inject 0/256 0000ffff000001000000000200*256 -> ok
 local 0/256 0/0 0x00000001 write 0x100000000 256 wrote 00*256
@0 p0 c0 inject 0/256 0100ffff000001000000000300*256 -> ok
 local 0/256 0/0 0x00000001 write 0x100000100 256 wrote 00*256
@0 p0 c0 inject 0/256 0230ffff0000010080000004ab000000 -> ok
 local 0/256 0/0 0x00000001 write 0x100000200 1 wrote ab
 done 0/256 recv 1 12 recv success 513 - - -
@0 p0 respond 0/256 pass
 sent 0/256 1/256 - - 1100ffff00000100000000041f000002
";

const MSN: &str =
    "@0 p0 c0 inject 0/256 0a30ffff000001000000000000000001000000000000000100000001ab000000 -> ok
 remote 0/256 0/0 - 0x00000001 write 0x100000000 1 wrote ab
@0 p0 c0 inject 0/256 0c00ffff000001008000000100000001000000000000000100000001 -> ok
@0 p0 respond 0/256 pass
 remote 0/256 0/0 - 0x00000001 read 0x100000000 1 read ab
 sent 0/256 1/256 - - 1030ffff00000100000000011f000000ab000000
@0 p0 c0 inject 0/256 0a30ffff000001008000000200000001000000000000000100000001ab000000 -> ok
 remote 0/256 0/0 - 0x00000001 write 0x100000000 1 wrote ab
@0 p0 respond 0/256 pass
 sent 0/256 1/256 - - 1100ffff00000100000000021f000001
";

#[test]
fn a_turn_to_respond_has_its_reasons_in_order(rt: HostRuntime) {
    runs(&rt, rt.alloc(), REASONS);
}

#[test]
fn of_a_shared_receive_queue_only_the_receive_in_use_is_flushed(rt: HostRuntime) {
    runs(&rt, rt.alloc(), SHARED);
}

#[test]
fn messages_of_several_packets_complete_their_receives(rt: HostRuntime) {
    runs(&rt, rt.alloc(), IMMEDIATE);
}

#[test]
fn the_msn_has_24_bits(rt: HostRuntime) {
    is_run(&rt, rt.alloc(), SETUP, MSN, 0xff_fffe);
}
