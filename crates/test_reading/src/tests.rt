use ca_trace::print_line;
use ca_trace_lex::Stop;
use ca_trace_read::ca_trace_read_lines::read_line;
use std::process::Abort;
use std::test::Fail;

/// Lines of traces that another program wrote from the rules alone: the shortest of each kind of call with each answer,
/// of each refusal, of each turn, and of each mark with what came of it.
const LINES: &str = "@1 p0 c0 cq 0/0/0 8 -> ok
@20 p0 c0 dereg 0/0/0 -> ok
@49 p0 c0 error 0/0/0 -> ok
@4 p0 c0 init 0/0/0 -> ok
@14 p0 c0 inject 1/256 - -> ok
@19 p0 c1 load 1/0 0 1 -> bytes 00
@6 p0 c0 mr 0/0/3 4 -> ok
@9 p0 c0 mw 0/0/0 1 -> ok
@0 p0 c0 pd 0/0 -> ok
@8 p0 c1 poll 0/0/0 4 -> polled 0
@94 p0 c0 post 0/1/0 5 s add 0x100007e40 0x00000101 1 0x01000307:0x2cac:8 -> posted -
@63 p0 c0 post 0/0/0 990 s bind1 7 0x00000001 0x100000000 64 rw -> posted -
@15 p0 c0 post 0/0/0 1 s bind2 0 0x00000001 9 0x100000000 64 w -> posted -
@52 p0 c0 post 0/0/0 4 s cas 0x100000030 0x01000201 0 7 0x00000001:0x0:8 -> posted -
@121 p0 c1 post 0/1/2 3 - fastreg 4 1 0 0xffa 5 lrwab 8 -> posted -
@71 p0 c1 post 1/0/0 7 - inv 0x01000001 -> posted -
@90 p0 c1 post 1/0/1 7 s read 0x200002f68 0x00000101 - -> posted -
@92 p0 c0 post 0/0/0 1 e send - -> posted -
@92 p0 c1 post 1/0/0 4 s sendimm 2729858276 - -> posted -
@50 p0 c0 post 0/0/2 4 sf sendinv 0x00000307 - -> posted -
@14 p0 c0 post 0/0/0 1 s write 0x0 0xdeadbeef - -> posted -
@80 p0 c0 post 0/0/0 2 s writeimm 0x100002c5e 0x02000101 2928881333 - -> posted -
@2 p0 c0 qp 0/0/0 0 0 4 4 - -> qp 256 1
@51 p0 c2 query 1/1/1 -> state rts 1 0 0
@65 p0 c1 recv 0/1/1 1001 - -> posted -
@3 p0 c0 reg 0/0/0 0 0 64 l -> key 0x00000001
@5 p0 c1 reset 0/0/0 -> ok
@50 p0 c1 resume 1/0/0 -> ok
@5 p0 c0 rtr 0/0/0 1/256 1 0 256 12 -> ok
@9 p0 c0 rts 0/0/1 0 7 7 2 -> ok
@47 p0 c1 sqd 1/0/0 -> ok
@52 p0 c2 srecv 0/2/0 1003 - -> posted -
@5 p0 c1 srq 1/0/0 4 -> ok
@14 p0 c0 store 0/0 0 ab -> ok
@19 p0 c0 unmw 0/0/0 -> ok
@55 p0 c0 unqp 0/0/0 -> ok
@69 p0 c1 unsrq 0/1/0 -> ok
@19 p0 c0 wait 0/0/0 2 -> polled 2
end 4
 arrived 0/256 -
 done 1/256 send 1 5 bind flushed 0 - - -
 done 2/513 send 0 2 bind memory-management 0 - - window:empty
 done 0/256 send 0 1 bind success 0 - - -
 done 0/256 send 1 3 cmp-swap flushed 0 - - -
 done 0/256 send 0 4 cmp-swap local-protection 0 - - -
 done 0/769 send 0 5 cmp-swap remote-access 0 - - -
 done 1/257 send 0 920 cmp-swap retry-exceeded 0 - - -
 done 1/512 send 3 9 cmp-swap success 8 - - -
 done 1/258 send 2 4 fast-reg flushed 0 - - -
 done 0/256 send 1 1 fast-reg memory-management 0 - - region:bad-pages
 done 0/256 send 0 1 fast-reg success 0 - - -
 done 0/512 send 1 3 fetch-add flushed 0 - - -
 done 0/257 send 0 2 fetch-add local-protection 0 - - -
 done 1/257 send 0 3 fetch-add remote-access 0 - - -
 done 2/257 send 0 5 fetch-add remote-invalid-request 0 - - -
 done 0/256 send 0 9 fetch-add retry-exceeded 0 - - -
 done 0/256 send 0 1 fetch-add success 8 - - -
 done 1/256 send 2 8 local-inv flushed 0 - - -
 done 0/769 send 1 990 local-inv memory-management 0 - - window:type1
 done 2/256 send 1 6 local-inv success 0 - - -
 done 0/256 send 1 4 read flushed 0 - - -
 done 2/256 send 0 6 read local-protection 0 - - -
 done 0/256 send 0 1 read remote-access 0 - - -
 done 0/513 send 0 4 read retry-exceeded 0 - - -
 done 1/257 send 0 4 read success 1 - - -
 done 0/257 recv 0 1001 recv flushed 0 - - -
 done 0/512 recv 0 1003 recv local-length 0 - - -
 done 0/512 recv 0 1002 recv local-protection 0 - - -
 done 0/512 recv 0 1001 recv memory-management 0 - - region:not-fast-registered
 done 1/256 recv 0 9 recv success 4 - - -
 done 0/257 recv 0 1001 recv-imm success 1 871398064 - -
 done 0/770 send 0 2 send bad-response 0 - - -
 done 0/256 send 0 1 send flushed 0 - - -
 done 0/256 send 1 2 send local-protection 0 - - -
 done 0/256 send 0 3 send remote-invalid-request 0 - - -
 done 0/257 send 0 3 send remote-operation 0 - - -
 done 0/257 send 4 8 send retry-exceeded 0 - - -
 done 0/256 send 0 1 send rnr-retry-exceeded 0 - - -
 done 0/256 send 0 1 send success 0 - - -
 done 1/257 send 0 5 write bad-response 0 - - -
 done 0/256 send 1 2 write flushed 0 - - -
 done 0/768 send 0 3 write local-protection 0 - - -
 done 0/256 send 0 1 write remote-access 0 - - -
 done 0/256 send 0 1 write retry-exceeded 0 - - -
 done 0/256 send 1 2 write success 0 - - -
 dropped 0/512 partition
 dropped 1/256 queue
 dropped 0/256 stale
 dropped 1/256 state
 dropped 1/256 unsaved
 dropped 1/256 wire:length
 dropped 1/256 wire:opcode
 dropped 1/256 wire:pad
 dropped 1/256 wire:too-short
 dropped 1/256 wire:version
 got 0/256 send 0 1 send flushed 0 - -
 got 3/256 recv 0 1001 recv local-length 0 - -
 got 0/256 send 1 2 send local-protection 0 - -
 got 0/256 send 1 2 bind memory-management 0 - -
 got 0/512 send 0 1 read remote-access 0 - -
 got 0/256 send 0 3 send remote-invalid-request 0 - -
 got 1/513 send 0 5 send remote-operation 0 - -
 got 0/513 send 0 4 read retry-exceeded 0 - -
 got 0/256 send 0 1 send rnr-retry-exceeded 0 - -
 got 0/256 send 0 1 bind success 0 - -
 granted 0/2 0x02000703 region any 0x0 64 lrwab 0/0:0+64
 granted 0/0 0x00800009 window 0/256 0x100000000 64 w 0/0:0+64
 granted 0/0 0x00800001 window any 0x100000000 64 w 0/0:0+64
 local 2/257 2/0 0x000003ff read 0x2689 2 denied no-grant
 local 0/256 0/0 0x00000001 read 0x100000000 1 read 00
 local 0/256 0/0 0x00000001 write 0x0 8 denied out-of-range
 local 0/513 0/1 0x01000301 write 0x1696 3 wrote 000000
 lost 0/257 -
 remote 1/258 1/0 0 0x00000400 add 0x29c0 8 denied no-grant
 remote 1/258 1/0 2 0x00000001 add 0x1000004d0 8 denied no-right
 remote 1/256 1/0 - 0x00000001 add 0x100000400 8 found 0 put 5
 remote 0/256 0/0 0 0x00000101 cas 0x100000910 8 denied no-grant
 remote 1/768 1/2 0 0x02000101 cas 0x100000db0 8 denied no-right
 remote 0/768 0/2 1 0x02000101 cas 0x100000c60 8 found 0 put 0
 remote 0/512 0/1 0 0x01000307 read 0x19fd 4 denied no-grant
 remote 1/513 1/1 0 0x01800009 read 0x10000cd5f 300 denied no-right
 remote 0/769 0/2 1 0x02000101 read 0x100000000 255 denied out-of-range
 remote 0/257 0/0 1 0x00000001 read 0x100002e63 0 read -
 remote 1/256 1/0 1 0x00000107 write 0x100 444 denied no-grant
 remote 0/256 0/0 - 0x00000001 write 0x100000000 1 denied no-right
 remote 1/256 1/0 - 0x00000001 write 0x1ff000000 1 denied out-of-range
 remote 1/257 1/0 0 0x00800009 write 0x100000000 1 denied wrong-queue
 remote 1/256 1/0 0 0xdeadbeef write 0x0 0 wrote -
 revoked 0 0x00800001
 sent 0/769 0/768 0 0 0400ffff0000030080000000
 sent 1/256 0/256 1 - 1100ffff000001000000000162000001
 sent 3/256 1/256 - 0 0400ffff0000010080fffffe
 sent 0/256 0/257 - - 1100ffff000001010000000062000000
 stored 0/0 0 ab
 timer 1/512 hasten
 timer 0/256 silent
@52 p0 c0 uncq 0/0/0 -> refused cq-in-use
@2 p0 c0 qp 0/0/0 0 0 4 4 - -> refused cq-too-small
@144 p0 c6 unpd 2/1 -> refused domain-in-use
@72 p0 c0 pd 0/0 -> refused domain-taken
@3 p0 c0 reg 0/0/0 0 0 0 lw -> refused empty
@97 p0 c0 recv 0/0/2 1021 0x00000201:0x100000c14:4 -> refused has-srq
@87 p0 c0 unpd 0/3 -> refused no-domain
@92 p0 c0 pd 0/6 -> refused no-such
@6 p0 c2 cq 0/2/0 0 -> refused out-of-range:capacity
@5 p0 c0 srq 0/0/0 0 -> refused out-of-range:depth
@58 p0 c3 rtr 1/0/2 0/256 0 0 256 28 -> refused out-of-range:incarnation
@6 p0 c0 mw 0/0/0 0 -> refused out-of-range:kind
@28 p0 c0 poll 0/0/0 0 -> refused out-of-range:length
@187 p0 c0 post 0/0/1 7 sf add 0x0 0x01000001 1 0x00000101:0x1000005e9:4 -> refused out-of-range:list
@97 p0 c0 rtr 1/0/0 0/768 2 1281632 0 28 -> refused out-of-range:mtu
@132 p0 c0 mr 0/0/5 257 -> refused out-of-range:pages
@59 p0 c2 rtr 0/2/2 0/0 1 1 4096 6 -> refused out-of-range:peer
@48 p0 c0 rts 0/0/0 0 0 0 0 -> refused out-of-range:reads
@17 p0 c0 rtr 0/0/1 0/258 1 8388608 512 32 -> refused out-of-range:rnr-code
@116 p0 c1 load 0/0 2772 4096 -> refused outside-buffer
@47 p0 c1 recv 0/1/0 1003 - -> refused queue-full
@11 p0 c0 recv 0/0/0 1001 - -> refused queue-state
@4 p0 c0 reg 0/0/1 0 0 1 w -> refused rights-need-local-write
@150 p0 c0 qp 0/0/0 3 0 1 0 - -> refused slot-taken
@121 p0 c4 post 2/0/0 930 s write 0x200000040 0x00000101 0x00000201:0x100000000:1048577 -> refused too-long
@54 p0 c0 sqd 0/0/0 -> refused transition
@18 p0 c0 dereg 0/0/0 -> refused windows-bound
@17 p0 deliver 1/256 0
@49 p0 request 1/256 hold:1
@15 p0 request 0/256 lose
@16 p0 request 0/256 pass
@67 p0 request 1/256 repeat:1
@88 p0 respond 0/257 hold:3
@18 p0 respond 1/256 lose
@7 p0 respond 0/256 pass
@36 p0 respond 0/258 repeat:2
@73 p0 timeout 0/257 hasten
@19 p0 timeout 0/256 silent
@19 p0 wake 0/256
";

/// Lines with one byte changed, dropped or added, with words exchanged, numbers a digit longer, leading zeros, digits in
/// upper case and doubled spaces. None of them is what a line prints as.
const OTHERS: &str = "@01 p0 c0 pd 0/0 -> ok
@0 p00 c0 pd 0/0 -> ok
@0 p0 c00 pd 0/0 -> ok
@0 p0 c0 pd 0/00 -> ok
@0 p0 c0 pd 0/0  -> ok
@0 p0  c0 pd 0/0 -> ok
@0 p0 c0 pd 0/0 -> ok 
@0 p0 c0 pd 0/0 -> okay
@0 p0 c0 pd 0/0 ok
@0 p0 c0 pd 0/0 => ok
@0 p0 c0 pd 0/0 ->
@0 p0 c0 pd 0/0
@0 p0 c0 pd -> ok
@0 p0 c0 pd 0/0/0 -> ok
@0 p0 c0 pd 0/256 -> ok
@0 p0 c0 pd 256/0 -> ok
@0 p0 c0 PD 0/0 -> ok
@0 p0 c0 pdx 0/0 -> ok
@0 p0 d0 pd 0/0 -> ok
@0 q0 c0 pd 0/0 -> ok
#0 p0 c0 pd 0/0 -> ok
@18446744073709551616 p0 c0 pd 0/0 -> ok
@0 p4294967296 c0 pd 0/0 -> ok
@0 p0 c4294967296 pd 0/0 -> ok
@0 p0 c0 reg 0/0/0 0 0 64 wl -> key 0x00000001
@0 p0 c0 reg 0/0/0 0 0 64 ll -> key 0x00000001
@0 p0 c0 reg 0/0/0 0 0 64 lx -> key 0x00000001
@0 p0 c0 reg 0/0/0 65536 0 64 l -> key 0x00000001
@0 p0 c0 reg 0/0/0 0 0 4294967296 l -> key 0x00000001
@0 p0 c0 reg 0/0/0 0 0 64 l -> key 0x1
@0 p0 c0 reg 0/0/0 0 0 64 l -> key 0x000000001
@0 p0 c0 reg 0/0/0 0 0 64 l -> key 0x0000000A
@0 p0 c0 reg 0/0/0 0 0 64 l -> key 0X00000001
@0 p0 c0 reg 0/0/0 0 0 64 l -> key 00000001
@0 p0 c0 reg 0/0/0 0 0 64 l -> key -
@0 p0 c0 poll 0/0/0 4 0 -> polled 0
@0 p0 c0 poll 0/0/0 4 4 -> polled 0
@0 p0 c0 wait 0/0/0 0 -> polled 0
@0 p0 c0 poll 0/0/0 4 -> polled 17
@0 p0 c0 poll 0/0/0 4 -> polled
@0 p0 c0 store 0/0 0 A0 -> ok
@0 p0 c0 store 0/0 0 a -> ok
@0 p0 c0 store 0/0 0  -> ok
@0 p0 c0 pd 0/0 -> refused no-such-thing
@0 p0 c0 pd 0/0 -> refused out-of-range
@0 p0 c0 pd 0/0 -> refused out-of-range:
@0 p0 c0 recv 0/0/0 1 - 7 -> posted -
@0 p0 c0 recv 0/0/0 1 0x00000001:0x0:1, -> posted -
@0 p0 c0 recv 0/0/0 1 0x00000001:0x0:1,0x00000001:0x0:1,0x00000001:0x0:1,0x00000001:0x0:1,0x00000001:0x0:1 -> posted -
@0 p0 c0 recv 0/0/0 1 0x00000001:0x00:1 -> posted -
@0 p0 c0 post 0/0/0 1 fs send - -> posted -
@0 p0 request 0/256 Pass
@0 p0 request 0/256 repeat
@0 p0 request 0/256 repeat:256
@0 p0 request 0/256 pass 0
@0 p0 timeout 0/256
@0 p0 sleep 0/256
@0 p0 wake 0
end
end 04
end 4 4
end 18446744073709551616
END 4

 
 got
 gotten 0/256
  arrived 0/256 -
arrived 0/256 -
 arrived 0/256 - -
 arrived - 0/256
 arrived 0/4294967296 -
 dropped 0/256 wire
 dropped 0/256 wire:crc
 revoked 0 0xFFFFFFFF
 revoked 256 0x00000001
 timer 0/256 loud
 stored 0/0 0 0
 lost 0/256
 done 0/256 both 0 1 send success 0 - - -
 done 0/256 send 0 1 send success 0 - -
 done 0/256 send 0 1 send success 0 - - region
 done 0/256 send 0 1 send success 0 - - region:empty 0
 done 0/256 send 0 1 fast-reg memory-management 0 - - region:memory
 granted 0/0 0x00800001 thing any 0x100000000 64 w 0/0:0+64
 granted 0/0 0x00800001 window all 0x100000000 64 w 0/0:0+64
 granted 0/0 0x00800001 window any 0x100000000 64 w 0/0:0
 granted 0/0 0x00800001 window any 100000000 64 w 0/0:0+64
 remote 1/256 1/0 0 0x00000001 write 0x0 1 found 0 put
 remote 1/256 1/0 0 0x00000001 write 0x0 1 found 0 got 1
 remote 1/256 1/0 0 0x00000001 move 0x0 1 read 00
 ok
 -> ok
";

fn is_read<R: Abort + AllocGlobal>(rt: &R, line: &str) -> Result<(), Fail> {
    let mut printed = Vec::new(rt.alloc());
    if let Ok(read) = read_line(rt.alloc(), line.as_bytes()) {
        print_line(&read, &mut printed)?;
    }
    assert_eq!(rt;
        str::from_utf8(printed.as_slice()).unwrap_or("no text"),
        line
    );
    Ok(())
}

fn is_outside<R: Abort + AllocGlobal>(rt: &R, line: &str) {
    let outside = matches!(read_line(rt.alloc(), line.as_bytes()), Err(Stop::Outside));
    assert!(rt; outside, "{line}");
}

#[test]
fn each_line_is_read_and_printed_again(rt: HostRuntime) -> Result<(), Fail> {
    for line in LINES.lines() {
        is_read(&rt, line)?;
    }
    Ok(())
}

#[test]
fn a_line_that_prints_otherwise_is_outside(rt: HostRuntime) -> Result<(), Fail> {
    for line in OTHERS.lines() {
        is_outside(&rt, line);
    }
    Ok(())
}

#[test]
fn a_carriage_return_is_outside(rt: HostRuntime) -> Result<(), Fail> {
    is_outside(&rt, "end 4\r");
    is_outside(&rt, " arrived 0/256 -\r");
    is_outside(&rt, "@0 p0 wake 0/256\r");
    Ok(())
}
