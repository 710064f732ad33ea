//! Traces that another program wrote from the rules alone, and what it printed of groups behind them.

/// A write with the key of another domain: domains 0/0 and 1/0 talk, and 1/1 registers a region of its own.
pub const FOREIGN: &str = "@0 p0 c0 pd 0/0 -> ok
@1 p0 c1 pd 1/0 -> ok
@2 p0 c0 cq 0/0/0 8 -> ok
@3 p0 c1 cq 1/0/0 8 -> ok
@4 p0 c0 qp 0/0/0 0 0 4 4 - -> qp 256 1
@5 p0 c1 qp 1/0/0 0 0 4 4 - -> qp 256 1
@6 p0 c0 reg 0/0/0 0 0 4096 lrwab -> key 0x00000001
 granted 0/0 0x00000001 region any 0x100000000 4096 lrwab 0/0:0+4096
@7 p0 c1 reg 1/0/0 0 0 4096 lrwab -> key 0x00000001
 granted 1/0 0x00000001 region any 0x100000000 4096 lrwab 1/0:0+4096
@8 p0 c0 init 0/0/0 -> ok
@9 p0 c1 init 1/0/0 -> ok
@10 p0 c0 rtr 0/0/0 1/256 1 0 256 12 -> ok
@11 p0 c1 rtr 1/0/0 0/256 1 0 256 12 -> ok
@12 p0 c0 rts 0/0/0 0 7 7 16 -> ok
@13 p0 c1 rts 1/0/0 0 7 7 16 -> ok
@14 p0 c0 post 0/0/0 1 s write 0x100000000 0x01000001 0x00000001:0x100000000:1 -> posted -
@15 p0 c1 pd 1/1 -> ok
@16 p0 request 0/256 pass
 local 0/256 0/0 0x00000001 read 0x100000000 1 read 00
 sent 0/256 1/256 0 0 0a30ffff00000100800000000000000100000000010000010000000100000000
@17 p0 deliver 1/256 0
 arrived 1/256 0
 remote 1/256 1/0 0 0x01000001 write 0x100000000 1 denied no-grant
@18 p0 respond 1/256 pass
 sent 1/256 0/256 0 - 1100ffff000001000000000062000000
@19 p0 c1 reg 1/1/0 0 0 4096 lrwab -> key 0x01000001
 granted 1/1 0x01000001 region any 0x100000000 4096 lrwab 1/0:0+4096
@20 p0 deliver 0/256 0
 arrived 0/256 0
 done 0/256 send 0 1 write remote-access 0 - - -
end 21
";

/// The replies to domains 0/0 and 1/0 there, which are all but those to 1/1.
pub const FOREIGN_PAIR: &str = "alone
c0 pd 0/0 -> ok
c1 pd 1/0 -> ok
c0 cq 0/0/0 8 -> ok
c1 cq 1/0/0 8 -> ok
c0 qp 0/0/0 0 0 4 4 - -> qp 256 1
c1 qp 1/0/0 0 0 4 4 - -> qp 256 1
c0 reg 0/0/0 0 0 4096 lrwab -> key 0x00000001
c1 reg 1/0/0 0 0 4096 lrwab -> key 0x00000001
c0 init 0/0/0 -> ok
c1 init 1/0/0 -> ok
c0 rtr 0/0/0 1/256 1 0 256 12 -> ok
c1 rtr 1/0/0 0/256 1 0 256 12 -> ok
c0 rts 0/0/0 0 7 7 16 -> ok
c1 rts 1/0/0 0 7 7 16 -> ok
c0 post 0/0/0 1 s write 0x100000000 0x01000001 0x00000001:0x100000000:1 -> posted -
 sent 0/256 1/256 0 0 0a30ffff00000100800000000000000100000000010000010000000100000000
 arrived 1/256 0
 sent 1/256 0/256 0 - 1100ffff000001000000000062000000
 arrived 0/256 0
";

/// A drawn script, in which domains 0/0 and 0/1 name each other as peers, and 1/0 none outside.
pub const DRAWN: &str = "@0 p0 c0 pd 0/0 -> ok
@1 p0 c1 pd 0/1 -> ok
@2 p0 c2 pd 1/0 -> ok
@3 p0 c0 cq 0/0/0 28 -> ok
@4 p0 c1 cq 0/1/0 1 -> ok
@5 p0 c2 cq 1/0/0 52 -> ok
@6 p0 c0 srq 0/0/0 2 -> ok
@7 p0 c1 cq 0/1/1 40 -> ok
@8 p0 c2 qp 1/0/0 0 0 4 8 - -> qp 256 1
@9 p0 c0 qp 0/0/0 0 0 4 0 0 -> qp 256 1
@10 p0 c1 qp 0/1/0 1 1 32 8 - -> qp 512 1
@11 p0 c2 qp 1/0/1 0 0 32 8 - -> qp 257 1
@12 p0 c0 reg 0/0/0 0 0 70000 lrwab -> key 0x00000001
 granted 0/0 0x00000001 region any 0x100000000 70000 lrwab 0/0:0+70000
@13 p0 c1 reg 0/1/0 2 0 32768 lrwab -> key 0x01000001
 granted 0/1 0x01000001 region any 0x300000000 32768 lrwab 0/2:0+32768
@14 p0 c2 reg 1/0/0 2 0 16384 lrwab -> key 0x00000001
 granted 1/0 0x00000001 region any 0x300000000 16384 lrwab 1/2:0+16384
@15 p0 c0 reg 0/0/1 2 8 32760 lrwab -> key 0x00000101
 granted 0/0 0x00000101 region any 0x300000008 32760 lrwab 0/2:8+32760
@16 p0 c1 mr 0/1/4 1 -> ok
@17 p0 c2 reg 1/0/1 0 0 16384 lrwab -> key 0x00000101
 granted 1/0 0x00000101 region any 0x100000000 16384 lrwab 1/0:0+16384
@18 p0 c0 reg 0/0/2 1 0 16384 lrwab -> key 0x00000201
 granted 0/0 0x00000201 region any 0x200000000 16384 lrwab 0/1:0+16384
@19 p0 c1 mw 0/1/0 2 -> ok
@20 p0 c2 mr 1/0/3 2 -> ok
@21 p0 c0 mr 0/0/3 4 -> ok
@22 p0 c1 init 0/1/0 -> ok
@23 p0 c2 mw 1/0/0 2 -> ok
@24 p0 c0 mw 0/0/0 2 -> ok
@25 p0 c1 rtr 0/1/0 0/256 1 1 256 13 -> ok
@26 p0 c2 mw 1/0/1 2 -> ok
@27 p0 c0 mw 0/0/1 2 -> ok
@28 p0 c1 rts 0/1/0 16777215 3 7 2 -> ok
@29 p0 c2 mw 1/0/2 1 -> ok
@30 p0 c0 mw 0/0/2 1 -> ok
@31 p0 c1 recv 0/1/0 1001 0x01000001:0x3000039e8:6000 -> posted -
@32 p0 c2 init 1/0/1 -> ok
@33 p0 c0 init 0/0/0 -> ok
@34 p0 c1 poll 0/1/1 16 -> polled 0
@35 p0 c2 rtr 1/0/1 1/256 1 4053036 4096 18 -> ok
@36 p0 c0 rtr 0/0/0 0/512 1 16777215 256 1 -> ok
@37 p0 c2 rts 1/0/1 8388608 3 7 16 -> ok
@38 p0 c0 rts 0/0/0 1 7 7 16 -> ok
@39 p0 c2 recv 1/0/1 1001 0x00000101:0x1000002ec:285,0x00000101:0x100002228:550,0x00000001:0x300000d15:5165 -> posted -
@40 p0 c0 srecv 0/0/0 1001 0x00000001:0x100002887:675,0x00000201:0x2000022fa:2166,0x00000201:0x200000027:3159 -> posted -
@41 p0 c2 init 1/0/0 -> ok
@42 p0 c0 poll 0/0/0 16 -> polled 0
@43 p0 c2 rtr 1/0/0 1/257 1 8388608 4096 3 -> ok
@44 p0 c2 rts 1/0/0 4053036 7 7 4 -> ok
@45 p0 c2 recv 1/0/0 1001 0x00000001:0x300000402:6000 -> posted -
@46 p0 c2 recv 1/0/0 1002 0x00000001:0x3000013c2:6000 -> posted -
@47 p0 c2 poll 1/0/0 16 -> polled 0
@48 p0 c2 recv 1/0/0 1003 0x00000101:0x100002003:5180,0x00000101:0x10000224e:820 -> posted -
@49 p0 c2 recv 1/0/0 1004 0x00000001:0x300001ba7:6000 -> posted -
@50 p0 c0 post 0/0/0 2 s write 0x300007c54 0x01000001 - -> posted -
@51 p0 c2 poll 1/0/0 4 -> polled 0
@52 p0 request 0/256 pass
 sent 0/256 0/512 0 0 0a00ffff00000200800000010000000300007c540100000100000000
@53 p0 deliver 0/512 0
 arrived 0/512 0
 remote 0/512 0/1 0 0x01000001 write 0x300007c54 0 wrote -
@54 p0 respond 0/512 pass
 sent 0/512 0/256 0 - 1100ffff00000100000000011f000001
@55 p0 deliver 0/256 0
 arrived 0/256 0
 done 0/256 send 0 2 write success 0 - - -
end 56
";

/// The replies to domain 1/0 there.
pub const DRAWN_APART: &str = "alone
c2 pd 1/0 -> ok
c2 cq 1/0/0 52 -> ok
c2 qp 1/0/0 0 0 4 8 - -> qp 256 1
c2 qp 1/0/1 0 0 32 8 - -> qp 257 1
c2 reg 1/0/0 2 0 16384 lrwab -> key 0x00000001
c2 reg 1/0/1 0 0 16384 lrwab -> key 0x00000101
c2 mr 1/0/3 2 -> ok
c2 mw 1/0/0 2 -> ok
c2 mw 1/0/1 2 -> ok
c2 mw 1/0/2 1 -> ok
c2 init 1/0/1 -> ok
c2 rtr 1/0/1 1/256 1 4053036 4096 18 -> ok
c2 rts 1/0/1 8388608 3 7 16 -> ok
c2 recv 1/0/1 1001 0x00000101:0x1000002ec:285,0x00000101:0x100002228:550,0x00000001:0x300000d15:5165 -> posted -
c2 init 1/0/0 -> ok
c2 rtr 1/0/0 1/257 1 8388608 4096 3 -> ok
c2 rts 1/0/0 4053036 7 7 4 -> ok
c2 recv 1/0/0 1001 0x00000001:0x300000402:6000 -> posted -
c2 recv 1/0/0 1002 0x00000001:0x3000013c2:6000 -> posted -
c2 poll 1/0/0 16 -> polled 0
c2 recv 1/0/0 1003 0x00000101:0x100002003:5180,0x00000101:0x10000224e:820 -> posted -
c2 recv 1/0/0 1004 0x00000001:0x300001ba7:6000 -> posted -
c2 poll 1/0/0 4 -> polled 0
";

/// The replies to domains 0/0 and 0/1 there.
pub const DRAWN_PAIR: &str = "alone
c0 pd 0/0 -> ok
c1 pd 0/1 -> ok
c0 cq 0/0/0 28 -> ok
c1 cq 0/1/0 1 -> ok
c0 srq 0/0/0 2 -> ok
c1 cq 0/1/1 40 -> ok
c0 qp 0/0/0 0 0 4 0 0 -> qp 256 1
c1 qp 0/1/0 1 1 32 8 - -> qp 512 1
c0 reg 0/0/0 0 0 70000 lrwab -> key 0x00000001
c1 reg 0/1/0 2 0 32768 lrwab -> key 0x01000001
c0 reg 0/0/1 2 8 32760 lrwab -> key 0x00000101
c1 mr 0/1/4 1 -> ok
c0 reg 0/0/2 1 0 16384 lrwab -> key 0x00000201
c1 mw 0/1/0 2 -> ok
c0 mr 0/0/3 4 -> ok
c1 init 0/1/0 -> ok
c0 mw 0/0/0 2 -> ok
c1 rtr 0/1/0 0/256 1 1 256 13 -> ok
c0 mw 0/0/1 2 -> ok
c1 rts 0/1/0 16777215 3 7 2 -> ok
c0 mw 0/0/2 1 -> ok
c1 recv 0/1/0 1001 0x01000001:0x3000039e8:6000 -> posted -
c0 init 0/0/0 -> ok
c1 poll 0/1/1 16 -> polled 0
c0 rtr 0/0/0 0/512 1 16777215 256 1 -> ok
c0 rts 0/0/0 1 7 7 16 -> ok
c0 srecv 0/0/0 1001 0x00000001:0x100002887:675,0x00000201:0x2000022fa:2166,0x00000201:0x200000027:3159 -> posted -
c0 poll 0/0/0 16 -> polled 0
c0 post 0/0/0 2 s write 0x300007c54 0x01000001 - -> posted -
 sent 0/256 0/512 0 0 0a00ffff00000200800000010000000300007c540100000100000000
 arrived 0/512 0
 sent 0/512 0/256 0 - 1100ffff00000100000000011f000001
 arrived 0/256 0
";

/// The replies to all three there.
pub const DRAWN_ALL: &str = "alone
c0 pd 0/0 -> ok
c1 pd 0/1 -> ok
c2 pd 1/0 -> ok
c0 cq 0/0/0 28 -> ok
c1 cq 0/1/0 1 -> ok
c2 cq 1/0/0 52 -> ok
c0 srq 0/0/0 2 -> ok
c1 cq 0/1/1 40 -> ok
c2 qp 1/0/0 0 0 4 8 - -> qp 256 1
c0 qp 0/0/0 0 0 4 0 0 -> qp 256 1
c1 qp 0/1/0 1 1 32 8 - -> qp 512 1
c2 qp 1/0/1 0 0 32 8 - -> qp 257 1
c0 reg 0/0/0 0 0 70000 lrwab -> key 0x00000001
c1 reg 0/1/0 2 0 32768 lrwab -> key 0x01000001
c2 reg 1/0/0 2 0 16384 lrwab -> key 0x00000001
c0 reg 0/0/1 2 8 32760 lrwab -> key 0x00000101
c1 mr 0/1/4 1 -> ok
c2 reg 1/0/1 0 0 16384 lrwab -> key 0x00000101
c0 reg 0/0/2 1 0 16384 lrwab -> key 0x00000201
c1 mw 0/1/0 2 -> ok
c2 mr 1/0/3 2 -> ok
c0 mr 0/0/3 4 -> ok
c1 init 0/1/0 -> ok
c2 mw 1/0/0 2 -> ok
c0 mw 0/0/0 2 -> ok
c1 rtr 0/1/0 0/256 1 1 256 13 -> ok
c2 mw 1/0/1 2 -> ok
c0 mw 0/0/1 2 -> ok
c1 rts 0/1/0 16777215 3 7 2 -> ok
c2 mw 1/0/2 1 -> ok
c0 mw 0/0/2 1 -> ok
c1 recv 0/1/0 1001 0x01000001:0x3000039e8:6000 -> posted -
c2 init 1/0/1 -> ok
c0 init 0/0/0 -> ok
c1 poll 0/1/1 16 -> polled 0
c2 rtr 1/0/1 1/256 1 4053036 4096 18 -> ok
c0 rtr 0/0/0 0/512 1 16777215 256 1 -> ok
c2 rts 1/0/1 8388608 3 7 16 -> ok
c0 rts 0/0/0 1 7 7 16 -> ok
c2 recv 1/0/1 1001 0x00000101:0x1000002ec:285,0x00000101:0x100002228:550,0x00000001:0x300000d15:5165 -> posted -
c0 srecv 0/0/0 1001 0x00000001:0x100002887:675,0x00000201:0x2000022fa:2166,0x00000201:0x200000027:3159 -> posted -
c2 init 1/0/0 -> ok
c0 poll 0/0/0 16 -> polled 0
c2 rtr 1/0/0 1/257 1 8388608 4096 3 -> ok
c2 rts 1/0/0 4053036 7 7 4 -> ok
c2 recv 1/0/0 1001 0x00000001:0x300000402:6000 -> posted -
c2 recv 1/0/0 1002 0x00000001:0x3000013c2:6000 -> posted -
c2 poll 1/0/0 16 -> polled 0
c2 recv 1/0/0 1003 0x00000101:0x100002003:5180,0x00000101:0x10000224e:820 -> posted -
c2 recv 1/0/0 1004 0x00000001:0x300001ba7:6000 -> posted -
c0 post 0/0/0 2 s write 0x300007c54 0x01000001 - -> posted -
c2 poll 1/0/0 4 -> polled 0
 sent 0/256 0/512 0 0 0a00ffff00000200800000010000000300007c540100000100000000
 arrived 0/512 0
 sent 0/512 0/256 0 - 1100ffff00000100000000011f000001
 arrived 0/256 0
";

/// Another drawn script, in which domains 0/0 and 0/1 name each other as peers.
pub const OTHER: &str = "@0 p0 c0 pd 0/0 -> ok
@1 p0 c1 pd 0/1 -> ok
@2 p0 c0 cq 0/0/0 56 -> ok
@3 p0 c1 cq 0/1/0 113 -> ok
@4 p0 c0 cq 0/0/1 1 -> ok
@5 p0 c1 qp 0/1/0 0 0 32 8 - -> qp 512 1
@6 p0 c0 srq 0/0/0 8 -> ok
@7 p0 c1 qp 0/1/1 0 0 32 8 - -> qp 513 1
@8 p0 c0 qp 0/0/0 0 0 32 0 0 -> qp 256 1
@9 p0 c1 qp 0/1/2 0 0 16 16 - -> qp 514 1
@10 p0 c0 reg 0/0/0 1 8 16376 lrwab -> key 0x00000001
 granted 0/0 0x00000001 region any 0x200000008 16376 lrwab 0/1:8+16376
@11 p0 c1 reg 0/1/0 2 0 70000 lrwab -> key 0x01000001
 granted 0/1 0x01000001 region any 0x300000000 70000 lrwab 0/2:0+70000
@12 p0 c0 reg 0/0/1 0 0 16384 lrwab -> key 0x00000101
 granted 0/0 0x00000101 region any 0x100000000 16384 lrwab 0/0:0+16384
@13 p0 c1 mw 0/1/0 2 -> ok
@14 p0 c0 reg 0/0/2 1 0 16384 lrwab -> key 0x00000201
 granted 0/0 0x00000201 region any 0x200000000 16384 lrwab 0/1:0+16384
@15 p0 c1 mw 0/1/1 1 -> ok
@16 p0 c0 mr 0/0/4 1 -> ok
@17 p0 c1 init 0/1/1 -> ok
@18 p0 c0 init 0/0/0 -> ok
@19 p0 c1 rtr 0/1/1 0/256 1 16777214 256 25 -> ok
@20 p0 c0 rtr 0/0/0 0/513 1 1 256 16 -> ok
@21 p0 c1 rts 0/1/1 1 3 7 1 -> ok
@22 p0 c0 rts 0/0/0 16777214 7 7 16 -> ok
@23 p0 c1 init 0/1/0 -> ok
@24 p0 c0 srecv 0/0/0 1001 0x00000201:0x2000006f4:1379,0x00000001:0x200002267:1974,0x00000201:0x200000bac:2647 -> posted -
@25 p0 c1 rtr 0/1/0 0/514 1 16777215 512 23 -> ok
@26 p0 c1 rts 0/1/0 0 7 7 2 -> ok
@27 p0 c1 recv 0/1/0 1001 0x01000001:0x30000a754:6000 -> posted -
@28 p0 c1 recv 0/1/0 1002 0x01000001:0x3000053fe:6000 -> posted -
@29 p0 c1 recv 0/1/0 1003 0x01000001:0x3000079d4:5797,0x01000001:0x30000f231:26,0x01000001:0x300003128:177 -> posted -
@30 p0 c1 recv 0/1/0 1004 0x01000001:0x300001e26:4635,0x01000001:0x300003569:1365 -> posted -
@31 p0 c1 poll 0/1/0 16 -> polled 0
@32 p0 c1 init 0/1/2 -> ok
@33 p0 c1 rtr 0/1/2 0/512 1 0 512 0 -> ok
@34 p0 c1 rts 0/1/2 16777215 7 7 4 -> ok
@35 p0 c1 recv 0/1/2 1001 0x01000001:0x30000e519:2595,0x01000001:0x30000b26e:2230,0x01000001:0x300001876:662,0x01000001:0x30000440e:513 -> posted -
@36 p0 c1 poll 0/1/0 16 -> polled 0
@37 p0 c1 recv 0/1/2 1002 0x01000001:0x3000094ca:1436,0x01000001:0x30000b55e:1780,0x01000001:0x300007fd0:1372,0x01000001:0x30000f32e:1412 -> posted -
@38 p0 c1 recv 0/1/2 1003 0x01000001:0x300005ec9:6000 -> posted -
@39 p0 c1 recv 0/1/2 1004 0x01000001:0x3000072c6:6000 -> posted -
end 40
";

/// The replies to both there.
pub const OTHER_PAIR: &str = "alone
c0 pd 0/0 -> ok
c1 pd 0/1 -> ok
c0 cq 0/0/0 56 -> ok
c1 cq 0/1/0 113 -> ok
c0 cq 0/0/1 1 -> ok
c1 qp 0/1/0 0 0 32 8 - -> qp 512 1
c0 srq 0/0/0 8 -> ok
c1 qp 0/1/1 0 0 32 8 - -> qp 513 1
c0 qp 0/0/0 0 0 32 0 0 -> qp 256 1
c1 qp 0/1/2 0 0 16 16 - -> qp 514 1
c0 reg 0/0/0 1 8 16376 lrwab -> key 0x00000001
c1 reg 0/1/0 2 0 70000 lrwab -> key 0x01000001
c0 reg 0/0/1 0 0 16384 lrwab -> key 0x00000101
c1 mw 0/1/0 2 -> ok
c0 reg 0/0/2 1 0 16384 lrwab -> key 0x00000201
c1 mw 0/1/1 1 -> ok
c0 mr 0/0/4 1 -> ok
c1 init 0/1/1 -> ok
c0 init 0/0/0 -> ok
c1 rtr 0/1/1 0/256 1 16777214 256 25 -> ok
c0 rtr 0/0/0 0/513 1 1 256 16 -> ok
c1 rts 0/1/1 1 3 7 1 -> ok
c0 rts 0/0/0 16777214 7 7 16 -> ok
c1 init 0/1/0 -> ok
c0 srecv 0/0/0 1001 0x00000201:0x2000006f4:1379,0x00000001:0x200002267:1974,0x00000201:0x200000bac:2647 -> posted -
c1 rtr 0/1/0 0/514 1 16777215 512 23 -> ok
c1 rts 0/1/0 0 7 7 2 -> ok
c1 recv 0/1/0 1001 0x01000001:0x30000a754:6000 -> posted -
c1 recv 0/1/0 1002 0x01000001:0x3000053fe:6000 -> posted -
c1 recv 0/1/0 1003 0x01000001:0x3000079d4:5797,0x01000001:0x30000f231:26,0x01000001:0x300003128:177 -> posted -
c1 recv 0/1/0 1004 0x01000001:0x300001e26:4635,0x01000001:0x300003569:1365 -> posted -
c1 poll 0/1/0 16 -> polled 0
c1 init 0/1/2 -> ok
c1 rtr 0/1/2 0/512 1 0 512 0 -> ok
c1 rts 0/1/2 16777215 7 7 4 -> ok
c1 recv 0/1/2 1001 0x01000001:0x30000e519:2595,0x01000001:0x30000b26e:2230,0x01000001:0x300001876:662,0x01000001:0x30000440e:513 -> posted -
c1 poll 0/1/0 16 -> polled 0
c1 recv 0/1/2 1002 0x01000001:0x3000094ca:1436,0x01000001:0x30000b55e:1780,0x01000001:0x300007fd0:1372,0x01000001:0x30000f32e:1412 -> posted -
c1 recv 0/1/2 1003 0x01000001:0x300005ec9:6000 -> posted -
c1 recv 0/1/2 1004 0x01000001:0x3000072c6:6000 -> posted -
";
