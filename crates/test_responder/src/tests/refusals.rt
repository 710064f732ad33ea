use super::runs;

const SEQUENCE: &str = "@0 p0 c0 recv 0/0/0 11 0x00000001:0x100000000:300 -> posted -
@0 p0 c0 inject 0/256 0100ffff000001008000000000*256 -> ok
 done 0/256 recv 0 11 recv flushed 0 - - -
@0 p0 respond 0/256 pass
 sent 0/256 1/256 - - 1100ffff000001000000000061000000
@0 p0 respond 0/256 pass
 reason empty

@0 p0 c0 recv 0/0/0 11 0x00000001:0x100000000:300 -> posted -
@0 p0 c0 inject 0/256 0230ffff0000010080000000ab000000 -> ok
 done 0/256 recv 0 11 recv flushed 0 - - -
@0 p0 respond 0/256 pass
 sent 0/256 1/256 - - 1100ffff000001000000000061000000
@0 p0 respond 0/256 pass
 reason empty

@0 p0 c0 recv 0/0/0 11 0x00000001:0x100000000:300 -> posted -
@0 p0 c0 inject 0/256 0830ffff0000010080000000ab000000 -> ok
 done 0/256 recv 0 11 recv flushed 0 - - -
@0 p0 respond 0/256 pass
 sent 0/256 1/256 - - 1100ffff000001000000000061000000
@0 p0 respond 0/256 pass
 reason empty

@0 p0 c0 recv 0/0/0 11 0x00000001:0x100000000:300 -> posted -
@0 p0 c0 inject 0/256 0000ffff000001000000000000*256 -> ok
 local 0/256 0/0 0x00000001 write 0x100000000 256 wrote 00*256
@0 p0 c0 inject 0/256 0a30ffff000001008000000100000001000000000000000100000001ab000000 -> ok
 done 0/256 recv 0 11 recv flushed 0 - - -
@0 p0 respond 0/256 pass
 sent 0/256 1/256 - - 1100ffff000001000000000161000000
@0 p0 respond 0/256 pass
 reason empty

@0 p0 c0 recv 0/0/0 11 0x00000001:0x100000000:300 -> posted -
@0 p0 c0 inject 0/256 0000ffff000001000000000000*256 -> ok
 local 0/256 0/0 0x00000001 write 0x100000000 256 wrote 00*256
@0 p0 c0 inject 0/256 0430ffff0000010080000001ab000000 -> ok
 done 0/256 recv 0 11 recv flushed 0 - - -
@0 p0 respond 0/256 pass
 sent 0/256 1/256 - - 1100ffff000001000000000161000000
@0 p0 respond 0/256 pass
 reason empty

@0 p0 c0 recv 0/0/0 11 0x00000001:0x100000000:300 -> posted -
@0 p0 c0 inject 0/256 0000ffff000001000000000000*256 -> ok
 local 0/256 0/0 0x00000001 write 0x100000000 256 wrote 00*256
@0 p0 c0 inject 0/256 0c00ffff000001008000000100000001000000000000000100000001 -> ok
 done 0/256 recv 0 11 recv flushed 0 - - -
@0 p0 respond 0/256 pass
 sent 0/256 1/256 - - 1100ffff000001000000000161000000
@0 p0 respond 0/256 pass
 reason empty

@0 p0 c0 recv 0/0/0 11 0x00000001:0x100000000:300 -> posted -
@0 p0 c0 inject 0/256 0600ffff00000100000000000000000100000000000000010000012c00*256 -> ok
 remote 0/256 0/0 - 0x00000001 write 0x100000000 300 wrote 00*256
@0 p0 c0 inject 0/256 0230ffff0000010080000001ab000000 -> ok
 done 0/256 recv 0 11 recv flushed 0 - - -
@0 p0 respond 0/256 pass
 sent 0/256 1/256 - - 1100ffff000001000000000161000000
@0 p0 respond 0/256 pass
 reason empty

@0 p0 c0 recv 0/0/0 11 0x00000001:0x100000000:300 -> posted -
@0 p0 c0 inject 0/256 0600ffff00000100000000000000000100000000000000010000012c00*256 -> ok
 remote 0/256 0/0 - 0x00000001 write 0x100000000 300 wrote 00*256
@0 p0 c0 inject 0/256 1400ffff000001008000000100000001000000000000000100000000000000010000000000000000 -> ok
 done 0/256 recv 0 11 recv flushed 0 - - -
@0 p0 respond 0/256 pass
 sent 0/256 1/256 - - 1100ffff000001000000000161000000
@0 p0 respond 0/256 pass
 reason empty
";

const LENGTHS: &str = "@0 p0 c0 recv 0/0/0 11 0x00000001:0x100000000:300 -> posted -
@0 p0 c0 inject 0/256 0000ffff000001008000000000000000 -> ok
 done 0/256 recv 0 11 recv flushed 0 - - -
@0 p0 respond 0/256 pass
 sent 0/256 1/256 - - 1100ffff000001000000000061000000
@0 p0 respond 0/256 pass
 reason empty

@0 p0 c0 recv 0/0/0 11 0x00000001:0x100000000:300 -> posted -
@0 p0 c0 inject 0/256 0400ffff00000100800000000000000000*256 -> ok
 done 0/256 recv 0 11 recv flushed 0 - - -
@0 p0 respond 0/256 pass
 sent 0/256 1/256 - - 1100ffff000001000000000061000000
@0 p0 respond 0/256 pass
 reason empty

@0 p0 c0 recv 0/0/0 11 0x00000001:0x100000000:300 -> posted -
@0 p0 c0 inject 0/256 0000ffff000001000000000000*256 -> ok
 local 0/256 0/0 0x00000001 write 0x100000000 256 wrote 00*256
@0 p0 c0 inject 0/256 0200ffff0000010080000001 -> ok
 done 0/256 recv 0 11 recv flushed 0 - - -
@0 p0 respond 0/256 pass
 sent 0/256 1/256 - - 1100ffff000001000000000161000000
@0 p0 respond 0/256 pass
 reason empty

@0 p0 c0 recv 0/0/0 11 0x00000001:0x100000000:300 -> posted -
@0 p0 c0 inject 0/256 0000ffff000001000000000000*256 -> ok
 local 0/256 0/0 0x00000001 write 0x100000000 256 wrote 00*256
@0 p0 c0 inject 0/256 0100ffff000001008000000100000000 -> ok
 done 0/256 recv 0 11 recv flushed 0 - - -
@0 p0 respond 0/256 pass
 sent 0/256 1/256 - - 1100ffff000001000000000161000000
@0 p0 respond 0/256 pass
 reason empty

@0 p0 c0 recv 0/0/0 11 0x00000001:0x100000000:300 -> posted -
@0 p0 c0 inject 0/256 0a30ffff000001008000000000000001000000000000000100000002ab000000 -> ok
 done 0/256 recv 0 11 recv flushed 0 - - -
@0 p0 respond 0/256 pass
 sent 0/256 1/256 - - 1100ffff000001000000000061000000
@0 p0 respond 0/256 pass
 reason empty

@0 p0 c0 recv 0/0/0 11 0x00000001:0x100000000:300 -> posted -
@0 p0 c0 inject 0/256 0a20ffff000001008000000000000001000000000000000100000001abcd0000 -> ok
 done 0/256 recv 0 11 recv flushed 0 - - -
@0 p0 respond 0/256 pass
 sent 0/256 1/256 - - 1100ffff000001000000000061000000
@0 p0 respond 0/256 pass
 reason empty

@0 p0 c0 recv 0/0/0 11 0x00000001:0x100000000:300 -> posted -
@0 p0 c0 inject 0/256 0600ffff00000100800000000000000100000000000000010000010000*256 -> ok
 done 0/256 recv 0 11 recv flushed 0 - - -
@0 p0 respond 0/256 pass
 sent 0/256 1/256 - - 1100ffff000001000000000061000000
@0 p0 respond 0/256 pass
 reason empty

@0 p0 c0 recv 0/0/0 11 0x00000001:0x100000000:300 -> posted -
@0 p0 c0 inject 0/256 0600ffff00000100000000000000000100000000000000010000012c00*256 -> ok
 remote 0/256 0/0 - 0x00000001 write 0x100000000 300 wrote 00*256
@0 p0 c0 inject 0/256 0810ffff000001008000000100*44 -> ok
 done 0/256 recv 0 11 recv flushed 0 - - -
@0 p0 respond 0/256 pass
 sent 0/256 1/256 - - 1100ffff000001000000000161000000
@0 p0 respond 0/256 pass
 reason empty

@0 p0 c0 recv 0/0/0 11 0x00000001:0x100000000:300 -> posted -
@0 p0 c0 inject 0/256 0600ffff00000100000000000000000100000000000000010000012c00*256 -> ok
 remote 0/256 0/0 - 0x00000001 write 0x100000000 300 wrote 00*256
@0 p0 c0 inject 0/256 0700ffff000001008000000100*256 -> ok
 done 0/256 recv 0 11 recv flushed 0 - - -
@0 p0 respond 0/256 pass
 sent 0/256 1/256 - - 1100ffff000001000000000161000000
@0 p0 respond 0/256 pass
 reason empty

@0 p0 c0 recv 0/0/0 11 0x00000001:0x100000000:300 -> posted -
@0 p0 c0 inject 0/256 0c00ffff000001008000000000000001000000000000000100100001 -> ok
 done 0/256 recv 0 11 recv flushed 0 - - -
@0 p0 respond 0/256 pass
 sent 0/256 1/256 - - 1100ffff000001000000000061000000
@0 p0 respond 0/256 pass
 reason empty

@0 p0 c0 recv 0/0/0 11 0x00000001:0x100000000:300 -> posted -
@0 p0 c0 inject 0/256 0600ffff00000100800000000000000100000000000000010010000100*256 -> ok
 done 0/256 recv 0 11 recv flushed 0 - - -
@0 p0 respond 0/256 pass
 sent 0/256 1/256 - - 1100ffff000001000000000061000000
@0 p0 respond 0/256 pass
 reason empty

@0 p0 c0 recv 0/0/0 11 0x00000001:0x100000000:300 -> posted -
@0 p0 c0 inject 0/256 1400ffff000001008000000000000001000000040000000100000000000000010000000000000000 -> ok
 done 0/256 recv 0 11 recv flushed 0 - - -
@0 p0 respond 0/256 pass
 sent 0/256 1/256 - - 1100ffff000001000000000061000000
@0 p0 respond 0/256 pass
 reason empty
";

const LONGEST: &str =
    "@0 p0 c0 inject 0/256 0c00ffff000001008000000000000001000000000000000100100000 -> ok
@0 p0 c0 inject 0/256 0a00ffff000001008000100000000001000000000000000100000000 -> ok
 remote 0/256 0/0 - 0x00000001 write 0x100000000 0 wrote -
@0 p0 respond 0/256 pass
 remote 0/256 0/0 - 0x00000001 read 0x100000000 1048576 denied out-of-range
 sent 0/256 1/256 - - 1100ffff000001000000000062000002
@0 p0 respond 0/256 pass
 reason empty
";

const TOO_LONG: &str = "@0 p0 c0 recv 0/0/0 11 0x00000001:0x100000000:4 -> posted -
@0 p0 c0 recv 0/0/0 12 0x00000001:0x100000008:4 -> posted -
@0 p0 c0 post 0/0/0 7 s write 0x100000000 0x00000001 - -> posted -
@0 p0 c0 inject 0/256 0430ffff00000100800000000000000000000000 -> ok
 done 0/256 recv 0 11 recv local-length 0 - - -
 done 0/256 send 0 7 write flushed 0 - - -
 done 0/256 recv 1 12 recv flushed 0 - - -
@0 p0 respond 0/256 pass
 sent 0/256 1/256 - - 1100ffff000001000000000061000000
@0 p0 respond 0/256 pass
 reason empty

@0 p0 c0 recv 0/0/0 11 0x00000001:0x100000000:300 -> posted -
@0 p0 c0 recv 0/0/0 12 0x00000001:0x100000008:4 -> posted -
@0 p0 c0 post 0/0/0 7 s write 0x100000000 0x00000001 - -> posted -
@0 p0 c0 inject 0/256 0000ffff000001008000000000*256 -> ok
 local 0/256 0/0 0x00000001 write 0x100000000 256 wrote 00*256
@0 p0 c0 inject 0/256 0230ffff000001008000000100*48 -> ok
 done 0/256 recv 0 11 recv local-length 0 - - -
 done 0/256 send 0 7 write flushed 0 - - -
 done 0/256 recv 1 12 recv flushed 0 - - -
@0 p0 respond 0/256 pass
 sent 0/256 1/256 - - 1100ffff00000100000000001f000000
@0 p0 respond 0/256 pass
 sent 0/256 1/256 - - 1100ffff000001000000000161000000
@0 p0 respond 0/256 pass
 reason empty
";

const DENIED_LIST: &str = "@0 p0 c0 recv 0/0/0 11 0x00000001:0x100000ffe:4 -> posted -
@0 p0 c0 recv 0/0/0 12 0x00000001:0x100000008:4 -> posted -
@0 p0 c0 post 0/0/0 7 s write 0x100000000 0x00000001 - -> posted -
@0 p0 c0 inject 0/256 0400ffff000001008000000000000000 -> ok
 local 0/256 0/0 0x00000001 write 0x100000ffe 4 denied out-of-range
 done 0/256 recv 0 11 recv local-protection 0 - - -
 done 0/256 send 0 7 write flushed 0 - - -
 done 0/256 recv 1 12 recv flushed 0 - - -
@0 p0 respond 0/256 pass
 sent 0/256 1/256 - - 1100ffff000001000000000063000000
@0 p0 respond 0/256 pass
 reason empty

@0 p0 c0 recv 0/0/0 11 0x00000001:0x100000000:2,0x00000002:0x100000000:2 -> posted -
@0 p0 c0 inject 0/256 0410ffff0000010080000000abcdef00 -> ok
 local 0/256 0/0 0x00000002 write 0x100000000 1 denied no-grant
 done 0/256 recv 0 11 recv local-protection 0 - - -
@0 p0 respond 0/256 pass
 sent 0/256 1/256 - - 1100ffff000001000000000063000000

@0 p0 c0 recv 0/0/0 11 0x00000001:0x100000000:2,0x00000002:0x100000000:2 -> posted -
@0 p0 c0 inject 0/256 0420ffff0000010080000000abcd0000 -> ok
 local 0/256 0/0 0x00000001 write 0x100000000 2 wrote abcd
 done 0/256 recv 0 11 recv success 2 - - -
@0 p0 respond 0/256 pass
 sent 0/256 1/256 - - 1100ffff00000100000000001f000001

@0 p0 c0 reg 0/0/0 0 0 4096 r -> key 0x00000001
@0 p0 c0 recv 0/0/0 11 0x00000001:0x100000000:4 -> posted -
@0 p0 c0 inject 0/256 0430ffff0000010080000000ab000000 -> ok
 local 0/256 0/0 0x00000001 write 0x100000000 1 denied no-right
 done 0/256 recv 0 11 recv local-protection 0 - - -
@0 p0 respond 0/256 pass
 sent 0/256 1/256 - - 1100ffff000001000000000063000000
";

const DENIED: &str = "@0 p0 c0 reg 0/0/0 0 0 4096 lrab -> key 0x00000001
@0 p0 c0 recv 0/0/0 11 0x00000001:0x100000000:4 -> posted -
@0 p0 c0 post 0/0/0 7 s write 0x100000000 0x00000001 - -> posted -
@3 p1 c0 inject 0/256 0a30ffff000001008000000000000001000000000000000100000001ab000000 -> ok
 remote 0/256 0/0 3 0x00000001 write 0x100000000 1 denied no-right
 done 0/256 send 0 7 write flushed 0 - - -
 done 0/256 recv 0 11 recv flushed 0 - - -
@0 p0 respond 0/256 pass
 sent 0/256 1/256 - - 1100ffff000001000000000062000000
@0 p0 respond 0/256 pass
 reason empty

@0 p0 c0 recv 0/0/0 11 0x00000001:0x100000000:4 -> posted -
@0 p0 c0 post 0/0/0 7 s write 0x100000000 0x00000001 - -> posted -
@3 p1 c0 inject 0/256 0a30ffff000001008000000000000001000010000000000100000001ab000000 -> ok
 remote 0/256 0/0 3 0x00000001 write 0x100001000 1 denied out-of-range
 done 0/256 send 0 7 write flushed 0 - - -
 done 0/256 recv 0 11 recv flushed 0 - - -
@0 p0 respond 0/256 pass
 sent 0/256 1/256 - - 1100ffff000001000000000062000000
@0 p0 respond 0/256 pass
 reason empty

@0 p0 c0 recv 0/0/0 11 0x00000001:0x100000000:4 -> posted -
@0 p0 c0 post 0/0/0 7 s write 0x100000000 0x00000001 - -> posted -
@3 p1 c0 inject 0/256 0600ffff00000100800000000000000100000000000000010000138800*256 -> ok
 remote 0/256 0/0 3 0x00000001 write 0x100000000 5000 denied out-of-range
 done 0/256 send 0 7 write flushed 0 - - -
 done 0/256 recv 0 11 recv flushed 0 - - -
@0 p0 respond 0/256 pass
 sent 0/256 1/256 - - 1100ffff000001000000000062000000
@0 p0 respond 0/256 pass
 reason empty

@0 p0 c0 recv 0/0/0 11 0x00000001:0x100000000:4 -> posted -
@0 p0 c0 post 0/0/0 7 s write 0x100000000 0x00000001 - -> posted -
@3 p1 c0 inject 0/256 0a30ffff000001008000000000000001000000000000010100000001ab000000 -> ok
 remote 0/256 0/0 3 0x00000101 write 0x100000000 1 denied no-grant
 done 0/256 send 0 7 write flushed 0 - - -
 done 0/256 recv 0 11 recv flushed 0 - - -
@0 p0 respond 0/256 pass
 sent 0/256 1/256 - - 1100ffff000001000000000062000000
@0 p0 respond 0/256 pass
 reason empty

@0 p0 c0 reg 0/0/0 0 0 4096 lrwb -> key 0x00000001
@0 p0 c0 recv 0/0/0 11 0x00000001:0x100000000:4 -> posted -
@0 p0 c0 post 0/0/0 7 s write 0x100000000 0x00000001 - -> posted -
@3 p1 c0 inject 0/256 1400ffff000001008000000000000001000000000000000100000000000000010000000000000000 -> ok
 remote 0/256 0/0 3 0x00000001 add 0x100000000 8 denied no-right
 done 0/256 send 0 7 write flushed 0 - - -
 done 0/256 recv 0 11 recv flushed 0 - - -
@0 p0 respond 0/256 pass
 sent 0/256 1/256 - - 1100ffff000001000000000062000000
@0 p0 respond 0/256 pass
 reason empty

@0 p0 c0 recv 0/0/0 11 0x00000001:0x100000000:4 -> posted -
@0 p0 c0 post 0/0/0 7 s write 0x100000000 0x00000001 - -> posted -
@3 p1 c0 inject 0/256 1300ffff000001008000000000000001000010000000000100000000000000010000000000000000 -> ok
 remote 0/256 0/0 3 0x00000001 cas 0x100001000 8 denied out-of-range
 done 0/256 send 0 7 write flushed 0 - - -
 done 0/256 recv 0 11 recv flushed 0 - - -
@0 p0 respond 0/256 pass
 sent 0/256 1/256 - - 1100ffff000001000000000062000000
@0 p0 respond 0/256 pass
 reason empty

@0 p0 c0 recv 0/0/0 11 0x00000001:0x100000000:4 -> posted -
@0 p0 c0 post 0/0/0 7 s write 0x100000000 0x00000001 - -> posted -
@3 p1 c0 inject 0/256 1400ffff000001008000000000000001000000000000000300000000000000010000000000000000 -> ok
 remote 0/256 0/0 3 0x00000003 add 0x100000000 8 denied no-grant
 done 0/256 send 0 7 write flushed 0 - - -
 done 0/256 recv 0 11 recv flushed 0 - - -
@0 p0 respond 0/256 pass
 sent 0/256 1/256 - - 1100ffff000001000000000062000000
@0 p0 respond 0/256 pass
 reason empty
";

const STILL_SENT: &str =
    "@0 p0 c0 inject 0/256 0c00ffff000001008000000000000001000000000000000100000004 -> ok
@0 p0 c0 inject 0/256 0a30ffff000001008000000100000001000000000000000100000001ab000000 -> ok
 remote 0/256 0/0 - 0x00000001 write 0x100000000 1 wrote ab
@0 p0 c0 inject 0/256 0a30ffff000001008000000200000001000000000000000200000001ab000000 -> ok
 remote 0/256 0/0 - 0x00000002 write 0x100000000 1 denied no-grant
@0 p0 respond 0/256 pass
 remote 0/256 0/0 - 0x00000001 read 0x100000000 4 read ab000000
 sent 0/256 1/256 - - 1000ffff00000100000000001f000002ab000000
@0 p0 respond 0/256 pass
 sent 0/256 1/256 - - 1100ffff00000100000000011f000002
@0 p0 respond 0/256 pass
 sent 0/256 1/256 - - 1100ffff000001000000000262000002
@0 p0 respond 0/256 pass
 reason empty
";

const INVALIDATE: &str = "@0 p0 c0 recv 0/0/0 11 0x00000001:0x100000000:4 -> posted -
@0 p0 c0 recv 0/0/0 12 0x00000001:0x100000008:4 -> posted -
@0 p0 c0 inject 0/256 1730ffff000001008000000000000001ab000000 -> ok
 local 0/256 0/0 0x00000001 write 0x100000000 1 wrote ab
 done 0/256 recv 0 11 recv memory-management 0 - - region:not-fast-registered
 done 0/256 recv 1 12 recv flushed 0 - - -
@0 p0 respond 0/256 pass
 sent 0/256 1/256 - - 1100ffff000001000000000063000000

@0 p0 c0 recv 0/0/0 11 0x00000001:0x100000000:300 -> posted -
@0 p0 c0 inject 0/256 0000ffff000001000000000000*256 -> ok
 local 0/256 0/0 0x00000001 write 0x100000000 256 wrote 00*256
@0 p0 c0 inject 0/256 1630ffff000001008000000100000001ab000000 -> ok
 local 0/256 0/0 0x00000001 write 0x100000100 1 wrote ab
 done 0/256 recv 0 11 recv memory-management 0 - - region:not-fast-registered
@0 p0 respond 0/256 pass
 sent 0/256 1/256 - - 1100ffff000001000000000163000000

@0 p0 c0 recv 0/0/0 11 0x00000001:0x100000000:4 -> posted -
@0 p0 c0 inject 0/256 1730ffff000001008000000000000002ab000000 -> ok
 local 0/256 0/0 0x00000001 write 0x100000000 1 wrote ab
 done 0/256 recv 0 11 recv memory-management 0 - - region:key-differs
@0 p0 respond 0/256 pass
 sent 0/256 1/256 - - 1100ffff000001000000000063000000
";

#[test]
fn an_opcode_that_does_not_continue_its_message_is_invalid(rt: HostRuntime) {
    runs(&rt, rt.alloc(), SEQUENCE);
}

#[test]
fn a_wrong_length_or_a_misaligned_address_is_invalid(rt: HostRuntime) {
    runs(&rt, rt.alloc(), LENGTHS);
}

#[test]
fn the_longest_read_has_4096_psns(rt: HostRuntime) {
    runs(&rt, rt.alloc(), LONGEST);
}

#[test]
fn a_send_longer_than_its_receive_fails_it_before_the_flushes(rt: HostRuntime) {
    runs(&rt, rt.alloc(), TOO_LONG);
}

#[test]
fn a_list_is_judged_for_the_bytes_that_come(rt: HostRuntime) {
    runs(&rt, rt.alloc(), DENIED_LIST);
}

#[test]
fn a_write_is_judged_for_all_bytes_that_are_left(rt: HostRuntime) {
    runs(&rt, rt.alloc(), DENIED);
}

#[test]
fn after_a_refusal_the_answers_before_it_go_out(rt: HostRuntime) {
    runs(&rt, rt.alloc(), STILL_SENT);
}

#[test]
fn a_key_that_does_not_end_fails_the_receive(rt: HostRuntime) {
    runs(&rt, rt.alloc(), INVALIDATE);
}
