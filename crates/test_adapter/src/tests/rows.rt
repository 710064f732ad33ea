/// The setup lines of verbs that post, poll and change states.
pub(super) const SENDS_AND_RECEIVES_SETUP: &str = "adapters 1\n\
buffer 0 256\n\
";

/// The entries of these verbs, as another program reckoned them from the rules.
pub(super) const SENDS_AND_RECEIVES: &str =
    "@0 p0 c1 post 0/0/0 4 s add 0x100000000 0x00000001 1 0x00000001:0x1000000be:5,0x00000101:0x100000032:0,0x00000001:0x10000000f:3 -> refused no-such\n\
@1 p0 c0 pd 0/0 -> ok\n\
@2 p0 c0 cq 0/0/0 4 -> ok\n\
@3 p0 c1 poll 0/0/0 16 -> polled 0\n\
@4 p0 c0 cq 0/0/1 3 -> ok\n\
@5 p0 c1 recv 0/0/0 1014 0x00000101:0x100000000:1940,0x00000101:0x100000000:4060 -> refused no-such\n\
@6 p0 c1 poll 0/0/1 16 -> polled 0\n\
@7 p0 c0 srq 0/0/0 8 -> ok\n\
@8 p0 c0 qp 0/0/0 0 1 4 2 - -> qp 256 1\n\
@9 p0 c0 reg 0/0/0 0 8 248 lrwab -> key 0x00000001\n\
\x20granted 0/0 0x00000001 region any 0x100000008 248 lrwab 0/0:8+248\n\
@10 p0 c0 reg 0/0/1 0 0 256 lrwab -> key 0x00000101\n\
\x20granted 0/0 0x00000101 region any 0x100000000 256 lrwab 0/0:0+256\n\
@11 p0 c0 mw 0/0/0 2 -> ok\n\
@12 p0 c0 mw 0/0/1 2 -> ok\n\
@13 p0 c0 mw 0/0/2 1 -> ok\n\
@14 p0 c0 recv 0/0/0 1001 - -> refused queue-state\n\
@15 p0 c0 poll 0/0/1 16 -> polled 0\n\
@16 p0 c0 post 0/0/0 2 s writeimm 0x100000000 0x00000001 1335632391 0x00000001:0x1000000fc:1 -> refused queue-state\n\
@17 p0 c0 poll 0/0/0 16 -> polled 0\n\
@18 p0 c0 poll 0/0/0 2 -> polled 0\n\
@19 p0 c0 poll 0/0/1 16 -> polled 0\n\
@20 p0 c0 poll 0/0/0 1 -> polled 0\n\
@21 p0 c0 query 0/0/0 -> state reset 1 0 0\n\
@22 p0 c0 recv 0/0/0 1003 0x00000101:0x100000000:8000 -> refused queue-state\n\
@23 p0 c0 poll 0/0/1 16 -> polled 0\n\
@24 p0 c0 store 0/0 189 a6f628520fa4777429baa8c4a3cdcdaa5efd05737a27aaee9fd26326fc08dcab -> ok\n\
\x20stored 0/0 189 a6f628520fa4777429baa8c4a3cdcdaa5efd05737a27aaee9fd26326fc08dcab\n\
@25 p0 c0 poll 0/0/0 16 -> polled 0\n\
@26 p0 c0 load 0/0 56 32 -> bytes 0000000000000000000000000000000000000000000000000000000000000000\n\
@27 p0 c0 recv 0/0/0 1005 0x00000101:0x100000000:621,0x00000101:0x100000000:379 -> refused queue-state\n\
@28 p0 c0 post 0/0/0 6 s write 0x100000000 0x00000001 0x00000101:0x100000021:4 -> refused queue-state\n\
@29 p0 c0 poll 0/0/0 1 -> polled 0\n\
@30 p0 c0 post 0/0/0 7 s write 0x100000000 0x00000001 - -> refused queue-state\n\
@31 p0 c0 post 0/0/0 8 s sendimm 110460449 0x00000001:0x100000008:300 -> refused queue-state\n\
@32 p0 c0 reset 0/0/0 -> ok\n\
@33 p0 c0 post 0/0/0 9 s read 0x100000000 0x00000001 0x00000001:0x100000081:52,0x00000001:0x100000008:2,0x00000001:0x100000026:142,0x00000101:0x1000000b7:60 -> refused queue-state\n\
@34 p0 c0 poll 0/0/0 16 -> polled 0\n\
@35 p0 c0 post 0/0/0 10 s writeimm 0x100000000 0x00000001 2067290720 0x00000101:0x10000002f:174,0x00000001:0x100000008:826 -> refused queue-state\n\
@36 p0 c0 recv 0/0/0 1011 0x00000101:0x1000000b3:4 -> refused queue-state\n\
@37 p0 c0 post 0/0/0 12 s bind1 2 0x00000101 0x100000060 64 rwa -> refused queue-state\n\
@38 p0 c0 poll 0/0/0 2 -> polled 0\n\
@39 p0 c0 recv 0/0/0 1013 0x00000101:0x100000091:4 -> refused queue-state\n\
@40 p0 c0 poll 0/0/1 16 -> polled 0\n\
@41 p0 c0 recv 0/0/0 1015 0x00000101:0x100000000:348,0x00000001:0x100000008:916,0x00000101:0x100000000:1020,0x00000101:0x100000000:5716 -> refused queue-state\n\
@42 p0 c0 post 0/0/0 16 s read 0x100000000 0x00000001 0x00000101:0x100000000:700 -> refused queue-state\n\
@43 p0 c0 reset 0/0/0 -> ok\n\
@44 p0 c0 post 0/0/0 17 s writeimm 0x100000000 0x00000001 1258376412 0x00000101:0x10000000e:0,0x00000001:0x100000023:1,0x00000101:0x100000027:0,0x00000001:0x1000000f8:0 -> refused queue-state\n\
@45 p0 c0 post 0/0/0 18 - bind1 2 0x00000101 0x100000000 256 w -> refused queue-state\n\
@46 p0 c0 poll 0/0/0 16 -> polled 0\n\
@47 p0 c0 recv 0/0/0 1019 0x00000001:0x100000093:64 -> refused queue-state\n\
@48 p0 c0 poll 0/0/1 16 -> polled 0\n\
@49 p0 c0 load 0/0 138 8 -> bytes 0000000000000000\n\
@50 p0 c0 error 0/0/0 -> refused transition\n\
@51 p0 c0 load 0/0 89 32 -> bytes 0000000000000000000000000000000000000000000000000000000000000000\n\
@52 p0 c0 uncq 0/0/0 -> refused cq-in-use\n\
@53 p0 c0 recv 0/0/0 1020 0x00000101:0x10000007a:64 -> refused queue-state\n\
@54 p0 c0 sqd 0/0/0 -> refused transition\n\
@55 p0 c0 resume 0/0/0 -> refused transition\n\
@56 p0 c0 post 0/0/0 21 s add 0x100000000 0x00000001 5 0x00000001:0x10000006d:8 -> refused queue-state\n\
@57 p0 c0 poll 0/0/0 16 -> polled 0\n\
@58 p0 c0 recv 0/0/0 1022 0x00000001:0x100000008:8000 -> refused queue-state\n\
@59 p0 c0 post 0/0/0 23 sf bind1 2 0x00000101 0x100000000 256 rwa -> refused queue-state\n\
@60 p0 c0 poll 0/0/0 16 -> polled 0\n\
@61 p0 c0 post 0/0/0 24 s write 0x100000000 0x00000001 0x00000001:0x100000008:1458,0x00000101:0x100000000:2672,0x00000101:0x100000000:870 -> refused queue-state\n\
@62 p0 c0 recv 0/0/0 1025 0x00000101:0x100000000:8000 -> refused queue-state\n\
@63 p0 c0 srq 0/0/5 2 -> refused no-such\n\
@64 p0 c0 post 0/0/0 26 se bind2 1 0x00000001 1 0x100000008 248 w -> refused queue-state\n\
@65 p0 c0 poll 0/0/0 1 -> polled 0\n\
@66 p0 c0 recv 0/0/0 1027 - -> refused queue-state\n\
@67 p0 c0 poll 0/0/0 16 -> polled 0\n\
@68 p0 c0 load 0/0 57 32 -> bytes 0000000000000000000000000000000000000000000000000000000000000000\n\
@69 p0 c0 post 0/0/0 28 sf inv 0x00800101 -> refused queue-state\n\
@70 p0 c0 poll 0/0/0 16 -> polled 0\n\
@71 p0 c0 load 0/0 195 8 -> bytes 777429baa8c4a3cd\n\
@72 p0 c0 store 0/0 247 25 -> ok\n\
\x20stored 0/0 247 25\n\
@73 p0 c0 load 0/0 253 1 -> bytes 00\n\
@74 p0 c0 post 0/0/0 29 s sendimm 2034904187 0x00000101:0x100000000:300 -> refused queue-state\n\
@75 p0 c0 store 0/0 89 a42347c756f55eed -> ok\n\
\x20stored 0/0 89 a42347c756f55eed\n\
@76 p0 c0 post 0/0/0 30 s send 0x00000001:0x10000001f:1 -> refused queue-state\n\
@77 p0 c0 load 0/0 166 32 -> bytes 0000000000000000000000000000000000000000000000a6f628520fa4777429\n\
@78 p0 c0 post 0/0/0 31 sf sendimm 1815198135 0x00000001:0x100000008:4096 -> refused queue-state\n\
@79 p0 c0 post 0/0/0 32 s send 0x00000101:0x100000000:257 -> refused queue-state\n\
@80 p0 c0 poll 0/0/0 16 -> polled 0\n\
@81 p0 c0 post 0/0/0 33 se read 0x100000000 0x00000001 0x00000001:0x100000029:123,0x00000101:0x100000000:849,0x00000101:0x1000000e3:28 -> refused queue-state\n\
@82 p0 c0 post 0/0/0 34 s add 0x100000000 0x00000001 5 0x00000001:0x100000053:1,0x00000101:0x100000025:1,0x00000101:0x1000000d4:3,0x00000001:0x10000007f:3 -> refused queue-state\n\
@83 p0 c0 poll 0/0/0 16 -> polled 0\n\
@84 p0 c0 post 0/0/0 35 s add 0x100000000 0x00000001 1 0x00000101:0x1000000eb:4,0x00000101:0x100000007:1,0x00000101:0x10000000f:0,0x00000001:0x10000009e:3 -> refused queue-state\n\
@85 p0 c0 reset 0/0/0 -> ok\n\
@86 p0 c0 qp 0/0/0 3 3 1 257 - -> refused slot-taken\n\
@87 p0 c0 post 0/0/0 36 - read 0x100000000 0x00000001 0x00000001:0x100000043:179,0x00000001:0x100000008:1071,0x00000101:0x100000000:302,0x00000001:0x100000008:2544 -> refused queue-state\n\
@88 p0 c0 poll 0/0/0 16 -> polled 0\n\
@89 p0 c0 load 0/0 227 1 -> bytes 00\n\
@90 p0 c0 post 0/0/0 37 s writeimm 0x100000000 0x00000001 444059927 0x00000001:0x1000000a7:8 -> refused queue-state\n\
@91 p0 c0 post 0/0/0 38 s cas 0x100000000 0x00000001 7 3 0x00000101:0x10000007c:3,0x00000101:0x100000005:4,0x00000101:0x10000000d:1 -> refused queue-state\n\
@92 p0 c0 poll 0/0/0 16 -> polled 0\n\
@93 p0 c0 reset 0/0/0 -> ok\n\
@94 p0 c0 poll 0/0/0 2 -> polled 0\n\
@95 p0 c0 pd 0/6 -> refused no-such\n\
@96 p0 c0 post 0/0/0 39 s add 0x100000000 0x00000001 18446744073709551615 0x00000101:0x10000007d:0,0x00000001:0x100000019:6,0x00000101:0x10000002c:2 -> refused queue-state\n\
@97 p0 c0 post 0/0/0 40 s cas 0x100000000 0x00000001 0 4 0x00000101:0x100000048:0,0x00000101:0x1000000c1:3,0x00000101:0x10000001f:5,0x00000001:0x1000000c9:0 -> refused queue-state\n\
@98 p0 c0 poll 0/0/0 16 -> polled 0\n\
@99 p0 c0 post 0/0/0 41 s write 0x100000000 0x00000001 0x00000001:0x100000008:283,0x00000001:0x100000008:782,0x00000101:0x100000000:557,0x00000101:0x100000000:378 -> refused queue-state\n\
@100 p0 c0 poll 0/0/0 16 -> polled 0\n\
@101 p0 c0 poll 0/0/0 2 -> polled 0\n\
@102 p0 c0 post 0/0/0 42 sf add 0x100000000 0x00000001 1 0x00000101:0x1000000f2:8 -> refused queue-state\n\
@103 p0 c0 poll 0/0/0 16 -> polled 0\n\
@104 p0 c0 poll 0/0/0 16 -> polled 0\n\
@105 p0 c0 post 0/0/0 43 s add 0x100000000 0x00000001 5 0x00000101:0x100000080:8 -> refused queue-state\n\
@106 p0 c0 post 0/0/0 44 s add 0x100000000 0x00000001 1 0x00000101:0x100000054:8 -> refused queue-state\n\
@107 p0 c0 poll 0/0/0 16 -> polled 0\n\
@108 p0 c0 post 0/0/0 45 s send 0x00000101:0x100000000:257 -> refused queue-state\n\
@109 p0 c0 post 0/0/0 46 se write 0x100000000 0x00000001 0x00000001:0x10000007f:60,0x00000001:0x100000008:548,0x00000001:0x10000005f:92 -> refused queue-state\n\
@110 p0 c0 poll 0/0/0 16 -> polled 0\n\
@111 p0 c0 post 0/0/0 47 s bind2 1 0x00000101 9 0x100000000 256 rwa -> refused queue-state\n\
@112 p0 c0 unmw 0/0/1 -> ok\n\
@113 p0 c0 mw 0/0/1 2 -> ok\n\
@114 p0 c0 reset 0/0/0 -> ok\n\
@115 p0 c0 query 0/0/0 -> state reset 6 0 0\n\
@116 p0 c0 recv 0/0/0 1048 0x00000001:0x10000009a:47,0x00000101:0x100000000:633,0x00000001:0x100000008:320 -> refused queue-state\n\
@117 p0 c0 poll 0/0/1 16 -> polled 0\n\
@118 p0 c0 poll 0/0/0 1 -> polled 0\n\
@119 p0 c0 post 0/0/0 49 - add 0x100000000 0x00000001 1 0x00000101:0x100000026:8 -> refused queue-state\n\
@120 p0 c0 poll 0/0/0 16 -> polled 0\n\
@121 p0 c0 recv 0/0/0 1050 0x00000101:0x100000000:4871,0x00000101:0x100000000:3129 -> refused queue-state\n\
@122 p0 c0 poll 0/0/1 16 -> polled 0\n\
@123 p0 c0 post 0/0/0 51 s bind2 1 0x00000101 0 0x100000078 128 rwa -> refused queue-state\n\
@124 p0 c0 store 0/0 228 0b689eca6aae33dc248a0b7e449a89bc2b2b29cc370b90bccbd84ae8 -> ok\n\
\x20stored 0/0 228 0b689eca6aae33dc248a0b7e449a89bc2b2b29cc370b90bccbd84ae8\n\
@125 p0 c0 unmw 0/0/1 -> ok\n\
@126 p0 c0 mw 0/0/1 2 -> ok\n\
@127 p0 c0 reset 0/0/0 -> ok\n\
end 128\n\
";

/// The setup lines of queue pairs that come to Ready to Send, with shared receive queues.
pub(super) const QUEUE_PAIRS_SETUP: &str = "adapters 1\n\
buffer 0 70000\n\
buffer 0 16384\n\
buffer 0 16384\n\
";

/// The entries of these verbs, as another program reckoned them from the rules.
pub(super) const QUEUE_PAIRS: &str = "@0 p0 c0 pd 0/0 -> ok\n\
@1 p0 c1 pd 0/1 -> ok\n\
@2 p0 c2 pd 0/2 -> ok\n\
@3 p0 c0 cq 0/0/0 16 -> ok\n\
@4 p0 c1 cq 0/1/0 1 -> ok\n\
@5 p0 c2 cq 0/2/0 26 -> ok\n\
@6 p0 c0 srq 0/0/0 8 -> ok\n\
@7 p0 c1 cq 0/1/1 9 -> ok\n\
@8 p0 c2 cq 0/2/1 29 -> ok\n\
@9 p0 c0 qp 0/0/0 0 0 4 2 - -> qp 256 1\n\
@10 p0 c1 qp 0/1/0 1 1 4 4 - -> qp 512 1\n\
@11 p0 c2 srq 0/2/0 4 -> ok\n\
@12 p0 c0 qp 0/0/1 0 0 2 0 0 -> qp 257 1\n\
@13 p0 c1 reg 0/1/0 0 8 69992 lrwab -> key 0x01000001\n\
\x20granted 0/1 0x01000001 region any 0x100000008 69992 lrwab 0/0:8+69992\n\
@14 p0 c2 qp 0/2/0 1 0 8 0 0 -> qp 768 1\n\
@15 p0 c0 reg 0/0/0 0 0 35000 lr -> key 0x00000001\n\
\x20granted 0/0 0x00000001 region any 0x100000000 35000 lr 0/0:0+35000\n\
@16 p0 c1 reg 0/1/1 0 0 70000 lrwab -> key 0x01000101\n\
\x20granted 0/1 0x01000101 region any 0x100000000 70000 lrwab 0/0:0+70000\n\
@17 p0 c2 qp 0/2/1 0 1 2 8 - -> qp 769 1\n\
@18 p0 c0 reg 0/0/1 2 3 8190 lrwab -> key 0x00000101\n\
\x20granted 0/0 0x00000101 region any 0x300000003 8190 lrwab 0/2:3+8190\n\
@19 p0 c1 reg 0/1/2 1 8 8188 lrwab -> key 0x01000201\n\
\x20granted 0/1 0x01000201 region any 0x200000008 8188 lrwab 0/1:8+8188\n\
@20 p0 c2 qp 0/2/2 1 1 4 8 - -> qp 770 1\n\
@21 p0 c0 reg 0/0/2 0 0 35000 lrwab -> key 0x00000201\n\
\x20granted 0/0 0x00000201 region any 0x100000000 35000 lrwab 0/0:0+35000\n\
@22 p0 c1 mr 0/1/3 4 -> ok\n\
@23 p0 c2 reg 0/2/0 9 8 8188 lrwab -> refused no-such\n\
@24 p0 c0 mw 0/0/0 2 -> ok\n\
@25 p0 c1 init 0/1/0 -> ok\n\
@26 p0 c2 reg 0/2/1 2 64 8160 ab -> refused rights-need-local-write\n\
@27 p0 c0 mw 0/0/1 2 -> ok\n\
@28 p0 c1 rtr 0/1/0 0/770 1 1 512 11 -> ok\n\
@29 p0 c2 mr 0/2/3 2 -> ok\n\
@30 p0 c0 init 0/0/0 -> ok\n\
@31 p0 c1 rts 0/1/0 16777214 7 1 2 -> ok\n\
@32 p0 c2 mw 0/2/0 2 -> ok\n\
@33 p0 c0 rtr 0/0/0 0/257 1 1138411 256 7 -> ok\n\
@34 p0 c2 mw 0/2/1 2 -> ok\n\
@35 p0 c0 rts 0/0/0 9561919 7 0 4 -> ok\n\
@36 p0 c2 mw 0/2/2 1 -> ok\n\
@37 p0 c0 recv 0/0/0 1001 0x00000201:0x100005de9:148,0x00000201:0x100008426:279,0x00000101:0x30000123d:80,0x00000001:0x10000166b:5 -> posted -\n\
@38 p0 c2 init 0/2/2 -> ok\n\
@39 p0 c0 recv 0/0/0 1002 0x00000101:0x3000003af:3045,0x00000101:0x30000079e:1683,0x00000001:0x1000077e9:3272 -> posted -\n\
@40 p0 c2 rtr 0/2/2 0/512 1 16777214 512 10 -> ok\n\
@41 p0 c0 init 0/0/1 -> ok\n\
@42 p0 c2 rts 0/2/2 1 0 3 4 -> ok\n\
@43 p0 c0 rtr 0/0/1 0/256 1 9561919 256 30 -> ok\n\
@44 p0 c2 init 0/2/1 -> ok\n\
@45 p0 c0 rts 0/0/1 1138411 7 3 16 -> ok\n\
@46 p0 c2 rtr 0/2/1 0/768 1 0 512 8 -> ok\n\
@47 p0 c2 rts 0/2/1 16777215 7 0 16 -> ok\n\
@48 p0 c2 recv 0/2/1 1001 0x02000001:0x200000163:158,0x02000101:0x300000792:257,0x02000001:0x200000491:97 -> posted -\n\
@49 p0 c2 init 0/2/0 -> ok\n\
@50 p0 c2 rtr 0/2/0 0/769 1 16777215 512 8 -> ok\n\
@51 p0 c2 rts 0/2/0 0 0 1 4 -> ok\n\
@52 p0 c2 srecv 0/2/0 1001 0x02000001:0x200000064:14,0x02000101:0x300000eba:50 -> posted -\n\
@53 p0 c2 srecv 0/2/0 1002 0x02000001:0x200000a00:518,0x02000001:0x200001b7b:81,0x02000101:0x300001edd:206,0x02000101:0x300000c01:195 -> posted -\n\
@54 p0 c2 srecv 0/2/0 1003 0x02000101:0x300000e18:697,0x02000001:0x200000451:5303 -> posted -\n\
@55 p0 c2 poll 0/2/0 16 -> polled 0\n\
@56 p0 c2 srecv 0/2/0 1004 0x02000101:0x30000072f:6000 -> posted -\n\
@57 p0 c0 recv 0/0/0 1003 0x00000001:0x100003519:635,0x00000201:0x1000037fb:201,0x00000101:0x300000de1:164 -> refused queue-full\n\
@58 p0 c1 post 0/1/0 1 s writeimm 0x200001baa 0x02800201 282567507 0x01000001:0x100010908:83,0x01000001:0x100010bf9:172 -> posted -\n\
@59 p0 c2 dereg 0/2/3 -> ok\n\
end 60\n\
";

/// The setup lines of domains and queue pairs that end.
pub(super) const ENDS_SETUP: &str = "adapters 1\n\
buffer 0 20000\n\
slots 0 2 5 4 2 1 3\n\
";

/// The entries of these verbs, as another program reckoned them from the rules.
pub(super) const ENDS: &str = "@0 p0 c0 pd 0/0 -> ok\n\
@1 p0 c0 unpd 0/0 -> ok\n\
@2 p0 c0 unpd 0/0 -> refused no-domain\n\
@3 p0 c0 mr 0/0/0 1 -> refused no-domain\n\
@4 p0 c0 mr 0/0/0 0 -> refused no-domain\n\
@5 p0 c0 mw 0/0/0 3 -> refused no-domain\n\
@6 p0 c0 cq 0/0/0 0 -> refused no-domain\n\
@7 p0 c0 srq 0/0/0 0 -> refused no-domain\n\
@8 p0 c0 qp 0/0/0 9 9 0 0 5 -> refused no-domain\n\
@9 p0 c0 qp 0/0/9 0 0 1 1 - -> refused no-such\n\
@10 p0 c0 reg 0/0/0 0 0 0 - -> refused no-domain\n\
@11 p0 c0 reg 0/0/0 7 0 0 - -> refused no-such\n\
@12 p0 c0 pd 0/0 -> ok\n\
@13 p0 c0 pd 0/0 -> refused domain-taken\n\
@14 p0 c0 pd 0/2 -> refused no-such\n\
@15 p0 c0 pd 1/0 -> refused no-such\n\
@16 p0 c0 qp 0/0/0 0 0 1 1 - -> refused no-such\n\
@17 p0 c0 cq 0/0/0 4 -> ok\n\
@18 p0 c0 qp 0/0/0 0 0 1 1 0 -> refused no-such\n\
@19 p0 c0 qp 0/0/0 0 7 1 1 - -> refused no-such\n\
@20 p0 c0 qp 0/0/0 0 0 3 2 - -> refused cq-too-small\n\
@21 p0 c0 qp 0/0/0 0 0 3 1 - -> qp 256 1\n\
@22 p0 c0 qp 0/0/1 0 0 1 1 - -> refused cq-too-small\n\
@23 p0 c0 unpd 0/0 -> refused domain-in-use\n\
@24 p0 c0 uncq 0/0/0 -> refused cq-in-use\n\
@25 p0 c0 unqp 0/0/0 -> ok\n\
@26 p0 c0 uncq 0/0/0 -> ok\n\
@27 p0 c0 unpd 0/0 -> ok\n\
end 28\n\
";
