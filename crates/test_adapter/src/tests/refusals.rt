/// The setup lines of the rows below: one domain, and few slots.
pub(super) const SETUP: &str = "adapters 1\n\
buffer 0 256\n\
slots 0 2 2 2 3 2 3\n\
";

/// Verbs that are refused at the edge of each rule, and beside it those that are not, with the answers and marks that the
/// rules ask for: first names outside the configured slices, then no domain, then vacant slots, and then verb by verb. What
/// is refused while a window is bound is not among them: a bind is done in a turn.
pub(super) const REFUSALS: &str = "\
@0 p0 c0 pd 0/2 -> refused no-such\n\
@1 p0 c0 unpd 0/2 -> refused no-such\n\
@2 p0 c0 pd 1/0 -> refused no-such\n\
@3 p0 c0 reg 0/0/2 0 0 1 l -> refused no-such\n\
@4 p0 c0 reg 0/0/0 1 0 1 l -> refused no-such\n\
@5 p0 c0 mr 0/0/2 1 -> refused no-such\n\
@6 p0 c0 dereg 0/0/2 -> refused no-such\n\
@7 p0 c0 mw 0/0/2 1 -> refused no-such\n\
@8 p0 c0 unmw 0/0/2 -> refused no-such\n\
@9 p0 c0 cq 0/0/3 1 -> refused no-such\n\
@10 p0 c0 uncq 0/0/3 -> refused no-such\n\
@11 p0 c0 srq 0/0/2 1 -> refused no-such\n\
@12 p0 c0 unsrq 0/0/2 -> refused no-such\n\
@13 p0 c0 qp 0/0/3 0 0 1 1 - -> refused no-such\n\
@14 p0 c0 init 0/0/3 -> refused no-such\n\
@15 p0 c0 query 0/0/3 -> refused no-such\n\
@16 p0 c0 unqp 0/0/3 -> refused no-such\n\
@17 p0 c0 post 0/0/3 1 - inv 0x00000001 -> refused no-such\n\
@18 p0 c0 recv 0/0/3 1 - -> refused no-such\n\
@19 p0 c0 srecv 0/0/2 1 - -> refused no-such\n\
@20 p0 c0 poll 0/0/3 1 -> refused no-such\n\
@21 p0 c0 store 0/1 0 00 -> refused no-such\n\
@22 p0 c0 store 1/0 0 00 -> refused no-such\n\
@23 p0 c0 load 0/1 0 1 -> refused no-such\n\
@24 p0 c0 unpd 0/0 -> refused no-domain\n\
@25 p0 c0 reg 0/0/1 0 0 0 w -> refused no-domain\n\
@26 p0 c0 mr 0/0/1 0 -> refused no-domain\n\
@27 p0 c0 mw 0/0/1 0 -> refused no-domain\n\
@28 p0 c0 cq 0/0/2 0 -> refused no-domain\n\
@29 p0 c0 srq 0/0/1 0 -> refused no-domain\n\
@30 p0 c0 qp 0/0/2 3 0 0 1 - -> refused no-domain\n\
@31 p0 c0 pd 0/0 -> ok\n\
@32 p0 c0 pd 0/0 -> refused domain-taken\n\
@33 p0 c0 unpd 0/0 -> ok\n\
@34 p0 c0 unpd 0/0 -> refused no-domain\n\
@35 p0 c0 pd 0/0 -> ok\n\
@36 p0 c0 dereg 0/0/1 -> refused no-such\n\
@37 p0 c0 unmw 0/0/1 -> refused no-such\n\
@38 p0 c0 uncq 0/0/2 -> refused no-such\n\
@39 p0 c0 unsrq 0/0/1 -> refused no-such\n\
@40 p0 c0 unqp 0/0/2 -> refused no-such\n\
@41 p0 c0 query 0/0/2 -> refused no-such\n\
@42 p0 c0 init 0/0/2 -> refused no-such\n\
@43 p0 c0 post 0/0/2 1 - add 0x0 0x00000001 1 - -> refused no-such\n\
@44 p0 c0 recv 0/0/2 1 0x00000001:0x100000000:1048577 -> refused no-such\n\
@45 p0 c0 srecv 0/0/1 1 0x00000001:0x100000000:1048577 -> refused no-such\n\
@46 p0 c0 poll 0/0/2 0 -> refused no-such\n\
@47 p0 c0 reg 0/0/0 0 257 0 w -> refused empty\n\
@48 p0 c0 reg 0/0/0 0 0 257 w -> refused outside-buffer\n\
@49 p0 c0 reg 0/0/0 0 256 1 l -> refused outside-buffer\n\
@50 p0 c0 reg 0/0/0 0 4294967295 4294967295 l -> refused outside-buffer\n\
@51 p0 c0 reg 0/0/0 0 0 256 w -> refused rights-need-local-write\n\
@52 p0 c0 reg 0/0/0 0 0 256 rab -> refused rights-need-local-write\n\
@53 p0 c0 reg 0/0/0 0 0 256 rb -> key 0x00000001\n\
\x20granted 0/0 0x00000001 region any 0x100000000 256 rb 0/0:0+256\n\
@54 p0 c0 reg 0/0/0 0 0 0 l -> refused slot-taken\n\
@55 p0 c0 mr 0/0/0 0 -> refused slot-taken\n\
@56 p0 c0 mr 0/0/1 0 -> refused out-of-range:pages\n\
@57 p0 c0 mr 0/0/1 257 -> refused out-of-range:pages\n\
@58 p0 c0 mr 0/0/1 256 -> ok\n\
@59 p0 c0 mr 0/0/1 1 -> refused slot-taken\n\
@60 p0 c0 dereg 0/0/1 -> ok\n\
@61 p0 c0 dereg 0/0/1 -> refused no-such\n\
@62 p0 c0 mr 0/0/1 1 -> ok\n\
@63 p0 c0 dereg 0/0/0 -> ok\n\
\x20revoked 0 0x00000001\n\
@64 p0 c0 reg 0/0/0 0 255 1 lrwab -> key 0x00000002\n\
\x20granted 0/0 0x00000002 region any 0x1000000ff 1 lrwab 0/0:255+1\n\
@65 p0 c0 unpd 0/0 -> refused domain-in-use\n\
@66 p0 c0 mw 0/0/0 0 -> refused out-of-range:kind\n\
@67 p0 c0 mw 0/0/0 3 -> refused out-of-range:kind\n\
@68 p0 c0 mw 0/0/0 1 -> ok\n\
@69 p0 c0 mw 0/0/0 0 -> refused slot-taken\n\
@70 p0 c0 mw 0/0/1 2 -> ok\n\
@71 p0 c0 unmw 0/0/1 -> ok\n\
@72 p0 c0 unmw 0/0/1 -> refused no-such\n\
@73 p0 c0 mw 0/0/1 2 -> ok\n\
@74 p0 c0 cq 0/0/0 0 -> refused out-of-range:capacity\n\
@75 p0 c0 cq 0/0/0 4097 -> refused out-of-range:capacity\n\
@76 p0 c0 cq 0/0/0 4096 -> ok\n\
@77 p0 c0 cq 0/0/0 0 -> refused slot-taken\n\
@78 p0 c0 cq 0/0/1 1 -> ok\n\
@79 p0 c0 uncq 0/0/1 -> ok\n\
@80 p0 c0 uncq 0/0/1 -> refused no-such\n\
@81 p0 c0 cq 0/0/1 2 -> ok\n\
@82 p0 c0 srq 0/0/0 0 -> refused out-of-range:depth\n\
@83 p0 c0 srq 0/0/0 257 -> refused out-of-range:depth\n\
@84 p0 c0 srq 0/0/0 256 -> ok\n\
@85 p0 c0 srq 0/0/0 0 -> refused slot-taken\n\
@86 p0 c0 unsrq 0/0/0 -> ok\n\
@87 p0 c0 unsrq 0/0/0 -> refused no-such\n\
@88 p0 c0 qp 0/0/1 0 0 1 0 0 -> refused no-such\n\
@89 p0 c0 srq 0/0/0 1 -> ok\n\
@90 p0 c0 srecv 0/0/0 1 0x00000001:0x100000000:1048577 -> refused too-long\n\
@91 p0 c0 srecv 0/0/0 1 0x00000001:0x100000000:1048576,0x00000001:0x100000000:1 -> refused too-long\n\
@92 p0 c0 srecv 0/0/0 1 0x00000001:0x100000000:1048576 -> posted -\n\
@93 p0 c0 srecv 0/0/0 2 0x00000001:0x100000000:1048577 -> refused too-long\n\
@94 p0 c0 srecv 0/0/0 2 - -> refused queue-full\n\
@95 p0 c0 qp 0/0/0 3 1 0 1 - -> refused no-such\n\
@96 p0 c0 qp 0/0/0 1 3 0 1 - -> refused no-such\n\
@97 p0 c0 qp 0/0/0 2 1 0 1 - -> refused no-such\n\
@98 p0 c0 qp 0/0/0 1 2 0 1 - -> refused no-such\n\
@99 p0 c0 qp 0/0/0 1 1 0 0 2 -> refused no-such\n\
@100 p0 c0 qp 0/0/0 1 1 0 0 1 -> refused no-such\n\
@101 p0 c0 qp 0/0/0 1 1 0 3 - -> refused out-of-range:depth\n\
@102 p0 c0 qp 0/0/0 0 0 257 1 - -> refused out-of-range:depth\n\
@103 p0 c0 qp 0/0/0 0 0 1 0 - -> refused out-of-range:depth\n\
@104 p0 c0 qp 0/0/0 0 0 1 257 - -> refused out-of-range:depth\n\
@105 p0 c0 qp 0/0/0 0 0 1 1 0 -> refused out-of-range:depth\n\
@106 p0 c0 qp 0/0/0 1 1 1 2 - -> refused cq-too-small\n\
@107 p0 c0 qp 0/0/0 1 0 3 1 - -> refused cq-too-small\n\
@108 p0 c0 qp 0/0/0 0 1 1 3 - -> refused cq-too-small\n\
@109 p0 c0 qp 0/0/0 1 1 1 1 - -> qp 256 1\n\
@110 p0 c0 qp 0/0/0 1 1 0 1 - -> refused slot-taken\n\
@111 p0 c0 qp 0/0/2 1 0 1 1 - -> refused cq-too-small\n\
@112 p0 c0 uncq 0/0/1 -> refused cq-in-use\n\
@113 p0 c0 qp 0/0/1 0 0 256 0 0 -> qp 257 1\n\
@114 p0 c0 unsrq 0/0/0 -> refused srq-in-use\n\
@115 p0 c0 query 0/0/0 -> state reset 1 0 0\n\
@116 p0 c0 rtr 0/0/0 0/256 0 16777216 255 32 -> refused transition\n\
@117 p0 c0 rts 0/0/0 16777216 8 8 0 -> refused transition\n\
@118 p0 c0 sqd 0/0/0 -> refused transition\n\
@119 p0 c0 resume 0/0/0 -> refused transition\n\
@120 p0 c0 error 0/0/0 -> refused transition\n\
@121 p0 c0 post 0/0/0 1 - add 0x0 0x00000001 1 - -> refused out-of-range:list\n\
@122 p0 c0 post 0/0/0 1 - add 0x0 0x00000001 1 0x00000001:0x100000000:7 -> refused out-of-range:list\n\
@123 p0 c0 post 0/0/0 1 - add 0x0 0x00000001 1 0x00000001:0x100000000:1048577 -> refused out-of-range:list\n\
@124 p0 c0 post 0/0/0 1 - add 0x0 0x00000001 1 0x00000001:0x100000000:4,0x00000001:0x100000000:5 -> refused out-of-range:list\n\
@125 p0 c0 post 0/0/0 1 - cas 0x0 0x00000001 1 2 0x00000001:0x100000000:9 -> refused out-of-range:list\n\
@126 p0 c0 post 0/0/0 1 - add 0x0 0x00000001 1 0x00000001:0x100000000:4,0x00000001:0x100000000:4 -> refused queue-state\n\
@127 p0 c0 post 0/0/0 1 - send 0x00000001:0x100000000:1048577 -> refused too-long\n\
@128 p0 c0 post 0/0/0 1 - read 0x0 0x00000001 0x00000001:0x100000000:4294967295,0x00000001:0x100000000:4294967295,0x00000001:0x100000000:4294967295,0x00000001:0x100000000:4294967295 -> refused too-long\n\
@129 p0 c0 post 0/0/0 1 - send 0x00000001:0x100000000:1048576 -> refused queue-state\n\
@130 p0 c0 recv 0/0/0 1 0x00000001:0x100000000:1048577 -> refused too-long\n\
@131 p0 c0 recv 0/0/0 1 0x00000001:0x100000000:1048576 -> refused queue-state\n\
@132 p0 c0 recv 0/0/1 1 0x00000001:0x100000000:1048577 -> refused has-srq\n\
@133 p0 c0 init 0/0/0 -> ok\n\
@134 p0 c0 init 0/0/0 -> refused transition\n\
@135 p0 c0 rts 0/0/0 0 7 7 1 -> refused transition\n\
@136 p0 c0 recv 0/0/0 1 0x00000001:0x100000000:1048576 -> posted -\n\
@137 p0 c0 recv 0/0/0 2 0x00000001:0x100000000:1048577 -> refused too-long\n\
@138 p0 c0 recv 0/0/0 2 - -> refused queue-full\n\
@139 p0 c0 post 0/0/0 1 - inv 0x00000001 -> refused queue-state\n\
@140 p0 c0 rtr 0/0/0 0/256 0 16777216 255 32 -> refused out-of-range:peer\n\
@141 p0 c0 rtr 0/0/0 0/259 0 16777216 255 32 -> refused out-of-range:peer\n\
@142 p0 c0 rtr 0/0/0 0/257 0 16777216 255 32 -> refused out-of-range:incarnation\n\
@143 p0 c0 rtr 0/0/0 0/257 1 16777216 255 32 -> refused out-of-range:psn\n\
@144 p0 c0 rtr 0/0/0 0/257 1 16777215 255 32 -> refused out-of-range:mtu\n\
@145 p0 c0 rtr 0/0/0 0/257 1 16777215 8192 32 -> refused out-of-range:mtu\n\
@146 p0 c0 rtr 0/0/0 0/257 1 16777215 256 32 -> refused out-of-range:rnr-code\n\
@147 p0 c0 rtr 0/0/0 0/257 1 16777215 4096 31 -> ok\n\
@148 p0 c0 rtr 0/0/0 0/257 1 16777215 4096 31 -> refused transition\n\
@149 p0 c0 rts 0/0/0 16777216 8 8 0 -> refused out-of-range:psn\n\
@150 p0 c0 rts 0/0/0 16777215 8 8 0 -> refused out-of-range:retry\n\
@151 p0 c0 rts 0/0/0 16777215 7 8 0 -> refused out-of-range:rnr-retry\n\
@152 p0 c0 rts 0/0/0 16777215 7 7 0 -> refused out-of-range:reads\n\
@153 p0 c0 rts 0/0/0 16777215 7 7 17 -> refused out-of-range:reads\n\
@154 p0 c0 rts 0/0/0 16777215 7 7 16 -> ok\n\
@155 p0 c0 resume 0/0/0 -> refused transition\n\
@156 p0 c0 sqd 0/0/0 -> ok\n\
@157 p0 c0 sqd 0/0/0 -> refused transition\n\
@158 p0 c0 resume 0/0/0 -> ok\n\
@159 p0 c0 unmw 0/0/1 -> ok\n\
@160 p0 c0 post 0/0/0 1 - bind1 1 0x00000002 0x1000000ff 1 r -> refused no-such\n\
@161 p0 c0 post 0/0/0 1 - bind1 2 0x00000002 0x1000000ff 1 r -> refused no-such\n\
@162 p0 c0 post 0/0/0 1 - bind2 2 0x00000002 1 0x1000000ff 1 r -> refused no-such\n\
@163 p0 c0 post 0/0/0 1 - fastreg 2 1 0 0x0 1 l 0 -> refused no-such\n\
@164 p0 c0 post 0/0/0 7 s bind1 0 0x00000002 0x1000000ff 1 r -> posted 0x00800001\n\
@165 p0 c0 post 0/0/0 8 - send 0x00000001:0x100000000:1048577 -> refused too-long\n\
@166 p0 c0 post 0/0/0 8 - bind1 0 0x00000002 0x1000000ff 1 r -> refused queue-full\n\
@167 p0 c0 query 0/0/0 -> state rts 1 1 1\n\
@168 p0 c0 poll 0/0/1 0 -> refused out-of-range:length\n\
@169 p0 c0 poll 0/0/1 17 -> refused out-of-range:length\n\
@170 p0 c0 wait 0/0/1 17 -> refused out-of-range:length\n\
@171 p0 c0 poll 0/0/1 1 2 -> refused out-of-range:length\n\
@172 p0 c0 poll 0/0/1 16 -> polled 0\n\
@173 p0 c0 error 0/0/0 -> ok\n\
\x20done 0/256 send 0 7 bind flushed 0 - - -\n\
\x20done 0/256 recv 0 1 recv flushed 0 - - -\n\
@174 p0 c0 wait 0/0/1 2 -> polled 2\n\
\x20got 0/256 send 0 7 bind flushed 0 - -\n\
\x20got 0/256 recv 0 1 recv flushed 0 - -\n\
@175 p0 c0 query 0/0/0 -> state error 1 0 0\n\
@176 p0 c0 error 0/0/0 -> ok\n\
@177 p0 c0 post 0/0/0 9 - write 0x0 0x00000001 - -> posted -\n\
\x20done 0/256 send 1 9 write flushed 0 - - -\n\
@178 p0 c0 recv 0/0/0 9 - -> posted -\n\
\x20done 0/256 recv 1 9 recv flushed 0 - - -\n\
@179 p0 c0 post 0/0/0 10 - send - -> refused queue-full\n\
@180 p0 c0 recv 0/0/0 10 - -> refused queue-full\n\
@181 p0 c0 query 0/0/0 -> state error 1 1 1\n\
@182 p0 c0 wait 0/0/1 1 -> polled 1\n\
\x20got 0/256 send 1 9 write flushed 0 - -\n\
@183 p0 c0 reset 0/0/0 -> ok\n\
@184 p0 c0 poll 0/0/1 16 -> polled 0\n\
@185 p0 c0 query 0/0/0 -> state reset 2 0 0\n\
@186 p0 c0 store 0/0 0 - -> refused out-of-range:length\n\
@187 p0 c0 store 0/0 256 00 -> refused outside-buffer\n\
@188 p0 c0 store 0/0 255 0000 -> refused outside-buffer\n\
@189 p0 c0 store 0/0 255 07 -> ok\n\
\x20stored 0/0 255 07\n\
@190 p0 c0 load 0/0 256 0 -> refused out-of-range:length\n\
@191 p0 c0 load 0/0 256 4097 -> refused out-of-range:length\n\
@192 p0 c0 load 0/0 0 4096 -> refused outside-buffer\n\
@193 p0 c0 load 0/0 256 1 -> refused outside-buffer\n\
@194 p0 c0 load 0/0 254 2 -> bytes 0007\n\
@195 p0 c0 unqp 0/0/0 -> ok\n\
@196 p0 c0 unqp 0/0/0 -> refused no-such\n\
@197 p0 c0 reset 0/0/0 -> refused no-such\n\
@198 p0 c0 unqp 0/0/1 -> ok\n\
@199 p0 c0 uncq 0/0/1 -> ok\n\
@200 p0 c0 uncq 0/0/0 -> ok\n\
@201 p0 c0 unsrq 0/0/0 -> ok\n\
@202 p0 c0 unmw 0/0/0 -> ok\n\
@203 p0 c0 dereg 0/0/1 -> ok\n\
@204 p0 c0 unpd 0/0 -> refused domain-in-use\n\
@205 p0 c0 dereg 0/0/0 -> ok\n\
\x20revoked 0 0x00000002\n\
@206 p0 c0 unpd 0/0 -> ok\n\
end 207\n\
";

/// The setup line of a buffer that is longer than a store may be.
pub(super) const LARGE_BUFFER: &str = "buffer 0 8192\n";

/// Verbs after which one completion waits.
pub(super) const ONE_COMPLETION: &str = "\
@0 p0 c0 pd 0/0 -> ok\n\
@1 p0 c0 cq 0/0/0 2 -> ok\n\
@2 p0 c0 qp 0/0/0 0 0 1 1 - -> qp 256 1\n\
@3 p0 c0 init 0/0/0 -> ok\n\
@4 p0 c0 recv 0/0/0 5 - -> posted -\n\
@5 p0 c0 error 0/0/0 -> ok\n\
\x20done 0/256 recv 0 5 recv flushed 0 - - -\n\
end 6\n\
";

/// The poll of that one.
pub(super) const IT_IS_POLLED: &str = "\
@0 p0 c0 wait 0/0/0 1 -> polled 1\n\
\x20got 0/256 recv 0 5 recv flushed 0 - -\n\
end 1\n\
";

/// A poll that asks for none.
pub(super) const NOTHING_WAITS: &str = "\
@0 p0 c0 poll 0/0/0 16 -> polled 0\n\
end 1\n\
";
