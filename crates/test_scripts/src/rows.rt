/// Scripts, one a line, each behind what a program that was written from the rules alone says of it: `ok`, or the first
/// refused line and its cause. A `|` is a line feed. Together they have each row of the grammar, each kind of word, each
/// cause at each word where it may come, and lines with several causes.
pub(crate) const ROWS: &str = "1 out of limit: c64 pd 0/0|
1 out of limit: c0 pd 256/0|
1 out of limit: c0 poll 0/0/0 65535|
1 out of limit: c0 poll 0/256/0 16|
1 bad number: adapters -|
1 out of limit: adapters 00|
2 out of limit: # only words|adapters 9|
1 out of limit: buffer 0x0000000000000000000001 64|
1 out of limit: buffer 0 00|
1 bad number: buffer - 64|
1 bad number: buffer 0 -|
1 out of limit: slots 0x0000000000000000000001 4 8 8 4 2 4|
1 out of limit: slots 0 00 8 8 4 2 4|
1 out of limit: slots 0 4 4294967295 8 4 2 4|
1 out of limit: slots 0 4 8 4294967295 4 2 4|
1 out of limit: slots 0 4 8 8 4294967295 2 4|
1 out of limit: slots 0 4 8 8 4 4294967295 4|
1 out of limit: slots 0 4 8 8 4 2 4294967295|
1 bad number: slots - 4 8 8 4 2 4|
1 bad number: slots 0 - 8 8 4 2 4|
1 bad number: slots 0 4 - 8 4 2 4|
1 bad number: slots 0 4 8 - 4 2 4|
1 bad number: slots 0 4 8 8 - 2 4|
1 bad number: slots 0 4 8 8 4 - 4|
1 bad number: slots 0 4 8 8 4 2 -|
1 bad number: events -|
1 out of limit: events 00|
1 bad name: weather lose - 3|
1 bad number: weather seed -|
1 out of limit: weather seed 18446744073709551616|
1 out of limit: weather lose 1/2 3|
1 out of limit: weather lose 0/256 18446744073709551616|
1 bad number: weather lose 0/256 -|
1 bad name: weather repeat - 3 2|
1 out of limit: weather repeat 1/2 3 2|
1 out of limit: weather repeat 0/256 18446744073709551616 2|
1 out of limit: weather repeat 0/256 3 00|
1 bad number: weather repeat 0/256 - 2|
1 bad number: weather repeat 0/256 3 -|
1 bad name: weather hold - 3 255|
1 out of limit: weather hold 1/2 3 255|
1 out of limit: weather hold 0/256 18446744073709551616 255|
1 out of limit: weather hold 0/256 3 00|
1 bad number: weather hold 0/256 - 255|
1 bad number: weather hold 0/256 3 -|
1 bad name: weather hasten - 0|
1 out of limit: weather hasten 1/2 0|
1 out of limit: weather hasten 0/256 18446744073709551616|
1 bad number: weather hasten 0/256 -|
1 bad number: c0 at 0/0|
1 bad name: c0 pd -|
1 bad name: c0 unpd -|
1 out of limit: c0 unpd 256/0|
1 bad name: c0 reg - 0 0 64 lw|
1 bad name: c0 reg 0/0/0 0 0 64 x|
1 out of limit: c0 reg 0/256/0 0 0 64 lw|
1 out of limit: c0 reg 0/0/0 4294967295 0 64 lw|
1 out of limit: c0 reg 0/0/0 0 4294967296 64 lw|
1 out of limit: c0 reg 0/0/0 0 0 4294967296 lw|
1 bad number: c0 reg 0/0/0 - 0 64 lw|
1 bad number: c0 reg 0/0/0 0 - 64 lw|
1 bad number: c0 reg 0/0/0 0 0 - lw|
1 bad name: c1 mr - 4|
1 out of limit: c1 mr 0/256/0 4|
1 out of limit: c1 mr 0/0/1 4294967295|
1 bad number: c1 mr 0/0/1 -|
1 bad name: c1 dereg -|
1 out of limit: c1 dereg 0/256/0|
1 bad name: c2 mw - 2|
1 out of limit: c2 mw 0/256/0 2|
1 out of limit: c2 mw 0/0/0 4294967295|
1 bad number: c2 mw 0/0/0 -|
1 bad name: c2 unmw -|
1 out of limit: c2 unmw 0/256/0|
1 bad name: c0 cq - 2|
1 out of limit: c0 cq 0/256/0 2|
1 out of limit: c0 cq 0/0/0 4294967295|
1 bad number: c0 cq 0/0/0 -|
1 bad name: c0 uncq -|
1 out of limit: c0 uncq 0/256/0|
1 bad name: c0 srq - 4|
1 out of limit: c0 srq 0/256/0 4|
1 out of limit: c0 srq 0/0/0 4294967295|
1 bad number: c0 srq 0/0/0 -|
1 bad name: c0 unsrq -|
1 out of limit: c0 unsrq 0/256/0|
1 bad name: c0 qp - 0 0 1 1 -|
1 out of limit: c0 qp 0/256/0 0 0 1 1 -|
1 out of limit: c0 qp 0/0/0 4294967295 0 1 1 -|
1 out of limit: c0 qp 0/0/0 0 4294967295 1 1 -|
1 out of limit: c0 qp 0/0/0 0 0 4294967295 1 -|
1 out of limit: c0 qp 0/0/0 0 0 1 4294967295 -|
1 out of limit: c0 qp 0/0/0 0 0 1 1 4294967295|
1 bad number: c0 qp 0/0/0 - 0 1 1 -|
1 bad number: c0 qp 0/0/0 0 - 1 1 -|
1 bad number: c0 qp 0/0/0 0 0 - 1 -|
1 bad number: c0 qp 0/0/0 0 0 1 - -|
1 bad number: c0 qp 0/0/0 0 0 1 1 x|
1 bad name: c0 unqp -|
1 out of limit: c0 unqp 0/256/0|
1 bad name: c0 query -|
1 out of limit: c0 query 0/256/0|
1 bad name: c0 init -|
1 out of limit: c0 init 0/256/0|
1 bad name: c0 sqd -|
1 out of limit: c0 sqd 0/256/0|
1 bad name: c0 resume -|
1 out of limit: c0 resume 0/256/0|
1 bad name: c0 error -|
1 out of limit: c0 error 0/256/0|
1 bad name: c0 reset -|
1 out of limit: c0 reset 0/256/0|
1 bad name: c0 rtr - 0/257 1 0 256 12|
1 bad name: c0 rtr 0/0/0 - 1 0 256 12|
1 out of limit: c0 rtr 0/256/0 0/257 1 0 256 12|
1 out of limit: c0 rtr 0/0/0 256/0 1 0 256 12|
1 out of limit: c0 rtr 0/0/0 0/257 4294967296 0 256 12|
1 out of limit: c0 rtr 0/0/0 0/257 1 4294967296 256 12|
1 out of limit: c0 rtr 0/0/0 0/257 1 0 4294967295 12|
1 out of limit: c0 rtr 0/0/0 0/257 1 0 256 4294967295|
1 bad number: c0 rtr 0/0/0 0/257 - 0 256 12|
1 bad number: c0 rtr 0/0/0 0/257 1 - 256 12|
1 bad number: c0 rtr 0/0/0 0/257 1 0 - 12|
1 bad number: c0 rtr 0/0/0 0/257 1 0 256 -|
1 bad name: c0 rts - 0 7 7 16|
1 out of limit: c0 rts 0/256/0 0 7 7 16|
1 out of limit: c0 rts 0/0/0 4294967296 7 7 16|
1 out of limit: c0 rts 0/0/0 0 4294967295 7 16|
1 out of limit: c0 rts 0/0/0 0 7 4294967295 16|
1 out of limit: c0 rts 0/0/0 0 7 7 4294967295|
1 bad number: c0 rts 0/0/0 - 7 7 16|
1 bad number: c0 rts 0/0/0 0 - 7 16|
1 bad number: c0 rts 0/0/0 0 7 - 16|
1 bad number: c0 rts 0/0/0 0 7 7 -|
1 bad name: c0 post - 1 sfe send 0x00000001:0x100000000:8|
1 bad name: c0 post 0/0/0 1 x send 0x00000001:0x100000000:8|
1 out of limit: c0 post 0/256/0 1 sfe send 0x00000001:0x100000000:8|
1 out of limit: c0 post 0/0/0 18446744073709551616 sfe send 0x00000001:0x100000000:8|
1 out of limit: c0 post 0/0/0 1 sfe send 1:2:3,1:2:3,1:2:3,1:2:3,1:2:3|
1 bad number: c0 post 0/0/0 - sfe send 0x00000001:0x100000000:8|
1 bad number: c0 post 0/0/0 1 sfe send x|
1 bad name: c0 post - 1 s sendimm 5 1:2:3,4:5:6|
1 bad name: c0 post 0/0/0 1 x sendimm 5 1:2:3,4:5:6|
1 out of limit: c0 post 0/256/0 1 s sendimm 5 1:2:3,4:5:6|
1 out of limit: c0 post 0/0/0 18446744073709551616 s sendimm 5 1:2:3,4:5:6|
1 out of limit: c0 post 0/0/0 1 s sendimm 4294967296 1:2:3,4:5:6|
1 out of limit: c0 post 0/0/0 1 s sendimm 5 1:2:3,1:2:3,1:2:3,1:2:3,1:2:3|
1 bad number: c0 post 0/0/0 - s sendimm 5 1:2:3,4:5:6|
1 bad number: c0 post 0/0/0 1 s sendimm - 1:2:3,4:5:6|
1 bad number: c0 post 0/0/0 1 s sendimm 5 x|
1 bad name: c0 post - 1 - sendinv 0x0000ff01 -|
1 bad name: c0 post 0/0/0 1 x sendinv 0x0000ff01 -|
1 out of limit: c0 post 0/256/0 1 - sendinv 0x0000ff01 -|
1 out of limit: c0 post 0/0/0 18446744073709551616 - sendinv 0x0000ff01 -|
1 out of limit: c0 post 0/0/0 1 - sendinv 4294967296 -|
1 out of limit: c0 post 0/0/0 1 - sendinv 0x0000ff01 1:2:3,1:2:3,1:2:3,1:2:3,1:2:3|
1 bad number: c0 post 0/0/0 - - sendinv 0x0000ff01 -|
1 bad number: c0 post 0/0/0 1 - sendinv - -|
1 bad number: c0 post 0/0/0 1 - sendinv 0x0000ff01 x|
1 bad name: c0 post - 1 f write 0x100000000 0x00000001 1:2:3,4:5:6,7:8:9,1:1:1|
1 bad name: c0 post 0/0/0 1 x write 0x100000000 0x00000001 1:2:3,4:5:6,7:8:9,1:1:1|
1 out of limit: c0 post 0/256/0 1 f write 0x100000000 0x00000001 1:2:3,4:5:6,7:8:9,1:1:1|
1 out of limit: c0 post 0/0/0 18446744073709551616 f write 0x100000000 0x00000001 1:2:3,4:5:6,7:8:9,1:1:1|
1 out of limit: c0 post 0/0/0 1 f write 18446744073709551616 0x00000001 1:2:3,4:5:6,7:8:9,1:1:1|
1 out of limit: c0 post 0/0/0 1 f write 0x100000000 4294967296 1:2:3,4:5:6,7:8:9,1:1:1|
1 out of limit: c0 post 0/0/0 1 f write 0x100000000 0x00000001 1:2:3,1:2:3,1:2:3,1:2:3,1:2:3|
1 bad number: c0 post 0/0/0 - f write 0x100000000 0x00000001 1:2:3,4:5:6,7:8:9,1:1:1|
1 bad number: c0 post 0/0/0 1 f write - 0x00000001 1:2:3,4:5:6,7:8:9,1:1:1|
1 bad number: c0 post 0/0/0 1 f write 0x100000000 - 1:2:3,4:5:6,7:8:9,1:1:1|
1 bad number: c0 post 0/0/0 1 f write 0x100000000 0x00000001 x|
1 bad name: c0 post - 1 e writeimm 4294967296 1 7 1:2:3|
1 bad name: c0 post 0/0/0 1 x writeimm 4294967296 1 7 1:2:3|
1 out of limit: c0 post 0/256/0 1 e writeimm 4294967296 1 7 1:2:3|
1 out of limit: c0 post 0/0/0 18446744073709551616 e writeimm 4294967296 1 7 1:2:3|
1 out of limit: c0 post 0/0/0 1 e writeimm 18446744073709551616 1 7 1:2:3|
1 out of limit: c0 post 0/0/0 1 e writeimm 4294967296 4294967296 7 1:2:3|
1 out of limit: c0 post 0/0/0 1 e writeimm 4294967296 1 4294967296 1:2:3|
1 out of limit: c0 post 0/0/0 1 e writeimm 4294967296 1 7 1:2:3,1:2:3,1:2:3,1:2:3,1:2:3|
1 bad number: c0 post 0/0/0 - e writeimm 4294967296 1 7 1:2:3|
1 bad number: c0 post 0/0/0 1 e writeimm - 1 7 1:2:3|
1 bad number: c0 post 0/0/0 1 e writeimm 4294967296 - 7 1:2:3|
1 bad number: c0 post 0/0/0 1 e writeimm 4294967296 1 - 1:2:3|
1 bad number: c0 post 0/0/0 1 e writeimm 4294967296 1 7 x|
1 bad name: c0 post - 1 se read 0x100000000 1 -|
1 bad name: c0 post 0/0/0 1 x read 0x100000000 1 -|
1 out of limit: c0 post 0/256/0 1 se read 0x100000000 1 -|
1 out of limit: c0 post 0/0/0 18446744073709551616 se read 0x100000000 1 -|
1 out of limit: c0 post 0/0/0 1 se read 18446744073709551616 1 -|
1 out of limit: c0 post 0/0/0 1 se read 0x100000000 4294967296 -|
1 out of limit: c0 post 0/0/0 1 se read 0x100000000 1 1:2:3,1:2:3,1:2:3,1:2:3,1:2:3|
1 bad number: c0 post 0/0/0 - se read 0x100000000 1 -|
1 bad number: c0 post 0/0/0 1 se read - 1 -|
1 bad number: c0 post 0/0/0 1 se read 0x100000000 - -|
1 bad number: c0 post 0/0/0 1 se read 0x100000000 1 x|
1 bad name: c0 post - 1 sf cas 0x100000000 1 5 6 1:2:8|
1 bad name: c0 post 0/0/0 1 x cas 0x100000000 1 5 6 1:2:8|
1 out of limit: c0 post 0/256/0 1 sf cas 0x100000000 1 5 6 1:2:8|
1 out of limit: c0 post 0/0/0 18446744073709551616 sf cas 0x100000000 1 5 6 1:2:8|
1 out of limit: c0 post 0/0/0 1 sf cas 18446744073709551616 1 5 6 1:2:8|
1 out of limit: c0 post 0/0/0 1 sf cas 0x100000000 4294967296 5 6 1:2:8|
1 out of limit: c0 post 0/0/0 1 sf cas 0x100000000 1 18446744073709551616 6 1:2:8|
1 out of limit: c0 post 0/0/0 1 sf cas 0x100000000 1 5 18446744073709551616 1:2:8|
1 out of limit: c0 post 0/0/0 1 sf cas 0x100000000 1 5 6 1:2:3,1:2:3,1:2:3,1:2:3,1:2:3|
1 bad number: c0 post 0/0/0 - sf cas 0x100000000 1 5 6 1:2:8|
1 bad number: c0 post 0/0/0 1 sf cas - 1 5 6 1:2:8|
1 bad number: c0 post 0/0/0 1 sf cas 0x100000000 - 5 6 1:2:8|
1 bad number: c0 post 0/0/0 1 sf cas 0x100000000 1 - 6 1:2:8|
1 bad number: c0 post 0/0/0 1 sf cas 0x100000000 1 5 - 1:2:8|
1 bad number: c0 post 0/0/0 1 sf cas 0x100000000 1 5 6 x|
1 bad name: c0 post - 1 fe add 0x100000000 1 5 1:2:8|
1 bad name: c0 post 0/0/0 1 x add 0x100000000 1 5 1:2:8|
1 out of limit: c0 post 0/256/0 1 fe add 0x100000000 1 5 1:2:8|
1 out of limit: c0 post 0/0/0 18446744073709551616 fe add 0x100000000 1 5 1:2:8|
1 out of limit: c0 post 0/0/0 1 fe add 18446744073709551616 1 5 1:2:8|
1 out of limit: c0 post 0/0/0 1 fe add 0x100000000 4294967296 5 1:2:8|
1 out of limit: c0 post 0/0/0 1 fe add 0x100000000 1 18446744073709551616 1:2:8|
1 out of limit: c0 post 0/0/0 1 fe add 0x100000000 1 5 1:2:3,1:2:3,1:2:3,1:2:3,1:2:3|
1 bad number: c0 post 0/0/0 - fe add 0x100000000 1 5 1:2:8|
1 bad number: c0 post 0/0/0 1 fe add - 1 5 1:2:8|
1 bad number: c0 post 0/0/0 1 fe add 0x100000000 - 5 1:2:8|
1 bad number: c0 post 0/0/0 1 fe add 0x100000000 1 - 1:2:8|
1 bad number: c0 post 0/0/0 1 fe add 0x100000000 1 5 x|
1 bad name: c0 post - 1 s bind1 0 0x00000001 0x100000000 8 rwa|
1 bad name: c0 post 0/0/0 1 x bind1 0 0x00000001 0x100000000 8 rwa|
1 bad name: c0 post 0/0/0 1 s bind1 0 0x00000001 0x100000000 8 x|
1 out of limit: c0 post 0/256/0 1 s bind1 0 0x00000001 0x100000000 8 rwa|
1 out of limit: c0 post 0/0/0 18446744073709551616 s bind1 0 0x00000001 0x100000000 8 rwa|
1 out of limit: c0 post 0/0/0 1 s bind1 4294967295 0x00000001 0x100000000 8 rwa|
1 out of limit: c0 post 0/0/0 1 s bind1 0 4294967296 0x100000000 8 rwa|
1 out of limit: c0 post 0/0/0 1 s bind1 0 0x00000001 18446744073709551616 8 rwa|
1 out of limit: c0 post 0/0/0 1 s bind1 0 0x00000001 0x100000000 4294967296 rwa|
1 bad number: c0 post 0/0/0 - s bind1 0 0x00000001 0x100000000 8 rwa|
1 bad number: c0 post 0/0/0 1 s bind1 - 0x00000001 0x100000000 8 rwa|
1 bad number: c0 post 0/0/0 1 s bind1 0 - 0x100000000 8 rwa|
1 bad number: c0 post 0/0/0 1 s bind1 0 0x00000001 - 8 rwa|
1 bad number: c0 post 0/0/0 1 s bind1 0 0x00000001 0x100000000 - rwa|
1 bad name: c0 post - 1 s bind2 1 1 255 0x100000000 8 -|
1 bad name: c0 post 0/0/0 1 x bind2 1 1 255 0x100000000 8 -|
1 bad name: c0 post 0/0/0 1 s bind2 1 1 255 0x100000000 8 x|
1 out of limit: c0 post 0/256/0 1 s bind2 1 1 255 0x100000000 8 -|
1 out of limit: c0 post 0/0/0 18446744073709551616 s bind2 1 1 255 0x100000000 8 -|
1 out of limit: c0 post 0/0/0 1 s bind2 4294967295 1 255 0x100000000 8 -|
1 out of limit: c0 post 0/0/0 1 s bind2 1 4294967296 255 0x100000000 8 -|
1 out of limit: c0 post 0/0/0 1 s bind2 1 1 4294967295 0x100000000 8 -|
1 out of limit: c0 post 0/0/0 1 s bind2 1 1 255 18446744073709551616 8 -|
1 out of limit: c0 post 0/0/0 1 s bind2 1 1 255 0x100000000 4294967296 -|
1 bad number: c0 post 0/0/0 - s bind2 1 1 255 0x100000000 8 -|
1 bad number: c0 post 0/0/0 1 s bind2 - 1 255 0x100000000 8 -|
1 bad number: c0 post 0/0/0 1 s bind2 1 - 255 0x100000000 8 -|
1 bad number: c0 post 0/0/0 1 s bind2 1 1 - 0x100000000 8 -|
1 bad number: c0 post 0/0/0 1 s bind2 1 1 255 - 8 -|
1 bad number: c0 post 0/0/0 1 s bind2 1 1 255 0x100000000 - -|
1 bad name: c0 post - 1 s fastreg 1 7 0 0x100000000 4096 lrwab 1,2,3|
1 bad name: c0 post 0/0/0 1 x fastreg 1 7 0 0x100000000 4096 lrwab 1,2,3|
1 bad name: c0 post 0/0/0 1 s fastreg 1 7 0 0x100000000 4096 x 1,2,3|
1 out of limit: c0 post 0/256/0 1 s fastreg 1 7 0 0x100000000 4096 lrwab 1,2,3|
1 out of limit: c0 post 0/0/0 18446744073709551616 s fastreg 1 7 0 0x100000000 4096 lrwab 1,2,3|
1 out of limit: c0 post 0/0/0 1 s fastreg 4294967295 7 0 0x100000000 4096 lrwab 1,2,3|
1 out of limit: c0 post 0/0/0 1 s fastreg 1 4294967295 0 0x100000000 4096 lrwab 1,2,3|
1 out of limit: c0 post 0/0/0 1 s fastreg 1 7 4294967295 0x100000000 4096 lrwab 1,2,3|
1 out of limit: c0 post 0/0/0 1 s fastreg 1 7 0 18446744073709551616 4096 lrwab 1,2,3|
1 out of limit: c0 post 0/0/0 1 s fastreg 1 7 0 0x100000000 4294967296 lrwab 1,2,3|
1 out of limit: c0 post 0/0/0 1 s fastreg 1 7 0 0x100000000 4096 lrwab 4294967295|
1 bad number: c0 post 0/0/0 - s fastreg 1 7 0 0x100000000 4096 lrwab 1,2,3|
1 bad number: c0 post 0/0/0 1 s fastreg - 7 0 0x100000000 4096 lrwab 1,2,3|
1 bad number: c0 post 0/0/0 1 s fastreg 1 - 0 0x100000000 4096 lrwab 1,2,3|
1 bad number: c0 post 0/0/0 1 s fastreg 1 7 - 0x100000000 4096 lrwab 1,2,3|
1 bad number: c0 post 0/0/0 1 s fastreg 1 7 0 - 4096 lrwab 1,2,3|
1 bad number: c0 post 0/0/0 1 s fastreg 1 7 0 0x100000000 - lrwab 1,2,3|
1 bad number: c0 post 0/0/0 1 s fastreg 1 7 0 0x100000000 4096 lrwab -|
1 bad name: c0 post - 1 s inv 0x00000101|
1 bad name: c0 post 0/0/0 1 x inv 0x00000101|
1 out of limit: c0 post 0/256/0 1 s inv 0x00000101|
1 out of limit: c0 post 0/0/0 18446744073709551616 s inv 0x00000101|
1 out of limit: c0 post 0/0/0 1 s inv 4294967296|
1 bad number: c0 post 0/0/0 - s inv 0x00000101|
1 bad number: c0 post 0/0/0 1 s inv -|
1 bad name: c0 recv - 9 1:2:3|
1 out of limit: c0 recv 0/256/0 9 1:2:3|
1 out of limit: c0 recv 0/0/0 18446744073709551616 1:2:3|
1 out of limit: c0 recv 0/0/0 9 1:2:3,1:2:3,1:2:3,1:2:3,1:2:3|
1 bad number: c0 recv 0/0/0 - 1:2:3|
1 bad number: c0 recv 0/0/0 9 x|
1 bad name: c0 srecv - 9 -|
1 out of limit: c0 srecv 0/256/0 9 -|
1 out of limit: c0 srecv 0/0/0 18446744073709551616 -|
1 out of limit: c0 srecv 0/0/0 9 1:2:3,1:2:3,1:2:3,1:2:3,1:2:3|
1 bad number: c0 srecv 0/0/0 - -|
1 bad number: c0 srecv 0/0/0 9 x|
1 bad name: c0 poll - 16|
1 bad number: c0 poll 0/0/0 -|
1 bad name: c0 wait - 1|
1 out of limit: c0 wait 0/256/0 1|
1 out of limit: c0 wait 0/0/0 4294967295|
1 bad number: c0 wait 0/0/0 -|
1 bad name: c0 store - 0 aAfF|
1 out of limit: c0 store 256/0 0 aAfF|
1 out of limit: c0 store 0/0 4294967296 aAfF|
1 bad number: c0 store 0/0 - aAfF|
1 bad hex: c0 store 0/0 0 x|
1 bad name: c0 load - 0 4096|
1 out of limit: c0 load 256/0 0 4096|
1 out of limit: c0 load 0/0 4294967296 4096|
1 out of limit: c0 load 0/0 0 4294967296|
1 bad number: c0 load 0/0 - 4096|
1 bad number: c0 load 0/0 0 -|
1 bad name: c63 inject - 0a30|
1 out of limit: c63 inject 256/0 0a30|
1 bad hex: c63 inject 0/256 x|
1 out of limit: c0 at 18446744073709551616|
2 setup late: adapters 2|adapters|
2 setup late: events 50|events|
ok: 
ok: #|
1 unknown word:  # x|
ok: c0 pd 0/0
1 out of limit: c64 foo|
1 out of limit: c64|
1 missing: c0|
1 unknown word: c0 PD 0/0|
ok: c0 wait 0/0/0 0|
ok: c0 poll 0/0/0 0|
ok: adapters 2
1 extra: adapters 2 0|
1 missing: adapters|
ok: buffer 0 64
1 extra: buffer 0 64 0|
1 missing: buffer|
ok: slots 0 4 8 8 4 2 4
1 extra: slots 0 4 8 8 4 2 4 0|
1 missing: slots|
ok: events 100
1 extra: events 100 0|
1 missing: events|
ok: weather seed 7
1 extra: weather seed 7 0|
1 missing: weather|
1 unknown word: weather 7|
1 missing: weather seed|
ok: weather lose 0/256 3
1 extra: weather lose 0/256 3 0|
1 missing: weather lose|
ok: weather repeat 0/256 3 2
1 extra: weather repeat 0/256 3 2 0|
1 missing: weather repeat|
ok: weather hold 0/256 3 255
1 extra: weather hold 0/256 3 255 0|
1 missing: weather hold|
ok: weather hasten 0/256 0
1 extra: weather hasten 0/256 0 0|
1 missing: weather hasten|
1 extra: c0 pd 0/0 0|
1 missing: c0 pd|
ok: c0 unpd 0/0
1 extra: c0 unpd 0/0 0|
1 missing: c0 unpd|
ok: c0 reg 0/0/0 0 0 64 lw
1 extra: c0 reg 0/0/0 0 0 64 lw 0|
1 missing: c0 reg|
ok: c1 mr 0/0/1 4
1 extra: c1 mr 0/0/1 4 0|
1 missing: c1 mr|
ok: c1 dereg 0/0/1
1 extra: c1 dereg 0/0/1 0|
1 missing: c1 dereg|
ok: c2 mw 0/0/0 2
1 extra: c2 mw 0/0/0 2 0|
1 missing: c2 mw|
ok: c2 unmw 0/0/0
1 extra: c2 unmw 0/0/0 0|
1 missing: c2 unmw|
ok: c0 cq 0/0/0 2
1 extra: c0 cq 0/0/0 2 0|
1 missing: c0 cq|
ok: c0 uncq 0/0/0
1 extra: c0 uncq 0/0/0 0|
1 missing: c0 uncq|
ok: c0 srq 0/0/0 4
1 extra: c0 srq 0/0/0 4 0|
1 missing: c0 srq|
ok: c0 unsrq 0/0/0
1 extra: c0 unsrq 0/0/0 0|
1 missing: c0 unsrq|
ok: c0 qp 0/0/0 0 0 1 1 -
1 extra: c0 qp 0/0/0 0 0 1 1 - 0|
1 missing: c0 qp|
ok: c0 unqp 0/0/0
1 extra: c0 unqp 0/0/0 0|
1 missing: c0 unqp|
ok: c0 query 0/0/0
1 extra: c0 query 0/0/0 0|
1 missing: c0 query|
ok: c0 init 0/0/0
1 extra: c0 init 0/0/0 0|
1 missing: c0 init|
ok: c0 sqd 0/0/0
1 extra: c0 sqd 0/0/0 0|
1 missing: c0 sqd|
ok: c0 resume 0/0/0
1 extra: c0 resume 0/0/0 0|
1 missing: c0 resume|
ok: c0 error 0/0/0
1 extra: c0 error 0/0/0 0|
1 missing: c0 error|
ok: c0 reset 0/0/0
1 extra: c0 reset 0/0/0 0|
1 missing: c0 reset|
ok: c0 rtr 0/0/0 0/257 1 0 256 12
1 extra: c0 rtr 0/0/0 0/257 1 0 256 12 0|
1 missing: c0 rtr|
ok: c0 rts 0/0/0 0 7 7 16
1 extra: c0 rts 0/0/0 0 7 7 16 0|
1 missing: c0 rts|
ok: c0 post 0/0/0 1 sfe send 0x00000001:0x100000000:8
1 extra: c0 post 0/0/0 1 sfe send 0x00000001:0x100000000:8 0|
1 missing: c0 post|
1 bad name: c0 post 1 sfe send 0x00000001:0x100000000:8|
1 bad number: c0 post 0/0/0 sfe send 0x00000001:0x100000000:8|
1 unknown word: c0 post 0/0/0 1 sfe 0x00000001:0x100000000:8|
1 missing: c0 post 0/0/0 1 sfe send|
1 out of limit: c0 post 0/0/0 999999999999999999999999999999 sfe zz 0x00000001:0x100000000:8|
ok: c0 post 0/0/0 1 s sendimm 5 1:2:3,4:5:6
1 extra: c0 post 0/0/0 1 s sendimm 5 1:2:3,4:5:6 0|
1 missing: c0 post 0/0/0 1 s sendimm|
ok: c0 post 0/0/0 1 - sendinv 0x0000ff01 -
1 extra: c0 post 0/0/0 1 - sendinv 0x0000ff01 - 0|
1 missing: c0 post 0/0/0 1 - sendinv|
ok: c0 post 0/0/0 1 f write 0x100000000 0x00000001 1:2:3,4:5:6,7:8:9,1:1:1
1 extra: c0 post 0/0/0 1 f write 0x100000000 0x00000001 1:2:3,4:5:6,7:8:9,1:1:1 0|
1 missing: c0 post 0/0/0 1 f write|
ok: c0 post 0/0/0 1 e writeimm 4294967296 1 7 1:2:3
1 extra: c0 post 0/0/0 1 e writeimm 4294967296 1 7 1:2:3 0|
1 missing: c0 post 0/0/0 1 e writeimm|
ok: c0 post 0/0/0 1 se read 0x100000000 1 -
1 extra: c0 post 0/0/0 1 se read 0x100000000 1 - 0|
1 missing: c0 post 0/0/0 1 se read|
ok: c0 post 0/0/0 1 sf cas 0x100000000 1 5 6 1:2:8
1 extra: c0 post 0/0/0 1 sf cas 0x100000000 1 5 6 1:2:8 0|
1 missing: c0 post 0/0/0 1 sf cas|
ok: c0 post 0/0/0 1 fe add 0x100000000 1 5 1:2:8
1 extra: c0 post 0/0/0 1 fe add 0x100000000 1 5 1:2:8 0|
1 missing: c0 post 0/0/0 1 fe add|
ok: c0 post 0/0/0 1 s bind1 0 0x00000001 0x100000000 8 rwa
1 extra: c0 post 0/0/0 1 s bind1 0 0x00000001 0x100000000 8 rwa 0|
1 missing: c0 post 0/0/0 1 s bind1|
ok: c0 post 0/0/0 1 s bind2 1 1 255 0x100000000 8 -
1 extra: c0 post 0/0/0 1 s bind2 1 1 255 0x100000000 8 - 0|
1 missing: c0 post 0/0/0 1 s bind2|
ok: c0 post 0/0/0 1 s fastreg 1 7 0 0x100000000 4096 lrwab 1,2,3
1 extra: c0 post 0/0/0 1 s fastreg 1 7 0 0x100000000 4096 lrwab 1,2,3 0|
1 missing: c0 post 0/0/0 1 s fastreg|
ok: c0 post 0/0/0 1 s inv 0x00000101
1 extra: c0 post 0/0/0 1 s inv 0x00000101 0|
1 missing: c0 post 0/0/0 1 s inv|
ok: c0 recv 0/0/0 9 1:2:3
1 extra: c0 recv 0/0/0 9 1:2:3 0|
1 missing: c0 recv|
ok: c0 srecv 0/0/0 9 -
1 extra: c0 srecv 0/0/0 9 - 0|
1 missing: c0 srecv|
1 extra: c0 poll 0/0/0 16 0|
1 missing: c0 poll|
1 extra: c0 wait 0/0/0 1 0|
1 missing: c0 wait|
ok: c0 store 0/0 0 aAfF
1 extra: c0 store 0/0 0 aAfF 0|
1 missing: c0 store|
ok: c0 load 0/0 0 4096
1 extra: c0 load 0/0 0 4096 0|
1 missing: c0 load|
ok: c63 inject 0/256 0a30
1 extra: c63 inject 0/256 0a30 0|
1 missing: c63 inject|
ok: c0 at 18446744073709551615
1 extra: c0 at 18446744073709551615 0|
1 missing: c0 at|
2 setup late: c5 pd 0/0|buffer 1 65536|adapters 2|
2 setup late: c5 pd 0/0|slots 1 2 2 2 2 2 2|adapters 2|
2 setup late: c5 pd 0/0|weather lose 1/256 0|adapters 2|
3 setup late: adapters 2|weather lose 1/256 0|weather seed 1|c0 pd 0/0|
2 setup late: weather seed 1|weather foo|
ok: || |
2 setup late: c5 pd 0/0|adapters 2|events 50|
2 setup late: c5 pd 0/0|adapters 2|weather foo|
2 setup late: c5 pd 0/0|adapters 2|slots 0x1 2|
2 setup late: c5 pd 0/0|adapters 2|buffer 2 1|
2 setup late: c5 pd 0/0|buffer 1 65536|events 50|
2 setup late: c5 pd 0/0|buffer 1 65536|weather foo|
2 setup late: c5 pd 0/0|buffer 1 65536|slots 0x1 2|
2 setup late: c5 pd 0/0|buffer 1 65536|buffer 2 1|
2 setup late: c5 pd 0/0|slots 1 2 2 2 2 2 2|events 50|
2 setup late: c5 pd 0/0|slots 1 2 2 2 2 2 2|weather foo|
2 setup late: c5 pd 0/0|slots 1 2 2 2 2 2 2|slots 0x1 2|
2 setup late: c5 pd 0/0|slots 1 2 2 2 2 2 2|buffer 2 1|
2 setup late: c5 pd 0/0|events 50|events 50|
2 setup late: c5 pd 0/0|events 50|weather foo|
2 setup late: c5 pd 0/0|events 50|slots 0x1 2|
2 setup late: c5 pd 0/0|events 50|buffer 2 1|
2 setup late: c5 pd 0/0|weather lose 1/256 0|events 50|
2 setup late: c5 pd 0/0|weather lose 1/256 0|weather foo|
2 setup late: c5 pd 0/0|weather lose 1/256 0|slots 0x1 2|
2 setup late: c5 pd 0/0|weather lose 1/256 0|buffer 2 1|
2 setup late: c5 pd 0/0|weather seed 1|events 50|
2 setup late: c5 pd 0/0|weather seed 1|weather foo|
2 setup late: c5 pd 0/0|weather seed 1|slots 0x1 2|
2 setup late: c5 pd 0/0|weather seed 1|buffer 2 1|
3 setup late: c5 pd 0/0|c0 pd 0/0|events 50|
3 setup late: c5 pd 0/0|c0 pd 0/0|weather foo|
3 setup late: c5 pd 0/0|c0 pd 0/0|slots 0x1 2|
3 setup late: c5 pd 0/0|c0 pd 0/0|buffer 2 1|
3 setup late: c5 pd 0/0|# only words|events 50|
3 setup late: c5 pd 0/0|# only words|weather foo|
3 setup late: c5 pd 0/0|# only words|slots 0x1 2|
3 setup late: c5 pd 0/0|# only words|buffer 2 1|
3 setup late: c5 pd 0/0||events 50|
3 setup late: c5 pd 0/0||weather foo|
3 setup late: c5 pd 0/0||slots 0x1 2|
3 setup late: c5 pd 0/0||buffer 2 1|
2 out of limit: buffer 0 8|slots 0 1 0 257 0 0 0|buffer 0 8|
";
