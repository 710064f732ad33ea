/// The examples of docs/SCRIPTS.md, with a `~` between each two.
pub(crate) const GUIDE: &str = "# two adapters, each with a buffer
adapters 2
buffer 0 65536
buffer 1 0x10000
weather lose 1/256 0

c0 pd 0/0
c1 pd 1/0
~adapters 1
slots 0 1 2 2 2 1 2
events 100
weather seed 7
~buffer 0 4096
c0 pd 0/0
c0 cq 0/0/0 8
c0 reg 0/0/0 0 0 4096 lrwab
c0 qp 0/0/0 0 0 4 4 -
c0 init 0/0/0
c0 rtr 0/0/0 0/257 1 0 1024 12
c0 rts 0/0/0 0 7 7 16
c0 recv 0/0/0 1 0x1:0x100000000:64
c0 post 0/0/0 2 s write 0x100000800 0x1 0x1:0x100000000:64,0x1:0x100000100:8
c0 wait 0/0/0 1
c0 store 0/0 0 C0ffee
c0 load 0/0 0 3
c1 at 20
c1 post 0/0/0 3 sf cas 0x100000000 1 0 0xff 1:0x100000040:8
c1 poll 0/0/0 16
";
