//! Turns that are not possible, with the first reason, as the queue pair comes from a vacant slot to Ready to Send.

/// One queue pair is made.
pub(super) const ONE_QUEUE_PAIR: &str = "\
@0 p0 c0 pd 0/0 -> ok\n\
@1 p0 c0 cq 0/0/0 2 -> ok\n\
@2 p0 c0 qp 0/0/0 0 0 1 1 - -> qp 256 1\n\
end 3\n\
";

/// It comes to Ready to Receive.
pub(super) const IT_RECEIVES: &str = "\
@0 p0 c0 init 0/0/0 -> ok\n\
@1 p0 c0 rtr 0/0/0 0/257 1 7 256 7 -> ok\n\
end 2\n\
";

/// It comes to Ready to Send.
pub(super) const IT_SENDS: &str = "\
@0 p0 c0 rts 0/0/0 5 7 7 1 -> ok\n\
end 1\n\
";

/// A queue pair with no peer comes to Error.
pub(super) const NO_PEER: &str = "\
@0 p0 c0 cq 0/0/1 2 -> ok\n\
@1 p0 c0 qp 0/0/1 1 1 1 1 - -> qp 257 1\n\
@2 p0 c0 init 0/0/1 -> ok\n\
@3 p0 c0 error 0/0/1 -> ok\n\
end 4\n\
";
