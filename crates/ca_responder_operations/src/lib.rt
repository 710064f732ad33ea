//! What a valid request does at its responder: a SEND, a WRITE, a READ or an atomic, with the receive that it takes.
//!
//! To the layers above it promises that each operation is taken as its row of the machine comes out, for all of the queue
//! pair, the marks and what is reached; that each access is judged before any byte is touched; that a key which a SEND
//! names ends only after its bytes are placed; and that an answer for want of memory leaves all as it was.
//!
//! Source: InfiniBand Architecture Specification Volume 1, the chapter on the transport layer, sections on the
//! responder of the reliable connection.
#![tactic(auto)]

mod receive;
mod remote_requests;
mod request;
mod send;
mod stand_in;
mod target;
mod write;

pub use ca_grant;
pub use ca_responder_answers;
pub use ca_responder_answers::{ca_qp_rows, ca_qpstate};
pub use receive::{exceeds_receive, find_receive, next_receive, receive_asks};
pub use remote_requests::{take_atomic, take_read};
pub use request::{Request, SharedReceive};
pub use send::take_send;
pub use target::{write_ask, write_reach};
pub use write::take_write;
