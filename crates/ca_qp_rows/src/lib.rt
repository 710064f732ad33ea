//! What the rows of the requester's and of the responder's engine share: which packets they take, the asks of a list, what
//! is read and written by them, the completions that a queue pair makes, and what its packets carry.
//!
//! To the layers above it promises that bytes are dropped for the machine's first cause, or are the packet of its row, that
//! a list is cut to the asks that the machine's rows name, that all asks are judged before any byte is touched, that what
//! was read and written is exactly what the marks say, and that each completion is the machine's, in its order.
//!
//! Source: InfiniBand Architecture Specification Volume 1, the chapter on the software transport interface, sections on
//! work requests and completions, and the chapter on the transport layer.
#![tactic(auto)]

mod arrival;
mod asks;
mod completions;
mod flush;
mod list;
mod marks;
mod operations;
mod packets;
mod reads;
mod writes;

pub use arrival::{Arrival, arrival_of};
pub use asks::{first_denied, judge_all};
pub use ca_grant;
pub use ca_qpstate;
pub use completions::{
    Received, failure_mark, local_denial, push_success, receive_failure, receive_mark,
    send_completion,
};
pub use flush::{push_flushed, push_flushed_receives, push_flushed_sends};
pub use list::{Asker, fill_asks, list_asks, list_length};
pub use marks::{drop_packet, reserve_for};
pub use operations::{
    is_answered, is_atomic, is_local, is_read, list_of, operation_of, psns_of, segments,
};
pub use packets::{peer_number, psn_bits, spell_packet};
pub use reads::{join, read_granted};
pub use writes::{JudgedAsks, push_writes, write_judged};
