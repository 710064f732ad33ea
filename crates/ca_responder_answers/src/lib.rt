//! The answers of a responder: what is queued for a request, which answer is sent next, and what its packet carries.
//!
//! To the layers above it promises that what is queued, flushed and counted is what the machine's rows say; that a turn
//! ends as its row says, for all of the queue pair, the marks, the packet and what is reached; that a READ is judged
//! before any byte is touched; and that an answer for want of memory leaves all as it was.
//!
//! Source: InfiniBand Architecture Specification Volume 1, the chapter on the transport layer, sections on the
//! responder of the reliable connection.
#![tactic(auto)]

mod answer;
mod flush;
mod queueing;
mod read_left;
mod remote;
mod respond;

pub use ca_qp_rows;
pub use ca_qp_rows::ca_qpstate;
pub use flush::{FlushedReceives, next_posting, push_flush};
pub use queueing::{pass, queue_ack, queue_answer, queue_refusal, refuse, refuse_invalid};
pub use remote::{packet_ask, remote_mark};
pub use respond::{next_response, respond_ask};
