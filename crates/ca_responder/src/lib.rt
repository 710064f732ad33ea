//! The responder of a queue pair: what it makes of a request that arrives, in the order of its steps; its calls on answers
//! are those of `ca_responder_answers`.
//!
//! To the layers above it promises that a request and a turn end as the machine's rows say, for all of the queue pair,
//! the marks, the packet, what is reached and the shared receive queue; that the asks and the key named before are those
//! that the request makes and ends; that each access is judged before any byte is touched; and that an answer for want of
//! memory leaves all as it was.
//!
//! Source: InfiniBand Architecture Specification Volume 1, the chapter on the transport layer, sections on the
//! responder of the reliable connection.
#![tactic(auto)]

mod asks;
mod checks;
mod duplicates;
mod request;

pub use asks::{request_asks, request_key};
pub use ca_responder_operations::ca_responder_answers::{next_response, respond_ask};
pub use ca_responder_operations::{ca_qp_rows, ca_responder_answers};
pub use request::on_request;
