//! Packets of the reliable connection: their headers, the one table of their opcodes, the reading of bytes into a
//! packet, and the one canonical spelling of a packet. To the layers above it promises that `decode` gives a packet
//! exactly where the bytes spell it, that each refusal comes exactly where the first of its ordered tests fails, and
//! that what `encode` wrote is read again. And what engines say in packets: the packets that requests and answers are
//! sent as, the segments that a message is cut into, and the syndromes of acknowledgements. Of these it promises that
//! each packet has the fields that its kind asks for, that a segment lies where its message does, and that a syndrome
//! that is sent is received as what it says.
//!
//! Source: InfiniBand Architecture Specification Volume 1, the chapters on the transport layer's packet formats and
//! transport services.
#![tactic(auto)]

mod aeth;
mod atomic_eth;
mod bth;
mod decoding;
mod encoding;
mod headers;
mod laws;
mod numbers;
pub mod opcode;
mod packet;
mod payload;
mod requests;
mod responses;
mod reth;
mod segment;
mod shape;
mod syndrome;
mod wire_error;
mod writing;

pub use aeth::Aeth;
pub use atomic_eth::AtomicEth;
pub use bth::{Bth, read_bth};
pub use decoding::decode;
pub use encoding::encode;
pub use laws::{one_packet, operations, reading, round_trip, spelling_length, syndromes};
pub use opcode::{operation_of, shape_of};
pub use packet::{DEFAULT_PKEY, MAX_PACKET_BYTES, Packet};
pub use requests::{SendKind, cmp_swap, fetch_add, read_request, send_packet, write_packet};
pub use responses::{
    acknowledge, acknowledgement, atomic_acknowledge, nak, read_response, rnr_nak,
};
pub use reth::Reth;
pub use segment::Segment;
pub use shape::{Operation, Position, Shape};
pub use syndrome::{NakCode, Syndrome, UNLIMITED_CREDITS};
pub use wire_error::WireError;
