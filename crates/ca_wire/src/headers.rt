ghost use Rattle.std.specs.Prelude.{◌<◌};
ghost use Rattle.ca_wire.specs.Decoding.{Returns, body_in};

use crate::aeth::{AETH_BYTES, Aeth};
use crate::atomic_eth::{ATOMIC_ETH_BYTES, AtomicEth};
use crate::numbers::{
    ATOMIC_ACK_ETH_BYTES, IETH_BYTES, IMM_DT_BYTES, u32_behind, u32_from, u64_behind,
};
use crate::opcode::*;
use crate::payload::{nothing_behind, payload_behind};
use crate::reth::{RETH_BYTES, Reth};
use crate::wire_error::WireError;

/// What follows the base transport header.
#[derive(Clone, Copy)]
pub struct Headers {
    pub reth: Option<Reth>,
    pub atomic: Option<AtomicEth>,
    pub aeth: Option<Aeth>,
    pub result: Option<u64>,
    pub imm: Option<u32>,
    pub ieth: Option<u32>,
}

const NO_HEADERS: Headers = Headers {
    reth: None,
    atomic: None,
    aeth: None,
    result: None,
    imm: None,
    ieth: None,
};

/// The table of opcodes: the headers of this opcode at the front of these bytes, and the payload behind them. The header
/// values are read last, so that none of them is kept over the tests of the payload.
#[inline(always)]
#[tactic(auto, unfolding(crate::specs::Decoding::body_in, crate::specs::Table::row_of))]
pub fn body_of(opcode: u8, pad: u8, bytes: &[u8]) -> Result<(Headers, &[u8]), WireError>
    requires { pad < 4 }
    ensures { Returns (λ x. (x.0, x.1.now)) result (body_in opcode pad bytes.now) }
{
    match opcode {
        SEND_FIRST
        | SEND_MIDDLE
        | SEND_LAST
        | SEND_ONLY
        | RDMA_WRITE_MIDDLE
        | RDMA_WRITE_LAST
        | RDMA_READ_RESPONSE_MIDDLE => {
            let payload = payload_behind(0, pad, bytes)?;
            Ok((NO_HEADERS, payload))
        }
        SEND_LAST_WITH_IMMEDIATE | SEND_ONLY_WITH_IMMEDIATE | RDMA_WRITE_LAST_WITH_IMMEDIATE => {
            let payload = payload_behind(IMM_DT_BYTES, pad, bytes)?;
            let imm = Some(u32_from(bytes));
            Ok((Headers { imm, ..NO_HEADERS }, payload))
        }
        SEND_LAST_WITH_INVALIDATE | SEND_ONLY_WITH_INVALIDATE => {
            let payload = payload_behind(IETH_BYTES, pad, bytes)?;
            let ieth = Some(u32_from(bytes));
            Ok((Headers { ieth, ..NO_HEADERS }, payload))
        }
        RDMA_WRITE_FIRST | RDMA_WRITE_ONLY => {
            let payload = payload_behind(RETH_BYTES, pad, bytes)?;
            let reth = Some(Reth::read(bytes));
            Ok((Headers { reth, ..NO_HEADERS }, payload))
        }
        RDMA_WRITE_ONLY_WITH_IMMEDIATE => {
            let payload = payload_behind(RETH_BYTES + IMM_DT_BYTES, pad, bytes)?;
            let reth = Some(Reth::read(bytes));
            let imm = Some(u32_behind(RETH_BYTES, bytes));
            Ok((
                Headers {
                    reth,
                    imm,
                    ..NO_HEADERS
                },
                payload,
            ))
        }
        RDMA_READ_REQUEST => {
            let payload = nothing_behind(RETH_BYTES, pad, bytes)?;
            let reth = Some(Reth::read(bytes));
            Ok((Headers { reth, ..NO_HEADERS }, payload))
        }
        RDMA_READ_RESPONSE_FIRST | RDMA_READ_RESPONSE_LAST | RDMA_READ_RESPONSE_ONLY => {
            let payload = payload_behind(AETH_BYTES, pad, bytes)?;
            let aeth = Some(Aeth::read(bytes));
            Ok((Headers { aeth, ..NO_HEADERS }, payload))
        }
        ACKNOWLEDGE => {
            let payload = nothing_behind(AETH_BYTES, pad, bytes)?;
            let aeth = Some(Aeth::read(bytes));
            Ok((Headers { aeth, ..NO_HEADERS }, payload))
        }
        ATOMIC_ACKNOWLEDGE => {
            let payload = nothing_behind(AETH_BYTES + ATOMIC_ACK_ETH_BYTES, pad, bytes)?;
            let aeth = Some(Aeth::read(bytes));
            let result = Some(u64_behind(AETH_BYTES, bytes));
            Ok((
                Headers {
                    aeth,
                    result,
                    ..NO_HEADERS
                },
                payload,
            ))
        }
        CMP_SWAP | FETCH_ADD => {
            let payload = nothing_behind(ATOMIC_ETH_BYTES, pad, bytes)?;
            let atomic = Some(AtomicEth::read(bytes));
            Ok((
                Headers {
                    atomic,
                    ..NO_HEADERS
                },
                payload,
            ))
        }
        _ => Err(WireError::Opcode),
    }
}
