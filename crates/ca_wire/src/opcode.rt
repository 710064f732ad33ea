//! The opcodes of the reliable connection, by the standard's names, and of which operation each is.
ghost use Rattle.std.specs.Prelude.{◌≡◌, IfSome};
ghost use Rattle.ca_wire.specs.Shapes.{IsOperation, IsRequestShape};
ghost use Rattle.ca_wire.specs.Table as table;

use crate::shape::{Operation, Position, Shape};
use ca_base::Kind;

pub const SEND_FIRST: u8 = 0;

pub const SEND_MIDDLE: u8 = 1;

pub const SEND_LAST: u8 = 2;

pub const SEND_LAST_WITH_IMMEDIATE: u8 = 3;

pub const SEND_ONLY: u8 = 4;

pub const SEND_ONLY_WITH_IMMEDIATE: u8 = 5;

pub const RDMA_WRITE_FIRST: u8 = 6;

pub const RDMA_WRITE_MIDDLE: u8 = 7;

pub const RDMA_WRITE_LAST: u8 = 8;

pub const RDMA_WRITE_LAST_WITH_IMMEDIATE: u8 = 9;

pub const RDMA_WRITE_ONLY: u8 = 10;

pub const RDMA_WRITE_ONLY_WITH_IMMEDIATE: u8 = 11;

pub const RDMA_READ_REQUEST: u8 = 12;

pub const RDMA_READ_RESPONSE_FIRST: u8 = 13;

pub const RDMA_READ_RESPONSE_MIDDLE: u8 = 14;

pub const RDMA_READ_RESPONSE_LAST: u8 = 15;

pub const RDMA_READ_RESPONSE_ONLY: u8 = 16;

pub const ACKNOWLEDGE: u8 = 17;

pub const ATOMIC_ACKNOWLEDGE: u8 = 18;

pub const CMP_SWAP: u8 = 19;

pub const FETCH_ADD: u8 = 20;

pub const SEND_LAST_WITH_INVALIDATE: u8 = 22;

pub const SEND_ONLY_WITH_INVALIDATE: u8 = 23;

/// Of which operation a packet is, and where in its message it stands, by its opcode: one row for each, as the table of
/// opcodes has them. None comes for numbers that are no opcode.
#[inline(always)]
#[tactic(auto, unfolding(crate::specs::Table::row_of))]
pub fn operation_of(opcode: u8) -> Option<Operation>
    ensures value { result ≡ table.operation_of opcode }
    ensures operation { IfSome result IsOperation }
{
    match opcode {
        SEND_FIRST => Some(Operation::Request(Shape::Send(Position::First))),
        SEND_MIDDLE => Some(Operation::Request(Shape::Send(Position::Middle))),
        SEND_LAST => Some(Operation::Request(Shape::Send(Position::Last))),
        SEND_LAST_WITH_IMMEDIATE => Some(Operation::Request(Shape::Send(Position::Last))),
        SEND_ONLY => Some(Operation::Request(Shape::Send(Position::Only))),
        SEND_ONLY_WITH_IMMEDIATE => Some(Operation::Request(Shape::Send(Position::Only))),
        RDMA_WRITE_FIRST => Some(Operation::Request(Shape::Write(Position::First))),
        RDMA_WRITE_MIDDLE => Some(Operation::Request(Shape::Write(Position::Middle))),
        RDMA_WRITE_LAST => Some(Operation::Request(Shape::Write(Position::Last))),
        RDMA_WRITE_LAST_WITH_IMMEDIATE => Some(Operation::Request(Shape::Write(Position::Last))),
        RDMA_WRITE_ONLY => Some(Operation::Request(Shape::Write(Position::Only))),
        RDMA_WRITE_ONLY_WITH_IMMEDIATE => Some(Operation::Request(Shape::Write(Position::Only))),
        RDMA_READ_REQUEST => Some(Operation::Request(Shape::Read)),
        RDMA_READ_RESPONSE_FIRST => Some(Operation::ReadResponse(Position::First)),
        RDMA_READ_RESPONSE_MIDDLE => Some(Operation::ReadResponse(Position::Middle)),
        RDMA_READ_RESPONSE_LAST => Some(Operation::ReadResponse(Position::Last)),
        RDMA_READ_RESPONSE_ONLY => Some(Operation::ReadResponse(Position::Only)),
        ACKNOWLEDGE => Some(Operation::Acknowledge),
        ATOMIC_ACKNOWLEDGE => Some(Operation::AtomicAcknowledge),
        CMP_SWAP => Some(Operation::Request(Shape::Atomic(Kind::CmpSwap))),
        FETCH_ADD => Some(Operation::Request(Shape::Atomic(Kind::FetchAdd))),
        SEND_LAST_WITH_INVALIDATE => Some(Operation::Request(Shape::Send(Position::Last))),
        SEND_ONLY_WITH_INVALIDATE => Some(Operation::Request(Shape::Send(Position::Only))),
        _ => None,
    }
}

/// The shape of a request packet, by its opcode. None comes for the opcodes of responses, and for those that are none.
#[inline(always)]
pub fn shape_of(opcode: u8) -> Option<Shape>
    ensures value { result ≡ table.shape_of opcode }
    ensures request { IfSome result IsRequestShape }
{
    match operation_of(opcode) {
        Some(Operation::Request(shape)) => Some(shape),
        _ => None,
    }
}
