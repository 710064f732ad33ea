ghost use Rattle.std.specs.Prelude.{◌≡◌, Some};
ghost use Rattle.ca_base.specs.Spelling.{piece_text};

use crate::limits::MAX_PIECES;
use arrayvec::ArrayVec;
use ca_keys::{Address, Key, Pages, Rights};
use std::alloc::AllocError;
use std::fmt;

/// One part of a request's scatter or gather list: `length` bytes from `address` on, by an L_Key.
#[derive(Clone, Copy, Default, PartialEq, Eq)]
pub struct Piece {
    pub address: u64,
    pub key: Key,
    pub length: u32,
}

impl fmt::Display for Piece {
    ghost output = { λ piece. Some (piece_text piece) };

    fn fmt<W: fmt::Write>(&self, f: &mut fmt::Formatter<W>) -> fmt::Result {
        let key = self.key;
        let address = Address(self.address);
        let length = self.length;
        write!(f, "{key}:{address}:{length}")
    }
}

/// What a request of a send queue asks for: a message, an access to the peer's memory, or a local operation.
#[derive(Drop)]
pub enum SendOp {
    Send {
        list: ArrayVec<Piece, MAX_PIECES>,
    },
    /// SEND with Immediate.
    SendImm {
        imm: u32,
        list: ArrayVec<Piece, MAX_PIECES>,
    },
    /// SEND with Invalidate: the peer ends this R_Key.
    SendInv {
        key: Key,
        list: ArrayVec<Piece, MAX_PIECES>,
    },
    Write {
        address: u64,
        key: Key,
        list: ArrayVec<Piece, MAX_PIECES>,
    },
    /// RDMA WRITE with Immediate.
    WriteImm {
        address: u64,
        key: Key,
        imm: u32,
        list: ArrayVec<Piece, MAX_PIECES>,
    },
    Read {
        address: u64,
        key: Key,
        list: ArrayVec<Piece, MAX_PIECES>,
    },
    CmpSwap {
        address: u64,
        key: Key,
        compare: u64,
        swap: u64,
        list: ArrayVec<Piece, MAX_PIECES>,
    },
    FetchAdd {
        address: u64,
        key: Key,
        add: u64,
        list: ArrayVec<Piece, MAX_PIECES>,
    },
    /// Binds a type 1 window, by slot, to a part of the region that has this key; no bytes unbind it.
    Bind1 {
        window: u16,
        region: Key,
        address: u64,
        length: u32,
        rights: Rights,
    },
    /// Binds a type 2 window, by slot, under this low byte, for the queue pair that it is posted at.
    Bind2 {
        window: u16,
        region: Key,
        low: u8,
        address: u64,
        length: u32,
        rights: Rights,
    },
    /// Fast registration: registers `length` bytes from `address` on in a region, by slot, under this low byte, over
    /// pages of a buffer in this order.
    FastReg {
        region: u16,
        low: u8,
        buffer: u16,
        address: u64,
        length: u32,
        rights: Rights,
        pages: Pages,
    },
    /// Local Invalidate: ends this R_Key.
    LocalInv {
        key: Key,
    },
}

impl Clone for SendOp {
    ghost is_clone = { λ op copy. copy ≡ op };

    fn clone(&self) -> Result<SendOp, AllocError> {
        Ok(match self {
            SendOp::Send { list } => SendOp::Send {
                list: list.clone()?,
            },
            SendOp::SendImm { imm, list } => SendOp::SendImm {
                imm: *imm,
                list: list.clone()?,
            },
            SendOp::SendInv { key, list } => SendOp::SendInv {
                key: *key,
                list: list.clone()?,
            },
            SendOp::Write { address, key, list } => SendOp::Write {
                address: *address,
                key: *key,
                list: list.clone()?,
            },
            SendOp::WriteImm {
                address,
                key,
                imm,
                list,
            } => SendOp::WriteImm {
                address: *address,
                key: *key,
                imm: *imm,
                list: list.clone()?,
            },
            SendOp::Read { address, key, list } => SendOp::Read {
                address: *address,
                key: *key,
                list: list.clone()?,
            },
            SendOp::CmpSwap {
                address,
                key,
                compare,
                swap,
                list,
            } => SendOp::CmpSwap {
                address: *address,
                key: *key,
                compare: *compare,
                swap: *swap,
                list: list.clone()?,
            },
            SendOp::FetchAdd {
                address,
                key,
                add,
                list,
            } => SendOp::FetchAdd {
                address: *address,
                key: *key,
                add: *add,
                list: list.clone()?,
            },
            SendOp::Bind1 {
                window,
                region,
                address,
                length,
                rights,
            } => SendOp::Bind1 {
                window: *window,
                region: *region,
                address: *address,
                length: *length,
                rights: *rights,
            },
            SendOp::Bind2 {
                window,
                region,
                low,
                address,
                length,
                rights,
            } => SendOp::Bind2 {
                window: *window,
                region: *region,
                low: *low,
                address: *address,
                length: *length,
                rights: *rights,
            },
            SendOp::FastReg {
                region,
                low,
                buffer,
                address,
                length,
                rights,
                pages,
            } => SendOp::FastReg {
                region: *region,
                low: *low,
                buffer: *buffer,
                address: *address,
                length: *length,
                rights: *rights,
                pages: pages.clone()?,
            },
            SendOp::LocalInv { key } => SendOp::LocalInv { key: *key },
        })
    }
}

/// A request of a send queue. A `fence` waits for the READs and atomics before it; `solicited` asks the peer for a
/// solicited event.
#[derive(Clone, Drop)]
pub struct SendRequest {
    pub id: u64,
    pub signalled: bool,
    pub fence: bool,
    pub solicited: bool,
    pub op: SendOp,
}

/// A request of a receive queue: where the bytes of a SEND go, in order.
#[derive(Clone, Drop)]
pub struct RecvRequest {
    pub id: u64,
    pub list: ArrayVec<Piece, MAX_PIECES>,
}

/// A request of a send queue, and the low byte that it drew where it is a bind of a type 1 window.
#[derive(Drop)]
pub struct PostedSend {
    pub request: SendRequest,
    pub drawn: Option<u8>,
}

/// A receive with its posting place.
#[derive(Drop)]
pub struct PlacedReceive {
    pub place: u64,
    pub receive: RecvRequest,
}
