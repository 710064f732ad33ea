ghost use Rattle.std.specs.Prelude.{◌≡◌, Some};
ghost use Rattle.ca_keys.specs.Spelling.{kind_text, denial_text};

use crate::key::Key;
use crate::names::{DomainId, QueueId};
use std::fmt;

/// What an access does to memory.
#[derive(Clone, Copy, Default)]
pub enum Kind {
    #[default]
    Read,
    Write,
    CmpSwap,
    FetchAdd,
}

impl fmt::Display for Kind {
    ghost output = { λ kind. Some (kind_text kind) };

    fn fmt<W: fmt::Write>(&self, f: &mut fmt::Formatter<W>) -> fmt::Result {
        f.write_str(match self {
            Kind::Read => "read",
            Kind::Write => "write",
            Kind::CmpSwap => "cas",
            Kind::FetchAdd => "add",
        })
    }
}

/// The first part of the key check that fails, in the order in which the parts are tried.
#[derive(Clone, Copy)]
pub enum Denial {
    /// No grant in force has this key in the queue pair's domain, or it may not be used as an L_Key.
    NoGrant,
    /// The grant names another queue pair.
    WrongQueue,
    /// The grant lacks the right.
    NoRight,
    /// Some address asked for is not the grant's.
    OutOfRange,
}

impl fmt::Display for Denial {
    ghost output = { λ denial. Some (denial_text denial) };

    fn fmt<W: fmt::Write>(&self, f: &mut fmt::Formatter<W>) -> fmt::Result {
        f.write_str(match self {
            Denial::NoGrant => "no-grant",
            Denial::WrongQueue => "wrong-queue",
            Denial::NoRight => "no-right",
            Denial::OutOfRange => "out-of-range",
        })
    }
}

/// What an atomic does to the eight bytes that it reaches, as a little-endian number: the new number is `swap` where
/// the number found equals `compare` and else the same, or the sum of the number found and `add` modulo 2^64.
#[derive(Clone, Copy)]
pub enum AtomicOp {
    CmpSwap { compare: u64, swap: u64 },
    FetchAdd { add: u64 },
}

/// Which of a region's or a window's two keys an access comes by.
#[derive(Clone, Copy)]
pub enum KeyUse {
    /// The L_Key: the queue pair's own host names its memory.
    LKey,
    /// The R_Key: a packet of the peer names memory here.
    RKey,
}

/// A question to the key check: may this queue pair, of this domain, use this key for `length` bytes from `address`
/// on? `local` says that the key is used as an L_Key; `touch` is how many of the bytes this packet touches.
#[derive(Clone, Copy, Default)]
pub struct Ask {
    pub queue: QueueId,
    pub domain: DomainId,
    pub key: Key,
    pub local: bool,
    pub kind: Kind,
    pub address: u64,
    pub length: u32,
    pub touch: u32,
}

impl Ask {
    ghost use Rattle.std.specs.Prelude.{◌≡◌};
    ghost use Rattle.ca_keys.specs.Allowed as allowed;

    /// Which key the access comes by.
    #[inline(always)]
    pub fn key_use(&self) -> KeyUse
        ensures { result ≡ allowed.key_use self.now.local }
    {
        if self.local {
            KeyUse::LKey
        } else {
            KeyUse::RKey
        }
    }
}
