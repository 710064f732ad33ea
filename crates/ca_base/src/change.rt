ghost use Rattle.std.specs.Prelude.{Some};
ghost use Rattle.ca_base.specs.Spelling.{state_text, field_text};

use ca_keys::QueueId;
use std::fmt;

/// The state of a queue pair (the standard's queue pair states, without the SQ Error state).
#[derive(Clone, Copy)]
pub enum State {
    Reset,
    Init,
    /// Ready to Receive.
    Rtr,
    /// Ready to Send.
    Rts,
    /// Send Queue Drain: no new request is begun.
    Sqd,
    Error,
}

impl fmt::Display for State {
    ghost output = { λ state. Some (state_text state) };

    fn fmt<W: fmt::Write>(&self, f: &mut fmt::Formatter<W>) -> fmt::Result {
        f.write_str(match self {
            State::Reset => "reset",
            State::Init => "init",
            State::Rtr => "rtr",
            State::Rts => "rts",
            State::Sqd => "sqd",
            State::Error => "error",
        })
    }
}

/// A change of a queue pair's state (the standard's Modify Queue Pair).
#[derive(Clone, Copy)]
pub enum Change {
    /// To Reset: queues and numbers are emptied, and the incarnation rises.
    Reset,
    /// From Reset to Init.
    Init,
    /// From Init to Ready to Receive: names the peer and the peer's incarnation, the PSN that is expected first
    /// (24 bits), the path MTU in bytes and the timer code of RNR NAKs (5 bits).
    Rtr {
        peer: QueueId,
        incarnation: u32,
        psn: u32,
        mtu: u16,
        rnr_code: u8,
    },
    /// From Ready to Receive to Ready to Send: names the PSN that is sent first (24 bits), the retry count and the RNR
    /// retry count (3 bits; 7 is without end), and the bound of READs and atomics outstanding.
    Rts {
        psn: u32,
        retry: u8,
        rnr_retry: u8,
        reads: u8,
    },
    /// From Ready to Send to Send Queue Drain.
    Sqd,
    /// From Send Queue Drain to Ready to Send.
    Resume,
    /// To Error: all that is posted completes as Flushed.
    Error,
}

/// A field of a verb whose value is out of its range.
#[derive(Clone, Copy)]
pub enum Field {
    Peer,
    Incarnation,
    Psn,
    Mtu,
    RnrCode,
    Retry,
    RnrRetry,
    Reads,
    Depth,
    Capacity,
    Pages,
    Length,
    List,
    Kind,
}

impl fmt::Display for Field {
    ghost output = { λ field. Some (field_text field) };

    fn fmt<W: fmt::Write>(&self, f: &mut fmt::Formatter<W>) -> fmt::Result {
        f.write_str(match self {
            Field::Peer => "peer",
            Field::Incarnation => "incarnation",
            Field::Psn => "psn",
            Field::Mtu => "mtu",
            Field::RnrCode => "rnr-code",
            Field::Retry => "retry",
            Field::RnrRetry => "rnr-retry",
            Field::Reads => "reads",
            Field::Depth => "depth",
            Field::Capacity => "capacity",
            Field::Pages => "pages",
            Field::Length => "length",
            Field::List => "list",
            Field::Kind => "kind",
        })
    }
}

/// Why a change of a queue pair's state is refused, in the order in which the refusals are tried.
#[derive(Clone, Copy)]
pub enum ModifyRefusal {
    /// The change is not one that leads from the present state.
    Transition,
    /// A field is out of its range.
    OutOfRange(Field),
    /// A type 2 window is bound to the queue pair.
    WindowsBound,
}
