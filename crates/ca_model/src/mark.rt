ghost use Rattle.std.specs.Prelude.{Some};
ghost use Rattle.ca_model.specs.Answers.{drop_text};

use crate::answer::Answer;
use crate::verb::Verb;
use ca_base::{Bytes, Completion, DomainId, Grant, Key, Kind, OpRefusal, Place, QueueId, Verdict};
use ca_wire::WireError;
use std::fmt;

/// One thing that an event did.
#[derive(Drop)]
pub enum Mark {
    /// The verb was answered.
    Verb {
        by: u32,
        verb: Verb,
        answer: Answer,
    },
    /// A key came into force.
    Granted(Grant),
    /// The key is no longer in force at this adapter.
    Revoked {
        adapter: u8,
        key: Key,
    },
    /// A packet that arrived asked for `length` bytes from `address` on. The bytes of the verdict are those that this
    /// packet touched. `envelope` is the index of the packet, or None where it was injected.
    Remote {
        queue: QueueId,
        domain: DomainId,
        envelope: Option<u64>,
        key: Key,
        kind: Kind,
        address: u64,
        length: u32,
        verdict: Verdict,
    },
    /// A request's own list, or a receive's, was used by its L_Key: `length` bytes from `address` on.
    Local {
        queue: QueueId,
        domain: DomainId,
        key: Key,
        kind: Kind,
        address: u64,
        length: u32,
        verdict: Verdict,
    },
    /// The host wrote these bytes, from this place on.
    Stored {
        place: Place,
        bytes: Bytes,
    },
    /// A packet was sent. `index` counts the target's envelopes from 0, and is None where no path leads there;
    /// `request` is the posting place of the request that it is of, and None for a response.
    Sent {
        source: QueueId,
        target: QueueId,
        index: Option<u64>,
        request: Option<u64>,
        bytes: Bytes,
    },
    /// A packet that was sent is lost.
    Lost {
        target: QueueId,
        index: Option<u64>,
    },
    /// A packet arrived; `index` is None where it was injected.
    Arrived {
        target: QueueId,
        index: Option<u64>,
    },
    /// The packet that arrived was dropped.
    Dropped {
        target: QueueId,
        cause: Drop1,
    },
    /// A timer fired; `silent` where all was silent, and not only hastened.
    Timer {
        queue: QueueId,
        silent: bool,
    },
    /// A completion was put, with the refusal of the local operation that it is of.
    Done {
        queue: QueueId,
        completion: Completion,
        cause: Option<OpRefusal>,
    },
}

/// Why a packet that arrived was dropped.
#[derive(Clone, Copy)]
pub enum Drop1 {
    /// The bytes are no packet.
    Wire(WireError),
    /// Its partition key is not the default one.
    Partition,
    /// Its destination is another queue pair.
    Queue,
    /// The queue pair is not in a state to take it.
    State,
    /// It is a response that is not outstanding, or a request ahead of the expected one after a NAK.
    Stale,
    /// It is a duplicate that cannot be answered.
    Unsaved,
}

impl fmt::Display for Drop1 {
    ghost output = { λ cause. Some (drop_text cause) };

    fn fmt<W: fmt::Write>(&self, f: &mut fmt::Formatter<W>) -> fmt::Result {
        f.write_str(match self {
            Drop1::Wire(WireError::TooShort) => "wire:too-short",
            Drop1::Wire(WireError::Version) => "wire:version",
            Drop1::Wire(WireError::Opcode) => "wire:opcode",
            Drop1::Wire(WireError::Length) => "wire:length",
            Drop1::Wire(WireError::Pad) => "wire:pad",
            Drop1::Partition => "partition",
            Drop1::Queue => "queue",
            Drop1::State => "state",
            Drop1::Stale => "stale",
            Drop1::Unsaved => "unsaved",
        })
    }
}
