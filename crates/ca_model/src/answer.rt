ghost use Rattle.std.specs.Prelude.{◌≡◌, Some};
ghost use Rattle.ca_model.specs.Answers.{refusal_text, refusal_of_change, refusal_of_region};

use crate::completions::Completions;
use ca_base::{Bytes, Field, Key, ModifyRefusal, RegionError, State};
use std::fmt;

/// What a verb answers.
#[derive(Clone, Drop)]
pub enum Answer {
    /// It was done, and there is nothing to tell.
    Fine,
    /// The key under which a region was registered.
    Key(Key),
    /// The number and the incarnation of a queue pair that was created.
    Queue {
        number: u32,
        incarnation: u32,
    },
    /// The request was posted; the key that a bind of a type 1 window will install.
    Posted(Option<Key>),
    /// The completions that were taken, in order.
    Polled(Completions),
    /// A queue pair's state and incarnation, and how many places its send queue and its receives occupy.
    Query {
        state: State,
        incarnation: u32,
        sends: u16,
        receives: u16,
    },
    /// The bytes that the host read.
    Loaded(Bytes),
    /// It was refused and changed nothing.
    Refused(Refusal),
}

/// Why a verb is refused.
#[derive(Clone, Copy)]
pub enum Refusal {
    /// A name is outside the configured slices, or the object that it names is not there.
    NoSuch,
    /// The protection domain is not allocated.
    NoDomain,
    DomainTaken,
    /// An object is in the protection domain.
    DomainInUse,
    SlotTaken,
    /// A region would have no bytes.
    Empty,
    /// A region, a store or a load would pass the end of its buffer.
    OutsideBuffer,
    /// Remote write or remote atomic is asked without local write.
    RightsNeedLocalWrite,
    /// A window is bound to the region or to the queue pair.
    WindowsBound,
    /// The completion queue has no room left for the reservation.
    CqTooSmall,
    /// A queue pair reserved room in the completion queue.
    CqInUse,
    /// A queue pair uses the shared receive queue.
    SrqInUse,
    /// The queue pair takes its receives from a shared receive queue.
    HasSrq,
    /// The list is longer than a message may be.
    TooLong,
    /// The queue pair's state does not allow it.
    QueueState,
    QueueFull,
    /// The change does not lead from the queue pair's state.
    Transition,
    /// A field is out of its range.
    OutOfRange(Field),
}

impl fmt::Display for Refusal {
    ghost output = { λ refusal. Some (refusal_text refusal) };

    fn fmt<W: fmt::Write>(&self, f: &mut fmt::Formatter<W>) -> fmt::Result {
        match self {
            Refusal::NoSuch => f.write_str("no-such"),
            Refusal::NoDomain => f.write_str("no-domain"),
            Refusal::DomainTaken => f.write_str("domain-taken"),
            Refusal::DomainInUse => f.write_str("domain-in-use"),
            Refusal::SlotTaken => f.write_str("slot-taken"),
            Refusal::Empty => f.write_str("empty"),
            Refusal::OutsideBuffer => f.write_str("outside-buffer"),
            Refusal::RightsNeedLocalWrite => f.write_str("rights-need-local-write"),
            Refusal::WindowsBound => f.write_str("windows-bound"),
            Refusal::CqTooSmall => f.write_str("cq-too-small"),
            Refusal::CqInUse => f.write_str("cq-in-use"),
            Refusal::SrqInUse => f.write_str("srq-in-use"),
            Refusal::HasSrq => f.write_str("has-srq"),
            Refusal::TooLong => f.write_str("too-long"),
            Refusal::QueueState => f.write_str("queue-state"),
            Refusal::QueueFull => f.write_str("queue-full"),
            Refusal::Transition => f.write_str("transition"),
            Refusal::OutOfRange(field) => write!(f, "out-of-range:{field}"),
        }
    }
}

impl From<ModifyRefusal> for Refusal {
    ghost from_gives = { λ refusal verb. verb ≡ refusal_of_change refusal };

    fn from(refusal: ModifyRefusal) -> Refusal {
        match refusal {
            ModifyRefusal::Transition => Refusal::Transition,
            ModifyRefusal::OutOfRange(field) => Refusal::OutOfRange(field),
            ModifyRefusal::WindowsBound => Refusal::WindowsBound,
        }
    }
}

impl From<RegionError> for Refusal {
    ghost from_gives = { λ error refusal. refusal ≡ refusal_of_region error };

    /// The refusal of RegMr or DeregMr for what a region answered; what only a fast registration or an invalidation
    /// answers is none, and comes as `NoSuch` here.
    fn from(error: RegionError) -> Refusal {
        match error {
            RegionError::Empty => Refusal::Empty,
            RegionError::OutsideBuffer => Refusal::OutsideBuffer,
            RegionError::RightsNeedLocalWrite => Refusal::RightsNeedLocalWrite,
            RegionError::WindowsBound => Refusal::WindowsBound,
            RegionError::NotFree
            | RegionError::BadPages
            | RegionError::NotValid
            | RegionError::KeyDiffers
            | RegionError::NotFastRegistered
            | RegionError::Vacant => Refusal::NoSuch,
        }
    }
}
