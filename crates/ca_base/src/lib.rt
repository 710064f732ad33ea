//! The types that every part of the channel adapter speaks of, beside the names, keys, grants and asks of `ca_keys`,
//! which it hands out with its own: requests, completions, changes of queue pairs, refusals and configurations, with the
//! limits of this profile.
//!
//! To the layers above it promises that a configuration has as many parts as `part_count` says, that the answers that a
//! queue pair owes are seen as a list, and that a name prints itself.
//!
//! Source: InfiniBand Architecture Specification Volume 1, the chapter on the software transport interface and the
//! chapter on its verbs.
#![tactic(auto)]

mod answers;
mod change;
mod completion;
mod config;
mod correspondent;
mod denied_ask;
pub mod limits;
mod lot;
mod mail_envelope;
mod queue_numbers;
mod refusals;
mod region_view;
mod request;
mod reserve;
mod saved_result;
mod settings;
mod slots;
mod step;

pub use answers::Answers;
pub use ca_keys::{
    Address, Ask, AtomicOp, Bytes, Denial, DomainId, Grant, Items, Key, KeyUse, Kind, Memory,
    Pages, Perhaps, Place, QueueId, Rights, Run, Runs, Slot, Span, Verdict, first_address,
};
pub use change::{Change, Field, ModifyRefusal, State};
pub use completion::{Completion, Side, WcOp, WcStatus};
pub use config::{AdapterConfig, Config, part_count};
pub use correspondent::Correspondent;
pub use denied_ask::DeniedAsk;
pub use lot::Lot;
pub use mail_envelope::MailEnvelope;
pub use queue_numbers::{Message, Queued, RequesterNumbers, ResponderNumbers, WindowCount};
pub use refusals::{OpRefusal, RegionError, RegistrationError, WindowError};
pub use region_view::RegionView;
pub use request::{Piece, PlacedReceive, PostedSend, RecvRequest, SendOp, SendRequest};
pub use reserve::{Reservation, Reserve};
pub use saved_result::SavedResult;
pub use settings::{AdapterSettings, Settings};
pub use slots::{slot_of_key, slot_of_queue};
pub use step::{ActError, Reason, Sent, Turn};
