//! The fabric: adapters that threads share, and the passes of their callers.
//!
//! To the layers above it promises that each call that answers a receipt is one step of the machine after the entries
//! before it, in every schedule, and stands in its pass once; and that each other answer has its cause: a part that another
//! pass had taken, an event that was not possible after the entries that a look of the call counted, or a history that is
//! full. Where all passes are joined again, what is left is one history, which the machine runs.
//!
//! Source: this profile's choice. The standard leaves open how an adapter orders what its consumers do at once.
#![tactic(auto)]

mod acting;
mod close_error;
mod closing;
mod fabric;
mod joining;
mod marking;
mod pass;
mod passes;
mod placing;
mod start_error;
mod starting;
mod try_error;
mod trying;
mod turning;
mod verbs;
mod waiting;

pub use ca_base::Turn;
pub use close_error::CloseError;
pub use closing::Remains;
pub use fabric::Fabric;
pub use pass::{Pass, Receipt};
pub use start_error::StartError;
pub use try_error::TryError;
