//! How a pass takes the parts of what is asked for, one after another, and gives them back.
//!
//! To the layers above it promises that what was taken is all that is needed for what is asked, that what is held shows it,
//! and that the clock was read while it was in hand; or why not all was taken. All that was taken goes back to its places.
//!
//! Source: this profile's choice.
#![tactic(auto)]

mod ask;
mod giving;
mod in_hand;
mod next;
mod take_error;
mod taking;

pub use ask::Ask;
pub use ca_adapter;
pub use giving::{give_all, put_back, unpack};
pub use in_hand::InHand;
pub use next::next_asked;
pub use take_error::TakeError;
pub use taking::{MAX_ASKED_PARTS, take_all};
