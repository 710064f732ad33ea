//! Laws of bounds: how much is still to be done of what was posted, queued and sent, and how long a history in calm
//! weather is. To the layers above it promises, as clauses of functions that do nothing:
//!
//! - Each row of a queue pair lowers a weight, that of what is left to send, to answer and to take, unless it lowers
//!   the requester's cursor. So do, of a sound world, a delivery of an envelope that had none, a turn of a responder,
//!   and a turn of a requester that sends a packet or performs a local operation. A verb that injects nothing raises it
//!   by four for each packet of the request that it posts at most, and not at all where it posts none.
//! - A history whose events all go forward has at most four turns for each packet posted, and no more entries than
//!   verbs and four for each of these.
//! - In calm weather the cursor of each end of a clean connection goes on. Where every connection is clean, each
//!   delivery is of an envelope that had none, and everything goes forward; so such a history has no more entries than
//!   verbs and four for each packet of the requests that were posted.
//! - Before the first event each envelope of a mailbox is a packet for its queue pair, and no requester waits for a
//!   wake. Each event that injects nothing, and sends only packets that are no RNR NAK, keeps this. So along such a
//!   history nobody is woken, and what arrives is a packet for its queue pair.
//!
//! They hold of the machine's definitions, and no code is in them.
//!
//! Source: this profile's choice; the standard says nothing of how many steps channel adapters take. Calm weather is
//! told by InfiniBand Architecture Specification Volume 1, the chapters on transport services (reliable connection: RNR
//! NAK) and on packets (P_Key, destination queue pair).
#![tactic(auto)]

mod laws;

pub use laws::{
    arrival_lowers_weight, calm_cursors_go_on, calm_runs_are_bounded, calm_runs_go_forward,
    calm_runs_lead_on, calm_world_stays_calm, delivery_lowers_weight, event_lowers_weight,
    histories_are_bounded, histories_stay_calm, nobody_is_woken, opening_mail_is_calm,
    opening_weighs_nothing, operation_lowers_weight, packet_row_lowers_weight,
    request_lowers_weight, respond_lowers_weight, respond_row_lowers_weight,
    turns_are_bounded_by_posts, verb_raises_weight_by_posts,
};
