//! Laws of endings: what the machine makes of histories. Its proofs go once through all ways in which an event can end,
//! for the laws on histories above. To the layers above it promises, as clauses of functions that do nothing, that the
//! marks of every event fit it: the first mark of a verb's event is its answer, no other mark is one, and a completion
//! is of the queue pair that its mark names; so every list of entries whose marks are the machine's is a history. And
//! that what the marks of a history tell of paths agrees with the world at each moment: incarnations, the peers that
//! were named, whom each mailbox accepts, how many envelopes were sent to it, and that those which it keeps are the
//! latest of them. So what can be delivered was sent, with the same bytes, and each packet that arrives in a history
//! was. They hold of the machine's definitions, and no code is in them.
//!
//! Source: this profile's choice; a history is what the relations on histories speak of.
#![tactic(auto)]

mod laws;

pub use laws::{
    deliverable_bytes_were_sent, event_keeps_paths_agreed, event_marks_fit,
    histories_agree_on_paths, machine_makes_histories, opening_agrees_on_paths,
    packets_arrive_as_sent, packets_have_their_indices,
};
