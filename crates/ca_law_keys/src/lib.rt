//! Laws of histories on memory and keys: every history that follows the machine over a limited configuration, with
//! events that can be made, is Judged and Licensed. To the layers above it promises, as clauses of functions that do
//! nothing:
//!
//! - The past that the marks leave agrees with the world, before the first event and after each. The bytes that they
//!   tell of are those of the world; in each key slot they have left in force the grant for which its window or its
//!   region stands, and no other, so that an ask meets in the world what is in force; the requests that occupy a send
//!   queue are those that were posted last to its queue pair in its present incarnation, each at its place and with the
//!   byte that it drew, and as many of its local operations were performed as stand before the request that begins
//!   next, unless the queue pair is in Error; each region has the low byte that its key slot took last, and each window
//!   drew last the byte that they tell of; and the key of a fast-registered region came into force by a fast
//!   registration, that of a bound window by a bind to the key of the region in which it is bound.
//! - Such a history is Judged: each access is denied exactly where the grants in force do not allow it, what is read is
//!   what memory held, what is written was allowed, an atomic acts on what it found as the packet that arrived says,
//!   and a Load gives what memory held.
//! - It is Licensed: each grant is what its event asked for, and comes into force where no other grant in force has its
//!   key slot; each key that ends was in force, is no key of a region with a bound window, and is ended by its event;
//!   each window lies in its region wherever a key comes into force or ends; each success has its effect in the event
//!   that tells of it; and a requester's turn that performs no local operation grants and ends nothing.
//!
//! They hold of the machine's definitions, and no code is in them.
//!
//! Source: InfiniBand Architecture Specification Volume 1, the chapter on the software transport interface, sections on
//! work requests and on memory regions and windows; a history is what the relations on histories speak of.
#![tactic(auto)]

mod laws;

pub use laws::{
    asks_meet_what_is_in_force, event_keeps_keys_agreed, event_keeps_posts_agreed,
    grants_are_as_asked, grants_stand_alone, histories_agree_on_keys, histories_agree_on_posts,
    histories_agree_on_ways, keys_end_as_asked, keys_end_in_force, machine_is_judged,
    machine_is_licensed, opening_agrees_on_keys, opening_agrees_on_posts,
    successes_have_their_effects, windows_lie_in_their_regions,
};
