//! Laws of scripts: what a text that means a script gives, and what the order of a script comes to. To the layers above
//! it promises, as clauses of functions that do nothing:
//!
//! - A script that a text means can be worked on one thread, and keeps to the limits. The bytes behind a front which is
//!   longer than a script may be make no difference.
//! - The order of a script that keeps to the limits is lawful: it is a history which is judged, licensed, ordered,
//!   carried and caused, whose atomics act once and whose WRITEs are written once, and in which closed groups of
//!   domains get what they would get alone. The bytes at its end are those that its marks have written.
//! - In a quiet world no posted request is left unfinished, but for those that wait by the rules; so it is at the end
//!   of a script's order, where its status is Fine or Stalled.
//! - Each history of a script in calm weather that nothing befalls, and in which every connection is clean, has at most
//!   four entries for each packet that the script's lines post, and one for each line. So the script's events are not
//!   spent, where there are more of them.
//! - The line of a verb in a trace, from its consumer on, is a line of a script that says this verb: the table of a
//!   trace's verbs and the table of a script's lines cannot drift apart.
//!
//! They hold of the definitions of scripts, of traces and of the machine, and no code is in them.
//!
//! Source: this profile's choice; scripts are no matter of the InfiniBand Architecture Specification, which says
//! nothing of when channel adapters come to rest.
#![tactic(auto)]

mod law;
mod laws;

pub use law::a_verb_of_a_trace_is_a_line_of_a_script;
pub use laws::{
    calm_orders_are_bounded, calm_scripts_are_bounded, histories_of_scripts_are_lawful,
    long_texts_are_refused_by_their_fronts, marks_tell_the_memory_of_orders, orders_are_lawful,
    orders_of_texts_are_lawful, quiet_queue_pairs_are_at_rest, scripts_come_to_rest,
    texts_mean_limited_scripts, texts_mean_workable_scripts,
};
