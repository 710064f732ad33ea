ghost use Rattle.std.specs.Prelude.{◌≡◌, is_none, slice_get};
ghost use Rattle.ca_isolation.specs.Groups.{group_of, is_closed, strays_by, strays_in, strays_of};
ghost use Rattle.std.specs.List.{flat_map};

use crate::group::has_queue;
use ca_base::{Change, DomainId, QueueId};
use ca_model::{Answer, Entry, History, Mark, Verb};

/// The first queue pair of the group that named a peer outside it, in an Rtr that succeeded. None comes exactly where
/// the group is closed in the history. It takes no memory.
pub fn closed(group: &[DomainId], h: &History) -> Option<QueueId>
    ensures first { result ≡ slice_get (strays_of (group_of group.now) h.now) 0 }
    ensures closed { is_none result ≡ is_closed (group_of group.now) h.now }
{
    first_of_entries(group, h.as_slice())
}

fn first_of_entries(group: &[DomainId], entries: &[Entry]) -> Option<QueueId>
    ensures { result ≡ slice_get (flat_map (strays_in (group_of group.now)) entries.now) 0 }
{
    for entry in entries {
        if let Some(queue) = stray_in(group, entry) {
            return Some(queue);
        }
    }
    None
}

#[tactic(auto, unfolding(crate::specs::Groups::strays_in))]
fn stray_in(group: &[DomainId], entry: &Entry) -> Option<QueueId>
    ensures { result ≡ slice_get (strays_in (group_of group.now) entry.now) 0 }
{
    first_stray(group, entry.marks.as_slice())
}

fn first_stray(group: &[DomainId], marks: &[Mark]) -> Option<QueueId>
    ensures { result ≡ slice_get (flat_map (strays_by (group_of group.now)) marks.now) 0 }
{
    for mark in marks {
        if let Some(queue) = stray_by(group, mark) {
            return Some(queue);
        }
    }
    None
}

fn stray_by(group: &[DomainId], mark: &Mark) -> Option<QueueId>
    ensures { result ≡ slice_get (strays_by (group_of group.now) mark.now) 0 }
{
    match mark {
        Mark::Verb {
            verb: Verb::ModifyQp {
                slot,
                change: Change::Rtr { peer, .. },
            },
            answer: Answer::Fine,
            ..
        } => {
            let own = QueueId::of_slot(*slot);
            if has_queue(group, own) && !has_queue(group, *peer) {
                Some(own)
            } else {
                None
            }
        }
        _ => None,
    }
}
