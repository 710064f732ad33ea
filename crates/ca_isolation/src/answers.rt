ghost use Rattle.std.specs.Prelude.{◌≡◌, ◌++◌, [], ◌∷◌, filter, OnOk, IfOk};
ghost use Rattle.ca_isolation.specs.Groups.{group_of, is_reply, replies_of};

use crate::group::is_own;
use ca_base::{DomainId, Memory};
use ca_model::{History, Mark};
use std::alloc::Global;

/// What the group's consumers and peers see: of its events the answers of verbs with the completions of polls, and the
/// packets that are sent, lost, dropped or that arrive, in order. Those of Load are nobody's.
pub fn replies(alloc: Global, group: &[DomainId], h: &History) -> Result<Vec<Mark>, Memory>
    ensures { IfOk result (λ marks. marks.items ≡ replies_of (group_of group.now) h.now) }
{
    let mut replies = Vec::new(alloc);
    let entries = h.as_slice();
    for entry in entries {
        if is_own(group, &entry.event) {
            push_replies(entry.marks.as_slice(), &mut replies)?;
        }
    }
    Ok(replies)
}

fn push_replies(marks: &[Mark], out: &mut Vec<Mark>) -> Result<(), Memory>
    ensures { OnOk result (out.new.items ≡ out.old.items ++ filter is_reply marks.now) }
{
    for mark in marks {
        push_reply(mark, out)?;
    }
    Ok(())
}

fn push_reply(mark: &Mark, out: &mut Vec<Mark>) -> Result<(), Memory>
    ensures { OnOk result (out.new.items ≡ out.old.items ++ filter is_reply (mark.now ∷ [])) }
{
    match mark {
        Mark::Verb { by, verb, answer } => out.push(Mark::Verb {
            by: *by,
            verb: verb.clone()?,
            answer: answer.clone()?,
        })?,
        Mark::Sent {
            source,
            target,
            index,
            request,
            bytes,
        } => out.push(Mark::Sent {
            source: *source,
            target: *target,
            index: *index,
            request: *request,
            bytes: bytes.clone()?,
        })?,
        Mark::Lost { target, index } => out.push(Mark::Lost {
            target: *target,
            index: *index,
        })?,
        Mark::Arrived { target, index } => out.push(Mark::Arrived {
            target: *target,
            index: *index,
        })?,
        Mark::Dropped { target, cause } => out.push(Mark::Dropped {
            target: *target,
            cause: *cause,
        })?,
        _ => {}
    }
    Ok(())
}
