use super::lines_are;
use crate::{HERE, OTHER_SLOT, SLOT, THERE};
use ca_base::{DomainId, Memory, Slot};
use ca_model::{Answer, Entry, Event, History, Mark, Marks, Verb};
use ca_trace::print_history;
use std::alloc::Global;
use std::test::Fail;

/// A whole history.
const TEXT: &str = "@0 p0 c0 pd 0/0 -> ok
@1 p0 c1 pd 1/0 -> ok
@2 p0 c0 cq 0/0/0 8 -> ok
@3 p0 c1 cq 1/0/0 8 -> ok
end 4";

// A consumer allocates a protection domain, and it is done.
fn push_domain(
    alloc: Global,
    history: &mut History,
    by: u32,
    domain: DomainId,
) -> Result<(), Memory> {
    let mut marks = Marks::empty(alloc);
    marks.reserve(1)?;
    marks.push(Mark::Verb {
        by,
        verb: Verb::AllocPd { domain },
        answer: Answer::Fine,
    });
    let stamp = history.len() as u64;
    history.push(Entry {
        stamp,
        pass: 0,
        event: Event::Verb {
            by,
            verb: Verb::AllocPd { domain },
        },
        marks,
    })?;
    Ok(())
}

// A consumer creates a completion queue for eight completions, and it is done.
fn push_queue(alloc: Global, history: &mut History, by: u32, slot: Slot) -> Result<(), Memory> {
    let mut marks = Marks::empty(alloc);
    marks.reserve(1)?;
    marks.push(Mark::Verb {
        by,
        verb: Verb::CreateCq { slot, capacity: 8 },
        answer: Answer::Fine,
    });
    let stamp = history.len() as u64;
    history.push(Entry {
        stamp,
        pass: 0,
        event: Event::Verb {
            by,
            verb: Verb::CreateCq { slot, capacity: 8 },
        },
        marks,
    })?;
    Ok(())
}

// Each consumer allocates a protection domain and creates a completion queue.
fn push_calls(alloc: Global, history: &mut History) -> Result<(), Memory> {
    push_domain(alloc, history, 0, HERE)?;
    push_domain(alloc, history, 1, THERE)?;
    push_queue(alloc, history, 0, SLOT)?;
    push_queue(alloc, history, 1, OTHER_SLOT)
}

fn history_text(alloc: Global) -> Result<Vec<u8>, Memory> {
    let mut history = History::empty(alloc);
    push_calls(alloc, &mut history)?;
    let mut out = Vec::new(alloc);
    print_history(&history, &mut out)?;
    Ok(out)
}

#[test]
fn a_history_prints_whole(rt: HostRuntime) -> Result<(), Fail> {
    let text = history_text(rt.alloc())?;
    lines_are(&rt, text.as_slice(), TEXT);
    Ok(())
}
