use crate::traces::{
    DRAWN, DRAWN_ALL, DRAWN_APART, DRAWN_PAIR, FOREIGN, FOREIGN_PAIR, OTHER, OTHER_PAIR,
};
use ca_base::{DomainId, Memory, QueueId};
use ca_isolation::{closed, replies};
use ca_model::History;
use ca_trace_output::print_replies;
use ca_trace_read::{TraceError, read};
use std::alloc::Global;
use std::process::Abort;
use std::test::Fail;

const fn domain(adapter: u8, domain: u8) -> DomainId {
    DomainId { adapter, domain }
}

const fn queue(adapter: u8, number: u32) -> QueueId {
    QueueId { adapter, number }
}

// The text of the replies to a group.
fn text_of(alloc: Global, history: &History, group: &[DomainId]) -> Result<Vec<u8>, Memory> {
    let replies = replies(alloc, group, history)?;
    let mut text = Vec::new(alloc);
    print_replies(replies.as_slice(), &mut text)?;
    Ok(text)
}

// The same of a trace, and none where the group is not closed there or the trace is none.
fn told(alloc: Global, trace: &str, group: &[DomainId]) -> Result<Vec<u8>, TraceError> {
    let history = read(alloc, trace.as_bytes())?;
    if closed(group, &history).is_some() {
        return Ok(Vec::new(alloc));
    }
    match text_of(alloc, &history, group) {
        Ok(text) => Ok(text),
        Err(_) => Err(TraceError::Memory),
    }
}

// The queue pair of a group that named a stranger first; one of no adapter where the trace is none.
fn stray(alloc: Global, trace: &str, group: &[DomainId]) -> Option<QueueId> {
    match read(alloc, trace.as_bytes()) {
        Ok(history) => closed(group, &history),
        Err(_) => Some(queue(255, 0)),
    }
}

fn is_told<R: Abort + AllocGlobal>(
    rt: &R,
    trace: &str,
    group: &[DomainId],
    replies: &str,
) -> Result<(), Fail> {
    let Ok(text) = told(rt.alloc(), trace, group) else {
        assert_eq!(rt; "no trace", replies);
        return Ok(());
    };
    assert_eq!(rt;
        str::from_utf8(text.as_slice()).unwrap_or("no text"),
        replies
    );
    Ok(())
}

#[test]
fn a_pair_on_two_adapters_gets_all_but_what_a_third_domain_gets(
    rt: HostRuntime,
) -> Result<(), Fail> {
    is_told(&rt, FOREIGN, &[domain(0, 0), domain(1, 0)], FOREIGN_PAIR)
}

#[test]
fn half_of_a_pair_is_not_closed(rt: HostRuntime) -> Result<(), Fail> {
    let alloc = rt.alloc();
    assert!(rt; stray(alloc, FOREIGN, &[domain(0, 0)]) == Some(queue(0, 256)));
    assert!(rt; stray(alloc, FOREIGN, &[domain(1, 0), domain(1, 1)]) == Some(queue(1, 256)));
    assert!(rt; stray(alloc, FOREIGN, &[domain(1, 1)]).is_none());
    Ok(())
}

#[test]
fn a_queue_pair_that_names_a_stranger_is_told_first(rt: HostRuntime) -> Result<(), Fail> {
    let alloc = rt.alloc();
    assert!(rt; stray(alloc, DRAWN, &[domain(0, 0)]) == Some(queue(0, 256)));
    assert!(rt; stray(alloc, DRAWN, &[domain(0, 1)]) == Some(queue(0, 512)));
    assert!(rt; stray(alloc, DRAWN, &[domain(0, 0), domain(1, 0)]) == Some(queue(0, 256)));
    assert!(rt; stray(alloc, DRAWN, &[domain(0, 1), domain(1, 0)]) == Some(queue(0, 512)));
    assert!(rt; stray(alloc, OTHER, &[domain(0, 0)]) == Some(queue(0, 256)));
    assert!(rt; stray(alloc, OTHER, &[domain(0, 1)]) == Some(queue(0, 513)));
    Ok(())
}

#[test]
fn groups_of_drawn_scripts_get_what_another_program_says(rt: HostRuntime) -> Result<(), Fail> {
    is_told(&rt, DRAWN, &[domain(1, 0)], DRAWN_APART)?;
    is_told(&rt, DRAWN, &[domain(0, 0), domain(0, 1)], DRAWN_PAIR)?;
    is_told(
        &rt,
        DRAWN,
        &[domain(0, 0), domain(0, 1), domain(1, 0)],
        DRAWN_ALL,
    )?;
    is_told(&rt, OTHER, &[domain(0, 1), domain(0, 0)], OTHER_PAIR)
}
