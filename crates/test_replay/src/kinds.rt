ghost use Rattle.ca_adapter_store.specs.Rows.{IsRow};

use ca_adapter_store::Row;
use ca_model::{Event, Marks, Verb};
use std::alloc::Global;

/// More events than this are not made on one row.
const MOST_EVENTS: u32 = 100_000_000;

/// How many events of each kind were begun. Each function of a kind counts its own, which also keeps the compiler from
/// making one function of them all.
#[derive(Clone, Copy, Default)]
pub(crate) struct Counts {
    pub(crate) posts: u64,
    pub(crate) receives: u64,
    pub(crate) polls: u64,
    pub(crate) requests: u64,
    pub(crate) deliveries: u64,
    pub(crate) responses: u64,
    pub(crate) answers: u64,
    pub(crate) others: u64,
}

/// Lets marks go.
#[inline(never)]
fn let_go(_marks: Marks) {}

/// Makes an event on the row, and lets its marks go. None comes where it is not possible, or no memory is left.
#[inline(always)]
fn make(alloc: Global, row: &mut Row, event: &Event) -> Option<()>
    requires { IsRow row.old }
    ensures { IsRow row.new }
{
    if row.count >= MOST_EVENTS {
        return None;
    }
    let_go(row.make(alloc, event).ok()?);
    Some(())
}

/// A request is posted.
#[inline(never)]
fn post(alloc: Global, row: &mut Row, event: &Event, counts: &mut Counts) -> Option<()>
    requires { IsRow row.old }
    ensures { IsRow row.new }
{
    counts.posts = counts.posts.wrapping_add(1);
    make(alloc, row, event)
}

/// A receive is posted.
#[inline(never)]
fn post_receive(alloc: Global, row: &mut Row, event: &Event, counts: &mut Counts) -> Option<()>
    requires { IsRow row.old }
    ensures { IsRow row.new }
{
    counts.receives = counts.receives.wrapping_add(1);
    make(alloc, row, event)
}

/// Completions are polled.
#[inline(never)]
fn poll(alloc: Global, row: &mut Row, event: &Event, counts: &mut Counts) -> Option<()>
    requires { IsRow row.old }
    ensures { IsRow row.new }
{
    counts.polls = counts.polls.wrapping_add(1);
    make(alloc, row, event)
}

/// A packet of a request is sent.
#[inline(never)]
fn request(alloc: Global, row: &mut Row, event: &Event, counts: &mut Counts) -> Option<()>
    requires { IsRow row.old }
    ensures { IsRow row.new }
{
    counts.requests = counts.requests.wrapping_add(1);
    make(alloc, row, event)
}

/// A packet arrives at another adapter than the first.
#[inline(never)]
fn deliver_request(alloc: Global, row: &mut Row, event: &Event, counts: &mut Counts) -> Option<()>
    requires { IsRow row.old }
    ensures { IsRow row.new }
{
    counts.deliveries = counts.deliveries.wrapping_add(1);
    make(alloc, row, event)
}

/// An answer is sent.
#[inline(never)]
fn respond(alloc: Global, row: &mut Row, event: &Event, counts: &mut Counts) -> Option<()>
    requires { IsRow row.old }
    ensures { IsRow row.new }
{
    counts.responses = counts.responses.wrapping_add(1);
    make(alloc, row, event)
}

/// A packet arrives at the first adapter.
#[inline(never)]
fn deliver_response(alloc: Global, row: &mut Row, event: &Event, counts: &mut Counts) -> Option<()>
    requires { IsRow row.old }
    ensures { IsRow row.new }
{
    counts.answers = counts.answers.wrapping_add(1);
    make(alloc, row, event)
}

/// Another event.
#[inline(never)]
fn other(alloc: Global, row: &mut Row, event: &Event, counts: &mut Counts) -> Option<()>
    requires { IsRow row.old }
    ensures { IsRow row.new }
{
    counts.others = counts.others.wrapping_add(1);
    make(alloc, row, event)
}

/// Makes an event by the function of its kind, so that each kind can be counted. What arrives at the first adapter is taken
/// for an answer: so those that send requests stand there, and their peers elsewhere.
pub(crate) fn make_by_kind(
    alloc: Global,
    row: &mut Row,
    event: &Event,
    counts: &mut Counts,
) -> Option<()>
    requires { IsRow row.old }
    ensures { IsRow row.new }
{
    match event {
        Event::Verb { verb, .. } => match verb {
            Verb::PostSend { .. } => post(alloc, row, event, counts),
            Verb::PostRecv { .. } => post_receive(alloc, row, event, counts),
            Verb::Poll { .. } => poll(alloc, row, event, counts),
            _ => other(alloc, row, event, counts),
        },
        Event::Request { .. } => request(alloc, row, event, counts),
        Event::Deliver { queue, .. } => {
            if queue.adapter == 0 {
                deliver_response(alloc, row, event, counts)
            } else {
                deliver_request(alloc, row, event, counts)
            }
        }
        Event::Respond { .. } => respond(alloc, row, event, counts),
        _ => other(alloc, row, event, counts),
    }
}
