ghost use Rattle.std.specs.Prelude.{◌≡◌, ◌<◌, [], false, true, IfSome, IfNone};
ghost use Rattle.ca_model.specs.machine.CanStep.{CanStep};
ghost use Rattle.ca_model.specs.machine.Numbering as numbering;
ghost use Rattle.ca_requester_sends.specs.Numbering.{BeginsFrom, GoesOnFrom, IsNext, IsNoNext, IsNoneFrom, IsNumbered, IsWithin, begun_from, numbers_from};

use ca_base::{PostedSend, SendOp, SendRequest};
use ca_qp_rows::ca_qpstate::QueuePart;
use ca_qp_rows::psns_of;
use std::marker::Model;

/// A posted request with its posting place and its PSNs: the first, and how many it has or would get.
#[derive(Drop)]
pub struct Numbered<'a> {
    pub place: u64,
    pub posted: &'a PostedSend,
    pub first: u64,
    pub count: u32,
}

impl<'a> Model for Numbered<'a> {
    ghost use Rattle.ca_model.specs.machine.Numbering.{Numbered};

    ghost Value = { Numbered };

    ghost use Rattle.ca_requester_sends.specs.Numbered.{numbered_seen};

    ghost view = { numbered_seen };
}

impl<'a> Numbered<'a> {
    ghost use Rattle.std.specs.Prelude.{◌≡◌, ◌+◌, ◌<◌, ◌^◌};
    ghost use Rattle.ca_model.specs.machine.Numbering as numbering;

    /// The request itself.
    pub fn request(&self) -> &'a SendRequest
        ensures { result.now ≡ self.now.request }
    {
        let posted = self.posted;
        &posted.request
    }

    /// What it asks for.
    pub fn op(&self) -> &SendOp
        ensures { result.now ≡ self.now.request.op }
    {
        let posted = self.posted;
        &posted.request.op
    }

    /// The byte that it drew, where it is a bind of a type 1 window.
    pub fn drawn(&self) -> Option<u8>
        ensures { result ≡ self.now.drawn }
    {
        let posted = self.posted;
        posted.drawn
    }

    /// The PSN behind its last.
    pub fn end(&self) -> u64
        requires { self.now.first + self.now.count < 2 ^ 63 }
        ensures { result ≡ numbering.psn_end self.now }
    {
        self.first + u64::from(self.count)
    }

    /// Whether a PSN is one of its own.
    pub fn has_psn(&self, psn: u64) -> bool
        ensures { result ≡ numbering.has_psn psn self.now }
    {
        self.first <= psn && psn - self.first < u64::from(self.count)
    }
}

/// The request of which the next thing is, and whether it begins with it.
#[derive(Drop)]
pub struct Next<'a> {
    pub request: Numbered<'a>,
    pub begins: bool,
}

/// The request at a posting place, which has or would get the PSNs from `first` on. None comes exactly where none is
/// posted there.
pub fn numbered_at(q: &QueuePart, posting: u64, first: u64) -> Option<Numbered<'_>>
    requires { IsWithin posting first q.now }
    ensures none { IfNone result (numbers_from posting first q.now ≡ []) }
    ensures some { IfSome result (λ n. IsNumbered posting first q.now n) }
{
    if posting >= q.sends.next_place() {
        return None;
    }
    match q.sends.get(posting) {
        None => None,
        Some(posted) => Some(Numbered {
            place: posting,
            posted,
            first,
            count: psns_of(q.responder.mtu, &posted.request.op),
        }),
    }
}

/// The request at a posting place, where it has begun. Of those behind it none has begun where it has not.
pub fn begun_at(q: &QueuePart, posting: u64, first: u64) -> Option<Numbered<'_>>
    requires { IsWithin posting first q.now }
    ensures none { IfNone result (begun_from posting first q.now ≡ []) }
    ensures some { IfSome result (λ n. IsNumbered posting first q.now n) }
    ensures begun { IfSome result (λ n. posting < q.now.requester.next) }
{
    if posting < q.requester.next {
        numbered_at(q, posting, first)
    } else {
        None
    }
}

/// The request of which the next thing is: one that goes on, or the one that begins with it. It takes no memory.
#[tactic(auto, using(crate::proofs::NumberingLemmas::start_within))]
#[inline(always)]
pub fn next_request(q: &QueuePart) -> Option<Next<'_>>
    requires { CanStep q.now }
    ensures none { IfNone result (IsNoNext q.now) }
    ensures some { IfSome result (λ next. IsNext q.now next) }
{
    next_from(q, q.requester.oldest, q.requester.oldest_psn)
}

/// The same among the requests from a posting place on, where none before it goes on or begins.
#[inline(always)]
fn next_from(q: &QueuePart, posting: u64, first: u64) -> Option<Next<'_>>
    requires { IsWithin posting first q.now }
    ensures none { IfNone result (IsNoneFrom posting first q.now) }
    ensures goes_on { IfSome result (λ next. next.begins ≡ false → GoesOnFrom posting first q.now next.request) }
    ensures begins { IfSome result (λ next. next.begins ≡ true → BeginsFrom posting first q.now next.request) }
{
    let mut posting = posting;
    let mut first = first;
    while let Some(request) = numbered_at(q, posting, first) {
        if posting >= q.requester.next {
            return Some(Next {
                request,
                begins: true,
            });
        }
        if request.has_psn(q.requester.cursor) {
            return Some(Next {
                request,
                begins: false,
            });
        }
        posting += 1;
        first += u64::from(request.count);
    }
    None
}
