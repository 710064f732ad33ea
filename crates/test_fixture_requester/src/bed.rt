ghost use Rattle.std.specs.Prelude.{◌≡◌, ◌≤◌, ◌<◌, ◌^◌, suc, IsTrue, true};
ghost use Rattle.std.specs.List.{AllByRecursion};
ghost use Rattle.ca_base.specs.objects.WorkQueue.{next_place};
ghost use Rattle.ca_model.specs.Packets as packets;
ghost use Rattle.ca_model.specs.Requests as requests;
ghost use Rattle.ca_model.specs.machine.Invariants.{IsList, IsQueue};
ghost use Rattle.ca_requester.specs.ca_requester_sends.Turn.{PerformsFound};
ghost use Rattle.ca_model.specs.machine.CanStep.{AreNarrow, CanStep};
ghost use Rattle.test_fixture_reach.specs.SmallReach as small;
ghost use Rattle.test_fixture_requester.specs.Bed as beds;
ghost use Rattle.ca_wire.specs.Packet.{IsWellFormed};

use ca_base::limits::{MAX_MESSAGE_BYTES, MAX_PIECES};
use ca_base::{
    ActError, Ask, Change, Memory, OpRefusal, Piece, PostedSend, Reason, SendRequest, Sent,
    Settings,
};
use ca_model::Marks;
use ca_qp_rows::{Arrival, arrival_of, drop_packet, is_local, list_of};
use ca_qpstate::QueuePart;
use ca_requester::{
    Found, Turn, local_done, next_asks, next_local, next_packet, next_turn, on_response,
    on_rnr_wake, on_timeout, response_asks,
};
use ca_wire::Packet;
use test_fixture_reach::SmallReach;

/// A queue pair, and what it reaches.
#[derive(Drop)]
pub struct Bed {
    pub queue: QueuePart,
    pub reach: SmallReach,
}

/// The bound of the numbers that only events raise.
pub const FAR: u64 = 1 << 62;

/// Whether the numbers that only events raise lie far below the ends of their types.
pub fn is_narrow(q: &QueuePart) -> bool
    ensures { IsTrue result → AreNarrow q.now }
{
    let r = &q.requester;
    r.una < FAR
        && r.cursor < FAR
        && r.oldest_psn < FAR
        && r.rnrs < FAR
        && r.timers < FAR
        && q.responder.expected < FAR
}

/// Whether all asks are of the adapter of what is reached.
pub fn are_here(reach: &SmallReach, asks: &[Ask]) -> bool
    requires { small.FitTogether reach.now }
    ensures keys { IsTrue result → AllByRecursion (small.IsAskHere reach.now) asks.now }
    ensures bytes { IsTrue result → AllByRecursion (λ ask. Unit {0}) asks.now }
{
    let [ask, rest @ ..] = asks else {
        return true;
    };
    if ask.domain.adapter != reach.slot.domain.adapter {
        return false;
    }
    are_here(reach, rest)
}

/// Whether a list has few pieces, and no more bytes than a message may have.
pub fn is_short(list: &[Piece]) -> bool
    ensures { IsTrue result → IsList list.now }
{
    list.len() <= MAX_PIECES && holds(list, MAX_MESSAGE_BYTES)
}

// Whether a list has at most so many bytes.
fn holds(list: &[Piece], most: u32) -> bool
    ensures { IsTrue result → requests.list_length list.now ≤ most }
{
    let [piece, rest @ ..] = list else {
        return true;
    };
    if piece.length > most {
        return false;
    }
    holds(rest, most - piece.length)
}

// A timer fires.
fn fire(q: &mut QueuePart, silent: bool, hasten: bool, marks: &mut Marks) -> Result<(), ActError>
    requires { CanStep q.old }
    ensures { IsQueue q.new }
{
    on_timeout(q, silent, hasten, marks)
}

// The local operation that the turn performs is done.
fn finish(
    q: &mut QueuePart,
    found: &Found,
    cause: Option<OpRefusal>,
    marks: &mut Marks,
) -> Result<(), Memory>
    requires step { CanStep q.old }
    requires performs { PerformsFound q.old found.now }
    ensures { IsQueue q.new }
{
    marks.reserve(1)?;
    local_done(q, found, cause, marks)
}

// Posts a request that can be posted, unless the queue is full.
fn push(q: &mut QueuePart, request: SendRequest) -> Result<u64, PostedSend>
    requires queue { IsQueue q.old }
    requires list { IsList (requests.list_of request.op) }
    requires far { suc (next_place q.old.sends) < 2 ^ 64 }
    ensures { IsQueue q.new }
{
    let posted = PostedSend {
        request,
        drawn: None,
    };
    q.sends.post(posted)
}

// Posts a request.
fn post(q: &mut QueuePart, request: SendRequest) -> bool
    requires { IsQueue q.old }
    ensures { IsQueue q.new }
{
    if !is_short(list_of(&request.op)) || q.sends.next_place() >= FAR {
        return false;
    }
    push(q, request).is_ok()
}

impl Bed {
    /// The turn of the requester; None where it cannot be tried here.
    #[inline(never)]
    pub fn send(
        &mut self,
        room: bool,
        marks: &mut Marks,
        out: &mut Vec<u8>,
    ) -> Option<Result<Sent, ActError>>
        requires { beds.Stands self.old }
        ensures { beds.Stands self.new }
    {
        if !is_narrow(&self.queue) {
            return None;
        }
        let found = match next_turn(&self.queue) {
            Err(reason) => return Some(Err(ActError::NotReady(reason))),
            Ok(Turn::Performs(_)) => return Some(Err(ActError::NotReady(Reason::Empty))),
            Ok(Turn::Sends(found)) => found,
        };
        let asks = next_asks(&self.queue, &found);
        if !are_here(&self.reach, asks.as_slice()) {
            return None;
        }
        let (q, reach) = (&mut self.queue, &mut self.reach);
        Some(next_packet(q, &found, reach, room, marks, out))
    }

    /// Takes bytes that arrive, where they are a response or are dropped; None where that cannot be tried here.
    #[inline(never)]
    pub fn take(&mut self, bytes: &[u8], marks: &mut Marks) -> Option<Result<(), Memory>>
        requires { beds.Stands self.old }
        ensures { beds.Stands self.new }
    {
        match arrival_of(&self.queue, bytes) {
            Err(cause) => Some(drop_packet(&self.queue, cause, marks)),
            Ok(Arrival::Request(_, _)) => None,
            Ok(Arrival::Response(p)) => self.take_response(&p, marks),
        }
    }

    // Takes a response; None where that cannot be tried here.
    fn take_response(&mut self, p: &Packet<'_>, marks: &mut Marks) -> Option<Result<(), Memory>>
        requires stands { beds.Stands self.old }
        requires packet { IsWellFormed p.now }
        requires response { packets.is_response p.now.opcode ≡ true }
        ensures { beds.Stands self.new }
    {
        if !is_narrow(&self.queue) {
            return None;
        }
        let asks = response_asks(&self.queue, p);
        if !are_here(&self.reach, asks.as_slice()) {
            return None;
        }
        Some(on_response(&mut self.queue, &mut self.reach, p, marks))
    }

    /// A timer fires; None where that cannot be tried here.
    pub fn time_out(
        &mut self,
        silent: bool,
        hasten: bool,
        marks: &mut Marks,
    ) -> Option<Result<(), ActError>>
        requires { beds.Stands self.old }
        ensures { beds.Stands self.new }
    {
        if !is_narrow(&self.queue) {
            return None;
        }
        Some(fire(&mut self.queue, silent, hasten, marks))
    }

    /// A wake after an RNR NAK.
    pub fn wake(&mut self, peer_empty: bool) -> Result<(), Reason>
        requires { beds.Stands self.old }
        ensures { beds.Stands self.new }
    {
        on_rnr_wake(&mut self.queue, peer_empty)
    }

    /// Whether the turn performs a local operation; None where that cannot be tried here.
    pub fn performs(&self) -> Option<Result<bool, Reason>>
        requires { beds.Stands self.now }
    {
        if !is_narrow(&self.queue) {
            return None;
        }
        match next_turn(&self.queue) {
            Err(reason) => Some(Err(reason)),
            Ok(Turn::Sends(_)) => Some(Ok(false)),
            Ok(Turn::Performs(found)) => {
                let (request, _) = next_local(&self.queue, &found);
                Some(Ok(is_local(&request.op)))
            }
        }
    }

    /// Finishes the local operation that the turn performs; None where there is none, or where it cannot be tried here.
    pub fn perform(
        &mut self,
        cause: Option<OpRefusal>,
        marks: &mut Marks,
    ) -> Option<Result<(), Memory>>
        requires { beds.Stands self.old }
        ensures { beds.Stands self.new }
    {
        if !is_narrow(&self.queue) {
            return None;
        }
        match next_turn(&self.queue) {
            Ok(Turn::Performs(found)) => Some(finish(&mut self.queue, &found, cause, marks)),
            _ => None,
        }
    }

    /// Posts a request; false where it is none that can be posted.
    pub fn post(&mut self, request: SendRequest) -> bool
        requires { beds.Stands self.old }
        ensures { beds.Stands self.new }
    {
        post(&mut self.queue, request)
    }

    /// Changes the state; false where that is refused.
    pub fn change(&mut self, settings: &Settings, change: &Change) -> bool
        requires { beds.Stands self.old }
        ensures { beds.Stands self.new }
    {
        self.queue.incarnation < 1000 && self.queue.modify(settings, change).is_ok()
    }
}
