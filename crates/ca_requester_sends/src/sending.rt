ghost use Rattle.std.specs.Prelude.{◌≡◌, ◌+◌, ◌<◌, ◌≤◌, ◌^◌, List, ℕ, Bool, true, false, not, if◌then◌else◌, is_some, None, Some, [], drop, length, IfOk};
ghost use Rattle.ca_keys.specs.declared.access.Kind.{Kind};
ghost use Rattle.ca_base.specs.declared.limits.TheConstants.{MAX_PAYLOAD_BYTES, MAX_PIECES};
ghost use Rattle.ca_base.specs.declared.step.Reason.{Reason};
ghost use Rattle.ca_base.specs.Sight as sights;
ghost use Rattle.ca_qp_rows.specs.ca_grant.Reaching.{AreAtHand};
ghost use Rattle.ca_model.specs.declared.marks.TheConstants.{SPARE_MARKS};
ghost use Rattle.ca_model.specs.machine.Acknowledgements.{with_requester};
ghost use Rattle.ca_model.specs.machine.Invariants.{IsQueue};
ghost use Rattle.ca_model.specs.machine.Numbering as numbering;
ghost use Rattle.ca_model.specs.machine.Requester as requester;
ghost use Rattle.ca_model.specs.machine.Row.{ending_of};
ghost use Rattle.ca_wire.specs.Packet.{most_spelt};
ghost use Rattle.ca_qp_rows.specs.Asks.{AreAsksFor, CanJudge, bytes_read, touched_by};
ghost use Rattle.ca_qp_rows.specs.Made.{IsTurn};
ghost use Rattle.ca_requester_sends.specs.Packets.{IsPacket, IsSpelling, IsSpellingOrNone};
ghost use Rattle.ca_requester_sends.specs.Turn.{SendsFound, numbers_past, turn_row};

use crate::numbering::Numbered;
use crate::outcome::fail_oldest;
use crate::packet::{fill_packet_asks, spell};
use crate::turn::{Found, end_of_packet, sending_of};
use arrayvec::ArrayVec;
use ca_base::limits::MAX_PIECES;
use ca_base::{ActError, Ask, Memory, Reason, Sent, WcStatus};
use ca_model::{Marks, SPARE_MARKS};
use ca_qp_rows::ca_grant::Reach;
use ca_qp_rows::ca_qpstate::QueuePart;
use ca_qp_rows::{first_denied, join, local_denial, read_granted};

/// The asks that `next_packet` may make for the request that `next_turn` found, in order; it makes no other. It takes no
/// memory.
pub fn next_asks(q: &QueuePart, found: &Found) -> ArrayVec<Ask, MAX_PIECES>
    requires { SendsFound q.now found.now }
    ensures { (room : Bool) → result.items ≡ (turn_row q.now room).asks }
{
    let mut asks = ArrayVec::new();
    let next = sending_of(q, found);
    fill_packet_asks(q, &next.request, &mut asks);
    asks
}

/// Sends the next packet, of the request that `next_turn` found: spells it into `out`, where the peer has `room` for it, in
/// at most 4128 bytes, and in no more than 40, or 35 and those that its asks touch. After Ok there is room for two more
/// marks. Where it is not possible now, and where memory ends, nothing changes.
pub fn next_packet<R: Reach>(
    q: &mut QueuePart,
    found: &Found,
    reach: &mut R,
    room: bool,
    marks: &mut Marks,
    out: &mut Vec<u8>,
) -> Result<Sent, ActError>
    requires sends { SendsFound q.old found.now }
    requires at_hand { AreAtHand R.sight R.judges R.touches reach.old (turn_row q.old room).asks }
    ensures turn { IsTurn R.written result (ending_of (R.sight reach.old) (turn_row q.old room))
        q.old q.new marks.old marks.new reach.old reach.new out.old.items out.new.items }
    ensures size { length out.new.items
        ≤ length out.old.items + most_spelt (touched_by (turn_row q.old room).asks) }
{
    let mut asks = ArrayVec::new();
    let next = sending_of(q, found);
    fill_packet_asks(q, &next.request, &mut asks);
    let asks = asks.as_slice();
    if !room {
        return send_nothing(q, reach, room, asks, marks);
    }
    let (posting, end) = (next.request.place, end_of_packet(q, &next.request));
    let begins = next.begins;
    match read_and_spell(q, &next.request, reach, asks, marks, out)? {
        Reading::Denied => send_nothing(q, reach, room, asks, marks),
        Reading::Spelt => {
            go_past(q, end, begins);
            Ok(Sent::Spelt {
                request: Some(posting),
            })
        }
    }
}

/// A turn that sends no packet of its request, since its list is denied or the peer has no room. It stands apart, since
/// that is rare.
#[cold]
#[inline(never)]
fn send_nothing<R: Reach>(
    q: &mut QueuePart,
    reach: &R,
    room: bool,
    asks: &[Ask],
    marks: &mut Marks,
) -> Result<Sent, ActError>
    requires queue { IsQueue q.old }
    requires asks { CanJudge R.judges reach.now asks.now }
    requires nothing { room ≡ true → is_some (sights.first_denied (R.sight reach.now) asks.now) ≡ true }
    ensures { (n : numbering.Numbered) (out : List ℕ) → requester.packet_asks q.old n ≡ asks.now
        → requester.is_too_much q.old n ≡ false
        → IsTurn R.written result (ending_of (R.sight reach.now) (requester.packet_row q.old room n))
        q.old q.new marks.old marks.new reach.now reach.now out out }
{
    let Some(denied) = first_denied(reach, asks) else {
        return Err(ActError::NotReady(Reason::NoRoom));
    };
    if let Some(reason) = denied_refusal(q, room) {
        return Err(ActError::NotReady(reason));
    }
    let denial = local_denial(&denied);
    fail_oldest(q, WcStatus::LocalProtection, None, Some(denial), marks)?;
    Ok(Sent::Silent)
}

/// Why a denied list does not fail its request now: something is outstanding, or the peer has no room.
fn denied_refusal(q: &QueuePart, room: bool) -> Option<Reason>
    ensures { result ≡ (if requester.is_outstanding q.now then Some Reason.Outstanding else if not room then
        Some Reason.NoRoom else None) }
{
    if q.requester.una < q.requester.cursor {
        return Some(Reason::Outstanding);
    }
    if room { None } else { Some(Reason::NoRoom) }
}

/// The requester goes past a packet that ends below a PSN, and past its request, where it begins with the packet.
fn go_past(q: &mut QueuePart, end: u64, begins: bool)
    requires { begins ≡ true → q.old.requester.next + 1 < 2 ^ 64 }
    ensures { q.new ≡ with_requester (numbers_past end begins q.old.requester) q.old }
{
    q.requester.cursor = end;
    if begins {
        q.requester.next += 1;
    }
}

/// What came of reading the bytes of a packet: it is spelt, or its list is denied.
#[derive(Clone, Copy)]
pub(crate) enum Reading {
    Spelt,
    Denied,
}

/// Reads the bytes of a packet, spells it, and adds a mark for each piece that was read.
fn read_and_spell<R: Reach>(
    q: &QueuePart,
    n: &Numbered<'_>,
    reach: &mut R,
    asks: &[Ask],
    marks: &mut Marks,
    out: &mut Vec<u8>,
) -> Result<Reading, Memory>
    requires packet { IsPacket q.now n.now }
    requires at_hand { AreAtHand R.sight R.judges R.touches reach.old asks.now }
    requires asks { AreAsksFor Kind.Read MAX_PAYLOAD_BYTES asks.now }
    requires few { length asks.now ≤ MAX_PIECES }
    ensures spelt { IsSpellingOrNone
        (R.sight reach.old) q.now n.now asks.now result marks.old marks.new out.old.items out.new.items }
    ensures size { length out.new.items ≤ length out.old.items + most_spelt (touched_by asks.now) }
    ensures same { reach.new ≡ reach.old }
{
    marks.reserve(asks.len() as u32 + SPARE_MARKS)?;
    let count = marks.as_slice().len();
    match read_then_spell(q, n, reach, asks, marks, out) {
        Ok(Reading::Spelt) => Ok(Reading::Spelt),
        nothing => {
            marks.truncate(count);
            nothing
        }
    }
}

/// The same in the spare room. Where it is not spelt, some of the marks stand behind those that there were.
#[tactic(auto, using(crate::proofs::TurnLemmas::front_behind))]
fn read_then_spell<R: Reach>(
    q: &QueuePart,
    n: &Numbered<'_>,
    reach: &mut R,
    asks: &[Ask],
    marks: &mut Marks,
    out: &mut Vec<u8>,
) -> Result<Reading, Memory>
    requires packet { IsPacket q.now n.now }
    requires at_hand { AreAtHand R.sight R.judges R.touches reach.old asks.now }
    requires asks { AreAsksFor Kind.Read MAX_PAYLOAD_BYTES asks.now }
    requires spare { length asks.now + SPARE_MARKS ≤ marks.old.room }
    ensures spelt { IsSpelling
        (R.sight reach.old) q.now n.now asks.now result marks.old marks.new out.old.items out.new.items }
    ensures size { length out.new.items ≤ length out.old.items + most_spelt (touched_by asks.now) }
    ensures same { reach.new ≡ reach.old }
{
    let count = marks.as_slice().len();
    if !read_granted(q.alloc(), reach, asks, marks)? {
        return Ok(Reading::Denied);
    }
    let mut joined = Vec::new(q.alloc());
    let payload = payload_behind(marks, count, &mut joined)?;
    spell(q, n, payload, out)?;
    Ok(Reading::Spelt)
}

/// The bytes that the marks behind so many tell of.
fn payload_behind<'a>(
    marks: &'a Marks,
    count: usize,
    joined: &'a mut Vec<u8>,
) -> Result<&'a [u8], Memory>
    requires count { count ≤ length marks.now.marks }
    requires joined { joined.old.items ≡ [] }
    ensures { IfOk result (λ payload. payload.now ≡ bytes_read (drop count marks.now.marks)) }
{
    join(&marks.as_slice()[count..], joined)
}
