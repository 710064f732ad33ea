ghost use Rattle.std.specs.Prelude.{◌≡◌, ◌+◌, ◌≤◌, ◌++◌, [], length};
ghost use Rattle.ca_base.specs.declared.limits.TheConstants.{MAX_MESSAGE_BYTES, MAX_PAYLOAD_BYTES, MAX_PIECES};
ghost use Rattle.ca_qpstate.specs.ca_model.Requests as requests;
ghost use Rattle.ca_qpstate.specs.ca_model.machine.Numbering as numbering;
ghost use Rattle.ca_qp_rows.specs.Asks.{AreAsksFor};

use arrayvec::ArrayVec;
use ca_base::limits::MAX_PIECES;
use ca_base::{Ask, DomainId, Kind, Piece, QueueId};

/// Who asks for the bytes of a list, and for which kind of access.
#[derive(Clone, Copy)]
pub struct Asker {
    pub queue: QueueId,
    pub domain: DomainId,
    pub kind: Kind,
}

/// The bytes of a list, which are no more than a message may have.
#[tactic(auto, using(crate::proofs::ListLemmas::longer_list))]
pub fn list_length(list: &[Piece]) -> u32
    requires { requests.list_length list.now ≤ MAX_MESSAGE_BYTES }
    ensures { result ≡ requests.list_length list.now }
{
    match list {
        [] => 0,
        [piece, rest @ ..] => piece.length + list_length(rest),
    }
}

/// The asks of a queue pair for so many bytes of a list, without so many at its front, one a piece. An ask is for at most
/// a packet's bytes.
#[inline(always)]
pub fn list_asks(asker: Asker, skip: u32, count: u32, list: &[Piece]) -> ArrayVec<Ask, MAX_PIECES>
    requires few { length list.now ≤ MAX_PIECES }
    requires packet { count ≤ MAX_PAYLOAD_BYTES }
    ensures value { result.items ≡ numbering.list_asks asker.queue asker.domain asker.kind skip count list.now }
    ensures asks { AreAsksFor asker.kind count result.items }
{
    let mut asks = ArrayVec::new();
    fill_asks(asker, skip, count, list, &mut asks);
    asks
}

/// Puts these asks into a list of the caller's, which is empty.
#[tactic(auto, using(crate::proofs::ListLemmas::cut_touches, crate::proofs::ListLemmas::cut_are_asks))]
#[inline(always)]
pub fn fill_asks(
    asker: Asker,
    skip: u32,
    count: u32,
    list: &[Piece],
    asks: &mut ArrayVec<Ask, MAX_PIECES>,
)
    requires empty { asks.old.items ≡ [] }
    requires few { length list.now ≤ MAX_PIECES }
    requires packet { count ≤ MAX_PAYLOAD_BYTES }
    ensures value { asks.new.items ≡ numbering.list_asks asker.queue asker.domain asker.kind skip count list.now }
    ensures asks { AreAsksFor asker.kind count asks.new.items }
{
    push_asks(&asker, skip, count, list, asks);
}

/// Adds these asks to a list that has room for them.
fn push_asks(
    asker: &Asker,
    skip: u32,
    count: u32,
    list: &[Piece],
    asks: &mut ArrayVec<Ask, MAX_PIECES>,
)
    requires few { length asks.old.items + length list.now ≤ MAX_PIECES }
    ensures { asks.new.items
        ≡ asks.old.items ++ numbering.list_asks asker.now.queue asker.now.domain asker.now.kind skip count list.now }
{
    let [piece, rest @ ..] = list else {
        return;
    };
    if piece.length <= skip {
        let skip = skip - piece.length;
        return push_asks(asker, skip, count, rest, asks);
    }
    if count == 0 {
        return;
    }
    let part = count.min(piece.length - skip);
    asks.push(piece_ask(asker, piece, skip, part));
    push_asks(asker, 0, count - part, rest, asks)
}

/// The ask for a part of a piece, by its L_Key: so many bytes, without so many at its front. Addresses count modulo 2^64.
fn piece_ask(asker: &Asker, piece: &Piece, skip: u32, count: u32) -> Ask
    ensures { result ≡ numbering.piece_ask asker.now.queue asker.now.domain asker.now.kind
        (numbering.piece_part piece.now skip count) }
{
    Ask {
        queue: asker.queue,
        domain: asker.domain,
        key: piece.key,
        local: true,
        kind: asker.kind,
        address: piece.address.wrapping_add(u64::from(skip)),
        length: count,
        touch: count,
    }
}
