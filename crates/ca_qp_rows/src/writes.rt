ghost use Rattle.std.specs.Prelude.{◌≡◌, ◌≤◌, ◌∷◌, [], IfSome, OnErr, OnOk, length, take};
ghost use Rattle.ca_base.specs.Sight.{Invalidation};
ghost use Rattle.ca_grant.specs.Reaching.{IsFound, IsPacketAsk, sight_after_write};
ghost use Rattle.ca_qpstate.specs.ca_model.machine.Responses as responses;
ghost use Rattle.ca_qp_rows.specs.Asks.{CanWrite, IsFoundFirst, IsGranted, KeepsKeys, touched_by};
ghost use Rattle.ca_qp_rows.specs.Made.{AreAdded, written_all};

use crate::reads::local_mark;
use ca_base::{Ask, Bytes, Memory, Span, Verdict};
use ca_grant::Reach;
use ca_qpstate::ca_model::Marks;
use std::alloc::Global;

/// Asks to write, none of which is denied, and what was found of the first, where it was judged before.
#[derive(Clone, Copy)]
pub struct JudgedAsks<'a, 'f> {
    pub asks: &'a [Ask],
    pub found: Option<&'f Span>,
}

/// Adds the marks of accesses that write these bytes by these asks, each as many as it touches, in the spare room. Where
/// memory for their bytes ends, the marks are as they were.
#[inline(always)]
pub fn push_writes(
    alloc: Global,
    asks: &[Ask],
    bytes: &[u8],
    marks: &mut Marks,
) -> Result<(), Memory>
    requires enough { touched_by asks.now ≤ length bytes.now }
    requires room { length asks.now ≤ marks.old.room }
    ensures added { OnOk result (AreAdded (responses.local_writes (responses.writes_by asks.now bytes.now)) marks.old
        marks.new) }
    ensures same { OnErr result (marks.new.marks ≡ marks.old.marks) }
{
    let count = marks.as_slice().len();
    if let Err(memory) = push_front(alloc, asks, bytes, marks) {
        marks.truncate(count);
        return Err(memory);
    }
    Ok(())
}

/// The same, but that where memory ends some of them may be there. The first stands apart, since most lists are of one.
#[inline(always)]
fn push_front(alloc: Global, asks: &[Ask], bytes: &[u8], marks: &mut Marks) -> Result<(), Memory>
    requires enough { touched_by asks.now ≤ length bytes.now }
    requires room { length asks.now ≤ marks.old.room }
    ensures added { OnOk result (AreAdded (responses.local_writes (responses.writes_by asks.now bytes.now)) marks.old
        marks.new) }
    ensures begins { OnErr result (take (length marks.old.marks) marks.new.marks ≡ marks.old.marks) }
{
    let [ask, rest @ ..] = asks else {
        return Ok(());
    };
    let (front, behind) = bytes.split_at(ask.touch as usize);
    let copy = Bytes::copy_of(alloc, front)?;
    marks.push(local_mark(ask, Verdict::Wrote(copy)));
    if rest.is_empty() {
        return Ok(());
    }
    push_each(alloc, rest, behind, marks)
}

/// The same for the asks behind the first.
fn push_each(alloc: Global, asks: &[Ask], bytes: &[u8], marks: &mut Marks) -> Result<(), Memory>
    requires enough { touched_by asks.now ≤ length bytes.now }
    requires room { length asks.now ≤ marks.old.room }
    ensures added { OnOk result (AreAdded (responses.local_writes (responses.writes_by asks.now bytes.now)) marks.old
        marks.new) }
    ensures begins { OnErr result (take (length marks.old.marks) marks.new.marks ≡ marks.old.marks) }
{
    let [ask, rest @ ..] = asks else {
        return Ok(());
    };
    let (front, behind) = bytes.split_at(ask.touch as usize);
    let copy = Bytes::copy_of(alloc, front)?;
    marks.push(local_mark(ask, Verdict::Wrote(copy)));
    push_each(alloc, rest, behind, marks)
}

/// Writes these bytes by these asks, each as many as it touches. An ask that was judged before is not judged anew. It
/// takes no memory.
#[tactic(auto, using(crate::proofs::WriteLemmas::found_of_first))]
#[inline(always)]
pub fn write_judged<R: Reach>(reach: &mut R, judged: &JudgedAsks<'_, '_>, bytes: &[u8])
    requires enough { touched_by judged.now.asks.now ≤ length bytes.now }
    requires can { CanWrite R.sight R.judges R.touches reach.old
        (responses.writes_by judged.now.asks.now bytes.now) }
    requires found { IfSome judged.now.found (λ f. IsFoundFirst (R.sight reach.old) judged.now.asks.now f.now) }
    ensures wrote { reach.new ≡ written_all R.written reach.old
        (responses.writes_by judged.now.asks.now bytes.now) }
    ensures keys { KeepsKeys R.sight R.ends reach.old reach.new }
{
    let [ask, rest @ ..] = judged.asks else {
        return;
    };
    let (front, behind) = bytes.split_at(ask.touch as usize);
    write_one(reach, ask, judged.found, front);
    if !rest.is_empty() {
        write_each(reach, rest, behind);
    }
}

/// Writes these bytes by an ask, which is judged here where it was not judged before.
#[inline(always)]
fn write_one<R: Reach>(reach: &mut R, ask: &Ask, found: Option<&Span>, bytes: &[u8])
    requires can { CanWrite R.sight R.judges R.touches reach.old ((ask.now, bytes.now) ∷ []) }
    requires found { IfSome found (λ f. IsFound (R.sight reach.old) ask.now f.now) }
    ensures wrote { reach.new ≡ R.written reach.old ask.now bytes.now }
    ensures hand { (x : Ask) → R.judges reach.old x → R.judges reach.new x }
    ensures bytes_hand { (x : Ask) → R.touches reach.old x → R.touches reach.new x }
    ensures ends_hand { (i : Invalidation) → R.ends reach.old i → R.ends reach.new i }
    ensures sees { R.sight reach.new ≡ sight_after_write (R.sight reach.old) ask.now bytes.now }
{
    match found {
        Some(found) => reach.write_at(ask, found, bytes),
        None => {
            let found = find(reach, ask);
            reach.write_at(ask, &found, bytes);
        }
    }
}

/// Writes them, where none was judged before.
fn write_each<R: Reach>(reach: &mut R, asks: &[Ask], bytes: &[u8])
    requires enough { touched_by asks.now ≤ length bytes.now }
    requires can { CanWrite R.sight R.judges R.touches reach.old (responses.writes_by asks.now bytes.now) }
    ensures wrote { reach.new ≡ written_all R.written reach.old (responses.writes_by asks.now bytes.now) }
    ensures keys { KeepsKeys R.sight R.ends reach.old reach.new }
{
    let [ask, rest @ ..] = asks else {
        return;
    };
    let (front, behind) = bytes.split_at(ask.touch as usize);
    write_one(reach, ask, None, front);
    write_each(reach, rest, behind)
}

/// Where the bytes lie that an ask touches, which is not denied.
#[inline(never)]
fn find<R: Reach>(reach: &R, ask: &Ask) -> Span
    requires at_hand { R.judges reach.now ask.now }
    requires touch { IsPacketAsk ask.now }
    requires allowed { IsGranted (R.sight reach.now) ask.now }
    ensures { IsFound (R.sight reach.now) ask.now result }
{
    match reach.check(ask) {
        Ok(found) => found,
        Err(_) => unreachable!(),
    }
}
