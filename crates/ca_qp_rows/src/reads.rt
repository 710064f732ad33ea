ghost use Rattle.std.specs.Prelude.{◌≡◌, ◌+◌, ◌≤◌, ◌<◌, [], ◌++◌, None, IfOk, OnOk, length};
ghost use Rattle.std.specs.List.{AllByRecursion};
ghost use Rattle.ca_base.specs.Sight.{denial_in};
ghost use Rattle.ca_keys.specs.declared.access.Kind.{Kind};
ghost use Rattle.ca_grant.specs.Reaching.{AreAtHand};
ghost use Rattle.ca_qp_rows.specs.Asks.{AreBytesAtHand, IsAskOf, bytes_read, mark_of, read_in};
ghost use Rattle.ca_qp_rows.specs.Reading.{IsReading, IsReadingOne};

use crate::asks::first_denied;
use ca_base::{Ask, Memory, Verdict};
use ca_grant::Reach;
use ca_qpstate::ca_model::{Mark, Marks};
use std::alloc::Global;

/// Reads what each of these asks touches, and adds a mark for each, in the spare room: true comes exactly where none of
/// them is denied. Where one is, and where memory ends, some of the marks stand behind those that there were. One ask
/// alone is judged as it is read.
#[tactic(auto, using(crate::proofs::ReadLemmas::one_touches, crate::proofs::ReadLemmas::front_whole))]
#[inline(always)]
pub fn read_granted<R: Reach>(
    alloc: Global,
    reach: &mut R,
    asks: &[Ask],
    marks: &mut Marks,
) -> Result<bool, Memory>
    requires at_hand { AreAtHand R.sight R.judges R.touches reach.old asks.now }
    requires reads { AllByRecursion (IsAskOf Kind.Read) asks.now }
    requires room { length asks.now ≤ marks.old.room }
    ensures read { IsReading (R.sight reach.old) asks.now result marks.old marks.new }
    ensures same { reach.new ≡ reach.old }
{
    if asks.len() > 1 && first_denied(reach, asks).is_some() {
        return Ok(false);
    }
    read_until_denied(alloc, reach, asks, marks)
}

/// The same, where each ask that is not denied has its bytes at hand, whatever becomes of the others.
#[tactic(auto, using(crate::proofs::ReadLemmas::front_still, crate::proofs::ReadLemmas::front_whole, crate::proofs::ReadLemmas::denied_first))]
#[inline(always)]
fn read_until_denied<R: Reach>(
    alloc: Global,
    reach: &mut R,
    asks: &[Ask],
    marks: &mut Marks,
) -> Result<bool, Memory>
    requires keys { AllByRecursion (R.judges reach.old) asks.now }
    requires bytes { AllByRecursion (AreBytesAtHand (R.sight reach.old) (R.touches reach.old)) asks.now }
    requires reads { AllByRecursion (IsAskOf Kind.Read) asks.now }
    requires room { length asks.now ≤ marks.old.room }
    ensures read { IsReading (R.sight reach.old) asks.now result marks.old marks.new }
    ensures same { reach.new ≡ reach.old }
{
    for ask in asks {
        if !read_piece(alloc, reach, ask, marks)? {
            return Ok(false);
        }
    }
    Ok(true)
}

/// The same for one ask.
#[inline(always)]
fn read_piece<R: Reach>(
    alloc: Global,
    reach: &mut R,
    ask: &Ask,
    marks: &mut Marks,
) -> Result<bool, Memory>
    requires keys { R.judges reach.old ask.now }
    requires bytes { denial_in (R.sight reach.old) ask.now ≡ None → R.touches reach.old ask.now }
    requires reads { IsAskOf Kind.Read ask.now }
    requires room { 0 < marks.old.room }
    ensures read { IsReadingOne (R.sight reach.old) ask.now result marks.old marks.new }
    ensures same { reach.new ≡ reach.old }
{
    let verdict = reach.read(alloc, ask)?;
    if matches!(&verdict, Verdict::Denied(_)) {
        return Ok(false);
    }
    marks.push(local_mark(ask, verdict));
    Ok(true)
}

/// The bytes that were read, as their marks have them, one after another: those of one access lie together already, and
/// those of several are joined in a list that is empty.
pub fn join<'a>(reads: &'a [Mark], joined: &'a mut Vec<u8>) -> Result<&'a [u8], Memory>
    requires { joined.old.items ≡ [] }
    ensures { IfOk result (λ payload. payload.now ≡ bytes_read reads.now) }
{
    match reads {
        [mark] => Ok(bytes_of_mark(mark)),
        _ => {
            append_all(reads, joined)?;
            Ok(joined.as_slice())
        }
    }
}

fn append_all(reads: &[Mark], joined: &mut Vec<u8>) -> Result<(), Memory>
    ensures { OnOk result (joined.new.items ≡ joined.old.items ++ bytes_read reads.now) }
{
    let [mark, rest @ ..] = reads else {
        return Ok(());
    };
    joined.extend_from_slice(bytes_of_mark(mark))?;
    append_all(rest, joined)
}

/// The bytes of a mark of what was read; of another there are none.
fn bytes_of_mark(mark: &Mark) -> &[u8]
    ensures { result.now ≡ read_in mark.now }
{
    match mark {
        Mark::Local {
            verdict: Verdict::Read(bytes),
            ..
        } => bytes.as_slice(),
        _ => &[],
    }
}

/// The mark of a use of an L_Key.
pub fn local_mark(ask: &Ask, verdict: Verdict) -> Mark
    ensures { result ≡ mark_of ask.now verdict }
{
    Mark::Local {
        queue: ask.queue,
        domain: ask.domain,
        key: ask.key,
        kind: ask.kind,
        address: ask.address,
        length: ask.length,
        verdict,
    }
}
