ghost use Rattle.std.specs.Prelude.{◌≡◌, ◌+◌, ◌<◌, ◌++◌, [], ◌∷◌, None, IfNone, IfOk, OnOk, OnErr, IsTrue, length};
ghost use Rattle.std.specs.List.{AllByRecursion};
ghost use Rattle.ca_base.specs.Sight.{denial_in};
ghost use Rattle.ca_keys.specs.Numbers.{is_window_key};
ghost use Rattle.ca_grant.specs.Reaching.{IsPacketAsk, AreAtHand, invalidation_by};
ghost use Rattle.test_fixture_reach.specs.Turn as turns;

use ca_base::{Ask, Denial, Key, Kind, Memory, OpRefusal, QueueId, Verdict, WindowCount};
use ca_grant::Reach;
use std::alloc::Global;

/// What came of a turn.
#[derive(Clone, Copy)]
pub enum Outcome {
    Denied(Denial),
    Refused(OpRefusal),
    Done,
}

fn first_denial<R: Reach>(reach: &R, asks: &[Ask]) -> Option<Denial>
    requires keys { AllByRecursion (R.judges reach.now) asks.now }
    requires touch { AllByRecursion IsPacketAsk asks.now }
    ensures first { result ≡ turns.first_denial_in (R.sight reach.now) asks.now }
    ensures allowed { IfNone result (AllByRecursion (turns.IsGranted (R.sight reach.now)) asks.now) }
{
    let [ask, rest @ ..] = asks else {
        return None;
    };
    match reach.check(ask) {
        Err(denial) => Some(denial),
        Ok(_) => first_denial(reach, rest),
    }
}

fn read_all<R: Reach>(
    alloc: Global,
    reach: &mut R,
    asks: &[Ask],
    payload: &mut Vec<u8>,
) -> Result<(), Memory>
    requires keys { AllByRecursion (R.judges reach.old) asks.now }
    requires bytes { AllByRecursion (R.touches reach.old) asks.now }
    requires reads { AllByRecursion turns.IsReadAsk asks.now }
    requires allowed { AllByRecursion (turns.IsGranted (R.sight reach.old)) asks.now }
    ensures bytes { OnOk result (payload.new.items
        ≡ payload.old.items ++ turns.all_bytes_in (R.sight reach.old) asks.now) }
    ensures count { OnOk result (length payload.new.items ≡ length payload.old.items + turns.touched_by asks.now) }
    ensures same { reach.new ≡ reach.old }
{
    let [ask, rest @ ..] = asks else {
        return Ok(());
    };
    match reach.read(alloc, ask)? {
        Verdict::Read(bytes) => payload.extend_from_slice(bytes.as_slice())?,
        _ => unreachable!(),
    }
    read_all(alloc, reach, rest, payload)
}

/// Judges all asks, reads those to read, writes what was read, and then ends a key. Where an ask is denied, nothing
/// changes.
pub fn turn<R: Reach>(
    alloc: Global,
    reach: &mut R,
    reads: &[Ask],
    write: &Ask,
    key: Key,
    queue: QueueId,
    windows: &mut WindowCount,
) -> Result<Outcome, Memory>
    requires reads_at_hand { AreAtHand R.sight R.judges R.touches reach.old reads.now }
    requires write_at_hand { AreAtHand R.sight R.judges R.touches reach.old (write.now ∷ []) }
    requires key_at_hand { R.ends reach.old (invalidation_by key queue) }
    requires reads { AllByRecursion turns.IsReadAsk reads.now }
    requires packet { AllByRecursion IsPacketAsk reads.now }
    requires write { IsPacketAsk write.now }
    requires kind { write.now.kind ≡ Kind.Write }
    requires count { turns.touched_by reads.now ≡ write.now.touch }
    requires counted { IsTrue (is_window_key key) → 0 < windows.old.count }
    ensures turn { IfOk result (λ outcome. turns.IsTurn R.revoked (invalidation_by key queue)
        (turns.first_some (turns.first_denial_in (R.sight reach.old) reads.now)
        (denial_in (R.sight reach.old) write.now))
        ((R.sight reach.old).refusal (invalidation_by key queue))
        (record { reach = reach.old; windows = windows.old })
        (R.written reach.old write.now (turns.all_bytes_in (R.sight reach.old) reads.now))
        outcome
        (record { reach = reach.new; windows = windows.new })) }
    ensures err { OnErr result (reach.new ≡ reach.old) }
    ensures err_windows { OnErr result (windows.new ≡ windows.old) }
{
    if let Some(denial) = first_denial(reach, reads) {
        return Ok(Outcome::Denied(denial));
    }
    let found = match reach.check(write) {
        Ok(found) => found,
        Err(denial) => return Ok(Outcome::Denied(denial)),
    };
    let mut payload = Vec::new(alloc);
    read_all(alloc, reach, reads, &mut payload)?;
    reach.write_at(write, &found, payload.as_slice());
    Ok(match reach.invalidate(key, queue, windows) {
        Err(refusal) => Outcome::Refused(refusal),
        Ok(()) => Outcome::Done,
    })
}
