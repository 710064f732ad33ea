ghost use Rattle.std.specs.Prelude.{◌≡◌, ◌-◌, ◌+◌, ◌<◌, ◌^◌, List, ◌∷◌, IfSome, OnOk, length, slice_get, slice_index, slice_set};
ghost use Rattle.std.specs.Option.{option_copied};
ghost use Rattle.ca_engine.specs.declared.offer.Offer.{Offer};
ghost use Rattle.ca_engine.specs.declared.offer.Offer.TheVariants as offers;
ghost use Rattle.ca_script_order.specs.Order.{Stage, lines_of};
ghost use Rattle.ca_script_order.specs.Visits as visits;
ghost use Rattle.ca_script.specs.Script.{ScriptValue, script_value};
ghost use Rattle.ca_script_lines.specs.declared.what.Line.{Line};
ghost use Rattle.ca_script_lines.specs.declared.what.What.TheVariants as whats;
ghost use Rattle.ca_script_run.specs.Known.{IsOfferedAt, KeepsKnown};
ghost use Rattle.ca_script_run.specs.Progress.{IsAt, IsUnderWay, IsVisited, lines_behind};

use crate::events::make_known;
use crate::known::Known;
use crate::progress::Progress;
use crate::turns::{event_of, is_in_vain};
use ca_base::{Memory, Turn};
use ca_engine::Outcome;
use ca_model::{Event, Verb};
use ca_script::Script;
use ca_script_lines::{Line, What};
use std::alloc::Global;

/// Visits a queue pair's engine for a turn, which a round offers at this place: its event is made where one is due and
/// possible. Where it is seen to be in vain, that is noted.
pub(crate) fn visit_engine(
    alloc: Global,
    script: &Script,
    turn: Turn,
    place: Option<usize>,
    known: &mut Known,
    progress: &mut Progress,
) -> Result<Outcome, Memory>
    requires under_way { IsUnderWay progress.old }
    requires few { progress.old.row.count < 2 ^ 32 - 2 }
    ensures visited { (g : Stage) → IsAt (script_value script.now) g progress.old
        → IsVisited (script_value script.now) (visits.Engine turn) g progress.new result }
    ensures known { OnOk result ((round : List Offer) → IsOfferedAt round place (offers.Turn turn)
        → KeepsKnown round progress.old.row progress.new.row known.old known.new) }
{
    if is_in_vain(&progress.row, turn) {
        known.note(place, turn);
        return Ok(Outcome::NotReady(u64::from(progress.row.count)));
    }
    match event_of(&progress.row, &script.weather, turn) {
        Some(event) => make_known(alloc, event, known, progress),
        None => {
            known.note(place, turn);
            Ok(Outcome::NotReady(u64::from(progress.row.count)))
        }
    }
}

/// Visits a consumer: it calls its next verb where that is possible, or passes the clock for which it waits.
pub(crate) fn visit_consumer(
    alloc: Global,
    script: &Script,
    consumer: u32,
    known: &mut Known,
    progress: &mut Progress,
) -> Result<Outcome, Memory>
    requires under_way { IsUnderWay progress.old }
    requires few { progress.old.row.count < 2 ^ 32 - 2 }
    ensures visited { (g : Stage) → IsAt (script_value script.now) g progress.old
        → IsVisited (script_value script.now) (visits.Consumer consumer) g progress.new result }
    ensures known { OnOk result ((round : List Offer)
        → KeepsKnown round progress.old.row progress.new.row known.old known.new) }
{
    let Some(line) = next_line(script, progress.done.as_slice(), consumer) else {
        return Ok(Outcome::Ended);
    };
    match &line.what {
        What::Verb(verb) => call(alloc, consumer, verb, known, progress),
        What::At(clock) => Ok(wait(consumer, *clock, progress)),
    }
}

/// The line before which a consumer stands. None comes where it is at its end.
fn next_line<'a>(script: &'a Script, done: &[usize], consumer: u32) -> Option<&'a Line>
    ensures line { option_copied result
        ≡ slice_get (lines_of consumer (lines_behind script.now.consumers done.now)) 0 }
    ensures there { IfSome result (λ _. consumer < length done.now) }
    ensures few { IfSome result (λ _. slice_index done.now consumer < 2 ^ 64 - 1) }
{
    let lines = script.consumers.as_slice().get(consumer as usize)?;
    let passed = done.get(consumer as usize)?;
    line_at(lines.as_slice(), *passed)
}

/// The line at a place.
fn line_at(lines: &[Line], place: usize) -> Option<&Line>
    ensures line { option_copied result ≡ slice_get lines.now place }
    ensures few { IfSome result (λ _. place < 2 ^ 64 - 1) }
{
    lines.get(place)
}

/// A consumer calls its next verb, where that is possible.
fn call(
    alloc: Global,
    consumer: u32,
    verb: &Verb,
    known: &mut Known,
    progress: &mut Progress,
) -> Result<Outcome, Memory>
    requires under_way { IsUnderWay progress.old }
    requires few { progress.old.row.count < 2 ^ 32 - 2 }
    requires there { consumer < length progress.old.done.items }
    requires passed { slice_index progress.old.done.items consumer < 2 ^ 64 - 1 }
    ensures visited { (s : ScriptValue) (g : Stage) (line : Line) (rest : List Line) → IsAt s g progress.old
        → lines_of consumer g.left ≡ line ∷ rest → line.what ≡ whats.Verb verb.now
        → IsVisited s (visits.Consumer consumer) g progress.new result }
    ensures known { OnOk result ((round : List Offer)
        → KeepsKnown round progress.old.row progress.new.row known.old known.new) }
{
    let event = Event::Verb {
        by: consumer,
        verb: verb.clone()?,
    };
    match make_known(alloc, event, known, progress)? {
        Outcome::Did => {
            pass_line(consumer, &mut progress.done);
            Ok(Outcome::Did)
        }
        outcome => Ok(outcome),
    }
}

/// A consumer passes the clock for which it waits, where that has come.
fn wait(consumer: u32, clock: u64, progress: &mut Progress) -> Outcome
    requires there { consumer < length progress.old.done.items }
    requires passed { slice_index progress.old.done.items consumer < 2 ^ 64 - 1 }
    ensures visited { (s : ScriptValue) (g : Stage) (line : Line) (rest : List Line) → IsAt s g progress.old
        → lines_of consumer g.left ≡ line ∷ rest → line.what ≡ whats.At clock
        → IsVisited s (visits.Consumer consumer) g progress.new (Ok result) }
    ensures row { progress.new.row ≡ progress.old.row }
{
    let now = u64::from(progress.row.count);
    if clock <= now {
        pass_line(consumer, &mut progress.done);
        Outcome::Did
    } else {
        Outcome::NotReady(now)
    }
}

/// Counts a line more as done by a consumer.
fn pass_line(consumer: u32, done: &mut Vec<usize>)
    requires there { consumer < length done.old.items }
    requires passed { slice_index done.old.items consumer < 2 ^ 64 - 1 }
    ensures { done.new.items ≡ slice_set done.old.items consumer (slice_index done.old.items consumer + 1) }
{
    done[consumer as usize] += 1;
}
