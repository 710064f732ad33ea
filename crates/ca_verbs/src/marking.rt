ghost use Rattle.std.specs.Prelude.{◌≡◌, ℕ, List};
ghost use Rattle.ca_verbs_machine.specs.declared.asked.Told as told;
ghost use Rattle.ca_parts.specs.Calls.{MayStamp, Sees};
ghost use Rattle.ca_parts.specs.Rows.{IsPassOf, settings_of, view_of};
ghost use Rattle.ca_parts.specs.Views.{with_entry};
ghost use Rattle.ca_verbs_taking.specs.Asking.{asked_of};
ghost use Rattle.ca_verbs_taking.specs.Holding.{hand_of};
ghost use Rattle.ca_verbs.specs.Tried.{told_of};

use ca_model::{Event, Marks};
use ca_parts::{Machine, PartPass, Parts};
use ca_verbs_machine::Told;
use ca_verbs_taking::{Ask, InHand};

/// Stamps the entry that is the `ghost` of this call, after which the parts in hand stand for the values that are part of it.
/// It stands over every machine with such entries: what a call knows only by its `ghost` cannot be told of parts that have
/// memory of their own.
fn stamp_one<T: Machine<Entry = Told>>(
    parts: &Parts<T>,
    pass: &mut PartPass<T>,
    _ask: Ask<'_>,
    _event: &Event,
    _marks: &Marks,
    _out: &[InHand<T>],
) -> u64
    ghost plan: { told.Told × List (ℕ × T) }
    requires of { IsPassOf parts.now pass.old }
    requires may { MayStamp T.records T.needs T.steps T.stands (settings_of parts.now) plan.0 plan.1
        (view_of pass.old) }
    ensures of { IsPassOf parts.now pass.new }
    ensures added { view_of pass.new ≡ with_entry plan.0 plan.1 result (view_of pass.old) }
    ensures sees { Sees T.needs T.steps T.stands (settings_of parts.now) result (view_of pass.old) }
{
    parts.stamp(pass)
}

/// Stamps the entry of an event with its marks, after which the parts in hand stand for the values that are out.
pub(crate) fn mark<T: Machine<Entry = Told>>(
    parts: &Parts<T>,
    pass: &mut PartPass<T>,
    ask: Ask<'_>,
    event: &Event,
    marks: &Marks,
    out: &[InHand<T>],
) -> u64
    requires of { IsPassOf parts.now pass.old }
    requires may { MayStamp T.records T.needs T.steps T.stands (settings_of parts.now)
        (told_of (asked_of ask) event.now marks.now.marks) (hand_of out.now) (view_of pass.old) }
    ensures of { IsPassOf parts.now pass.new }
    ensures added { view_of pass.new ≡ with_entry (told_of (asked_of ask.entry) event.now marks.now.marks)
        (hand_of out.now) result (view_of pass.old) }
    ensures sees { Sees T.needs T.steps T.stands (settings_of parts.now) result (view_of pass.old) }
{
    stamp_one(parts, pass, ask, event, marks, out)
}
