ghost use Rattle.std.specs.Prelude.{◌≡◌, ◌≤◌, ℕ, List, [], IfErr, IfOk, OnErr, vec_capacity};
ghost use Rattle.ca_base.specs.Configuration.{configuration_in, part_count as count_of};
ghost use Rattle.ca_verbs_machine.specs.Values.{PartValue};
ghost use Rattle.ca_verbs_machine.specs.declared.asked.Asked.TheVariants as asks;
ghost use Rattle.ca_adapter_parts.specs.HeldView.{holding, room_for};
ghost use Rattle.ca_model.specs.declared.part_name.PartName.{PartName};
ghost use Rattle.ca_model.specs.machine.Sound.{AreLimited};
ghost use Rattle.ca_parts.specs.Rows.{IsPassOf, part_count, settings_of, view_of};
ghost use Rattle.ca_verbs_taking.specs.Hands.{IsEmpty};
ghost use Rattle.ca_verbs_taking.specs.Asking.{asked_of};
ghost use Rattle.ca_verbs_taking.specs.Taking.{SameRecord};
ghost use Rattle.ca_verbs_taking.specs.declared.taking.TheConstants.{MAX_ASKED_PARTS};
ghost use Rattle.ca_verbs.specs.Tried.{IsEventOf, IsMade, WasNotMade, error_of, told_of};

use crate::acting::{Made, act_in_hand};
use crate::try_error::TryError;
use crate::turning::event_of;
use ca_adapter_parts::Held;
use ca_base::{Reason, Turn};
use ca_mailbox::Weather;
use ca_model::{Event, PartName};
use ca_parts::{PartPass, Parts};
use ca_verbs_machine::SharedPart;
use ca_verbs_taking::ca_adapter::lists_fit;
use ca_verbs_taking::{Ask, InHand, TakeError, put_back, take_all};
use std::alloc::Global;

/// Takes the parts of what is asked, reads the clock, acts, stamps, and gives the parts back.
pub(crate) fn try_event(
    alloc: Global,
    parts: &Parts<SharedPart>,
    pass: &mut PartPass<SharedPart>,
    ask: Ask<'_>,
    event: &Event,
    held: &mut Held,
    names: &mut Vec<PartName>,
    out: &mut Vec<InHand<SharedPart>>,
) -> Result<Made, TryError>
    requires of { IsPassOf parts.now pass.old }
    requires row { part_count parts.now ≡ count_of (configuration_in (settings_of parts.now)) }
    requires limited { AreLimited (configuration_in (settings_of parts.now)) }
    requires idle { (view_of pass.old).hand ≡ [] }
    requires empty { IsEmpty (holding held.old) }
    requires none { (names.old.items ≡ []) × (out.old.items ≡ []) }
    requires room { (p : PartName) → MAX_ASKED_PARTS ≤ room_for held.old p }
    requires capacity { (MAX_ASKED_PARTS ≤ vec_capacity names.old) × (MAX_ASKED_PARTS ≤ vec_capacity out.old) }
    requires event { (hand : List (ℕ × PartValue)) → IsEventOf (settings_of parts.now) (asked_of ask) event.now hand }
    ensures of { IsPassOf parts.now pass.new }
    ensures idle { ((view_of pass.new).hand ≡ []) × (out.new.items ≡ []) }
    ensures empty { IsEmpty (holding held.new) }
    ensures made { IfOk result (λ r. IsMade (settings_of parts.now)
        (told_of (asked_of ask.entry) event.now r.marks.marks) r.stamp (view_of pass.old) (view_of pass.new)) }
    ensures not_made { IfErr result (λ e. WasNotMade (settings_of parts.now) (asked_of ask.entry) e (view_of pass.old)
        (view_of pass.new)) }
    ensures same { OnErr result (SameRecord (view_of pass.old) (view_of pass.new)) }
{
    lists_fit(event);
    match take_all(parts, pass, ask, held, names) {
        Ok(n) => act_in_hand(
            alloc,
            parts,
            pass,
            ask,
            event,
            n,
            held,
            names.as_slice(),
            out,
        ),
        Err(error) => {
            put_back(parts, pass, held, names.as_slice(), out);
            Err(error_of(error))
        }
    }
}

/// What is answered where not all parts were taken.
fn error_of(error: TakeError) -> TryError
    ensures { result ≡ error_of error }
{
    match error {
        TakeError::Busy(name) => TryError::Busy(name),
        TakeError::Full(n) => TryError::HistoryFull(n),
    }
}

/// Takes the parts of a turn, reads the clock, finds which event it is now under the weather, acts, stamps, and gives the
/// parts back. Where nothing is due it is not possible.
pub(crate) fn try_turn_event(
    alloc: Global,
    parts: &Parts<SharedPart>,
    pass: &mut PartPass<SharedPart>,
    turn: Turn,
    weather: &Weather,
    held: &mut Held,
    names: &mut Vec<PartName>,
    out: &mut Vec<InHand<SharedPart>>,
) -> Result<(Event, Made), TryError>
    requires of { IsPassOf parts.now pass.old }
    requires row { part_count parts.now ≡ count_of (configuration_in (settings_of parts.now)) }
    requires limited { AreLimited (configuration_in (settings_of parts.now)) }
    requires idle { (view_of pass.old).hand ≡ [] }
    requires empty { IsEmpty (holding held.old) }
    requires none { (names.old.items ≡ []) × (out.old.items ≡ []) }
    requires room { (p : PartName) → MAX_ASKED_PARTS ≤ room_for held.old p }
    requires capacity { (MAX_ASKED_PARTS ≤ vec_capacity names.old) × (MAX_ASKED_PARTS ≤ vec_capacity out.old) }
    ensures of { IsPassOf parts.now pass.new }
    ensures idle { ((view_of pass.new).hand ≡ []) × (out.new.items ≡ []) }
    ensures empty { IsEmpty (holding held.new) }
    ensures made { IfOk result (λ r. IsMade (settings_of parts.now)
        (told_of (asks.Turn turn weather.now) r.0 r.1.marks.marks) r.1.stamp (view_of pass.old) (view_of pass.new)) }
    ensures not_made { IfErr result (λ e. WasNotMade (settings_of parts.now) (asks.Turn turn weather.now) e
        (view_of pass.old) (view_of pass.new)) }
    ensures same { OnErr result (SameRecord (view_of pass.old) (view_of pass.new)) }
{
    let ask = Ask::Turn(turn, weather);
    let n = match take_all(parts, pass, ask, held, names) {
        Ok(n) => n,
        Err(error) => {
            put_back(parts, pass, held, names.as_slice(), out);
            return Err(error_of(error));
        }
    };
    let Some(event) = event_of(held, turn, weather) else {
        put_back(parts, pass, held, names.as_slice(), out);
        return Err(TryError::NotReady(n, Reason::Empty));
    };
    lists_fit(&event);
    let made = act_in_hand(
        alloc,
        parts,
        pass,
        ask,
        &event,
        n,
        held,
        names.as_slice(),
        out,
    )?;
    Ok((event, made))
}
