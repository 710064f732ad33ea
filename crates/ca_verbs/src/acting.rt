ghost use Rattle.std.specs.Prelude.{◌≡◌, ◌≤◌, [], IfErr, IfOk, OnErr, length, vec_capacity};
ghost use Rattle.ca_base.specs.Configuration.{configuration_in};
ghost use Rattle.ca_adapter_parts.specs.HeldView.{holding};
ghost use Rattle.ca_model.specs.machine.Sound.{AreLimited, CanBeMade};
ghost use Rattle.ca_parts.specs.Rows.{IsPassOf, settings_of, view_of};
ghost use Rattle.ca_verbs_taking.specs.Hands.{IsEmpty};
ghost use Rattle.ca_verbs_taking.specs.Asking.{asked_of};
ghost use Rattle.ca_verbs_taking.specs.Holding.{IsHolding, Known};
ghost use Rattle.ca_verbs_taking.specs.Taking.{SameRecord, TookAll};
ghost use Rattle.ca_verbs.specs.Tried.{IsEventOf, IsMade, WasNotMade, refusal_of, told_of};

use crate::marking::mark;
use crate::try_error::TryError;
use ca_adapter_parts::Held;
use ca_base::ActError;
use ca_model::{Event, Marks, PartName};
use ca_parts::{PartPass, Parts};
use ca_verbs_machine::SharedPart;
use ca_verbs_taking::ca_adapter::act;
use ca_verbs_taking::{Ask, InHand, give_all, put_back, unpack};
use std::alloc::Global;

/// An event that was made: its stamp and its marks.
#[derive(Drop)]
pub(crate) struct Made {
    pub(crate) stamp: u64,
    pub(crate) marks: Marks,
}

/// Acts an event with the parts in hand, stamps its entry, and gives the parts back.
pub(crate) fn act_in_hand(
    alloc: Global,
    parts: &Parts<SharedPart>,
    pass: &mut PartPass<SharedPart>,
    ask: Ask<'_>,
    event: &Event,
    n: u64,
    held: &mut Held,
    names: &[PartName],
    out: &mut Vec<InHand<SharedPart>>,
) -> Result<Made, TryError>
    requires of { IsPassOf parts.now pass.old }
    requires limits { AreLimited (configuration_in (settings_of parts.now)) }
    requires holding { IsHolding (configuration_in (settings_of parts.now)) (holding held.old) names.now
        (view_of pass.old).hand }
    requires took { (first : Known) × TookAll (settings_of parts.now) (asked_of ask) n first (view_of pass.old) }
    requires made { CanBeMade event.now }
    requires event { IsEventOf (settings_of parts.now) (asked_of ask) event.now (view_of pass.old).hand }
    requires none { out.old.items ≡ [] }
    requires room { length names.now ≤ vec_capacity out.old }
    ensures of { IsPassOf parts.now pass.new }
    ensures idle { ((view_of pass.new).hand ≡ []) × (out.new.items ≡ []) }
    ensures empty { IsEmpty (holding held.new) }
    ensures made { (first : Known) → TookAll (settings_of parts.now) (asked_of ask.entry) n first (view_of pass.old)
        → SameRecord first (view_of pass.old) → IfOk result (λ r. IsMade (settings_of parts.now)
        (told_of (asked_of ask.entry) event.now r.marks.marks) r.stamp first (view_of pass.new)) }
    ensures kept { (first : Known) → TookAll (settings_of parts.now) (asked_of ask.entry) n first (view_of pass.old)
        → IfErr result (λ e. WasNotMade (settings_of parts.now) (asked_of ask.entry) e first (view_of pass.new)) }
    ensures same { OnErr result (SameRecord (view_of pass.old) (view_of pass.new)) }
{
    let settings = *parts.settings();
    match act(alloc, &settings, event, held) {
        Ok(marks) => {
            unpack(&settings, held, names, out);
            let stamp = mark(parts, pass, ask, event, &marks, out.as_slice());
            give_all(parts, pass, out);
            Ok(Made { stamp, marks })
        }
        Err(error) => {
            put_back(parts, pass, held, names, out);
            Err(refusal(n, error))
        }
    }
}

/// Why an event was not made that the clock n was read for.
fn refusal(n: u64, error: ActError) -> TryError
    ensures { result ≡ refusal_of n error }
{
    match error {
        ActError::NotReady(reason) => TryError::NotReady(n, reason),
        ActError::Memory => TryError::Memory,
    }
}
