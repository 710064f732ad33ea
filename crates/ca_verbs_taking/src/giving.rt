ghost use Rattle.std.specs.Prelude.{◌≡◌, ◌≤◌, ℕ, [], true, is_some, length, vec_capacity};
ghost use Rattle.ca_base.specs.Configuration.{configuration_in};
ghost use Rattle.ca_adapter_parts.specs.HeldView.{holding};
ghost use Rattle.ca_model.specs.declared.part_name.PartName.{PartName};
ghost use Rattle.ca_model.specs.machine.Parts as machine;
ghost use Rattle.ca_model.specs.machine.Sound.{AreLimited};
ghost use Rattle.ca_parts.specs.Lists.{numbers_of, times};
ghost use Rattle.ca_parts.specs.Rows.{IsPassOf, settings_of, view_of};
ghost use Rattle.ca_model_places.specs.Places.{place_of};
ghost use Rattle.ca_verbs_taking.specs.Hands.{AreApart};
ghost use Rattle.ca_verbs_taking.specs.Hands.{IsEmpty};
ghost use Rattle.ca_verbs_taking.specs.Giving.{IsTakenOut, SameNotes};
ghost use Rattle.ca_verbs_taking.specs.Holding.{AreShown, IsHolding, hand_of};
ghost use Rattle.ca_verbs_taking.specs.Taking.{SameRecord};

use crate::in_hand::InHand;
use ca_adapter_parts::Held;
use ca_base::Settings;
use ca_model::PartName;
use ca_model_places::place;
use ca_parts::{PartPass, Parts, Turn1};
use ca_verbs_machine::SharedPart;

/// Takes all parts of these names out of what is held, in order, with their places.
pub fn unpack(
    settings: &Settings,
    held: &mut Held,
    names: &[PartName],
    out: &mut Vec<InHand<SharedPart>>,
)
    requires limits { AreLimited (configuration_in settings.now) }
    requires named { (p : PartName) → (holding held.old).parts p ≡ machine.is_held names.now p }
    requires apart { AreApart names.now }
    requires placed { (p : PartName) → machine.is_held names.now p ≡ true
        → is_some (place_of (configuration_in settings.now) p) ≡ true }
    requires none { out.old.items ≡ [] }
    requires room { length names.now ≤ vec_capacity out.old }
    ensures shown { AreShown (configuration_in settings.now) (holding held.old) names.now (hand_of out.new.items) }
    ensures empty { IsEmpty (holding held.new) }
{
    for name in names {
        out.push_reserved(take_out(settings, held, *name));
    }
}

/// Takes a part out of what is held, with its place.
fn take_out(settings: &Settings, held: &mut Held, name: PartName) -> InHand<SharedPart>
    requires place { is_some (place_of (configuration_in settings.now) name) ≡ true }
    requires held { (holding held.old).parts name ≡ true }
    ensures { IsTakenOut (configuration_in settings.now) name result held.old held.new }
{
    let (Some(part), Some(value)) = (place(settings, &name), held.remove(name)) else {
        unreachable!()
    };
    InHand {
        part,
        value: SharedPart::of(value),
    }
}

/// Gives all parts back, the last one first.
pub fn give_all(
    parts: &Parts<SharedPart>,
    pass: &mut PartPass<SharedPart>,
    out: &mut Vec<InHand<SharedPart>>,
)
    requires of { IsPassOf parts.now pass.old }
    requires hand { (view_of pass.old).hand ≡ hand_of out.old.items }
    requires apart { (k : ℕ) → times k (numbers_of (hand_of out.old.items)) ≤ 1 }
    ensures of { IsPassOf parts.now pass.new }
    ensures given { ((view_of pass.new).hand ≡ []) × (out.new.items ≡ []) }
    ensures same { SameRecord (view_of pass.old) (view_of pass.new) × SameNotes (view_of pass.old) (view_of pass.new) }
{
    while let Some(t) = out.pop() {
        let InHand { part, value } = t;
        parts.give(pass, Turn1 { part, value });
    }
}

/// Gives back what is held as it was taken.
pub fn put_back(
    parts: &Parts<SharedPart>,
    pass: &mut PartPass<SharedPart>,
    held: &mut Held,
    names: &[PartName],
    out: &mut Vec<InHand<SharedPart>>,
)
    requires of { IsPassOf parts.now pass.old }
    requires limits { AreLimited (configuration_in (settings_of parts.now)) }
    requires holding { IsHolding (configuration_in (settings_of parts.now)) (holding held.old) names.now
        (view_of pass.old).hand }
    requires none { out.old.items ≡ [] }
    requires room { length names.now ≤ vec_capacity out.old }
    ensures of { IsPassOf parts.now pass.new }
    ensures given { ((view_of pass.new).hand ≡ []) × (out.new.items ≡ []) }
    ensures empty { IsEmpty (holding held.new) }
    ensures same { SameRecord (view_of pass.old) (view_of pass.new) × SameNotes (view_of pass.old) (view_of pass.new) }
{
    unpack(parts.settings(), held, names, out);
    give_all(parts, pass, out);
}
