ghost use Rattle.std.specs.Prelude.{◌≡◌, ◌≢◌, ◌<◌, ◌≤◌, ℕ, [], ◌+◌, IfErr, IfOk, OnErr, OnOk, Some, length, vec_capacity};
ghost use Rattle.ca_base.specs.Configuration.{configuration_in, part_count as count_of};
ghost use Rattle.ca_base.specs.declared.limits.TheConstants.{MAX_PASSES};
ghost use Rattle.ca_verbs_machine.specs.declared.asked.Asked as asked;
ghost use Rattle.ca_adapter_parts.specs.HeldView.{holding, room_for};
ghost use Rattle.ca_model.specs.declared.part_name.PartName.{PartName};
ghost use Rattle.ca_model.specs.machine.Sound.{AreLimited};
ghost use Rattle.ca_parts.specs.Calls.{MayTake, WasTaken};
ghost use Rattle.ca_parts.specs.Rows.{IsPassOf, part_count, settings_of, view_of};
ghost use Rattle.ca_parts.specs.Views.{with_part, with_refusal};
ghost use Rattle.ca_verbs_taking.specs.Hands.{IsEmpty};
ghost use Rattle.ca_verbs_taking.specs.Amid.{IsAmid, IsNext, TookPart};
ghost use Rattle.ca_verbs_taking.specs.Asking.{asked_of};
ghost use Rattle.ca_verbs_taking.specs.Holding.{IsHolding};
ghost use Rattle.ca_verbs_taking.specs.Taking.{SameRecord, TookAll, WasStopped};
ghost use Rattle.ca_verbs_taking.specs.declared.taking.TheConstants.{MAX_ASKED_PARTS};

use crate::ask::Ask;
use crate::next::next_asked;
use crate::take_error::TakeError;
use ca_adapter_parts::Held;
use ca_model::PartName;
use ca_model_places::place;
use ca_parts::{Busy, Machine, PartPass, Parts, Turn1};
use ca_verbs_machine::{Asked, SharedPart};

/// The most parts that are taken for what is asked, where those that tell which event a turn is are counted beside those of
/// the event.
pub const MAX_ASKED_PARTS: u8 = 34;

/// Takes one part for what is asked, which is the `ghost` of this call. It stands over every machine that is asked so: what
/// a call knows only by its `ghost` cannot be told of parts that have memory of their own.
fn take_one<T: Machine<Event = Asked>>(
    parts: &Parts<T>,
    pass: &mut PartPass<T>,
    _ask: Ask<'_>,
    part: u32,
) -> Result<Turn1<T>, Busy>
    ghost event: { asked.Asked }
    requires of { IsPassOf parts.now pass.old }
    requires part { part < part_count parts.now }
    requires may { MayTake T.needs (settings_of parts.now) event part (view_of pass.old) }
    ensures of { IsPassOf parts.now pass.new }
    ensures took { IfOk result (λ t. (t.part ≡ part)
        × (view_of pass.new ≡ with_part event part t.value (view_of pass.old))) }
    ensures refusal { OnErr result (view_of pass.new ≡ with_refusal part (view_of pass.old)) }
    ensures busy { OnErr result (WasTaken T.needs T.steps T.stands (settings_of parts.now) part (view_of pass.old)) }
    ensures not_alone { OnErr result ((view_of pass.old).share ≢ MAX_PASSES) }
{
    parts.try_take(pass, part)
}

/// Takes one part for what is asked.
fn take_for<T: Machine<Event = Asked>>(
    parts: &Parts<T>,
    pass: &mut PartPass<T>,
    ask: Ask<'_>,
    part: u32,
) -> Result<Turn1<T>, Busy>
    requires of { IsPassOf parts.now pass.old }
    requires part { part < part_count parts.now }
    requires may { MayTake T.needs (settings_of parts.now) (asked_of ask) part (view_of pass.old) }
    ensures of { IsPassOf parts.now pass.new }
    ensures took { IfOk result (λ t. (t.part ≡ part)
        × (view_of pass.new ≡ with_part (asked_of ask.entry) part t.value (view_of pass.old))) }
    ensures refusal { OnErr result (view_of pass.new ≡ with_refusal part (view_of pass.old)) }
    ensures busy { OnErr result (WasTaken T.needs T.steps T.stands (settings_of parts.now) part (view_of pass.old)) }
    ensures not_alone { OnErr result ((view_of pass.old).share ≢ MAX_PASSES) }
{
    take_one(parts, pass, ask, part)
}

/// Takes the part of this name, which is needed next, reads the clock, and adds the part to what is held.
fn take_named(
    parts: &Parts<SharedPart>,
    pass: &mut PartPass<SharedPart>,
    ask: Ask<'_>,
    name: PartName,
    held: &mut Held,
    names: &mut Vec<PartName>,
) -> Result<u64, TakeError>
    requires of { IsPassOf parts.now pass.old }
    requires row { part_count parts.now ≡ count_of (configuration_in (settings_of parts.now)) }
    requires amid { (n : ℕ) × IsAmid (settings_of parts.now) (asked_of ask) n (view_of pass.old) held.old names.old }
    requires next { IsNext (settings_of parts.now) (asked_of ask) name held.old }
    ensures of { IsPassOf parts.now pass.new }
    ensures holding { IsHolding (configuration_in (settings_of parts.now)) (holding held.new) names.new.items
        (view_of pass.new).hand }
    ensures took { IfOk result (λ n. IsAmid (settings_of parts.now) (asked_of ask.entry) n (view_of pass.new)
        held.new names.new × TookPart n (view_of pass.old) (view_of pass.new)) }
    ensures stopped { IfErr result (λ e. WasStopped (settings_of parts.now) (asked_of ask.entry) e (view_of pass.old)
        (view_of pass.new)) }
    ensures same { SameRecord (view_of pass.old) (view_of pass.new) }
    ensures more { OnOk result (length names.new.items ≡ length names.old.items + 1) }
    ensures kept { OnErr result (names.new.items ≡ names.old.items) }
{
    let settings = *parts.settings();
    let Some(at) = place(&settings, &name) else {
        unreachable!()
    };
    let Ok(turn) = take_for(parts, pass, ask, at) else {
        return Err(TakeError::Busy(name));
    };
    let n = parts.look(pass);
    if n >= u64::from(settings.events) {
        parts.give(pass, turn);
        return Err(TakeError::Full(n));
    }
    let Turn1 { part: _, value } = turn;
    held.add(name, value.into_part());
    names.push_reserved(name);
    Ok(n)
}

/// Takes all parts that are needed for what is asked, one after another, and reads the clock after each. `Busy` comes only
/// where this call read the part's word as taken. `Full` comes exactly where the clock was read as not below the limit of
/// events. On each of them what was taken stays in hand.
pub fn take_all(
    parts: &Parts<SharedPart>,
    pass: &mut PartPass<SharedPart>,
    ask: Ask<'_>,
    held: &mut Held,
    names: &mut Vec<PartName>,
) -> Result<u64, TakeError>
    requires of { IsPassOf parts.now pass.old }
    requires row { part_count parts.now ≡ count_of (configuration_in (settings_of parts.now)) }
    requires limited { AreLimited (configuration_in (settings_of parts.now)) }
    requires idle { (view_of pass.old).hand ≡ [] }
    requires empty { IsEmpty (holding held.old) }
    requires none { names.old.items ≡ [] }
    requires room { (p : PartName) → MAX_ASKED_PARTS ≤ room_for held.old p }
    requires names { MAX_ASKED_PARTS ≤ vec_capacity names.old }
    ensures of { IsPassOf parts.now pass.new }
    ensures holding { IsHolding (configuration_in (settings_of parts.now)) (holding held.new) names.new.items
        (view_of pass.new).hand }
    ensures took { IfOk result (λ n. TookAll (settings_of parts.now) (asked_of ask.entry) n (view_of pass.old)
        (view_of pass.new)) }
    ensures stopped { IfErr result (λ e. WasStopped (settings_of parts.now) (asked_of ask.entry) e (view_of pass.old)
        (view_of pass.new)) }
    ensures same { SameRecord (view_of pass.old) (view_of pass.new) }
    ensures few { length names.new.items ≤ MAX_ASKED_PARTS }
{
    let settings = *parts.settings();
    let mut n = parts.look(pass);
    if n >= u64::from(settings.events) {
        return Err(TakeError::Full(n));
    }
    for _ in 0..=MAX_ASKED_PARTS {
        let Some(name) = next_asked(&settings, ask, held) else {
            return Ok(n);
        };
        n = take_named(parts, pass, ask, name, held, names)?;
    }
    unreachable!()
}
