ghost use Rattle.ca_adapter_acts.specs.Act.{Acts};
ghost use Rattle.ca_adapter_acts.specs.Steps.{IsStepOf, Shows};
ghost use Rattle.ca_adapter.specs.Ready.{IsReady};
ghost use Rattle.ca_base.specs.Configuration.{configuration_in};
ghost use Rattle.ca_adapter_parts.specs.HeldView.{holding};
ghost use Rattle.ca_model.specs.declared.event.Event.TheVariants as events;
ghost use Rattle.ca_model.specs.machine.Step as machine;
ghost use Rattle.ca_model.specs.machine.World.{World};

use crate::lists::verb_fits;
use crate::request;
use crate::verbs::act_verb;
use ca_adapter_acts::Call;
use ca_adapter_arrivals::ca_adapter_turns::{respond, rnr_wake, timeout};
use ca_adapter_arrivals::deliver;
use ca_adapter_footprint::is_named;
use ca_adapter_parts::Held;
use ca_base::{ActError, Settings};
use ca_model::{Event, Marks, Refusal, Verb};
use std::alloc::Global;

/// Acts an event. A verb answers `NoSuch` where one of its names is not configured; else the answer is what the act of the
/// verb says, with its refusals in order. A turn that is not possible answers NotReady with its first reason, and of the
/// verbs a Poll alone does. `Memory` leaves all as it was.
///
/// The caller shows that the parts in hand suffice (`IsReady`).
#[inline(never)]
#[tactic(auto, using(crate::proofs::ReadyLemmas::act_stepped))]
pub fn act(
    alloc: Global,
    settings: &Settings,
    event: &Event,
    held: &mut Held,
) -> Result<Marks, ActError>
    requires ready { IsReady (configuration_in settings.now) event.now held.old }
    ensures act { Acts result (machine.plan (configuration_in settings.now) event.now) held.old held.new }
    ensures step { (w : World) → Shows w (holding held.old)
        → IsStepOf result (machine.step (configuration_in settings.now) w event.now) w
        (holding held.old) (holding held.new) }
{
    act_held(alloc, settings, event, held)
}

/// The same, by what the event is.
#[tactic(auto, using(crate::proofs::TurnLemmas::turn_parts, crate::proofs::TurnLemmas::turn_steps, crate::proofs::TurnLemmas::turn_mail))]
fn act_held(
    alloc: Global,
    settings: &Settings,
    event: &Event,
    held: &mut Held,
) -> Result<Marks, ActError>
    requires ready { IsReady (configuration_in settings.now) event.now held.old }
    ensures act { Acts result (machine.plan (configuration_in settings.now) event.now) held.old held.new }
{
    match event {
        Event::Verb { by, verb } => act_call(alloc, settings, held, *by, verb),
        Event::Request { queue, lot } => request(alloc, settings, held, *queue, *lot),
        Event::Deliver { queue, index } => deliver(alloc, settings, held, *queue, *index),
        Event::Respond { queue, lot } => respond(alloc, settings, held, *queue, *lot),
        Event::Timeout { queue, hasten } => timeout(alloc, settings, held, *queue, *hasten),
        Event::RnrWake { queue } => rnr_wake(alloc, settings, held, *queue),
    }
}

/// A verb.
#[inline(always)]
#[tactic(auto, using(crate::proofs::ReadyLemmas::verb_unnamed, crate::proofs::ReadyLemmas::verb_named))]
fn act_call(
    alloc: Global,
    settings: &Settings,
    held: &mut Held,
    by: u32,
    verb: &Verb,
) -> Result<Marks, ActError>
    requires ready { IsReady (configuration_in settings.now) (events.Verb by verb.now) held.old }
    ensures act { Acts result (machine.plan (configuration_in settings.now) (events.Verb by verb.now)) held.old held.new }
{
    verb_fits(verb);
    let call = Call { alloc, by, verb };
    if !is_named(settings, verb) {
        return Ok(call.refuse(Refusal::NoSuch)?);
    }
    act_verb(&call, settings, held)
}
