ghost use Rattle.std.specs.Prelude.{Result};
ghost use Rattle.ca_base.specs.Configuration.{Configuration};
ghost use Rattle.ca_base.specs.declared.step.ActError.{ActError};
ghost use Rattle.ca_model.specs.Marks.{MarkList};
ghost use Rattle.ca_model.specs.declared.event.Event.{Event};
ghost use Rattle.ca_model.specs.machine.Frame.{AllPass};
ghost use Rattle.ca_model.specs.machine.Plan.{touches};
ghost use Rattle.ca_model.specs.machine.Step.{plan, step};
ghost use Rattle.ca_model.specs.machine.World.{World};
ghost use Rattle.ca_adapter_parts.specs.HeldView.{Holding};
ghost use Rattle.ca_adapter_acts.specs.Act.{IsAct};
ghost use Rattle.ca_adapter_acts.specs.Steps.{IsStepOf, Shows};

/// Where a world shows all that is held, and all that an event touches is held, an act of the event is its step in
/// that world: its marks or its reason are the step's, what is held afterwards is shown by the world after the step,
/// the names held stay, and so does everything else.
pub fn act_is_step()
    ensures { (c : Configuration) (event : Event) (result : Result MarkList ActError) (old new : Holding) (w : World)
        → Shows w old → AllPass old.has (touches old.world (plan c event))
        → IsAct result (step c old.world event) old new → IsStepOf result (step c w event) w old new }
{}
