ghost use Rattle.std.specs.Prelude.{ℕ, ◌≡◌, Bool, List};
ghost use Rattle.ca_base.specs.Configuration.{Configuration};
ghost use Rattle.ca_model.specs.declared.event.Event.{Event};
ghost use Rattle.ca_model.specs.machine.Frame.{AllPass, SameAt, SameWhere, SameOutcome, SameOutcomeWhere, LeavesRest, TouchesPass};
ghost use Rattle.ca_model.specs.machine.Plan.{Plan, Update, Write, perform, touches};
ghost use Rattle.ca_model.specs.machine.Row.{Effects, Row, Row_plan, ending_of};
ghost use Rattle.ca_model.specs.machine.Seen.{perform_ending, row_changes, sight_in};
ghost use Rattle.ca_model.specs.machine.Run.{run_from};
ghost use Rattle.ca_model.specs.machine.Step.{plan, step};
ghost use Rattle.ca_model.specs.machine.World.{World, Name};

/// Whether an event is possible, its reason or its marks, and what it makes of the things that it touches depend on
/// these things and on the configuration alone.
pub fn event_depends_on_what_it_touches()
    ensures { (c : Configuration) (event : Event) (v w : World) → SameAt (touches v (plan c event)) v w
        → SameOutcome (touches v (plan c event)) (step c v event) (step c w event) }
{}

/// An event leaves all things as they were that it does not touch.
pub fn event_leaves_the_rest()
    ensures { (c : Configuration) (event : Event) (w : World)
        → LeavesRest (touches w (plan c event)) w (step c w event) }
{}

/// An event that touches, in one of two worlds, only things whose names pass a test and which are the same in both,
/// touches the same in the other. It is possible in both or in neither, for one reason or with the same marks, and the
/// things whose names pass are the same in both afterwards.
pub fn event_agrees_where_it_touches()
    ensures outcome { (test : Name → Bool) (c : Configuration) (event : Event) (v w : World) → SameWhere test v w
        → AllPass test (touches v (plan c event)) → SameOutcomeWhere test (step c v event) (step c w event) }
    ensures touches { (test : Name → Bool) (c : Configuration) (event : Event) (v w : World) → SameWhere test v w
        → AllPass test (touches v (plan c event)) → touches v (plan c event) ≡ touches w (plan c event) }
{}

/// The plan of a row does in a world what the row does by what is seen there of keys and memory.
pub fn row_does_what_is_seen()
    ensures { (c : Configuration) (w : World) (row : Row) (finish : Effects → List Update → List Write → Plan)
        → perform w (Row_plan c row finish)
        ≡ perform_ending w (sight_in c w) finish (row_changes c w row) (ending_of (sight_in c w) row) }
{}

/// Events that touch only things whose names pass a test give the same marks, or stop at the same place, in two worlds
/// in which these things are the same.
pub fn events_depend_on_what_they_touch()
    ensures { (test : Name → Bool) (c : Configuration) (n : ℕ) (events : List Event) (v w : World)
        → SameWhere test v w → TouchesPass test c v events → run_from c n v events ≡ run_from c n w events }
{}
