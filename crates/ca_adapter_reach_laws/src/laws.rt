ghost use Rattle.std.specs.Prelude.{◌≡◌, ◌≤◌, ℕ, List, None, IfSome, length};
ghost use Rattle.std.specs.List.{AllByRecursion};
ghost use Rattle.ca_keys.specs.declared.access.Ask.{Ask};
ghost use Rattle.ca_base.specs.Configuration.{Configuration};
ghost use Rattle.ca_base.specs.Sight.{Invalidation, runs_in};
ghost use Rattle.ca_adapter_reach.specs.ca_grant.Reaching.{AreAtHand};
ghost use Rattle.ca_law_world.specs.Bindings.{IsBoundWorld};
ghost use Rattle.ca_model.specs.machine.Frame.{AllPass};
ghost use Rattle.ca_model.specs.machine.Held.{IsEndHeld};
ghost use Rattle.ca_model.specs.machine.Parts.{ShowsHeld};
ghost use Rattle.ca_model.specs.machine.Plan.{Plan, Update, Write, byte_names, names_written, perform, put_all, touches, write_all};
ghost use Rattle.ca_model.specs.machine.Responses.{writes_by};
ghost use Rattle.ca_model.specs.machine.Row.{Does, Effects, Row, Row_plan, ending_of};
ghost use Rattle.ca_model.specs.machine.Seen.{ending_changes, perform_ending, row_changes, sight_in, writes_in};
ghost use Rattle.ca_model.specs.machine.Sound.{IsSoundWorld};
ghost use Rattle.ca_model.specs.machine.World.{World};
ghost use Rattle.ca_responder_operations.specs.Taking.{ended_by, without_key};
ghost use Rattle.ca_responder_operations.specs.ca_qp_rows.Asks.{touched_by};
ghost use Rattle.ca_responder_operations.specs.ca_qp_rows.Made.{written_all};
ghost use Rattle.ca_adapter_parts.specs.HeldView.{holding};
ghost use Rattle.ca_adapter_parts.specs.declared.held.Held.{Held};
ghost use Rattle.ca_adapter_reach.specs.declared.reached.Reached.{Reached};
ghost use Rattle.ca_adapter_reach.specs.AtHand.{CanEnd, CanJudge, FitTogether, HasBytesAtHand};
ghost use Rattle.ca_adapter_reach.specs.Changed.{after_end_of, after_write_by};
ghost use Rattle.ca_adapter_reach.specs.Seen.{region_in, sight_of, window_in};
ghost use Rattle.ca_adapter_reach_laws.specs.Ties.{AreWritesAtHand, IsVacantOutside, with_reached};

/// Where a world that shows the parts in hand is vacant outside the configured slices, so is the small world of these
/// parts.
pub fn held_world_is_vacant_outside()
    ensures { (c : Configuration) (h : Held) (w : World) → IsVacantOutside c w
        → ShowsHeld (holding h).parts (holding h).world w → IsVacantOutside c (holding h).world }
{}

/// What is seen of keys and memory by the parts in hand is what the machine sees in their small world.
pub fn sight_is_the_machines()
    ensures { (c : Configuration) (h : Held) → IsVacantOutside c (holding h).world
        → sight_in c (holding h).world ≡ sight_of h.reached }
{}

/// Regions and windows in hand of a world that comes up fit each other, so that any ask can be judged by them.
pub fn held_parts_fit()
    ensures { (c : Configuration) (h : Held) (w : World) → IsSoundWorld c w → IsBoundWorld w
        → ShowsHeld (holding h).parts (holding h).world w
        → FitTogether (region_in h.reached) (window_in h.reached) }
{}

/// Where each byte is held that an ask touches, its bytes are at hand.
pub fn bytes_held_are_at_hand()
    ensures { (h : Held) (ask : Ask) → AllPass (holding h).has (byte_names (runs_in (sight_of h.reached) ask))
        → HasBytesAtHand h.reached ask }
{}

/// Where all is held that the plan of a row touches, the asks of the row may be handed on.
pub fn rows_held_are_at_hand()
    ensures { (c : Configuration) (h : Held) (w : World) (row : Row)
        (finish : Effects → List Update → List Write → Plan)
        → IsSoundWorld c w → IsBoundWorld w → IsVacantOutside c w → ShowsHeld (holding h).parts (holding h).world w
        → AllPass (holding h).has (touches (holding h).world (Row_plan c row finish))
        → AreAtHand sight_of CanJudge HasBytesAtHand h.reached row.asks }
{}

/// Where all is held that the plan of a row touches, and the row does something, all is held that comes behind the row:
/// what its changes and its writes touch is among it.
pub fn rows_held_hold_what_comes_behind()
    ensures { (c : Configuration) (h : Held) (row : Row)
        (finish : Effects → List Update → List Write → Plan) (e : Effects)
        → AllPass (holding h).has (touches (holding h).world (Row_plan c row finish))
        → ending_of (sight_in c (holding h).world) row ≡ Does e
        → AllPass (holding h).has (touches (holding h).world
        (finish e (row_changes c (holding h).world row) (writes_in (sight_in c (holding h).world) e.writes))) }
{}

/// Where all bytes are held that are written, or bytes are cut for asks of which the bytes are at hand, writes are at
/// hand.
pub fn writes_held_are_at_hand()
    ensures held { (h : Held) (writes : List (Ask × List ℕ))
        → AllPass (holding h).has (names_written (writes_in (sight_of h.reached) writes))
        → AllByRecursion (λ x. length x.1 ≡ x.0.touch) writes → AreWritesAtHand h.reached writes }
    ensures cut { (r : Reached) (asks : List Ask) (bytes : List ℕ) → AllByRecursion (HasBytesAtHand r) asks
        → touched_by asks ≤ length bytes → AreWritesAtHand r (writes_by asks bytes) }
{}

/// The plan of a row does in the small world of the parts in hand what the row does by what is seen of them.
pub fn rows_perform_as_seen()
    ensures { (c : Configuration) (h : Held) (row : Row) (finish : Effects → List Update → List Write → Plan)
        → IsVacantOutside c (holding h).world
        → perform (holding h).world (Row_plan c row finish)
        ≡ perform_ending (holding h).world (sight_of h.reached) finish (row_changes c (holding h).world row)
        (ending_of (sight_of h.reached) row) }
{}

/// Where the parts of a key that ends are held, of a world that comes up, they are at hand.
pub fn ends_held_are_at_hand()
    ensures { (c : Configuration) (h : Held) (w : World) (i : Invalidation) → IsSoundWorld c w → IsBoundWorld w
        → IsVacantOutside c w → ShowsHeld (holding h).parts (holding h).world w
        → IsEndHeld c (holding h).parts (holding h).world i → CanEnd h.reached i }
{}

/// What writes by asks leave of the parts in hand is what the machine's writes leave of their small world, and the same
/// parts are held.
pub fn writes_are_the_machines()
    ensures { (h : Held) (writes : List (Ask × List ℕ)) → AreWritesAtHand h.reached writes
        → holding (with_reached h (written_all after_write_by h.reached writes)) ≡ record (holding h) {
          world = write_all (writes_in (sight_of h.reached) writes) (holding h).world;
        } }
{}

/// What the end of a key leaves of the parts in hand, where it is not refused, is what the machine's changes leave of
/// their small world, and the same parts are held.
pub fn end_is_the_machines()
    ensures { (c : Configuration) (h : Held) (i : Invalidation) → IsVacantOutside c (holding h).world
        → CanEnd h.reached i → (sight_of h.reached).refusal i ≡ None
        → holding (with_reached h (after_end_of h.reached i)) ≡ record (holding h) {
          world = put_all (ending_changes c (holding h).world i) (holding h).world;
        } }
{}

/// The same of writes and then the end of a key: the machine changes first, and then writes.
pub fn writes_and_end_are_the_machines()
    ensures { (c : Configuration) (h : Held) (writes : List (Ask × List ℕ)) (i : Invalidation)
        → IsVacantOutside c (holding h).world → AreWritesAtHand h.reached writes → CanEnd h.reached i
        → (sight_of h.reached).refusal i ≡ None
        → holding (with_reached h (after_end_of (written_all after_write_by h.reached writes) i)) ≡ record (holding h) {
          world = write_all (writes_in (sight_of h.reached) writes)
              (put_all (ending_changes c (holding h).world i) (holding h).world);
        } }
{}

/// What a row's writes and the key that it ends leave of the parts in hand is what the machine's changes and writes leave
/// of their small world.
pub fn rows_leave_what_the_machine_leaves()
    ensures { (c : Configuration) (h : Held) (row : Row) (writes : List (Ask × List ℕ))
        → IsVacantOutside c (holding h).world → AreWritesAtHand h.reached writes
        → IfSome row.invalidation (CanEnd h.reached)
        → holding (with_reached h (without_key after_end_of (ended_by (sight_of h.reached) row)
        (written_all after_write_by h.reached writes))) ≡ record (holding h) {
          world = write_all (writes_in (sight_of h.reached) writes)
              (put_all (row_changes c (holding h).world row) (holding h).world);
        } }
{}
