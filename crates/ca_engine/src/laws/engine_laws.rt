ghost use Rattle.std.specs.Prelude.{◌≡◌, ◌≤◌, ℕ, reverse, true};
ghost use Rattle.ca_script_order.specs.OfScript.{HasEnded};
ghost use Rattle.ca_script_order.specs.Order.{HasNoMoreLines, Stage, at_round, ending, ending_from, order};
ghost use Rattle.ca_script_order.specs.ca_script.Script.{ScriptValue};
ghost use Rattle.ca_engine.specs.Loop.{has_ended, most_offers, opening_work, work_after_all, work_from};

/// The loop ends, after no more offers than are in a round and a timer pass for each round that there can be. A round
/// in which something happened makes one of the events that the script allows, or passes one of its lines.
pub fn offers_come_to_an_end()
    ensures { (s : ScriptValue) (n : ℕ) → most_offers s ≤ n
        → has_ended s (work_after_all s n (opening_work s)) ≡ true }
{}

/// Whatever number of offers the loop takes: where it has ended, the script is worked as far as its order comes, and
/// the history is the order. As many events were made as the script allows, or all is quiet and no consumer can go
/// on.
pub fn offers_make_the_order()
    ensures stage { (s : ScriptValue) (n : ℕ)
        → has_ended s (work_after_all s n (opening_work s)) ≡ true
        → at_round (work_after_all s n (opening_work s)).stage ≡ at_round (ending s) }
    ensures history { (s : ScriptValue) (n : ℕ)
        → has_ended s (work_after_all s n (opening_work s)) ≡ true
        → reverse (work_after_all s n (opening_work s)).stage.past ≡ order s }
    ensures quiet { (s : ScriptValue) (n : ℕ)
        → has_ended s (work_after_all s n (opening_work s)) ≡ true
        → HasEnded s (work_after_all s n (opening_work s)).stage }
{}

/// The loop that begins at any stage with no more lines left than the script has ends, too, after no more offers.
pub fn offers_from_a_stage_come_to_an_end()
    ensures { (s : ScriptValue) (g : Stage) (n : ℕ) → HasNoMoreLines s g → most_offers s ≤ n
        → has_ended s (work_after_all s n (work_from s g)) ≡ true }
{}

/// Whatever number of offers the loop takes that begins at such a stage: where it has ended, the script is worked as
/// far as rounds from that stage come, with the same entries. As many events were made as the script allows, or all is
/// quiet and no consumer can go on.
pub fn offers_from_a_stage_make_its_rounds()
    ensures stage { (s : ScriptValue) (g : Stage) (n : ℕ) → HasNoMoreLines s g
        → has_ended s (work_after_all s n (work_from s g)) ≡ true
        → at_round (work_after_all s n (work_from s g)).stage ≡ at_round (ending_from s g) }
    ensures history { (s : ScriptValue) (g : Stage) (n : ℕ) → HasNoMoreLines s g
        → has_ended s (work_after_all s n (work_from s g)) ≡ true
        → (work_after_all s n (work_from s g)).stage.past ≡ (ending_from s g).past }
    ensures quiet { (s : ScriptValue) (g : Stage) (n : ℕ) → HasNoMoreLines s g
        → has_ended s (work_after_all s n (work_from s g)) ≡ true
        → HasEnded s (work_after_all s n (work_from s g)).stage }
{}
