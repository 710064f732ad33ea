ghost use Rattle.std.specs.Prelude.{◌≡◌, ◌++◌, ◌<◌, ◌≤◌, ◌^◌, ℕ, List, Ok, length};
ghost use Rattle.ca_base.specs.declared.limits.TheConstants.{MAX_CONSUMERS, MAX_SCRIPT_BYTES};
ghost use Rattle.ca_engine.specs.Loop.{most_offers};
ghost use Rattle.ca_script_order.specs.Order.{order};
ghost use Rattle.ca_law_scripts.specs.Lawful.{IsLawfulOrder};
ghost use Rattle.ca_script.specs.Script.{ScriptValue, script_of};

/// A script that a text means has no more consumers than there may be, and its order comes to an end before the offers
/// can no longer be counted.
pub fn texts_mean_workable_scripts()
    ensures consumers { (text : List ℕ) (s : ScriptValue) → script_of text ≡ Ok s
        → length s.consumers ≤ MAX_CONSUMERS }
    ensures offers { (text : List ℕ) (s : ScriptValue) → script_of text ≡ Ok s → most_offers s < 2 ^ 64 }
{}

/// A text that is longer than a script may be means none, and is refused as its front is, if the front is too long
/// itself: at the same line, for the same cause.
pub fn long_texts_are_refused_by_their_fronts()
    ensures limit { (text : List ℕ) (s : ScriptValue) → script_of text ≡ Ok s → length text ≤ MAX_SCRIPT_BYTES }
    ensures front { (front more : List ℕ) → MAX_SCRIPT_BYTES < length front
        → script_of (front ++ more) ≡ script_of front }
{}

/// The order of a script that a text means is lawful.
pub fn orders_of_texts_are_lawful()
    ensures { (text : List ℕ) (s : ScriptValue) → script_of text ≡ Ok s → IsLawfulOrder s (order s) }
{}
