//! What a machine is, of whose parts the values of a row are.
ghost use Rattle.std.specs.Prelude.{◌≡◌, ℕ, List, [], ◌∷◌, ◌++◌, Option, Some};
ghost use Rattle.ca_parts.specs.Lists.{Has};
ghost use Rattle.ca_parts.specs.Hands.{IsTakenFor, Suffices, AllStand};

/// A machine that is cut into parts, which the type of the parts' values implements. It has no calls, only meanings.
///
/// `Settings` are fixed when the row starts and read by each meaning. An `Event` is what is asked for, and an `Entry`
/// is what the list keeps of it, without its stamp.
pub trait Machine: Drop {
    type Settings: Copy;

    type Event;

    type Entry;

    // The entry may be what came of the event.
    ghost records: { Self.Entry → Self.Event → Type 0 };

    // The part that the event needs next after the parts in hand, in the order of taking, or none.
    ghost needs: { Self.Settings → Self.Event → List (ℕ × Self) → Option ℕ };

    // The entry is one step after the list.
    ghost steps: { Self.Settings → List Self.Entry → Self.Entry → Type 0 };

    // After the list the part of this number stands for the value.
    ghost stands: { Self.Settings → List Self.Entry → ℕ → Self → Type 0 };

    // Law: a step changes only the parts that its event needs.
    ghost frame: { (key : Self.Settings) (log : List Self.Entry) (entry : Self.Entry)
        (event : Self.Event) (hand : List (ℕ × Self)) (k : ℕ) (x : Self)
        → records entry event → Suffices needs key event hand → AllStand (stands key log) hand
        → steps key log entry → ((y : Self) → ¬ Has (k, y) hand)
        → stands key log k x → stands key (log ++ entry ∷ []) k x };

    // Law: what an event needs next is not in hand.
    ghost apart: { (key : Self.Settings) (event : Self.Event) (hand : List (ℕ × Self)) (k : ℕ)
        → IsTakenFor needs key event hand → needs key event hand ≡ Some k → (y : Self)
        → ¬ Has (k, y) hand };
}
