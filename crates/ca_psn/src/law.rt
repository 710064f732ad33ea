ghost use Rattle.std.specs.Prelude.{ℕ, ◌<◌, ◌≤◌, ◌^◌, ◌%◌};
ghost use Rattle.ca_psn.specs.Psn.{LiesBy, class_of, widened};

/// Where `near` is the whole number of the expected PSN, the class of a packet's PSN says on which side of it the whole
/// number of that PSN lies, and how far before it.
pub fn class_is_side()
    ensures { (near got : ℕ) → 2 ^ 23 ≤ near → got < 2 ^ 24
        → LiesBy near (widened near got) (class_of (near % 2 ^ 24) got) }
{}
