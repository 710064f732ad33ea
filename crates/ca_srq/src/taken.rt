ghost use Rattle.std.specs.Prelude.{◌≡◌, ℕ, List, [], ◌∷◌, ◌++◌};
ghost use Rattle.std.specs.Borrow.{ftrue};
ghost use Rattle.ca_srq.specs.Taken.{places_left};

use std::marker::Model;

/// A posting place.
#[derive(Clone, Copy)]
pub(crate) struct TakenPlace {
    pub(crate) place: u64,
}

/// The places that were taken and still occupy the queue, in the order in which they were taken. Proofs alone see them: it
/// has no bytes, and its calls do nothing.
#[derive(Drop)]
pub struct TakenPlaces {
    pub ghost places: { List ℕ },
}

impl Model for TakenPlaces {
    ghost also_owns = { λ _. ftrue };
}

// It owns nothing, so threads may move and share it.
unsafe impl Send for TakenPlaces {}

unsafe impl Sync for TakenPlaces {}

impl TakenPlaces {
    pub(crate) fn none() -> TakenPlaces
        ensures { result.places ≡ [] }
    {
        TakenPlaces {}
    }

    pub(crate) fn with(_before: &TakenPlaces, _taken: &TakenPlace) -> TakenPlaces
        ensures { result.places ≡ _before.now.places ++ _taken.now.place ∷ [] }
    {
        TakenPlaces {}
    }

    pub(crate) fn without(_before: &TakenPlaces, _freed: &TakenPlace) -> TakenPlaces
        ensures { result.places ≡ places_left _freed.now.place _before.now.places }
    {
        TakenPlaces {}
    }
}
