//! What each step on the table tells, for the proofs alone.
ghost use Rattle.std.specs.Prelude.{ℕ, List, Option, None};
ghost use Rattle.ca_parts.specs.Told.{took, shelved, fetched, gave, looked, stamped_as, weighed};
ghost use Rattle.ca_parts.specs.Views.{lower_half, upper_half, joined_with, spent_view};

use crate::machine::Machine;
use crate::view::View;
use atomic_table::{Join, Play, Split};
use std::marker::{Brand, PhantomData};

// The event for which a part is taken. A call at `Brand` picks it.
pub(crate) trait Asked<E> {
    ghost event: { Option E };
}

impl<E> Asked<E> for Brand {
    ghost event = { None };
}

// The entry that a stamp adds, and what the parts in hand stand for after it. A call at `Brand` picks them.
pub(crate) trait Plan<N, T> {
    ghost plan: { Option (N × List (ℕ × T)) };
}

impl<N, T> Plan<N, T> for Brand {
    ghost plan = { None };
}

pub(crate) struct Take<K> {
    marker: PhantomData<K>,
}

impl<T: Machine, K: Asked<T::Event>> Play<Option<T>, View<T::Settings, T::Event, T::Entry, T>>
    for Take<K> {
    ghost then = { took T.needs T.steps T.stands K.event };
}

pub(crate) struct Shelve;

impl<S, E, N, T> Play<Option<T>, View<S, E, N, T>> for Shelve {
    ghost then = { shelved };
}

pub(crate) struct Fetch;

impl<S, E, N, T> Play<Option<T>, View<S, E, N, T>> for Fetch {
    ghost then = { fetched };
}

pub(crate) struct Give;

impl<S, E, N, T> Play<Option<T>, View<S, E, N, T>> for Give {
    ghost then = { gave };
}

pub(crate) struct Look;

impl<T: Machine> Play<Option<T>, View<T::Settings, T::Event, T::Entry, T>> for Look {
    ghost then = { looked T.needs T.steps T.stands };
}

pub(crate) struct Stamp<K> {
    marker: PhantomData<K>,
}

impl<T: Machine, K: Plan<T::Entry, T>> Play<Option<T>, View<T::Settings, T::Event, T::Entry, T>>
    for Stamp<K> {
    ghost then = { stamped_as T.needs T.steps T.stands K.plan };
}

pub(crate) struct Weigh;

impl<S, E, N, T> Play<Option<T>, View<S, E, N, T>> for Weigh {
    ghost then = { weighed };
}

pub(crate) struct Halve;

impl<S, E, N, T> Split<View<S, E, N, T>> for Halve {
    ghost left = { lower_half };

    ghost right = { upper_half };
}

pub(crate) struct Unite;

impl<S, E, N, T> Join<View<S, E, N, T>> for Unite {
    ghost both = { joined_with };

    ghost spent = { spent_view };
}
