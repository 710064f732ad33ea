//! A caller's token for a row of parts, and what it has taken.
ghost use Rattle.std.specs.Prelude.{◌≡◌, ◌+◌, ◌<◌, ◌≤◌, ◌↔◌, IsTrue};
ghost use Rattle.ca_base.specs.declared.limits.TheConstants.{MAX_PASSES};

use crate::machine::Machine;
use crate::view::View;
use atomic_table::Seat;
use ca_base::limits::MAX_PASSES;

/// The right to make calls on one row of parts. It has a range of pass numbers, of which the lowest is its own, and a
/// share of the row.
///
/// A pass that is dropped keeps its share, so the row can then not be closed.
#[derive(Drop)]
pub struct PartPass<T: Machine> {
    pub(crate) seat: Seat<Option<T>, View<T::Settings, T::Event, T::Entry, T>>,
    pub(crate) number: u32,
    pub(crate) count: u64,
    pub(crate) share: u64,
    ghost known: { (seat.me.0.first ≡ number) × (seat.me.0.count ≡ count) × (seat.me.0.share ≡ share) },
    ghost bounded: { (0 < count) × (number + count ≤ MAX_PASSES) × (share ≤ MAX_PASSES) },
}

/// A part in hand, with its value. It cannot be dropped: it is given back.
pub struct Turn1<T> {
    pub part: u32,
    pub value: T,
}

/// The part's word was read as taken.
#[derive(Clone, Copy, Debug, PartialEq, Eq)]
pub struct Busy;

/// The pass has one number left, and cannot be split.
#[derive(Clone, Copy, Debug, PartialEq, Eq)]
pub struct Spent;

impl<T: Machine> PartPass<T> {
    ghost use Rattle.ca_parts.specs.Rows.{view_of};

    /// The pass's own number, which no other pass has.
    pub fn number(&self) -> u32
        ensures { result ≡ (view_of self.now).first }
    {
        self.number
    }

    /// The pass's share. Where it is 2^32, this is the only pass.
    pub fn share(&self) -> u64
        ensures { result ≡ (view_of self.now).share }
    {
        self.share
    }

    // Whether this is the only pass.
    pub(crate) fn is_alone(&self) -> bool
        ensures { IsTrue result ↔ ((view_of self.now).share ≡ MAX_PASSES) }
    {
        self.share == MAX_PASSES
    }
}
