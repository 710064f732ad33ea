//! The rule of the table of words, homes and views: the facts of parts.
ghost use Rattle.ca_parts.specs.Facts.{FactsOfParts};
ghost use Rattle.ca_parts.specs.Views.{first_view};

use crate::machine::Machine;
use crate::view::View;
use atomic_table::TableRule;
use std::marker::PhantomData;

/// The facts of parts, which each step on a row of `T` keeps. No value of it is made.
pub struct Facts<T> {
    marker: PhantomData<T>,
}

impl<T: Machine> TableRule<Option<T>, View<T::Settings, T::Event, T::Entry, T>, T::Settings>
    for Facts<T> {
    ghost holds = { FactsOfParts T.needs T.steps T.stands };

    ghost first = { first_view };
}
