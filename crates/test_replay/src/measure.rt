ghost use Rattle.ca_adapter_store.specs.Rows.{IsRow};

use crate::case::Case;
use crate::kinds::{Counts, make_by_kind};
use crate::work::Stop;
use ca_adapter_store::Row;
use ca_model::Event;
use std::alloc::Global;
use std::time::{Clock, Instant};

/// Makes events on the row, one after the other. None comes where one is not possible, or no memory is left.
fn make_all(alloc: Global, row: &mut Row, events: &[Event], counts: &mut Counts) -> Option<()>
    requires { IsRow row.old }
    ensures { IsRow row.new }
{
    for event in events {
        make_by_kind(alloc, row, event, counts)?;
    }
    Some(())
}

/// Makes the events of a case; how many of each kind there were, and how many nanoseconds each took.
pub(crate) fn measure<R: Clock + AllocGlobal>(rt: &R, case: &Case) -> Result<(Counts, u128), Stop> {
    let alloc = rt.alloc();
    let mut row = case.open(alloc)?;
    let mut counts = Counts::default();
    let since = Instant::now(rt)?;
    let done = make_all(alloc, &mut row, case.events.as_slice(), &mut counts);
    let taken = since.elapsed(rt)?.as_nanos();
    if done.is_none() {
        return Err(Stop::Event(row.count));
    }
    Ok((counts, taken / u128::from(row.count.max(1))))
}
