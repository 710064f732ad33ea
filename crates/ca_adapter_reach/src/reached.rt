use crate::{Shelf, ShelfName};
use ca_grant::ca_memory::Buffer;
use ca_keys::{Run, Slot};
use ca_localops::ca_region::Region;
use ca_localops::ca_window::Window;

/// What keys and asks reach of the parts in hand: windows, regions, and buffers.
#[derive(Drop)]
pub struct Reached {
    pub windows: Shelf<Slot, Window>,
    pub regions: Shelf<Slot, Region>,
    pub buffers: Shelf<BufferId, Buffer>,
}

/// The name of a buffer: its adapter, and its number there.
#[derive(Clone, Copy, PartialEq, Eq)]
pub struct BufferId {
    pub adapter: u8,
    pub index: u16,
}

impl BufferId {
    ghost use Rattle.std.specs.Prelude.{◌≡◌};
    ghost use Rattle.ca_adapter_reach.specs.Names.{buffer_of_run};

    /// The buffer of a run.
    pub fn of(run: &Run) -> BufferId
        ensures { result ≡ buffer_of_run run.now }
    {
        BufferId {
            adapter: run.adapter,
            index: run.buffer,
        }
    }
}

impl ShelfName for BufferId {
    ghost use Rattle.ca_adapter_reach.specs.Names.{buffer_eq, buffer_path};

    ghost same = { buffer_eq };

    ghost path = { buffer_path };

    fn is(&self, other: &BufferId) -> bool {
        *self == *other
    }
}
