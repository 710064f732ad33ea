use ca_adapter_reach::ca_memory::Buffer;
use ca_adapter_reach::ca_region::Region;
use ca_adapter_reach::ca_window::Window;
use ca_cq::Cq;
use ca_mailbox::Mailbox;
use ca_qpstate::QueuePart;
use ca_srq::Srq;
use std::marker::Model;

/// A part of a fabric: what is taken and given back as one. A queue pair's part stands in a box, so that a part moves
/// as few bytes.
#[derive(Drop)]
pub enum Part {
    Control(ControlPart),
    Queue(Box<QueueSlot>),
    Mailbox(Mailbox),
    Cq(Option<Cq>),
    Srq(SrqSlot),
    Window(Window),
    Region(Region),
    Buffer(Buffer),
}

/// A protection domain: whether it is allocated, and how many objects it has.
#[derive(Clone, Copy)]
pub struct ControlPart {
    pub allocated: bool,
    pub objects: u32,
}

impl Model for ControlPart {
    ghost use Rattle.ca_base.specs.objects.Domain.{Domain};

    ghost Value = { Domain };

    ghost view = { λ d. record { allocated = d.allocated; objects = d.objects } };

    ghost inverse = { λ d. record { allocated = d.allocated; objects = d.objects } };
}

impl ControlPart {
    ghost use Rattle.std.specs.Prelude.{◌≡◌, ◌<◌};
    ghost use Rattle.ca_base.specs.objects.Domain.{with_allocation, with_object, without_object};

    /// Allocated, or not any more.
    pub fn with_allocation(self, allocated: bool) -> ControlPart
        ensures { result ≡ with_allocation allocated self }
    {
        ControlPart {
            allocated,
            objects: self.objects,
        }
    }

    /// One object more.
    pub fn with_object(self) -> ControlPart
        requires { self.objects < u32.MAX }
        ensures { result ≡ with_object self }
    {
        ControlPart {
            allocated: self.allocated,
            objects: self.objects + 1,
        }
    }

    /// One object fewer.
    pub fn without_object(self) -> ControlPart
        ensures { result ≡ without_object self }
    {
        ControlPart {
            allocated: self.allocated,
            objects: self.objects.saturating_sub(1),
        }
    }
}

/// The slot of a queue pair. A vacant one keeps its incarnation and its count of timers.
#[derive(Drop)]
pub enum QueueSlot {
    Vacant { incarnation: u32, timers: u64 },
    Present(QueuePart),
}

/// The slot of a shared receive queue, and how many queue pairs use it.
#[derive(Drop)]
pub struct SrqSlot {
    pub srq: Option<Srq>,
    pub users: u32,
}

impl Model for SrqSlot {
    ghost use Rattle.ca_base.specs.objects.SharedReceives.{SrqSlot};

    ghost Value = { SrqSlot };

    ghost view = { λ s. record { srq = s.srq; users = s.users } };
}
