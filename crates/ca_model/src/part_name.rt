use ca_base::{DomainId, QueueId, Slot};

/// The name of a part of a fabric: what is taken and given back as one.
///
/// A domain's control part tells whether it is allocated and how many objects it has. A queue pair has two parts, its own
/// and its mailbox. A buffer is a part, with all its bytes.
#[derive(Clone, Copy, PartialEq, Eq)]
pub enum PartName {
    /// The control part of a protection domain.
    Control(DomainId),
    /// A queue pair, or its vacant slot.
    Queue(QueueId),
    /// The packets under way to a queue pair.
    Mailbox(QueueId),
    /// A completion queue, or its vacant slot.
    Cq(Slot),
    /// A shared receive queue, or its vacant slot.
    Srq(Slot),
    /// A memory window, or its vacant slot.
    Window(Slot),
    /// A memory region, or its vacant slot.
    Region(Slot),
    /// A buffer of an adapter, by its number there.
    Buffer { adapter: u8, index: u16 },
}
