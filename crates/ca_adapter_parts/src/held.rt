use crate::part::{ControlPart, Part, QueueSlot, SrqSlot};
use ca_adapter_reach::ca_memory::Buffer;
use ca_adapter_reach::ca_region::Region;
use ca_adapter_reach::ca_window::Window;
use ca_adapter_reach::{BufferId, Reached, Shelf};
use ca_base::{DomainId, Memory, QueueId, Run, Slot};
use ca_cq::Cq;
use ca_mailbox::Mailbox;
use ca_qpstate::ca_model::PartName;
use std::alloc::Global;

/// The parts in hand, by kinds. What an engine reaches by keys stands by itself, so that a packet can stay lent from
/// its mailbox while a queue pair and what it reaches change.
#[derive(Drop)]
pub struct Held {
    pub controls: Shelf<DomainId, ControlPart>,
    pub queues: Shelf<QueueId, Box<QueueSlot>>,
    pub mailboxes: Shelf<QueueId, Mailbox>,
    pub cqs: Shelf<Slot, Option<Cq>>,
    pub srqs: Shelf<Slot, SrqSlot>,
    pub reached: Reached,
}

impl Held {
    ghost use Rattle.std.specs.Prelude.{◌≡◌, ◌+◌, ◌<◌, ◌≤◌, ◌++◌, [], ◌∷◌, true, false, Some, is_some, length};
    ghost use Rattle.std.specs.Prelude.{IfSome, IsTrue, OnErr, OnOk};
    ghost use Rattle.std.specs.Borrow.{sem};
    ghost use Rattle.ca_adapter_parts.specs.Lending as lending;
    ghost use Rattle.ca_qpstate.specs.ca_model.machine.World.{Domain_of, Region_of, Window_of, Cq_of, Srq_of};
    ghost use Rattle.ca_qpstate.specs.ca_model.machine.World.{Queue_of, Mailbox_of};
    ghost use Rattle.ca_adapter_parts.specs.HeldView.{IsRunHeld, holding, room_for, with_bytes};
    ghost use Rattle.ca_adapter_parts.specs.Taking.{is_of_kind, nothing_held, with_part, without_part};
    ghost use Rattle.ca_qpstate.specs.ca_model.declared.part_name.PartName.{PartName};
    ghost use Rattle.ca_adapter_reach.specs.Names.{buffer_eq};
    ghost use Rattle.ca_keys.specs.Memory.{bytes_at};
    ghost use Rattle.ca_adapter_reach.specs.Shelved.{has_thing, thing_under};
    ghost use Rattle.ca_adapter_parts.specs.Parts.{slot_of};

    /// No parts. It takes no memory; what is reserved later comes from `alloc`.
    #[tactic(auto, unfolding(crate::specs::HeldView::holding))]
    pub fn empty(alloc: Global) -> Held
        ensures { holding result ≡ nothing_held }
    {
        Held {
            controls: Shelf::empty(alloc),
            queues: Shelf::empty(alloc),
            mailboxes: Shelf::empty(alloc),
            cqs: Shelf::empty(alloc),
            srqs: Shelf::empty(alloc),
            reached: Reached {
                windows: Shelf::empty(alloc),
                regions: Shelf::empty(alloc),
                buffers: Shelf::empty(alloc),
            },
        }
    }

    /// Makes room for at least so many more parts of each kind. `Memory` leaves what is held as it was.
    #[tactic(auto, using(crate::proofs::TakingLemmas::holds_same))]
    pub fn reserve(&mut self, n: u8) -> Result<(), Memory>
        ensures room { OnOk result ((p : PartName) → n ≤ room_for self.new p) }
        ensures same { holding self.new ≡ holding self.old }
    {
        self.controls.reserve(n)?;
        self.queues.reserve(n)?;
        self.mailboxes.reserve(n)?;
        self.cqs.reserve(n)?;
        self.srqs.reserve(n)?;
        self.reached.windows.reserve(n)?;
        self.reached.regions.reserve(n)?;
        self.reached.buffers.reserve(n)?;
        Ok(())
    }

    /// Whether a part is held. It takes no memory.
    #[tactic(auto, unfolding(crate::specs::HeldView::holding))]
    pub fn has(&self, name: &PartName) -> bool
        ensures { result ≡ (holding self.now).parts name.now }
    {
        match *name {
            PartName::Control(name) => self.controls.has(name),
            PartName::Queue(name) => self.queues.has(name),
            PartName::Mailbox(name) => self.mailboxes.has(name),
            PartName::Cq(name) => self.cqs.has(name),
            PartName::Srq(name) => self.srqs.has(name),
            PartName::Window(name) => self.reached.windows.has(name),
            PartName::Region(name) => self.reached.regions.has(name),
            PartName::Buffer { adapter, index } => {
                self.reached.buffers.has(BufferId { adapter, index })
            }
        }
    }

    /// Adds a part under its name, in the room that was made for its kind. It takes no memory, and no part is copied.
    #[tactic(auto, using(crate::proofs::TakingLemmas::adding))]
    pub fn add(&mut self, name: PartName, part: Part)
        requires kind { is_of_kind name part ≡ true }
        requires free { (holding self.old).parts name ≡ false }
        requires room { 0 < room_for self.old name }
        ensures held { holding self.new ≡ with_part name part (holding self.old) }
        ensures room { (p : PartName) → room_for self.old p ≤ room_for self.new p + 1 }
    {
        match (name, part) {
            (PartName::Control(name), Part::Control(part)) => self.controls.add(name, part),
            (PartName::Queue(name), Part::Queue(part)) => self.queues.add(name, part),
            (PartName::Mailbox(name), Part::Mailbox(part)) => self.mailboxes.add(name, part),
            (PartName::Cq(name), Part::Cq(part)) => self.cqs.add(name, part),
            (PartName::Srq(name), Part::Srq(part)) => self.srqs.add(name, part),
            (PartName::Window(name), Part::Window(part)) => self.reached.windows.add(name, part),
            (PartName::Region(name), Part::Region(part)) => self.reached.regions.add(name, part),
            (PartName::Buffer { adapter, index }, Part::Buffer(part)) => {
                self.reached.buffers.add(BufferId { adapter, index }, part)
            }
            _ => unreachable!(),
        }
    }

    /// Takes the part of a name, as the small world had it. None comes exactly where it is not held. It takes no
    /// memory, and no part is copied.
    #[tactic(auto, using(crate::proofs::TakingLemmas::removing))]
    pub fn remove(&mut self, name: PartName) -> Option<Part>
        ensures there { is_some result ≡ (holding self.old).parts name }
        ensures kind { IfSome result (λ part. is_of_kind name part ≡ true) }
        ensures part { IfSome result (λ part. with_part name part (holding self.new) ≡ holding self.old) }
        ensures held { holding self.new ≡ without_part name (holding self.old) }
        ensures room { (p : PartName) → room_for self.old p ≤ room_for self.new p }
    {
        Some(match name {
            PartName::Control(name) => Part::Control(self.controls.remove(name)?),
            PartName::Queue(name) => Part::Queue(self.queues.remove(name)?),
            PartName::Mailbox(name) => Part::Mailbox(self.mailboxes.remove(name)?),
            PartName::Cq(name) => Part::Cq(self.cqs.remove(name)?),
            PartName::Srq(name) => Part::Srq(self.srqs.remove(name)?),
            PartName::Window(name) => Part::Window(self.reached.windows.remove(name)?),
            PartName::Region(name) => Part::Region(self.reached.regions.remove(name)?),
            PartName::Buffer { adapter, index } => {
                Part::Buffer(self.reached.buffers.remove(BufferId { adapter, index })?)
            }
        })
    }

    /// A protection domain that is held.
    #[tactic(auto, unfolding(crate::specs::HeldView::holding))]
    pub fn control(&self, name: DomainId) -> &ControlPart
        requires { (holding self.now).has (Domain_of name) ≡ true }
        ensures { result.now ≡ (holding self.now).world.domain name }
    {
        self.controls.at(name)
    }

    /// A mailbox that is held.
    #[tactic(auto, unfolding(crate::specs::HeldView::holding))]
    pub fn mailbox(&self, name: QueueId) -> &Mailbox
        requires { (holding self.now).has (Mailbox_of name) ≡ true }
        ensures { result.now ≡ (holding self.now).world.mailbox name }
    {
        self.mailboxes.at(name)
    }

    /// A completion queue that is held, or its vacant slot.
    #[tactic(auto, unfolding(crate::specs::HeldView::holding))]
    pub fn cq(&self, name: Slot) -> &Option<Cq>
        requires { (holding self.now).has (Cq_of name) ≡ true }
        ensures { result.now ≡ (holding self.now).world.cq name }
    {
        self.cqs.at(name)
    }

    /// A shared receive queue that is held, or its vacant slot.
    #[tactic(auto, unfolding(crate::specs::HeldView::holding))]
    pub fn srq(&self, name: Slot) -> &SrqSlot
        requires { (holding self.now).has (Srq_of name) ≡ true }
        ensures { result.now ≡ (holding self.now).world.srq name }
    {
        self.srqs.at(name)
    }

    /// A queue pair's slot that is held.
    #[tactic(auto, unfolding(crate::specs::HeldView::holding))]
    pub fn queue(&self, name: QueueId) -> &QueueSlot
        requires { (holding self.now).has (Queue_of name) ≡ true }
        ensures { slot_of result.now ≡ (holding self.now).world.queue name }
    {
        self.queues.at(name)
    }

    /// A window that is held.
    #[tactic(auto, unfolding(crate::specs::HeldView::holding))]
    pub fn window(&self, name: Slot) -> &Window
        requires { (holding self.now).has (Window_of name) ≡ true }
        ensures { result.now ≡ (holding self.now).world.window name }
    {
        self.reached.windows.at(name)
    }

    /// A region that is held.
    #[tactic(auto, unfolding(crate::specs::HeldView::holding))]
    pub fn region(&self, name: Slot) -> &Region
        requires { (holding self.now).has (Region_of name) ≡ true }
        ensures { result.now ≡ (holding self.now).world.region name }
    {
        self.reached.regions.at(name)
    }

    /// A protection domain that is held, to change.
    #[tactic(auto, unfolding(crate::specs::HeldView::holding, crate::specs::HeldView::with_control))]
    pub fn control_mut(&mut self, name: DomainId) -> &mut ControlPart
        requires { (holding self.old).has (Domain_of name) ≡ true }
        ensures* writes_back { sem 𝓛 (lending.LendsControl self.entry name result) }
        ensures value { result.now ≡ (holding self.old).world.domain name }
    {
        self.controls.at_mut(name)
    }

    /// A mailbox that is held, to change.
    #[tactic(auto, unfolding(crate::specs::HeldView::holding, crate::specs::HeldView::with_mailbox))]
    pub fn mailbox_mut(&mut self, name: QueueId) -> &mut Mailbox
        requires { (holding self.old).has (Mailbox_of name) ≡ true }
        ensures* writes_back { sem 𝓛 (lending.LendsMailbox self.entry name result) }
        ensures value { result.now ≡ (holding self.old).world.mailbox name }
    {
        self.mailboxes.at_mut(name)
    }

    /// A completion queue that is held, or its vacant slot, to change.
    #[tactic(auto, unfolding(crate::specs::HeldView::holding, crate::specs::HeldView::with_cq))]
    pub fn cq_mut(&mut self, name: Slot) -> &mut Option<Cq>
        requires { (holding self.old).has (Cq_of name) ≡ true }
        ensures* writes_back { sem 𝓛 (lending.LendsCq self.entry name result) }
        ensures value { result.now ≡ (holding self.old).world.cq name }
    {
        self.cqs.at_mut(name)
    }

    /// A shared receive queue that is held, or its vacant slot, to change.
    #[tactic(auto, unfolding(crate::specs::HeldView::holding, crate::specs::HeldView::with_srq))]
    pub fn srq_mut(&mut self, name: Slot) -> &mut SrqSlot
        requires { (holding self.old).has (Srq_of name) ≡ true }
        ensures* writes_back { sem 𝓛 (lending.LendsSrq self.entry name result) }
        ensures value { result.now ≡ (holding self.old).world.srq name }
    {
        self.srqs.at_mut(name)
    }

    /// A window that is held, to change.
    #[tactic(auto, unfolding(crate::specs::HeldView::holding, crate::specs::HeldView::with_window))]
    pub fn window_mut(&mut self, name: Slot) -> &mut Window
        requires { (holding self.old).has (Window_of name) ≡ true }
        ensures* writes_back { sem 𝓛 (lending.LendsWindow self.entry name result) }
        ensures value { result.now ≡ (holding self.old).world.window name }
    {
        let reached = &mut self.reached;
        reached.windows.at_mut(name)
    }

    /// A region that is held, to change.
    #[tactic(auto, unfolding(crate::specs::HeldView::holding, crate::specs::HeldView::with_region))]
    pub fn region_mut(&mut self, name: Slot) -> &mut Region
        requires { (holding self.old).has (Region_of name) ≡ true }
        ensures* writes_back { sem 𝓛 (lending.LendsRegion self.entry name result) }
        ensures value { result.now ≡ (holding self.old).world.region name }
    {
        let reached = &mut self.reached;
        reached.regions.at_mut(name)
    }

    /// A queue pair's slot that is held, to change.
    #[tactic(auto, unfolding(crate::specs::HeldView::holding, crate::specs::HeldView::with_queue))]
    pub fn queue_mut(&mut self, name: QueueId) -> &mut QueueSlot
        requires { (holding self.old).has (Queue_of name) ≡ true }
        ensures* writes_back { sem 𝓛 (lending.LendsQueue self.entry name result) }
        ensures value { slot_of result.now ≡ (holding self.old).world.queue name }
    {
        let slot = self.queues.at_mut(name);
        &mut **slot
    }

    /// Appends the bytes at the places of a run whose buffer is held, in order. `Memory` leaves `out` as it was.
    #[tactic(auto, using(crate::proofs::ByteLemmas::reading))]
    pub fn read_run(&self, at: &Run, out: &mut Vec<u8>) -> Result<(), Memory>
        requires some { 0 < at.now.length }
        requires run { IsRunHeld (holding self.now) at.now }
        ensures bytes { OnOk result (out.new.items
            ≡ out.old.items ++ bytes_at (holding self.now).world.byte (at.now ∷ [])) }
        ensures err { OnErr result (out.new.items ≡ out.old.items) }
    {
        let name = BufferId::of(at);
        self.reached.buffers.at(name).read(at, out)
    }

    /// Puts bytes to the places of a run whose buffer is held, in order. There are as many as the run has places.
    #[tactic(auto, using(crate::proofs::ByteLemmas::writing))]
    pub fn write_run(&mut self, at: &Run, bytes: &[u8])
        requires some { 0 < at.now.length }
        requires run { IsRunHeld (holding self.old) at.now }
        requires count { length bytes.now ≡ at.now.length }
        ensures { holding self.new ≡ with_bytes (holding self.old) at.now bytes.now }
    {
        let name = BufferId::of(at);
        self.buffer_mut(name).write(at, bytes);
    }

    // A buffer that is held, to change.
    #[tactic(auto, unfolding(crate::specs::HeldView::with_buffer))]
    fn buffer_mut(&mut self, name: BufferId) -> &mut Buffer
        requires { IsTrue (has_thing buffer_eq name self.old.reached.buffers.things) }
        ensures* writes_back { sem 𝓛 (lending.LendsBuffer self.entry name result) }
        ensures value { Some result.now ≡ thing_under buffer_eq name self.old.reached.buffers.things }
    {
        let reached = &mut self.reached;
        reached.buffers.at_mut(name)
    }
}
