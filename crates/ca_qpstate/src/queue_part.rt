ghost use Rattle.std.specs.Prelude.{◌≡◌, IfOk};
ghost use Rattle.ca_qpstate.specs.Start.{receives_at_start};

use crate::at_start::{requester_at_start, responder_at_start};
use crate::fields::field_refusal;
use crate::state_table::is_allowed_from;
use ca_base::limits::PSN_BASE;
use ca_base::{
    Answers, Change, DomainId, Memory, ModifyRefusal, PostedSend, QueueId, RecvRequest,
    RequesterNumbers, ResponderNumbers, Settings, State, WindowCount,
};
use ca_saved::Saved;
use ca_workqueue::WorkQueue;
use std::alloc::Global;
use std::marker::Model;

/// A queue pair. What grows and what is long lies on the heap, so that a part moves as few bytes: the requests of its
/// queues, its response queue, and its saved results.
#[derive(Drop)]
pub struct QueuePart {
    pub queue: QueueId,
    pub domain: DomainId,
    pub state: State,
    /// How many queue pairs stood in the slot, and how often they were reset, this one included.
    pub incarnation: u32,
    /// The peer that was named, and the peer's incarnation.
    pub peer: Option<(QueueId, u32)>,
    /// The slots of the completion queues of its sends and its receives.
    pub send_cq: u16,
    pub recv_cq: u16,
    /// The slot of the shared receive queue from which it takes its receives.
    pub srq: Option<u16>,
    pub sends: WorkQueue<PostedSend>,
    /// Its own receives: there are none exactly where it takes them from a shared receive queue.
    pub receives: Option<WorkQueue<RecvRequest>>,
    pub requester: RequesterNumbers,
    pub responder: ResponderNumbers,
    /// What its latest atomics found.
    pub saved: Box<Saved>,
    /// How many type 2 windows are bound to it.
    pub windows: WindowCount,
    /// Where its response queue takes its memory.
    alloc: Global,
}

// contracts see the queue pair of the standard
impl Model for QueuePart {
    ghost use Rattle.ca_base.specs.objects.QueuePair.{QueuePair};

    ghost Value = { QueuePair };

    ghost use Rattle.ca_qpstate.specs.Seen.{queue_seen};

    ghost view = { queue_seen };
}

impl QueuePart {
    ghost use Rattle.std.specs.Prelude.{◌≡◌, ◌-◌, ◌^◌, ◌<◌, None, Some, IfOk, IfErr, IfNone, OnOk, OnErr};
    ghost use Rattle.ca_base.specs.objects.QueuePair as objects;
    ghost use Rattle.ca_base.specs.objects.StateTable.{queue_after_change};
    ghost use Rattle.ca_model.specs.machine.Invariants.{IsQueue, NamesPeer};
    ghost use Rattle.ca_qpstate.specs.ComesUp.{AreDepths};
    ghost use Rattle.ca_qpstate.specs.Fields.{refusal_of_change};

    /// A queue pair in Reset, over these completion queues, with queues of these depths, each 1 to 256. With a shared
    /// receive queue it has no receives of its own, and their depth says nothing. `Memory` is its only refusal. The
    /// count of the slot's timers begins at 0: it is for the caller to set where timers fired in the slot before.
    pub fn create(
        alloc: Global,
        queue: QueueId,
        domain: DomainId,
        incarnation: u32,
        send_cq: u16,
        recv_cq: u16,
        send_depth: u16,
        recv_depth: u16,
        srq: Option<u16>,
    ) -> Result<QueuePart, Memory>
        ensures value { IfOk result (λ q. q
            ≡ objects.queue_at_start queue domain incarnation 0 send_cq recv_cq send_depth recv_depth srq) }
        ensures comes_up { AreDepths send_depth recv_depth srq → IfOk result (λ q. IsQueue q) }
    {
        Ok(QueuePart {
            queue,
            domain,
            state: State::Reset,
            incarnation,
            peer: None,
            send_cq,
            recv_cq,
            srq,
            sends: WorkQueue::create(alloc, send_depth)?,
            receives: own_receives(alloc, recv_depth, srq)?,
            requester: requester_at_start(0),
            responder: responder_at_start(alloc),
            saved: Box::new(alloc, Saved::empty())?,
            windows: WindowCount { count: 0 },
            alloc,
        })
    }

    /// Where the queue pair takes its memory.
    pub fn alloc(&self) -> Global {
        self.alloc
    }

    /// Changes the state by the state table. The refusals in order are `Transition`, `OutOfRange` of the first field
    /// that is out of its range, and `WindowsBound`. It takes no memory.
    pub fn modify(&mut self, settings: &Settings, change: &Change) -> Result<(), ModifyRefusal>
        requires { self.old.incarnation < 2 ^ 32 - 1 }
        ensures accepted { OnOk result (refusal_of_change settings.now change.now self.old ≡ None) }
        ensures refused { IfErr result (λ e. refusal_of_change settings.now change.now self.old ≡ Some e) }
        ensures changed { OnOk result (self.new ≡ queue_after_change change.now self.old) }
        ensures err { OnErr result (self.new ≡ self.old) }
        ensures comes_up { IsQueue self.old → IsQueue self.new }
    {
        if let Some(refusal) = self.modify_refusal(settings, change) {
            return Err(refusal);
        }
        self.apply(change);
        Ok(())
    }

    /// Why `modify` refuses a change: the first of the state table's reasons. None comes exactly where it does not.
    pub fn modify_refusal(&self, settings: &Settings, change: &Change) -> Option<ModifyRefusal>
        ensures first { result ≡ refusal_of_change settings.now change.now self.now }
        ensures peer { IfNone result (NamesPeer change.now) }
    {
        if !is_allowed_from(change, self.state) {
            return Some(ModifyRefusal::Transition);
        }
        if let Some(refusal) = field_refusal(settings, self.queue, change) {
            return Some(refusal);
        }
        if matches!(change, Change::Reset) && self.windows.count > 0 {
            return Some(ModifyRefusal::WindowsBound);
        }
        None
    }

    /// What a change makes of the queue pair: the state table's column of effects, a row for each change.
    fn apply(&mut self, change: &Change)
        requires { self.old.incarnation < 2 ^ 32 - 1 }
        ensures { self.new ≡ queue_after_change change.now self.old }
    {
        match *change {
            Change::Init => self.state = State::Init,
            Change::Rtr {
                peer,
                incarnation,
                psn,
                mtu,
                rnr_code,
            } => {
                self.state = State::Rtr;
                self.peer = Some((peer, incarnation));
                self.responder.expected = PSN_BASE + u64::from(psn);
                self.responder.mtu = mtu;
                self.responder.rnr_code = rnr_code;
            }
            Change::Rts {
                psn,
                retry,
                rnr_retry,
                reads,
            } => {
                let psn = PSN_BASE + u64::from(psn);
                self.state = State::Rts;
                self.requester.una = psn;
                self.requester.cursor = psn;
                self.requester.oldest_psn = psn;
                self.requester.retry = retry;
                self.requester.rnr_retry = rnr_retry;
                self.requester.reads = reads;
            }
            Change::Sqd => self.state = State::Sqd,
            Change::Resume => self.state = State::Rts,
            Change::Error => {
                self.move_to_error();
                self.empty_answers();
            }
            Change::Reset => self.reset(),
        }
    }

    /// Nothing that is posted is unfinished any more, and no message is in progress. What completes by that is for the
    /// caller to say. It takes no memory.
    pub fn flush(&mut self)
        ensures { self.new ≡ objects.with_all_flushed self.old }
    {
        let next = self.sends.next_place();
        self.requester.oldest = next;
        self.requester.next = next;
        self.requester.waiting = false;
        self.responder.message = None;
        if let Some(receives) = &mut self.receives {
            receives.take_all();
        }
    }

    /// Moves to Error, where all that is posted is flushed. The response queue stays. It takes no memory.
    pub fn move_to_error(&mut self)
        ensures { self.new ≡ objects.in_error self.old }
    {
        self.flush();
        self.state = State::Error;
    }

    /// Empties the response queue. It takes no memory.
    pub fn empty_answers(&mut self)
        ensures { self.new ≡ objects.without_answers self.old }
    {
        self.responder.answers = Answers::empty(self.alloc);
    }

    /// Empties queues and numbers, but for the count of timers, and begins the next incarnation.
    fn reset(&mut self)
        requires { self.old.incarnation < 2 ^ 32 - 1 }
        ensures { self.new ≡ objects.after_reset self.old }
    {
        self.state = State::Reset;
        self.incarnation += 1;
        self.peer = None;
        self.sends.reset();
        if let Some(receives) = &mut self.receives {
            receives.reset();
        }
        self.requester = requester_at_start(self.requester.timers);
        self.responder = responder_at_start(self.alloc);
        *self.saved = Saved::empty();
    }
}

/// The receives of its own of a queue pair that takes none from a shared receive queue.
fn own_receives(
    alloc: Global,
    depth: u16,
    srq: Option<u16>,
) -> Result<Option<WorkQueue<RecvRequest>>, Memory>
    ensures { IfOk result (λ receives. receives ≡ receives_at_start depth srq) }
{
    match srq {
        Some(_) => Ok(None),
        None => Ok(Some(WorkQueue::create(alloc, depth)?)),
    }
}
