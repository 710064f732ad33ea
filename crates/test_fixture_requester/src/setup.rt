ghost use Rattle.std.specs.Prelude.{IfSome};
ghost use Rattle.ca_model.specs.machine.Invariants.{IsQueue};
ghost use Rattle.test_fixture_requester.specs.Bed as beds;

use crate::bed::Bed;
use arrayvec::ArrayVec;
use ca_base::{AdapterConfig, Config, QueueId, Reason, Rights, Run, Settings, Slot};
use ca_model::{Answer, Verb};
use ca_qpstate::QueuePart;
use ca_trace::{Line, Told};
use ca_trace_read_lines::read_line;
use std::alloc::Global;
use test_fixture_reach::SmallReach;

/// How many requests or receives a queue of a run takes.
const DEPTH: u16 = 256;

/// A queue pair, the run of its region, and the region's slot and rights. `srq` is the slot of its shared receive queue;
/// without one it has receives of its own.
#[derive(Clone, Copy)]
pub struct Setup {
    pub queue: QueueId,
    pub srq: Option<u16>,
    pub slot: Slot,
    pub at: Run,
    pub rights: Rights,
}

fn adapter() -> AdapterConfig {
    AdapterConfig {
        buffers: ArrayVec::new(),
        domains: 16,
        regions: 256,
        windows: 256,
        cqs: 64,
        srqs: 64,
        qps: 64,
    }
}

/// Four adapters of many domains.
pub fn settings() -> Settings {
    let mut adapters = ArrayVec::new();
    for _ in 0..4 {
        let _ = adapters.try_push(adapter());
    }
    Settings::of(&Config {
        adapters,
        events: 100,
    })
}

// The queue pair in Reset.
#[tactic(auto, using(crate::proofs::Kept::full_depths))]
fn queue_of_setup(alloc: Global, setup: &Setup) -> Option<QueuePart>
    ensures { IfSome result (λ q. IsQueue q) }
{
    let (name, domain) = (setup.queue, setup.slot.domain);
    match QueuePart::create(alloc, name, domain, 1, 0, 0, DEPTH, DEPTH, setup.srq) {
        Ok(queue) => Some(queue),
        Err(_) => None,
    }
}

/// The queue pair in Reset, over its region, behind which the buffer ends.
pub fn bed_of(alloc: Global, setup: &Setup) -> Option<Bed>
    ensures { IfSome result beds.Stands }
{
    let slot = setup.slot;
    if slot.slot >= 32768 || setup.at.adapter != slot.domain.adapter {
        return None;
    }
    let bytes = setup.at.offset.checked_add(setup.at.length)?;
    let reach = SmallReach::registered(alloc, slot, setup.at, bytes, setup.rights).ok()?;
    let queue = queue_of_setup(alloc, setup)?;
    Some(Bed { queue, reach })
}

// The region that a line registers: its slot, its run, and its rights.
fn region_in(alloc: Global, line: &str) -> Option<(Slot, Run, Rights)> {
    match read_line(alloc, line.as_bytes()) {
        Ok(
            Line::Call {
                verb: Verb::RegMr {
                    slot,
                    buffer,
                    offset,
                    length,
                    rights,
                },
                ..
            },
        ) => {
            let at = Run {
                adapter: slot.domain.adapter,
                buffer,
                offset,
                length,
            };
            Some((slot, at, rights))
        }
        _ => None,
    }
}

// The queue pair that a line creates, and its shared receive queue.
fn queue_in(alloc: Global, line: &str) -> Option<(QueueId, Option<u16>)> {
    match read_line(alloc, line.as_bytes()) {
        Ok(
            Line::Call {
                verb: Verb::CreateQp { slot, srq, .. },
                told: Told::Whole(Answer::Queue { number, .. }),
                ..
            },
        ) => {
            let queue = QueueId {
                adapter: slot.domain.adapter,
                number,
            };
            Some((queue, srq))
        }
        _ => None,
    }
}

/// What the first two lines of a run register and create, and the lines behind them.
pub fn setup_in(alloc: Global, text: &str) -> Option<(Setup, &str)> {
    let (first, rest) = text.split_once('\n')?;
    let (second, rest) = rest.split_once('\n')?;
    let (slot, at, rights) = region_in(alloc, first)?;
    let (queue, srq) = queue_in(alloc, second)?;
    let setup = Setup {
        queue,
        srq,
        slot,
        at,
        rights,
    };
    Some((setup, rest))
}

/// The line of a reason.
pub fn reason_text(reason: Reason) -> &'static str {
    match reason {
        Reason::Empty => " reason empty\n",
        Reason::State => " reason state\n",
        Reason::NoRoom => " reason no-room\n",
        Reason::Fence => " reason fence\n",
        Reason::Outstanding => " reason outstanding\n",
        Reason::RnrWait => " reason rnr-wait\n",
        Reason::NotKept => " reason not-kept\n",
        Reason::NotDue => " reason not-due\n",
    }
}
