ghost use Rattle.std.specs.Prelude.{◌≡◌, ◌+◌, ◌<◌, ◌^◌, false, List, ◌∷◌, replicate, slice_set, IfOk};
ghost use Rattle.ca_engine.specs.declared.offer.Offer.{Offer};
ghost use Rattle.ca_engine.specs.declared.offer.Offer.TheVariants as offers;
ghost use Rattle.ca_model.specs.declared.part_name.PartName.{PartName};
ghost use Rattle.ca_model.specs.machine.World.{World};
ghost use Rattle.ca_adapter_store.specs.Hand.{names_of};
ghost use Rattle.ca_adapter_store.specs.Rest.{KeepsRest};
ghost use Rattle.ca_script_run.specs.Known as places;
ghost use Rattle.ca_script_run.specs.Known.{AreKnown, AreKnownFrom, AreLeft, ComesTo, Forgets, IsOfferedAt, PassesOver};
ghost use Rattle.ca_script_run.specs.Vain.{IsIdle};

use ca_adapter_store::Taken;
use ca_base::limits::MAX_DOMAINS;
use ca_base::{Config, Memory, QueueId, Turn};
use ca_engine::Engine;
use ca_model::PartName;
use std::alloc::Global;

/// So many offers of a round are a block.
pub(crate) const BLOCK: usize = 32;

/// Which turns of a round are known to be in vain: by their places in it, and blocks of which all are. `starts` has where
/// the turns of each domain begin. What is known stands as long as no event had the part of the turn in hand.
#[derive(Drop)]
pub(crate) struct Known {
    pub(crate) starts: Vec<u32>,
    pub(crate) offers: Vec<bool>,
    pub(crate) blocks: Vec<bool>,
}

impl Known {
    /// Nothing is known of the rounds of a configuration with so many consumers. It takes no memory later.
    pub(crate) fn new(alloc: Global, config: &Config, consumers: u32) -> Result<Known, Memory>
        ensures { IfOk result (λ known. (round : List Offer) (w : World) → AreKnown round w known) }
    {
        let mut starts = Vec::new(alloc);
        let mut next = consumers;
        for adapter in config.adapters.as_slice() {
            for domain in 0..MAX_DOMAINS {
                starts.push(next)?;
                if domain < adapter.domains {
                    next = next.saturating_add(3 * u32::from(adapter.qps));
                }
            }
        }
        Ok(Known {
            starts,
            offers: clear_flags(alloc, next as usize)?,
            blocks: clear_flags(alloc, next as usize / BLOCK)?,
        })
    }

    /// Goes past the offers from where an engine stands that are known to be in vain, after so many events.
    pub(crate) fn pass_over(&mut self, engine: &mut Engine, now: u64)
        ensures known { (round : List Offer) (w : World) → AreKnown round w self.old → AreKnown round w self.new }
        ensures engine { (w : World) → AreKnown engine.old.round w self.old → PassesOver w now engine.old engine.new }
    {
        if let Some(place) = engine.place() {
            let upto = self.end_from(place);
            engine.pass_over(upto - place, now);
        }
    }

    /// The first place from this one on that is not known to be in vain. It notes the blocks that lie between.
    fn end_from(&mut self, place: usize) -> usize
        ensures { ComesTo place result self.old self.new }
    {
        let mut upto = place;
        for _ in 0..self.offers.len() {
            let more = self.known_at(upto);
            if more == 0 {
                return upto;
            }
            upto += more;
            self.note_block(place, upto);
        }
        upto
    }

    /// How many turns from this place on are seen at once to be known: those of a block, one or none.
    fn known_at(&self, place: usize) -> usize
        ensures known { (round : List Offer) (w : World) → AreKnown round w self.now
            → AreKnownFrom self.now.starts.items round w place (place + result) }
        ensures room { place + result < 2 ^ 64 }
    {
        if place > usize::MAX - BLOCK {
            0
        } else if place % BLOCK == 0 && is_set(self.blocks.as_slice(), place / BLOCK) {
            BLOCK
        } else if is_set(self.offers.as_slice(), place) {
            1
        } else {
            0
        }
    }

    /// Notes the block that ends here, if all of it is known.
    fn note_block(&mut self, from: usize, upto: usize)
        ensures starts { self.new.starts ≡ self.old.starts }
        ensures known { (round : List Offer) (w : World) → AreKnown round w self.old
            → AreKnownFrom self.old.starts.items round w from upto → AreKnown round w self.new }
    {
        if upto % BLOCK == 0 && upto >= BLOCK && upto - BLOCK >= from {
            set(&mut self.blocks, upto / BLOCK - 1, true);
        }
    }

    /// Notes that a turn is in vain that is offered at this place.
    pub(crate) fn note(&mut self, place: Option<usize>, turn: Turn)
        ensures { (round : List Offer) (w : World) → AreKnown round w self.old → IsOfferedAt round place (offers.Turn turn)
            → IsIdle w turn → AreKnown round w self.new }
    {
        let (Some(place), Some(own)) = (place, self.place_of(turn)) else {
            return;
        };
        if own == place {
            set(&mut self.offers, place, true);
        }
    }

    /// Forgets what is known by these parts, which were in hand.
    pub(crate) fn forget(&mut self, taken: &[Taken])
        ensures { (round : List Offer) (w v : World) → AreKnown round w self.old → KeepsRest (names_of taken.now) w v
            → AreKnown round v self.new }
    {
        for one in taken {
            self.forget_part(one.name);
        }
    }

    /// Forgets what is known by a part.
    fn forget_part(&mut self, name: PartName)
        ensures { (round : List Offer) (w : World) (rest all : List PartName) → AreLeft round w (name ∷ rest) all self.old
            → AreLeft round w rest all self.new }
    {
        match name {
            PartName::Mailbox(queue) => self.forget_place(self.start_of(queue)),
            PartName::Queue(queue) => {
                let start = self.start_of(queue);
                self.forget_place(start + 1);
                self.forget_place(start + 2);
            }
            _ => {}
        }
    }

    /// Forgets what is known of the turn at a place.
    fn forget_place(&mut self, place: usize)
        ensures { Forgets place self.old self.new }
    {
        set(&mut self.offers, place, false);
        set(&mut self.blocks, place / BLOCK, false);
    }

    /// Where a turn stands in a round. None comes for one that no round has.
    fn place_of(&self, turn: Turn) -> Option<usize>
        ensures { result ≡ places.place_of_turn self.now.starts.items turn }
    {
        match turn {
            Turn::Due(queue) => Some(self.start_of(queue)),
            Turn::Respond(queue) => Some(self.start_of(queue) + 1),
            Turn::Request(queue) => Some(self.start_of(queue) + 2),
            Turn::Deliver(_, _) | Turn::Timeout(_) | Turn::RnrWake(_) => None,
        }
    }

    /// Where the first turn of a queue pair stands in a round.
    fn start_of(&self, queue: QueueId) -> usize
        ensures value { result ≡ places.start_of self.now.starts.items queue }
        ensures few { result < 2 ^ 33 }
    {
        let domain = usize::from(queue.adapter) * usize::from(MAX_DOMAINS)
            + (queue.number / 256).saturating_sub(1) as usize;
        match self.starts.as_slice().get(domain) {
            Some(start) => *start as usize + 3 * (queue.number % 256) as usize,
            None => 0,
        }
    }
}

/// So many flags, none of which is set.
fn clear_flags(alloc: Global, count: usize) -> Result<Vec<bool>, Memory>
    ensures { IfOk result (λ flags. flags.items ≡ replicate count false) }
{
    Ok(vec![in alloc; false; count]?)
}

/// Whether there is a flag at a place that is set.
fn is_set(flags: &[bool], place: usize) -> bool
    ensures { result ≡ places.is_set flags.now place }
{
    match flags.get(place) {
        Some(flag) => *flag,
        None => false,
    }
}

/// Sets a flag, if there is one at this place.
fn set(flags: &mut Vec<bool>, place: usize, value: bool)
    ensures { flags.new.items ≡ slice_set flags.old.items place value }
{
    if place < flags.len() {
        flags[place] = value;
    }
}
