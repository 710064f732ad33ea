use crate::offer::Offer;
use crate::offers::{queues_of, round_of, timers_of};
use crate::outcome::Outcome;
use crate::pass::Pass;
use ca_base::{Config, Memory};
use std::alloc::Global;
use std::marker::Model;

/// Where the order of a script stands. Contracts see what a round and what a timer pass offer, which of the two goes
/// on and what is left of it, whether something happened since the round began, and the clock of the latest that was
/// not ready since then.
#[derive(Drop)]
pub struct Engine {
    round: Vec<Offer>,
    timers: Vec<Offer>,
    pass: Pass,
    place: usize,
    happened: bool,
    clock: Option<u64>,
}

impl Model for Engine {
    ghost use Rattle.std.specs.Prelude.{◌≤◌, drop, length};
    ghost use Rattle.ca_engine.specs.Engine.{EngineValue, offers_of_pass};

    ghost Value = { EngineValue };

    ghost view = { λ e. record {
      round = e.round.items;
      timers = e.timers.items;
      pass = e.pass;
      left = drop e.place (offers_of_pass e.pass e.round.items e.timers.items);
      happened = e.happened;
      clock = e.clock;
    } };

    ghost invariant = { λ e. e.place ≤ length (offers_of_pass e.pass e.round.items e.timers.items) };
}

impl Engine {
    ghost use Rattle.std.specs.Prelude.{◌≡◌, ◌<◌, drop, false, length, None, IfOk, IfSome};
    ghost use Rattle.ca_base.specs.Configuration.{configuration_of};
    ghost use Rattle.ca_engine.specs.declared.outcome.Outcome.TheVariants as outcomes;
    ghost use Rattle.ca_engine.specs.Engine.{at_next, at_round, at_timers, behind_round, engine_after, is_over, offer_of, offers_of_pass, opening_engine, with_outcome};
    ghost use Rattle.ca_engine.specs.Passing.{gone_past_all, has_other_clock, most_passed, passed_over};
    ghost use Rattle.ca_engine.specs.declared.pass.Pass.TheVariants as passes;

    /// An engine before its first round, for the queue pairs of a configuration and so many consumers. What it offers
    /// it keeps as lists, and takes no memory later.
    pub fn new(alloc: Global, config: &Config, consumers: u32) -> Result<Engine, Memory>
        ensures { IfOk result (λ e. e ≡ opening_engine (configuration_of config.now) consumers) }
    {
        let queues = queues_of(alloc, config)?;
        Ok(Engine {
            round: round_of(alloc, consumers, &queues)?,
            timers: timers_of(alloc, &queues)?,
            pass: Pass::Round,
            place: 0,
            happened: false,
            clock: None,
        })
    }

    /// What stands next in the order: a consumer or a turn, or Quiet. It takes no memory.
    pub fn next(&mut self) -> Offer
        ensures offer { result ≡ offer_of self.old }
        ensures engine { self.new ≡ self.old }
    {
        self.offer()
    }

    /// Goes on by what came of what stands next. A timer that fires, a round in which something happened, and
    /// whatever is told of Quiet lead to a new round. It takes no memory.
    pub fn tell(&mut self, outcome: Outcome)
        ensures { self.new ≡ engine_after self.old outcome }
    {
        if self.is_at_end() {
            self.begin_round();
        } else {
            self.note(outcome);
            self.go_on();
        }
    }

    /// How many offers of a round lie behind; none comes in a timer pass. It takes no memory.
    pub fn place(&self) -> Option<usize>
        ensures some { IfSome result (λ place. (self.now.pass ≡ passes.Round) × (self.now.left ≡ drop place self.now.round)) }
        ensures none { result ≡ None → self.now.pass ≡ passes.Timers }
    {
        match self.pass {
            Pass::Round => Some(self.place),
            Pass::Timers => None,
        }
    }

    /// Goes past so many offers of a round as if each was told to be not ready at this clock, but never past the last of
    /// the round, and past none of a timer pass. It takes no memory, and no more time for many than for one.
    pub fn pass_over(&mut self, count: usize, now: u64)
        ensures { self.new ≡ passed_over self.old count now }
    {
        let passed = self.most_passed(count);
        if passed > 0 {
            self.go_past_all(passed, now);
        }
    }

    /// How many offers of so many are gone past.
    fn most_passed(&self, count: usize) -> usize
        ensures { result ≡ most_passed self.now count }
    {
        match self.pass {
            Pass::Round => count.min((self.round.len() - self.place).saturating_sub(1)),
            Pass::Timers => 0,
        }
    }

    /// Goes past so many offers, behind which there are more, that are not ready at this clock.
    fn go_past_all(&mut self, count: usize, now: u64)
        requires some { 0 < count }
        requires more { count < length self.old.left }
        ensures { self.new ≡ gone_past_all self.old count now }
    {
        self.happened = self.happened || self.has_other_clock(now);
        self.clock = Some(now);
        self.place += count;
    }

    /// Whether the latest that was not ready was so at another clock.
    fn has_other_clock(&self, now: u64) -> bool
        ensures { result ≡ has_other_clock self.now.clock now }
    {
        match self.clock {
            Some(clock) => clock != now,
            None => false,
        }
    }

    /// What the pass that goes on offers.
    fn offers(&self) -> &[Offer]
        ensures { result.now ≡ offers_of_pass self.now.pass self.now.round self.now.timers }
    {
        match self.pass {
            Pass::Round => self.round.as_slice(),
            Pass::Timers => self.timers.as_slice(),
        }
    }

    /// What stands next.
    fn offer(&self) -> Offer
        ensures { result ≡ offer_of self.now }
    {
        match self.offers().get(self.place) {
            Some(offer) => *offer,
            None => Offer::Quiet,
        }
    }

    /// Whether nothing is left of the pass that goes on.
    #[tactic(auto, using(crate::proofs::EngineLemmas::over_at))]
    fn is_at_end(&self) -> bool
        ensures { result ≡ is_over self.now.left }
    {
        self.place == self.offers().len()
    }

    /// Begins a round.
    fn begin_round(&mut self)
        ensures { self.new ≡ at_round self.old }
    {
        self.pass = Pass::Round;
        self.place = 0;
        self.happened = false;
        self.clock = None;
    }

    /// Begins a timer pass.
    fn begin_timers(&mut self)
        ensures { self.new ≡ at_timers self.old }
    {
        self.pass = Pass::Timers;
        self.place = 0;
    }

    /// Takes the outcome of what stands next, which is there.
    #[tactic(auto, using(crate::proofs::EngineLemmas::ways))]
    fn note(&mut self, outcome: Outcome)
        requires { is_over self.old.left ≡ false }
        ensures { self.new ≡ with_outcome (offer_of self.old) (drop 1 self.old.left) outcome self.old }
    {
        match outcome {
            Outcome::Did => self.go_past(true, self.clock),
            Outcome::NotReady(now) => self.note_clock(now),
            Outcome::Busy => self.go_past(true, self.clock),
            Outcome::Ended => {
                let happened = self.happened || !self.offer().is_consumer();
                self.go_past(happened, self.clock);
            }
        }
    }

    /// Takes that what stands next, which is there, is not ready at this clock.
    #[tactic(auto, using(crate::proofs::EngineLemmas::ways))]
    fn note_clock(&mut self, now: u64)
        requires { is_over self.old.left ≡ false }
        ensures { self.new
            ≡ with_outcome (offer_of self.old) (drop 1 self.old.left) (outcomes.NotReady now) self.old }
    {
        match self.clock {
            None => self.go_past(self.happened, Some(now)),
            Some(clock) => {
                if clock == now {
                    self.go_past(self.happened, self.clock);
                } else {
                    self.go_past(true, Some(now));
                }
            }
        }
    }

    /// Goes past what stands next, which is there.
    fn go_past(&mut self, happened: bool, clock: Option<u64>)
        requires { is_over self.old.left ≡ false }
        ensures { self.new ≡ record self.old {
          left = drop 1 self.old.left;
          happened = happened;
          clock = clock;
        } }
    {
        self.happened = happened;
        self.clock = clock;
        self.place += 1;
    }

    /// Goes on in the pass, or to what comes behind it.
    fn go_on(&mut self)
        ensures { self.new ≡ at_next self.old }
    {
        match self.pass {
            Pass::Round => {
                if self.is_at_end() {
                    self.end_round();
                }
            }
            Pass::Timers => {
                if self.happened {
                    self.begin_round();
                }
            }
        }
    }

    /// Goes on behind a round: to the timers where nothing happened in it, and else to a new round.
    fn end_round(&mut self)
        ensures { self.new ≡ behind_round self.old }
    {
        if !self.happened {
            self.begin_timers();
        } else {
            self.begin_round();
        }
    }
}
