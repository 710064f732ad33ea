ghost use Rattle.std.specs.Prelude.{◌≡◌, ◌<◌, ◌%◌, ◌≤◌, ◌+◌, [], ◌∷◌, ◌++◌, None, Some, IfErr, IfOk, OnErr, OnOk, IfSome, IsErr, IsTrue, is_some, length, true, false};
ghost use Rattle.std.specs.Option.{option_copied, option_map};
ghost use Rattle.ca_keys.specs.Allowed.{denial_of};
ghost use Rattle.ca_keys.specs.Memory.{bytes_at, little_endian, little_endian_bytes, places_count, runs_for};
ghost use Rattle.ca_keys.specs.Numbers.{domain_of, is_window_key};
ghost use Rattle.ca_base.specs.declared.limits.TheConstants.{ATOMIC_BYTES};
ghost use Rattle.ca_base.specs.Sight.{denial_in};
ghost use Rattle.ca_base.specs.objects.LocalRequest.{region_refusal, unnamed_refusal, window_refusal};
ghost use Rattle.ca_base.specs.objects.Region.{after_region_invalidation, grant_of_region, with_window_unbound};
ghost use Rattle.ca_base.specs.objects.Slices.{is_key_of, slot_of_key};
ghost use Rattle.ca_base.specs.objects.Window.{count_without, without_binding};
ghost use Rattle.ca_grant.specs.KeySlot.{list_of_grant};
ghost use Rattle.ca_grant.specs.Reaching.{IsFound, IsPacketAsk, invalidation_by};
ghost use Rattle.ca_grant.specs.ca_memory.Number.{number_after};
ghost use Rattle.ca_localops.specs.ca_region.Span.{runs_of_span};
ghost use Rattle.ca_adapter_reach.specs.AtHand as at_hand;
ghost use Rattle.ca_adapter_reach.specs.Changed as changed;
ghost use Rattle.ca_adapter_reach.specs.Seen as seen;

use crate::reached::{BufferId, Reached};
use ca_base::{
    Ask, AtomicOp, Bytes, Denial, DomainId, Key, Memory, OpRefusal, QueueId, RegionError, Run,
    Slot, Span, Verdict, WindowCount, WindowError, slot_of_key,
};
use ca_grant::ca_memory::number_put;
use ca_grant::{Reach, judge};
use ca_localops::ca_region::Region;
use ca_localops::ca_window::Window;
use std::alloc::Global;

impl Reached {
    // The ask judged by the part that its key names.
    fn judge_by_key(&self, ask: &Ask) -> Result<Span, Denial>
        requires here { at_hand.CanJudge self.now ask.now }
        requires packet { IsPacketAsk ask.now }
        ensures denied { IfErr result (λ d. denial_in (seen.sight_of self.now) ask.now ≡ Some d) }
        ensures found { IfOk result (IsFound (seen.sight_of self.now) ask.now) }
    {
        let slot = slot_of_key(ask.domain, ask.key);
        if slot.domain.domain != ask.domain.domain {
            return Err(Denial::NoGrant);
        }
        if ask.key.names_window() {
            self.judge_by_window(slot, ask)
        } else {
            self.judge_by_region(slot, ask)
        }
    }

    // Ends a key of the queue pair's domain: that of a region, or of a window with the region in which it is bound.
    fn end_key(
        &mut self,
        key: Key,
        queue: QueueId,
        windows: &mut WindowCount,
    ) -> Result<(), OpRefusal>
        requires here { at_hand.CanEnd self.old (invalidation_by key queue) }
        requires counted { IsTrue (is_window_key key) → (seen.sight_of self.old).refusal (invalidation_by key queue)
            ≡ None → 0 < windows.old.count }
        ensures accepted { OnOk result ((seen.sight_of self.old).refusal (invalidation_by key queue) ≡ None) }
        ensures refused { IfErr result (λ e. (seen.sight_of self.old).refusal (invalidation_by key queue) ≡ Some e) }
        ensures revoked { OnOk result (self.new ≡ changed.after_end_of self.old (invalidation_by key queue)) }
        ensures count { OnOk result (windows.new ≡ count_without key windows.old) }
        ensures err { OnErr result (self.new ≡ self.old) }
        ensures err_count { OnErr result (windows.new ≡ windows.old) }
    {
        let Some(slot) = slot_by_key(key, queue) else {
            return refuse_unnamed(key, queue, windows);
        };
        if key.names_window() {
            end_window_key(self, slot, key, queue, windows)
        } else {
            end_region_key(self, slot, key, queue, windows)
        }
    }

    // The ask judged by the region in a slot.
    #[tactic(auto, using(crate::proofs::JudgeLemmas::by_region))]
    fn judge_by_region(&self, slot: Slot, ask: &Ask) -> Result<Span, Denial>
        requires here { at_hand.CanJudge self.now ask.now }
        requires packet { IsPacketAsk ask.now }
        requires adapter { slot.domain.adapter ≡ ask.now.domain.adapter }
        ensures denied { IfErr result
            (λ d. denial_of ask.now (list_of_grant (grant_of_region (seen.region_in self.now slot))) ≡ Some d) }
        ensures allowed { OnOk result
            (denial_of ask.now (list_of_grant (grant_of_region (seen.region_in self.now slot))) ≡ None) }
        ensures places { IfOk result (λ span. runs_of_span span
            ≡ runs_for ask.now (list_of_grant (grant_of_region (seen.region_in self.now slot))) ask.now.touch) }
        ensures count { IfOk result (λ span. places_count (runs_of_span span) ≡ ask.now.touch) }
        ensures whole { IfOk result (λ span. ask.now.address % ATOMIC_BYTES ≡ 0 → ask.now.touch ≤ ATOMIC_BYTES
            → span.second ≡ None) }
    {
        let Some(region) = self.regions.get(slot) else {
            return Err(Denial::NoGrant);
        };
        judge(None, Some(region), ask)
    }

    // The ask judged by the window in a slot.
    fn judge_by_window(&self, slot: Slot, ask: &Ask) -> Result<Span, Denial>
        requires here { at_hand.CanJudge self.now ask.now }
        requires packet { IsPacketAsk ask.now }
        requires adapter { slot.domain.adapter ≡ ask.now.domain.adapter }
        ensures denied { let grant = seen.grant_of_window (seen.region_in self.now) (seen.window_in self.now slot) in
            IfErr result (λ d. denial_of ask.now (list_of_grant grant) ≡ Some d) }
        ensures allowed { let grant = seen.grant_of_window (seen.region_in self.now) (seen.window_in self.now slot) in
            OnOk result (denial_of ask.now (list_of_grant grant) ≡ None) }
        ensures places { let grant = seen.grant_of_window (seen.region_in self.now) (seen.window_in self.now slot) in
            IfOk result (λ span. runs_of_span span ≡ runs_for ask.now (list_of_grant grant) ask.now.touch) }
        ensures count { IfOk result (λ span. places_count (runs_of_span span) ≡ ask.now.touch) }
        ensures whole { IfOk result (λ span. ask.now.address % ATOMIC_BYTES ≡ 0 → ask.now.touch ≤ ATOMIC_BYTES
            → span.second ≡ None) }
    {
        match self.windows.get(slot) {
            None => Err(Denial::NoGrant),
            Some(window) => self.judge_by_bound(window, ask),
        }
    }

    // The ask judged by a window, over the region in which it is bound.
    fn judge_by_bound(&self, window: &Window, ask: &Ask) -> Result<Span, Denial>
        requires packet { IsPacketAsk ask.now }
        requires adapter { window.now.slot.domain.adapter ≡ ask.now.domain.adapter }
        requires lies { IfSome window.now.binding
            (λ b. at_hand.LiesInValid b (seen.region_in self.now (seen.slot_under window.now b))) }
        ensures denied { let grant = seen.grant_of_window (seen.region_in self.now) window.now in
            IfErr result (λ d. denial_of ask.now (list_of_grant grant) ≡ Some d) }
        ensures allowed { let grant = seen.grant_of_window (seen.region_in self.now) window.now in
            OnOk result (denial_of ask.now (list_of_grant grant) ≡ None) }
        ensures places { let grant = seen.grant_of_window (seen.region_in self.now) window.now in
            IfOk result (λ span. runs_of_span span ≡ runs_for ask.now (list_of_grant grant) ask.now.touch) }
        ensures count { IfOk result (λ span. places_count (runs_of_span span) ≡ ask.now.touch) }
        ensures whole { IfOk result (λ span. ask.now.address % ATOMIC_BYTES ≡ 0 → ask.now.touch ≤ ATOMIC_BYTES
            → span.second ≡ None) }
    {
        let region = self.region_under(window);
        judge(Some(window), region, ask)
    }

    // The region in which a window is bound, if it is in hand.
    fn region_under(&self, window: &Window) -> Option<&Region>
        ensures { option_copied result ≡ seen.found_under self.now.regions.things window.now }
    {
        self.regions.get(slot_under(window)?)
    }
}

// The slot of the region in which a window is bound, if it is.
fn slot_under(window: &Window) -> Option<Slot>
    ensures { result ≡ option_map (seen.slot_under window.now) window.now.binding }
{
    Some(Slot {
        domain: window.slot().domain,
        slot: window.region()?,
    })
}

// The bytes that the buffer of a run holds at its places, behind what is there.
#[tactic(auto, using(crate::specs::Laws::bytes_seen))]
fn read_run(reached: &Reached, at: &Run, out: &mut Vec<u8>) -> Result<(), Memory>
    requires { at_hand.IsRunAtHand reached.now.buffers.things at.now }
    ensures bytes { OnOk result (out.new.items
        ≡ out.old.items ++ bytes_at (seen.byte_in reached.now.buffers.things) (at.now ∷ [])) }
    ensures count { OnOk result (length out.new.items ≡ length out.old.items + at.now.length) }
{
    reached.buffers.at(BufferId::of(at)).read(at, out)
}

// The bytes at the places of a span, in order. It takes memory once.
fn bytes_of_span(alloc: Global, reached: &Reached, span: &Span) -> Result<Bytes, Memory>
    requires { at_hand.AreRunsAtHand reached.now.buffers.things (runs_of_span span.now) }
    ensures bytes { IfOk result (λ bytes. bytes
        ≡ bytes_at (seen.byte_in reached.now.buffers.things) (runs_of_span span.now)) }
    ensures count { IfOk result (λ bytes. length bytes ≡ places_count (runs_of_span span.now)) }
{
    let mut bytes = Vec::with_capacity(alloc, length_of(span))?;
    read_run(reached, &span.first, &mut bytes)?;
    if let Some(second) = &span.second {
        read_run(reached, second, &mut bytes)?;
    }
    Ok(Bytes::from(bytes))
}

// How many places a span has.
fn length_of(span: &Span) -> usize
    ensures { result ≡ places_count (runs_of_span span.now) }
{
    let second = match &span.second {
        Some(second) => second.length,
        None => 0,
    };
    span.first.length as usize + second as usize
}

// Puts bytes to the places of a run, in its own buffer.
#[tactic(auto, using(crate::specs::Laws::run_stays))]
fn write_run(reached: &mut Reached, at: &Run, bytes: &[u8])
    requires here { at_hand.IsRunAtHand reached.old.buffers.things at.now }
    requires count { length bytes.now ≡ at.now.length }
    ensures put { reached.new ≡ changed.put_buffers reached.old
        (changed.with_run at.now bytes.now reached.old.buffers.things) }
    ensures stay { (x : Run) → at_hand.IsRunAtHand reached.old.buffers.things x
        → at_hand.IsRunAtHand reached.new.buffers.things x }
{
    reached.buffers.at_mut(BufferId::of(at)).write(at, bytes);
}

// Puts bytes to the places of a span, in order, each run in its own buffer.
fn write_span(reached: &mut Reached, span: &Span, bytes: &[u8])
    requires here { at_hand.AreRunsAtHand reached.old.buffers.things (runs_of_span span.now) }
    requires count { length bytes.now ≡ places_count (runs_of_span span.now) }
    ensures put { reached.new ≡ changed.put_buffers reached.old
        (changed.with_runs (runs_of_span span.now) bytes.now reached.old.buffers.things) }
    ensures stay { (x : Run) → at_hand.IsRunAtHand reached.old.buffers.things x
        → at_hand.IsRunAtHand reached.new.buffers.things x }
{
    let (front, rest) = bytes.split_at(span.first.length as usize);
    write_run(reached, &span.first, front);
    if let Some(second) = &span.second {
        write_run(reached, second, rest);
    }
}

// The number that the eight bytes of a run hold, and what an atomic puts there.
#[tactic(auto, using(crate::specs::Laws::run_stays))]
fn swap_at(reached: &mut Reached, at: &Run, op: AtomicOp) -> u64
    requires here { at_hand.IsRunAtHand reached.old.buffers.things at.now }
    requires eight { at.now.length ≡ ATOMIC_BYTES }
    ensures found { result ≡ little_endian (bytes_at (seen.byte_in reached.old.buffers.things) (at.now ∷ [])) }
    ensures put { reached.new ≡ changed.put_buffers reached.old
        (changed.with_run at.now (little_endian_bytes (number_after op result)) reached.old.buffers.things) }
    ensures stay { (x : Run) → at_hand.IsRunAtHand reached.old.buffers.things x
        → at_hand.IsRunAtHand reached.new.buffers.things x }
{
    reached.buffers.at_mut(BufferId::of(at)).swap(at.offset, op)
}

// The slot that a key names, if it is a key of the queue pair's domain.
fn slot_by_key(key: Key, queue: QueueId) -> Option<Slot>
    ensures slot { IfSome result (λ s. s ≡ slot_of_key (domain_of queue) key) }
    ensures named { is_some result ≡ is_key_of (domain_of queue) key }
{
    let domain = DomainId {
        adapter: queue.adapter,
        domain: (key.index() / 0x10000) as u8,
    };
    if u32::from(domain.domain) == (queue.number / 256).saturating_sub(1) {
        Some(slot_of_key(domain, key))
    } else {
        None
    }
}

// A key that names nothing in the queue pair's domain is not ended.
fn refuse_unnamed(key: Key, queue: QueueId, windows: &mut WindowCount) -> Result<(), OpRefusal>
    ensures err { IsErr result }
    ensures refused { IfErr result (λ e. e ≡ unnamed_refusal key) }
    ensures err_count { windows.new ≡ windows.old }
{
    ca_localops::invalidate(None, None, windows, key, queue)?;
    unreachable!()
}

// Ends the key of a region.
fn end_region(
    region: &mut Region,
    key: Key,
    queue: QueueId,
    windows: &mut WindowCount,
) -> Result<(), OpRefusal>
    requires region { is_window_key key ≡ false }
    ensures accepted { OnOk result (region_refusal key region.old ≡ None) }
    ensures refused { IfErr result (λ e. region_refusal key region.old ≡ Some e) }
    ensures ended { OnOk result (region.new ≡ after_region_invalidation region.old) }
    ensures err { OnErr result (region.new ≡ region.old) }
    ensures count { windows.new ≡ windows.old }
{
    ca_localops::invalidate(None, Some(region), windows, key, queue)?;
    Ok(())
}

// Ends the key of the region in a slot.
#[tactic(auto, using(crate::specs::Laws::same_thing))]
fn end_region_key(
    reached: &mut Reached,
    slot: Slot,
    key: Key,
    queue: QueueId,
    windows: &mut WindowCount,
) -> Result<(), OpRefusal>
    requires region { is_window_key key ≡ false }
    ensures accepted { OnOk result (region_refusal key (seen.region_in reached.old slot) ≡ None) }
    ensures refused { IfErr result (λ e. region_refusal key (seen.region_in reached.old slot) ≡ Some e) }
    ensures ended { OnOk result (reached.new ≡ changed.put_region reached.old slot
        (after_region_invalidation (seen.region_in reached.old slot))) }
    ensures err { OnErr result (reached.new ≡ reached.old) }
    ensures count { windows.new ≡ windows.old }
{
    if !reached.regions.has(slot) {
        return Err(OpRefusal::Region(RegionError::NotValid));
    }
    end_region(reached.regions.at_mut(slot), key, queue, windows)
}

// Ends the key of a window, with the region in which it is bound.
fn end_window(
    window: &mut Window,
    region: &mut Region,
    key: Key,
    queue: QueueId,
    windows: &mut WindowCount,
) -> Result<(), OpRefusal>
    requires window { is_window_key key ≡ true }
    requires region { 0 < region.old.bound }
    requires counted { window_refusal key queue window.old ≡ None → 0 < windows.old.count }
    ensures accepted { OnOk result (window_refusal key queue window.old ≡ None) }
    ensures refused { IfErr result (λ e. window_refusal key queue window.old ≡ Some e) }
    ensures window { OnOk result (window.new ≡ without_binding window.old) }
    ensures region { OnOk result (region.new ≡ with_window_unbound region.old) }
    ensures count { OnOk result (windows.new ≡ count_without key windows.old) }
    ensures err_window { OnErr result (window.new ≡ window.old) }
    ensures err_region { OnErr result (region.new ≡ region.old) }
    ensures err_count { OnErr result (windows.new ≡ windows.old) }
{
    ca_localops::invalidate(Some(window), Some(region), windows, key, queue)?;
    Ok(())
}

// The key of a window that is not bound is not ended.
#[tactic(auto, using(crate::proofs::EndLemmas::unbound_refused))]
fn refuse_unbound(
    window: &mut Window,
    key: Key,
    queue: QueueId,
    windows: &mut WindowCount,
) -> Result<(), OpRefusal>
    requires window { is_window_key key ≡ true }
    requires unbound { window.old.binding ≡ None }
    ensures err { IsErr result }
    ensures refused { IfErr result (λ e. window_refusal key queue window.old ≡ Some e) }
    ensures same { window.new ≡ window.old }
    ensures count { windows.new ≡ windows.old }
{
    ca_localops::invalidate(Some(window), None, windows, key, queue)?;
    unreachable!()
}

// Ends the key of the window in a slot, which leaves the region in which it is bound.
#[tactic(auto, using(crate::specs::Laws::same_thing, crate::proofs::EndLemmas::ended))]
fn end_window_key(
    reached: &mut Reached,
    slot: Slot,
    key: Key,
    queue: QueueId,
    windows: &mut WindowCount,
) -> Result<(), OpRefusal>
    requires window { is_window_key key ≡ true }
    requires under { IfSome (seen.window_in reached.old slot).binding
        (λ b. at_hand.IsCounting reached.old (seen.slot_under (seen.window_in reached.old slot) b)) }
    requires counted { window_refusal key queue (seen.window_in reached.old slot) ≡ None → 0 < windows.old.count }
    ensures accepted { OnOk result (window_refusal key queue (seen.window_in reached.old slot) ≡ None) }
    ensures refused { IfErr result (λ e. window_refusal key queue (seen.window_in reached.old slot) ≡ Some e) }
    ensures ended { OnOk result (reached.new
        ≡ changed.without_window_key reached.old slot (seen.window_in reached.old slot)) }
    ensures count { OnOk result (windows.new ≡ count_without key windows.old) }
    ensures err { OnErr result (reached.new ≡ reached.old) }
    ensures err_count { OnErr result (windows.new ≡ windows.old) }
{
    if !reached.windows.has(slot) {
        return Err(OpRefusal::Window(WindowError::NoWindow));
    }
    match slot_under(reached.windows.at(slot)) {
        None => refuse_unbound(reached.windows.at_mut(slot), key, queue, windows),
        Some(under) => {
            let window = reached.windows.at_mut(slot);
            let region = reached.regions.at_mut(under);
            end_window(window, region, key, queue, windows)
        }
    }
}

impl Reach for Reached {
    ghost use Rattle.ca_adapter_reach.specs.AtHand as at_hand;
    ghost use Rattle.ca_adapter_reach.specs.Changed as changed;
    ghost use Rattle.ca_adapter_reach.specs.Laws.{write_is_seen};
    ghost use Rattle.ca_adapter_reach.specs.Seen as seen;

    ghost sight = { seen.sight_of };

    ghost judges = { at_hand.CanJudge };

    ghost touches = { at_hand.HasBytesAtHand };

    ghost ends = { at_hand.CanEnd };

    ghost written = { changed.after_write_by };

    ghost revoked = { changed.after_end_of };

    ghost writes_memory = { λ r ask bytes here touches allowed count. write_is_seen r ask bytes touches count };

    fn check(&self, ask: &Ask) -> Result<Span, Denial> {
        self.judge_by_key(ask)
    }

    fn read(&mut self, alloc: Global, ask: &Ask) -> Result<Verdict, Memory> {
        let found = match self.judge_by_key(ask) {
            Ok(found) => found,
            Err(denial) => return Ok(Verdict::Denied(denial)),
        };
        let bytes = bytes_of_span(alloc, self, &found)?;
        Ok(Verdict::Read(bytes))
    }

    fn write_at(&mut self, ask: &Ask, found: &Span, bytes: &[u8]) {
        write_span(self, found, bytes);
    }

    fn atomic_at(&mut self, ask: &Ask, found: &Span, op: AtomicOp) -> Verdict {
        let number = swap_at(self, &found.first, op);
        Verdict::Swapped {
            found: number,
            put: number_put(op, number),
        }
    }

    fn invalidate(
        &mut self,
        key: Key,
        queue: QueueId,
        windows: &mut WindowCount,
    ) -> Result<(), OpRefusal> {
        self.end_key(key, queue, windows)
    }
}
