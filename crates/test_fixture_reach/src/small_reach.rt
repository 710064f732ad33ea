ghost use Rattle.std.specs.Prelude.{◌≡◌, ◌≤◌, ◌<◌, ◌+◌, [], ◌∷◌, None, Some, OnOk, OnErr, IfOk, IfErr, IsTrue, length};
ghost use Rattle.ca_keys.specs.Memory.{bytes_at, little_endian, little_endian_bytes};
ghost use Rattle.ca_base.specs.declared.limits.TheConstants.{ATOMIC_BYTES};
ghost use Rattle.ca_keys.specs.Numbers.{is_window_key};
ghost use Rattle.ca_grant.specs.Access.{buffer_after};
ghost use Rattle.ca_memory.specs.Buffer.{memory_of};
ghost use Rattle.ca_memory.specs.Number.{number_after};

use ca_base::{
    Ask, AtomicOp, Denial, Key, Memory, OpRefusal, QueueId, RegistrationError, Rights, Run, Slot,
    Span, Verdict, WindowCount,
};
use ca_grant::{Reach, bytes_of_span, judge, write_span};
use ca_memory::{Buffer, number_put};
use ca_region::Region;
use ca_window::Window;
use std::alloc::Global;

/// A window, a region and a buffer as all that an engine reaches: `slot` is the region's, and `number` the buffer's.
#[derive(Drop)]
pub struct SmallReach {
    pub slot: Slot,
    pub number: u16,
    pub window: Window,
    pub region: Region,
    pub buffer: Buffer,
}

impl SmallReach {
    ghost use Rattle.ca_base.specs.Sight.{denial_in};
    ghost use Rattle.ca_base.specs.objects.Window.{count_without};
    ghost use Rattle.ca_grant.specs.Reaching.{IsFound, IsPacketAsk, invalidation_by};
    ghost use Rattle.test_fixture_reach.specs.SmallReach as small;

    /// A region that is registered over a run of a buffer of so many bytes, beside a vacant window.
    pub fn registered(
        alloc: Global,
        slot: Slot,
        at: Run,
        bytes: u32,
        rights: Rights,
    ) -> Result<SmallReach, RegistrationError>
        requires small { slot.slot < 32768 }
        requires adapter { at.adapter ≡ slot.domain.adapter }
        ensures parts { IfOk result small.FitTogether }
        ensures slot { IfOk result (λ s. s.slot ≡ slot) }
        ensures window { IfOk result (λ s. s.window.slot ≡ slot) }
    {
        let buffer = Buffer::zeroed(alloc, bytes)?;
        let mut region = Region::vacant();
        region.register(alloc, slot, at, bytes, rights)?;
        Ok(SmallReach {
            slot,
            number: at.buffer,
            window: Window::vacant(slot),
            region,
            buffer,
        })
    }

    // The ask judged by the parts that its key names.
    #[inline(always)]
    fn judge_by_key(&self, ask: &Ask) -> Result<Span, Denial>
        requires here { small.IsAskHere self.now ask.now }
        requires packet { IsPacketAsk ask.now }
        ensures denied { IfErr result (λ d. denial_in (small.sight_of self.now) ask.now ≡ Some d) }
        ensures found { IfOk result (IsFound (small.sight_of self.now) ask.now) }
    {
        if ask.key.names_window() {
            judge(Some(&self.window), Some(&self.region), ask)
        } else {
            judge(None, Some(&self.region), ask)
        }
    }

    fn end_key(
        &mut self,
        key: Key,
        queue: QueueId,
        windows: &mut WindowCount,
    ) -> Result<(), OpRefusal>
        requires here { small.IsEndHere self.old (invalidation_by key queue) }
        requires counted { IsTrue (is_window_key key) → (small.sight_of self.old).refusal (invalidation_by key queue)
            ≡ None → 0 < windows.old.count }
        ensures accepted { OnOk result ((small.sight_of self.old).refusal (invalidation_by key queue) ≡ None) }
        ensures refused { IfErr result (λ e. (small.sight_of self.old).refusal (invalidation_by key queue) ≡ Some e) }
        ensures revoked { OnOk result (self.new ≡ small.after_end_of self.old (invalidation_by key queue)) }
        ensures count { OnOk result (windows.new ≡ count_without key windows.old) }
        ensures err { OnErr result (self.new ≡ self.old) }
        ensures err_count { OnErr result (windows.new ≡ windows.old) }
    {
        let window = Some(&mut self.window);
        let region = Some(&mut self.region);
        ca_localops::invalidate(window, region, windows, key, queue)?;
        Ok(())
    }
}

impl Reach for SmallReach {
    ghost use Rattle.test_fixture_reach.specs.SmallLaws.{small_write};
    ghost use Rattle.test_fixture_reach.specs.SmallReach as small;

    ghost sight = { small.sight_of };

    ghost judges = { small.IsAskHere };

    ghost touches = { λ s ask. Unit {0} };

    ghost ends = { small.IsEndHere };

    ghost written = { small.after_write_by };

    ghost revoked = { small.after_end_of };

    ghost writes_memory = { λ s ask bytes here touches allowed count. small_write s ask bytes here count };

    fn check(&self, ask: &Ask) -> Result<Span, Denial> {
        self.judge_by_key(ask)
    }

    #[inline(always)]
    fn read(&mut self, alloc: Global, ask: &Ask) -> Result<Verdict, Memory> {
        let found = match self.judge_by_key(ask) {
            Ok(found) => found,
            Err(denial) => return Ok(Verdict::Denied(denial)),
        };
        let bytes = bytes_of_span(alloc, &self.buffer, &found)?;
        Ok(Verdict::Read(bytes))
    }

    fn write_at(&mut self, ask: &Ask, found: &Span, bytes: &[u8]) {
        write_span(&mut self.buffer, found, bytes);
    }

    fn atomic_at(&mut self, ask: &Ask, found: &Span, op: AtomicOp) -> Verdict {
        let number = swap_at(&mut self.buffer, &found.first, op);
        Verdict::Swapped {
            found: number,
            put: number_put(op, number),
        }
    }

    fn invalidate(
        &mut self,
        key: Key,
        queue: QueueId,
        windows: &mut WindowCount,
    ) -> Result<(), OpRefusal> {
        self.end_key(key, queue, windows)?;
        Ok(())
    }
}

// The number that the eight bytes of a run hold, and what an atomic puts there.
fn swap_at(buffer: &mut Buffer, at: &Run, op: AtomicOp) -> u64
    requires fits { at.now.offset + at.now.length ≤ length buffer.old }
    requires eight { at.now.length ≡ ATOMIC_BYTES }
    ensures found { result ≡ little_endian (bytes_at (memory_of buffer.old) (at.now ∷ [])) }
    ensures put { buffer.new ≡ buffer_after (at.now ∷ []) (little_endian_bytes (number_after op result)) buffer.old }
    ensures count { length buffer.new ≡ length buffer.old }
{
    buffer.swap(at.offset, op)
}
