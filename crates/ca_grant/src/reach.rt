ghost use Rattle.std.specs.Prelude.{◌≡◌, ◌<◌, ℕ, List, Some, None, OnOk, OnErr, IfOk, IfErr, IsTrue, length};
ghost use Rattle.ca_keys.specs.declared.access.Ask.{Ask};
ghost use Rattle.ca_keys.specs.declared.access.Denial.{Denial};
ghost use Rattle.ca_keys.specs.Memory.{little_endian, little_endian_bytes};
ghost use Rattle.ca_base.specs.Sight.{Sight, Invalidation, denial_in, bytes_in};
ghost use Rattle.ca_keys.specs.Numbers.{is_window_key};
ghost use Rattle.ca_base.specs.objects.Window.{count_without};
ghost use Rattle.ca_grant.specs.Reaching.{IsPacketAsk, IsAtomicAsk, IsFound, invalidation_by, sight_after_write, grants_without};
ghost use Rattle.ca_memory.specs.Number.{number_after};

use ca_base::{
    Ask, AtomicOp, Denial, Key, Kind, Memory, OpRefusal, QueueId, Span, Verdict, WindowCount,
};
use std::alloc::Global;

/// What an engine may reach of keys and memory. It hands on asks, and the keys that end; it sees no part.
///
/// An access is judged once. `check` judges an ask, with the first part of the key check that fails, and else answers with
/// what it found: a small value that borrows nothing, by which `write_at` and `atomic_at` act without judging anew, for as
/// long as no key ends. `read` judges as it reads. What is denied changes nothing. `read` alone takes memory.
pub trait Reach {
    // what is seen of keys and memory
    ghost sight: { Self → Sight };

    // the parts of the ask's key are at hand
    ghost judges: { Self → Ask → Type 0 };

    // the bytes that the ask touches are at hand
    ghost touches: { Self → Ask → Type 0 };

    // the parts of the key that is to end are at hand
    ghost ends: { Self → Invalidation → Type 0 };

    // what is reached after these bytes were written by this ask
    ghost written: { Self → Ask → List ℕ → Self };

    // what is reached after the key ended
    ghost revoked: { Self → Invalidation → Self };

    /// Judges an ask: the first part of the key check that fails, or else the places of the bytes that it touches.
    fn check(&self, ask: &Ask) -> Result<Span, Denial>
        requires at_hand { judges self.now ask.now }
        requires touch { IsPacketAsk ask.now }
        ensures denied { IfErr result (λ d. denial_in (sight self.now) ask.now ≡ Some d) }
        ensures found { IfOk result (IsFound (sight self.now) ask.now) };

    /// Reads the bytes that the ask touches.
    fn read(&mut self, alloc: Global, ask: &Ask) -> Result<Verdict, Memory>
        requires at_hand { judges self.old ask.now }
        requires bytes_at_hand { denial_in (sight self.old) ask.now ≡ None → touches self.old ask.now }
        requires touch { IsPacketAsk ask.now }
        requires kind { ask.now.kind ≡ Kind.Read }
        ensures denied { (d : Denial) → denial_in (sight self.old) ask.now ≡ Some d
            → IfOk result (λ v. v ≡ Verdict.Denied d) }
        ensures read { denial_in (sight self.old) ask.now ≡ None
            → IfOk result (λ v. v ≡ Verdict.Read (bytes_in (sight self.old) ask.now)) }
        ensures count { denial_in (sight self.old) ask.now ≡ None
            → length (bytes_in (sight self.old) ask.now) ≡ ask.now.touch }
        ensures same { self.new ≡ self.old };

    /// Writes these bytes, as many as the ask touches, to the places that were found of it.
    fn write_at(&mut self, ask: &Ask, found: &Span, bytes: &[u8])
        requires at_hand { judges self.old ask.now }
        requires bytes_at_hand { touches self.old ask.now }
        requires found { IsFound (sight self.old) ask.now found.now }
        requires touch { IsPacketAsk ask.now }
        requires kind { ask.now.kind ≡ Kind.Write }
        requires count { length bytes.now ≡ ask.now.touch }
        ensures wrote { self.new ≡ written self.old ask.now bytes.now }
        ensures hand { (x : Ask) → judges self.old x → judges self.new x }
        ensures bytes_hand { (x : Ask) → touches self.old x → touches self.new x }
        ensures ends_hand { (i : Invalidation) → ends self.old i → ends self.new i }
        ensures sees { sight self.new ≡ sight_after_write (sight self.old) ask.now bytes.now };

    /// Does an atomic on the eight bytes that were found of the ask: the number that they held, and what was put.
    fn atomic_at(&mut self, ask: &Ask, found: &Span, op: AtomicOp) -> Verdict
        requires at_hand { judges self.old ask.now }
        requires bytes_at_hand { touches self.old ask.now }
        requires found { IsFound (sight self.old) ask.now found.now }
        requires eight { IsAtomicAsk ask.now op }
        ensures verdict { let found = little_endian (bytes_in (sight self.old) ask.now) in
            result ≡ Verdict.Swapped found (number_after op found) }
        ensures wrote { let found = little_endian (bytes_in (sight self.old) ask.now) in
            self.new ≡ written self.old ask.now (little_endian_bytes (number_after op found)) }
        ensures hand { (x : Ask) → judges self.old x → judges self.new x }
        ensures bytes_hand { (x : Ask) → touches self.old x → touches self.new x }
        ensures ends_hand { (i : Invalidation) → ends self.old i → ends self.new i };

    /// Ends a key, as a Local Invalidate of this queue pair does, and counts a type 2 window that it unbinds.
    fn invalidate(
        &mut self,
        key: Key,
        queue: QueueId,
        windows: &mut WindowCount,
    ) -> Result<(), OpRefusal>
        requires at_hand { ends self.old (invalidation_by key queue) }
        requires counted { IsTrue (is_window_key key) → (sight self.old).refusal (invalidation_by key queue) ≡ None
            → 0 < windows.old.count }
        ensures accepted { OnOk result ((sight self.old).refusal (invalidation_by key queue) ≡ None) }
        ensures refused { IfErr result (λ e. (sight self.old).refusal (invalidation_by key queue) ≡ Some e) }
        ensures revoked { OnOk result (self.new ≡ revoked self.old (invalidation_by key queue)) }
        ensures count { OnOk result (windows.new ≡ count_without key windows.old) }
        ensures grants { OnOk result ((x : Ask)
            → (sight self.new).grant x ≡ grants_without (invalidation_by key queue) (sight self.old).grant x) }
        ensures bytes { OnOk result ((sight self.new).byte ≡ (sight self.old).byte) }
        ensures err { OnErr result (self.new ≡ self.old) }
        ensures err_count { OnErr result (windows.new ≡ windows.old) };

    // what is seen after a write is what memory is after a write to the places of the ask, and else what was seen
    ghost writes_memory: { (s : Self) (ask : Ask) (bytes : List ℕ) → judges s ask → touches s ask → denial_in (sight s) ask ≡ None →
        length bytes ≡ ask.touch → sight (written s ask bytes) ≡ sight_after_write (sight s) ask bytes };
}
