ghost use Rattle.std.specs.Prelude.{◌≡◌, ◌+◌, ◌<◌, ◌≤◌, ◌^◌, [], ◌∷◌, IfOk, true};
ghost use Rattle.ca_keys.specs.Memory.{cut};
ghost use Rattle.ca_keys.specs.Numbers.{key_at, region_index};
ghost use Rattle.ca_base.specs.objects.Slices.{is_key_of};
ghost use Rattle.ca_region.specs.Places.{HoldBytes, HoldBytes-prop};

use crate::pages::{page_runs, page_span};
use crate::places::Places;
use ca_base::limits::PAGE_BYTES;
use ca_base::{Grant, Key, Memory, RegionView, Rights, Run, Runs, Slot, Span};
use std::alloc::Global;

/// What a valid region maps: `bytes` addresses from `address` on to the bytes of its places. Of pages, the first byte
/// lies as far behind the begin of the first page as its address behind a multiple of a page's bytes.
#[derive(Drop)]
pub struct Mapping {
    pub slot: Slot,
    pub rights: Rights,
    pub address: u64,
    pub bytes: u32,
    pub places: Places,
    ghost held: { HoldBytes address bytes places } by { HoldBytes-prop address bytes places },
}

impl Mapping {
    ghost use Rattle.std.specs.Prelude.{◌-◌, ◌%◌, None};
    ghost use Rattle.ca_base.specs.declared.limits.TheConstants.{ATOMIC_BYTES};
    ghost use Rattle.ca_base.specs.Grants.{region_grant};
    ghost use Rattle.ca_keys.specs.Memory.{places_count};
    ghost use Rattle.ca_base.specs.objects.Region.{view_of_grant};
    ghost use Rattle.ca_region.specs.Places.{runs_of_places};
    ghost use Rattle.ca_region.specs.Region.{buffer_of_runs};
    ghost use Rattle.ca_region.specs.Span.{runs_of_span};

    /// The key under a low byte.
    pub fn key(&self, low: u8) -> Key
        ensures key { result ≡ key_at (region_index self.now.slot) low }
        ensures domain { is_key_of self.now.slot.domain result ≡ true }
    {
        key_of(self.slot, low)
    }

    /// What others see, under a low byte.
    #[inline(always)]
    pub fn view(&self, low: u8) -> RegionView
        ensures domain { is_key_of self.now.slot.domain result.key ≡ true }
        ensures view { result
            ≡ view_of_grant (region_grant self.now.slot low self.now.address self.now.bytes self.now.rights []) }
    {
        RegionView {
            valid: true,
            key: self.key(low),
            rights: self.rights,
            address: self.address,
            length: self.bytes,
        }
    }

    /// What is granted under a low byte, over these runs.
    pub fn grant(&self, low: u8, runs: Runs) -> Grant
        ensures { result ≡ region_grant self.now.slot low self.now.address self.now.bytes self.now.rights runs }
    {
        Grant {
            key: self.key(low),
            domain: self.slot.domain,
            queue: None,
            local: true,
            address: self.address,
            length: self.bytes,
            rights: self.rights,
            runs,
        }
    }

    /// Where `touch` bytes from `address` on lie.
    #[inline(always)]
    pub fn span(&self, address: u64, touch: u32) -> Span
        requires some { 0 < touch }
        requires few { touch ≤ PAGE_BYTES }
        requires begin { self.now.address ≤ address }
        requires end { address + touch ≤ self.now.address + self.now.bytes }
        ensures count { places_count (runs_of_span result) ≡ touch }
        ensures places { runs_of_span result ≡ cut (address - self.now.address) touch
            (runs_of_places self.now.slot.domain.adapter self.now.address self.now.bytes self.now.places) }
        ensures whole { address % ATOMIC_BYTES ≡ 0 → touch ≤ ATOMIC_BYTES → result.second ≡ None }
    {
        let before = address - self.address;
        match &self.places {
            Places::OneRun(at) => Span {
                first: part_of_run(at, before as u32, touch),
                second: None,
            },
            Places::PageList { buffer, pages, .. } => {
                let adapter = self.slot.domain.adapter;
                page_span(
                    adapter,
                    *buffer,
                    pages.as_slice(),
                    self.in_pages(before),
                    touch,
                )
            }
        }
    }

    /// Where `count` bytes from `address` on lie.
    pub fn runs(&self, alloc: Global, address: u64, count: u32) -> Result<Runs, Memory>
        requires some { 0 < count }
        requires begin { self.now.address ≤ address }
        requires end { address + count ≤ self.now.address + self.now.bytes }
        ensures count { IfOk result (λ runs. places_count runs ≡ count) }
        ensures places { IfOk result (λ runs. runs ≡ cut (address - self.now.address) count
            (runs_of_places self.now.slot.domain.adapter self.now.address self.now.bytes self.now.places)) }
    {
        let before = address - self.address;
        match &self.places {
            Places::OneRun(at) => one_run(alloc, part_of_run(at, before as u32, count)),
            Places::PageList { buffer, pages, .. } => {
                let adapter = self.slot.domain.adapter;
                page_runs(
                    alloc,
                    adapter,
                    *buffer,
                    pages.as_slice(),
                    self.in_pages(before),
                    count,
                )
            }
        }
    }

    /// The buffer in which the bytes lie, by its adapter and its number there.
    pub fn buffer(&self) -> Option<(u8, u16)>
        ensures { result ≡ buffer_of_runs
            (runs_of_places self.now.slot.domain.adapter self.now.address self.now.bytes self.now.places) }
    {
        match &self.places {
            Places::OneRun(at) => Some((at.adapter, at.buffer)),
            Places::PageList { buffer, .. } => {
                if self.bytes == 0 {
                    None
                } else {
                    Some((self.slot.domain.adapter, *buffer))
                }
            }
        }
    }

    // The bytes of the pages before the one that is so far behind the first byte.
    fn in_pages(&self, before: u64) -> u64
        requires { before < self.now.bytes }
        ensures { result ≡ self.now.address % PAGE_BYTES + before }
    {
        self.address % u64::from(PAGE_BYTES) + before
    }
}

// The key of a slot under a low byte. It is one of the slot's domain.
fn key_of(slot: Slot, low: u8) -> Key
    ensures key { result ≡ key_at (region_index slot) low }
    ensures domain { is_key_of slot.domain result ≡ true }
{
    Key::of_region(slot, low)
}

/// The list of this one run.
pub fn one_run(alloc: Global, at: Run) -> Result<Runs, Memory>
    ensures { IfOk result (λ runs. runs ≡ at ∷ []) }
{
    let mut runs = Vec::with_capacity(alloc, 1)?;
    runs.push(at)?;
    Ok(runs.into())
}

// The part of a run with `count` bytes, without `skip` at its front.
fn part_of_run(at: &Run, skip: u32, count: u32) -> Run
    requires some { 0 < count }
    requires inside { skip + count ≤ at.now.length }
    requires small { at.now.offset + at.now.length < 2 ^ 32 }
    ensures { result ∷ [] ≡ cut skip count (at.now ∷ []) }
{
    Run {
        offset: at.offset + skip,
        length: count,
        ..*at
    }
}
