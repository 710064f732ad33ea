use crate::mapping::{Mapping, one_run};
use crate::pages::{page_parts, pages_pass_end};
use crate::places::Places;
use crate::refusals::{has_bad_pages, needs_local_write, registration_refusal};
use ca_base::limits::{MAX_PAGES, PAGE_BYTES};
use ca_base::{
    Grant, Key, Memory, Pages, RegionError, RegionView, RegistrationError, Rights, Run, Runs, Slot,
    Span, first_address,
};
use std::alloc::Global;
use std::marker::Model;

/// The slot of a memory region. Its low byte opens at 0 and stays while the slot is vacant. It rises with each
/// registration, so that the key that was granted last is not the one that is granted next, and a fast registration
/// names it (this profile's choice).
#[derive(Drop)]
pub struct Region {
    low: u8,
    bound: u32,
    state: State,
}

#[derive(Drop)]
enum State {
    Vacant,
    Free { pages: u16 },
    Valid(Mapping),
}

impl Model for Region {
    ghost use Rattle.ca_base.specs.objects.Region.{Region};

    ghost Value = { Region };

    ghost use Rattle.ca_region.specs.View.{view_of};

    ghost view = { view_of };
}

impl Region {
    ghost use Rattle.std.specs.Prelude.{◌≡◌, ◌%◌, ◌<◌, ◌≤◌, IfOk, IfErr, IfSome, OnOk, OnErr, None, Some};
    ghost use Rattle.ca_base.specs.Grants as grants;
    ghost use Rattle.ca_base.specs.declared.limits.TheConstants.{ATOMIC_BYTES};
    ghost use Rattle.ca_keys.specs.Memory.{places_count};
    ghost use Rattle.ca_keys.specs.Refusals.{first_of};
    ghost use Rattle.ca_base.specs.objects.Region as regions;
    ghost use Rattle.ca_region.specs.Region.{RefusesBy, HasBytes, IsOfRegion, buffer_of_region, region_runs_at, valid_key};
    ghost use Rattle.ca_region.specs.Span.{runs_of_span};

    /// The slot before its first region.
    pub fn vacant() -> Region
        ensures { result ≡ regions.vacant_region }
    {
        Region {
            low: 0,
            bound: 0,
            state: State::Vacant,
        }
    }

    /// Whether the slot is vacant.
    pub fn is_vacant(&self) -> bool
        ensures { result ≡ regions.is_vacant_region self.now }
    {
        matches!(&self.state, State::Vacant)
    }

    /// What others see: the range, the rights and the key of a valid region. What is not valid has no byte and no
    /// right.
    #[inline(always)]
    pub fn view(&self) -> RegionView
        ensures view { result ≡ regions.view_of_region self.now }
        ensures grant { IfSome (regions.grant_of_region self.now) IsOfRegion }
    {
        match &self.state {
            State::Valid(mapping) => mapping.view(self.low),
            State::Vacant | State::Free { .. } => RegionView {
                valid: false,
                key: Key(0),
                rights: Rights::default(),
                address: 0,
                length: 0,
            },
        }
    }

    /// How many windows are bound to the region.
    pub fn bound(&self) -> u32
        ensures { result ≡ self.now.bound }
    {
        self.bound
    }

    /// Counts one more window that is bound to the region.
    pub fn note_bind(&mut self)
        requires { self.old.bound < u32.MAX }
        ensures { self.new ≡ regions.with_window_bound self.old }
    {
        self.bound += 1;
    }

    /// Counts one window fewer that is bound to the region.
    pub fn note_unbind(&mut self)
        requires { 0 < self.old.bound }
        ensures { self.new ≡ regions.with_window_unbound self.old }
    {
        self.bound -= 1;
    }

    /// Registers a run of a buffer of `buffer_length` bytes in this vacant slot, and gives what is granted. The
    /// refusals in order are `Empty`, `OutsideBuffer`, `RightsNeedLocalWrite` and `Memory`; each leaves the slot as it
    /// was.
    pub fn register(
        &mut self,
        alloc: Global,
        slot: Slot,
        at: Run,
        buffer_length: u32,
        rights: Rights,
    ) -> Result<Grant, RegistrationError>
        requires { self.old.state ≡ regions.NoRegion }
        ensures granted { IfOk result (λ g. g
            ≡ grants.grant_of_registration slot at rights (grants.next_low self.old.low)) }
        ensures valid { OnOk result (self.new ≡ regions.after_registration slot at rights self.old) }
        ensures accepted { OnOk result (grants.registration_refusal at buffer_length rights ≡ None) }
        ensures refused { IfErr result (RefusesBy (grants.registration_refusal at buffer_length rights)) }
        ensures err { OnErr result (self.new ≡ self.old) }
    {
        if let Some(refusal) = registration_refusal(at, buffer_length, rights) {
            return Err(RegistrationError::Refused(refusal));
        }
        let runs = one_run(alloc, at)?;
        let mapping = Mapping {
            slot,
            rights,
            address: first_address(at.buffer) + u64::from(at.offset),
            bytes: at.length,
            places: Places::OneRun(at),
        };
        self.low = if self.low == 255 { 0 } else { self.low + 1 };
        let grant = mapping.grant(self.low, runs);
        self.state = State::Valid(mapping);
        Ok(grant)
    }

    /// Allocates a region for fast registrations of at most so many pages in this vacant slot.
    pub fn allocate(&mut self, pages: u16)
        requires vacant { self.old.state ≡ regions.NoRegion }
        requires some { 1 ≤ pages }
        requires few { pages ≤ MAX_PAGES }
        ensures { self.new ≡ regions.after_allocation pages self.old }
    {
        self.state = State::Free { pages };
    }

    /// Registers pages of a buffer of `buffer_length` bytes in this free region, under the low byte that is named, for
    /// `length` addresses from `address` on, and gives what is granted. The first byte lies as far behind the begin of
    /// the first page as its address behind a multiple of a page's bytes. The refusals in order are `NotFree`,
    /// `RightsNeedLocalWrite`, `BadPages`, `OutsideBuffer` and `Memory`; each leaves the region as it was.
    pub fn fast_register(
        &mut self,
        alloc: Global,
        slot: Slot,
        low: u8,
        buffer: u16,
        buffer_length: u32,
        address: u64,
        length: u32,
        rights: Rights,
        pages: &Pages,
    ) -> Result<Grant, RegistrationError>
        ensures granted { IfOk result (λ g. g
            ≡ grants.grant_of_fast_registration slot low buffer address length rights pages.now) }
        ensures places { IfOk result (λ g. places_count g.runs ≡ length) }
        ensures valid { OnOk result (self.new
            ≡ regions.after_fast_registration slot low buffer address length rights pages.now self.old) }
        ensures accepted { OnOk result (first_of
            (regions.fast_registration_refusals slot buffer buffer_length address length rights pages.now self.old)
            ≡ None) }
        ensures refused { IfErr result (RefusesBy (first_of
            (regions.fast_registration_refusals slot buffer buffer_length address length rights pages.now self.old))) }
        ensures err { OnErr result (self.new ≡ self.old) }
    {
        let Some(allocated) = self.allocated() else {
            return Err(RegistrationError::Refused(RegionError::NotFree));
        };
        let list = pages.as_slice();
        let skip = (address % u64::from(PAGE_BYTES)) as u32;
        let adapter = slot.domain.adapter;
        if needs_local_write(rights) {
            return Err(RegistrationError::Refused(RegionError::RightsNeedLocalWrite));
        }
        if has_bad_pages(allocated, address, length, list) {
            return Err(RegistrationError::Refused(RegionError::BadPages));
        }
        if pages_pass_end(adapter, buffer, buffer_length, list, skip, length) {
            return Err(RegistrationError::Refused(RegionError::OutsideBuffer));
        }
        let runs = page_parts(alloc, adapter, buffer, list, skip, length)?;
        let mapping = Mapping {
            slot,
            rights,
            address,
            bytes: length,
            places: Places::PageList {
                allocated,
                buffer,
                pages: Pages::copy_of(alloc, list)?,
            },
        };
        let grant = mapping.grant(low, runs);
        self.low = low;
        self.state = State::Valid(mapping);
        Ok(grant)
    }

    /// Ends a fast registration by its key: the region is free again. The refusals in order are `NotValid`,
    /// `KeyDiffers`, `NotFastRegistered` (this profile's choice) and `WindowsBound`.
    pub fn invalidate(&mut self, key: Key) -> Result<(), RegionError>
        ensures accepted { OnOk result (first_of (regions.region_invalidation_refusals key self.old) ≡ None) }
        ensures refused { IfErr result (λ e. first_of (regions.region_invalidation_refusals key self.old) ≡ Some e) }
        ensures free { OnOk result (self.new ≡ regions.after_region_invalidation self.old) }
        ensures err { OnErr result (self.new ≡ self.old) }
    {
        let State::Valid(mapping) = &self.state else {
            return Err(RegionError::NotValid);
        };
        if mapping.key(self.low) != key {
            return Err(RegionError::KeyDiffers);
        }
        let Places::PageList { allocated, .. } = &mapping.places else {
            return Err(RegionError::NotFastRegistered);
        };
        if self.bound > 0 {
            return Err(RegionError::WindowsBound);
        }
        self.state = State::Free { pages: *allocated };
        Ok(())
    }

    /// Makes the slot vacant, and gives the key that was valid. The refusals in order are `Vacant` and `WindowsBound`.
    pub fn deregister(&mut self) -> Result<Option<Key>, RegionError>
        ensures accepted { OnOk result (first_of (regions.deregistration_refusals self.old) ≡ None) }
        ensures refused { IfErr result (λ e. first_of (regions.deregistration_refusals self.old) ≡ Some e) }
        ensures key { IfOk result (λ key. key ≡ valid_key self.old) }
        ensures vacant { OnOk result (self.new ≡ regions.after_deregistration self.old) }
        ensures err { OnErr result (self.new ≡ self.old) }
    {
        if self.is_vacant() {
            return Err(RegionError::Vacant);
        }
        if self.bound > 0 {
            return Err(RegionError::WindowsBound);
        }
        let key = self.key();
        self.state = State::Vacant;
        Ok(key)
    }

    /// Where `touch` bytes from `address` on lie, which the region has: in at most two runs. It takes no memory, and
    /// time that does not grow with the count of pages.
    #[inline(always)]
    pub fn span(&self, address: u64, touch: u32) -> Span
        requires some { 0 < touch }
        requires few { touch ≤ PAGE_BYTES }
        requires has { HasBytes address touch (regions.grant_of_region self.now) }
        ensures places { runs_of_span result ≡ region_runs_at self.now address touch }
        ensures count { places_count (runs_of_span result) ≡ touch }
        ensures whole { address % ATOMIC_BYTES ≡ 0 → touch ≤ ATOMIC_BYTES → result.second ≡ None }
    {
        match &self.state {
            State::Valid(mapping) => mapping.span(address, touch),
            State::Vacant | State::Free { .. } => unreachable!(),
        }
    }

    /// Where `length` bytes from `address` on lie, which the region has: its runs, cut to these bytes.
    pub fn runs(&self, alloc: Global, address: u64, length: u32) -> Result<Runs, Memory>
        requires some { 0 < length }
        requires has { HasBytes address length (regions.grant_of_region self.now) }
        ensures places { IfOk result (λ runs. runs ≡ region_runs_at self.now address length) }
        ensures count { IfOk result (λ runs. places_count runs ≡ length) }
    {
        match &self.state {
            State::Valid(mapping) => mapping.runs(alloc, address, length),
            State::Vacant | State::Free { .. } => unreachable!(),
        }
    }

    /// The buffer in which the region's bytes lie, by its adapter and its number there. None comes exactly where the
    /// region has no byte.
    pub fn buffer(&self) -> Option<(u8, u16)>
        ensures { result ≡ buffer_of_region self.now }
    {
        match &self.state {
            State::Valid(mapping) => mapping.buffer(),
            State::Vacant | State::Free { .. } => None,
        }
    }

    // The key that is valid, if one is.
    fn key(&self) -> Option<Key>
        ensures { result ≡ valid_key self.now }
    {
        match &self.state {
            State::Valid(mapping) => Some(mapping.key(self.low)),
            State::Vacant | State::Free { .. } => None,
        }
    }

    // How many pages a free region was allocated for.
    fn allocated(&self) -> Option<u16>
        ensures { result ≡ regions.free_pages self.now.state }
    {
        match &self.state {
            State::Free { pages } => Some(*pages),
            State::Vacant | State::Valid(_) => None,
        }
    }
}
