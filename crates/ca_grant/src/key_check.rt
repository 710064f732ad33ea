ghost use Rattle.std.specs.Prelude.{◌≡◌, ◌%◌, ◌<◌, ◌≤◌, None, Some, IfErr, IfOk, IfNone, OnOk};
ghost use Rattle.std.specs.Option.{option_copied};
ghost use Rattle.ca_keys.specs.Allowed as allowed;
ghost use Rattle.ca_keys.specs.Allowed.{denial_of};
ghost use Rattle.ca_keys.specs.Memory.{runs_for, places_count};
ghost use Rattle.ca_base.specs.declared.limits.TheConstants.{ATOMIC_BYTES};
ghost use Rattle.ca_base.specs.objects.Region.{grant_of_region};
ghost use Rattle.ca_base.specs.objects.Slices.{is_key_of};
ghost use Rattle.ca_grant.specs.KeySlot.{list_of_grant};
ghost use Rattle.ca_grant.specs.Parts.{grant_of_bound, grant_of_parts, grants_of_parts, IsOfAdapter, LiesInRegion, LiesWithin};
ghost use Rattle.ca_grant.specs.Reaching.{IsPacketAsk};
ghost use Rattle.ca_grant.specs.Views as views;
ghost use Rattle.ca_region.specs.Region.{HasBytes};
ghost use Rattle.ca_region.specs.Span.{runs_of_span};

use ca_base::{Ask, Denial, QueueId, RegionView, Rights, Span};
use ca_region::Region;
use ca_window::{Window, WindowView};

/// Judges an ask by the window and the region that its key names, of the ask's adapter; under a bound window the region
/// is that window's. The first part of the key check that fails, in the order `NoGrant`, `WrongQueue`, `NoRight` and
/// `OutOfRange`, or else the places of the bytes that the ask touches. It takes no memory.
#[inline(always)]
pub fn judge(w: Option<&Window>, r: Option<&Region>, ask: &Ask) -> Result<Span, Denial>
    requires packet { IsPacketAsk ask.now }
    requires adapter { IsOfAdapter ask.now (grant_of_parts (option_copied w) (option_copied r)) }
    requires lies { LiesInRegion (option_copied w) (option_copied r) }
    ensures denied { IfErr result
        (λ d. denial_of ask.now (grants_of_parts (option_copied w.entry) (option_copied r.entry)) ≡ Some d) }
    ensures allowed { OnOk result
        (denial_of ask.now (grants_of_parts (option_copied w.entry) (option_copied r.entry)) ≡ None) }
    ensures places { IfOk result (λ span. runs_of_span span
        ≡ runs_for ask.now (grants_of_parts (option_copied w.entry) (option_copied r.entry)) ask.now.touch) }
    ensures count { IfOk result (λ span. places_count (runs_of_span span) ≡ ask.now.touch) }
    ensures whole { IfOk result (λ span. ask.now.address % ATOMIC_BYTES ≡ 0 → ask.now.touch ≤ ATOMIC_BYTES
        → span.second ≡ None) }
{
    let Some(region) = r else {
        return Err(Denial::NoGrant);
    };
    match w {
        None => judge_by_region(region, ask),
        Some(window) => judge_by_window(window, region, ask),
    }
}

#[inline(always)]
fn judge_by_region(region: &Region, ask: &Ask) -> Result<Span, Denial>
    requires packet { IsPacketAsk ask.now }
    requires adapter { IsOfAdapter ask.now (grant_of_region region.now) }
    ensures denied { IfErr result (λ d. denial_of ask.now (list_of_grant (grant_of_region region.now)) ≡ Some d) }
    ensures allowed { OnOk result (denial_of ask.now (list_of_grant (grant_of_region region.now)) ≡ None) }
    ensures places { IfOk result (λ span. runs_of_span span
        ≡ runs_for ask.now (list_of_grant (grant_of_region region.now)) ask.now.touch) }
    ensures count { IfOk result (λ span. places_count (runs_of_span span) ≡ ask.now.touch) }
    ensures whole { IfOk result (λ span. ask.now.address % ATOMIC_BYTES ≡ 0 → ask.now.touch ≤ ATOMIC_BYTES
        → span.second ≡ None) }
{
    match region_denial(region, ask) {
        Some(denial) => Err(denial),
        None => Ok(region.span(ask.address, ask.touch)),
    }
}

#[inline(always)]
fn judge_by_window(window: &Window, region: &Region, ask: &Ask) -> Result<Span, Denial>
    requires packet { IsPacketAsk ask.now }
    requires adapter { IsOfAdapter ask.now (grant_of_bound window.now (grant_of_region region.now)) }
    requires lies { LiesWithin window.now.binding (grant_of_region region.now) }
    ensures denied { IfErr result
        (λ d. denial_of ask.now (list_of_grant (grant_of_bound window.now (grant_of_region region.now))) ≡ Some d) }
    ensures allowed { OnOk result
        (denial_of ask.now (list_of_grant (grant_of_bound window.now (grant_of_region region.now))) ≡ None) }
    ensures places { IfOk result (λ span. runs_of_span span
        ≡ runs_for ask.now (list_of_grant (grant_of_bound window.now (grant_of_region region.now))) ask.now.touch) }
    ensures count { IfOk result (λ span. places_count (runs_of_span span) ≡ ask.now.touch) }
    ensures whole { IfOk result (λ span. ask.now.address % ATOMIC_BYTES ≡ 0 → ask.now.touch ≤ ATOMIC_BYTES
        → span.second ≡ None) }
{
    match window_denial(window, region, ask) {
        Some(denial) => Err(denial),
        None => Ok(region.span(ask.address, ask.touch)),
    }
}

// The first part that fails by what is seen of the region.
#[inline(always)]
fn region_denial(region: &Region, ask: &Ask) -> Option<Denial>
    requires some { 0 < ask.now.length }
    requires adapter { IsOfAdapter ask.now (grant_of_region region.now) }
    ensures denial { result ≡ denial_of ask.now (list_of_grant (grant_of_region region.now)) }
    ensures has { IfNone result (HasBytes ask.now.address ask.now.length (grant_of_region region.now)) }
{
    let v = region.view();
    denial_by_parts(
        fits_region(&v, ask),
        None,
        v.rights,
        v.address,
        v.length,
        ask,
    )
}

// The first part that fails by what is seen of the window and its region.
#[tactic(auto, using(crate::proofs::Windows::windows))]
#[inline(always)]
fn window_denial(window: &Window, region: &Region, ask: &Ask) -> Option<Denial>
    requires some { 0 < ask.now.length }
    requires adapter { IsOfAdapter ask.now (grant_of_bound window.now (grant_of_region region.now)) }
    requires lies { LiesWithin window.now.binding (grant_of_region region.now) }
    ensures denial { result
        ≡ denial_of ask.now (list_of_grant (grant_of_bound window.now (grant_of_region region.now))) }
    ensures has { IfNone result (HasBytes ask.now.address ask.now.length (grant_of_region region.now)) }
{
    let Some(v) = window.view() else {
        return Some(Denial::NoGrant);
    };
    if !region.view().valid {
        return Some(Denial::NoGrant);
    }
    denial_by_parts(
        fits_window(&v, ask),
        v.queue,
        v.rights,
        v.address,
        v.length,
        ask,
    )
}

#[inline(always)]
fn fits_region(v: &RegionView, ask: &Ask) -> bool
    ensures { result ≡ views.fits_region v.now ask.now }
{
    v.valid && v.key == ask.key && is_of_domain(ask)
}

#[inline(always)]
fn fits_window(v: &WindowView, ask: &Ask) -> bool
    ensures { result ≡ views.fits_window v.now ask.now }
{
    !ask.local && v.key == ask.key && is_of_domain(ask)
}

#[inline(always)]
fn denial_by_parts(
    is_fitting: bool,
    queue: Option<QueueId>,
    rights: Rights,
    address: u64,
    length: u32,
    ask: &Ask,
) -> Option<Denial>
    ensures { result ≡ views.denial_by_parts is_fitting queue rights address length ask.now }
{
    if !is_fitting {
        return Some(Denial::NoGrant);
    }
    if !serves(queue, ask.queue) {
        return Some(Denial::WrongQueue);
    }
    if !rights.suffice(ask.key_use(), ask.kind) {
        return Some(Denial::NoRight);
    }
    if !covers(address, length, ask) {
        return Some(Denial::OutOfRange);
    }
    None
}

#[inline(always)]
fn serves(named: Option<QueueId>, queue: QueueId) -> bool
    ensures { result ≡ allowed.serves named queue }
{
    match named {
        None => true,
        Some(named) => named == queue,
    }
}

#[inline(always)]
fn covers(address: u64, length: u32, ask: &Ask) -> bool
    ensures { result ≡ views.range_covers address length ask.now }
{
    if ask.address < address {
        return false;
    }
    let before = ask.address - address;
    before <= u64::from(length) && u64::from(ask.length) <= u64::from(length) - before
}

// Whether the key is one of the ask's domain, by its index.
#[inline(always)]
fn is_of_domain(ask: &Ask) -> bool
    ensures { result ≡ is_key_of ask.now.domain ask.now.key }
{
    ask.key.index() / 0x10000 == u32::from(ask.domain.domain)
}
