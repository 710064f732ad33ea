ghost use Rattle.std.specs.Prelude.{◌≡◌, ◌<◌, true, None, Some, IfSome, OnErr, OnOk};
ghost use Rattle.ca_adapter_local.specs.Local.{local_end};
ghost use Rattle.ca_adapter_local.specs.Made.{HasPerformed};
ghost use Rattle.ca_adapter_local.specs.Parts.{AreParts, has_region, has_window, region_at};
ghost use Rattle.ca_adapter_local.specs.Site as sites;
ghost use Rattle.ca_base.specs.Configuration.{configuration_in};
ghost use Rattle.ca_base.specs.objects.Region.{with_window_unbound};
ghost use Rattle.ca_adapter_parts.specs.HeldView.{holding};
ghost use Rattle.ca_adapter_parts.specs.declared.held.Held.{Held as HeldParts};
ghost use Rattle.ca_adapter_reach.specs.Seen.{region_in, window_in};
ghost use Rattle.ca_keys.specs.declared.names.Slot.{Slot as SlotName};
ghost use Rattle.ca_localops.specs.Binds as binds;
ghost use Rattle.ca_localops.specs.Requests.{IsBind, request_of};
ghost use Rattle.ca_model.specs.machine.LocalOperations.{window_slot};

use crate::made::Made;
use ca_adapter_reach::Reached;
use ca_base::{DomainId, Key, QueueId, SendOp, Settings, Slot, WindowCount, slot_of_key};
use ca_localops::{Marks2, OpError};
use ca_qpstate::QueuePart;
use ca_region::Region;
use ca_window::Window;
use std::alloc::Global;
use std::mem;

/// Where a bind takes place: its window; the region in which that is bound, where this is another than the one that the
/// bind names; the region that it names, if it names one; the byte that it drew, and its queue pair.
#[derive(Clone, Copy)]
pub(crate) struct Site {
    pub(crate) window: Slot,
    pub(crate) former: Option<Slot>,
    pub(crate) named: Option<Slot>,
    pub(crate) drawn: Option<u8>,
    pub(crate) queue: QueueId,
}

/// Performs a bind of a queue pair over the parts in hand, with the byte that it drew. The refusals, and then `Memory`,
/// leave them as they were.
pub(crate) fn bind(
    alloc: Global,
    settings: &Settings,
    reached: &mut Reached,
    q: &QueuePart,
    op: &SendOp,
    drawn: Option<u8>,
) -> Result<Made, OpError>
    requires operation { IsBind op.now }
    requires parts { AreParts (configuration_in settings.now) reached.old q.now op.now }
    requires few { q.now.windows < u32.MAX }
    requires room { (s : SlotName) → (region_in reached.old s).bound < u32.MAX }
    ensures { (h : HeldParts) → h.reached ≡ reached.old → HasPerformed result
        (local_end (configuration_in settings.now) (holding h).world q.now drawn op.now) h reached.new }
{
    let site = site_of(settings, reached, q, op, drawn);
    let mut windows = q.windows;
    let marks = bind_at(alloc, reached, op, site, &mut windows)?;
    Ok(Made { marks, windows })
}

/// Where a bind of a queue pair takes place.
fn site_of(
    settings: &Settings,
    reached: &Reached,
    q: &QueuePart,
    op: &SendOp,
    drawn: Option<u8>,
) -> Site
    requires operation { IsBind op.now }
    requires window { has_window reached.now (window_slot q.now (sites.window_of op.now)) ≡ true }
    ensures { result ≡ sites.site_of (configuration_in settings.now) reached.now q.now drawn op.now }
{
    let (number, key) = names_of(op);
    let window = Slot {
        domain: q.domain,
        slot: number,
    };
    let named = slot_named(settings, q.domain, key);
    Site {
        window,
        former: apart_from(named, slot_bound(reached.windows.at(window))),
        named,
        drawn,
        queue: q.queue,
    }
}

/// The window that a bind names, by slot, and the key of the region.
fn names_of(op: &SendOp) -> (u16, Key)
    requires { IsBind op.now }
    ensures { result ≡ (sites.window_of op.now, sites.key_of op.now) }
{
    match op {
        SendOp::Bind1 { window, region, .. } | SendOp::Bind2 { window, region, .. } => {
            (*window, *region)
        }
        _ => unreachable!(),
    }
}

/// The slot of the region that a key of a domain names, if it names one that is configured.
fn slot_named(settings: &Settings, domain: DomainId, key: Key) -> Option<Slot>
    ensures { result ≡ sites.slot_named (configuration_in settings.now) domain key }
{
    if settings.names_region(domain, key) {
        Some(slot_of_key(domain, key))
    } else {
        None
    }
}

/// The slot of the region in which a window is bound, if it is.
fn slot_bound(window: &Window) -> Option<Slot>
    ensures { result ≡ sites.slot_bound window.now }
{
    Some(Slot {
        domain: window.slot().domain,
        slot: window.region()?,
    })
}

/// The former slot, where it is another than the named one.
fn apart_from(named: Option<Slot>, former: Option<Slot>) -> Option<Slot>
    ensures { result ≡ sites.apart_from named former }
{
    if named.is_some() && named == former {
        None
    } else {
        former
    }
}

/// Binds the window of a site. The former region is taken from its place meanwhile, since the named one stands beside
/// it.
fn bind_at(
    alloc: Global,
    reached: &mut Reached,
    op: &SendOp,
    site: Site,
    windows: &mut WindowCount,
) -> Result<Marks2, OpError>
    requires operation { IsBind op.now }
    requires parts { sites.IsAtHand reached.old site }
    requires room { (s : SlotName) → (region_in reached.old s).bound < u32.MAX }
    requires few { windows.old.count < u32.MAX }
    ensures bound { sites.HasBound result (request_of op.now site.drawn site.queue) (window_in reached.old site.window)
        (region_at reached.old site.named) windows.old windows.new }
    ensures parts { OnOk result (reached.new
        ≡ sites.after_bind_at reached.old site (request_of op.now site.drawn site.queue)) }
    ensures err { OnErr result (reached.new ≡ reached.old) }
{
    let Some(former) = site.former else {
        return bind_here(alloc, reached, op, site, windows);
    };
    let mut left = mem::replace(reached.regions.at_mut(former), Region::vacant());
    let made = bind_across(alloc, reached, &mut left, op, site, windows);
    *reached.regions.at_mut(former) = left;
    made
}

/// Binds the window of a site, which is unbound, or bound in the region that is named.
#[tactic(auto, using(ca_adapter_reach::specs::Laws::same_thing))]
fn bind_here(
    alloc: Global,
    reached: &mut Reached,
    op: &SendOp,
    site: Site,
    windows: &mut WindowCount,
) -> Result<Marks2, OpError>
    requires operation { IsBind op.now }
    requires window { has_window reached.old site.window ≡ true }
    requires named { IfSome site.named (λ s. has_region reached.old s ≡ true) }
    requires counted { binds.CountsBinding (window_in reached.old site.window) None (region_at reached.old site.named) }
    requires room { IfSome (region_at reached.old site.named) (λ r. r.bound < u32.MAX) }
    requires few { windows.old.count < u32.MAX }
    ensures bound { sites.HasBound result (request_of op.now site.drawn site.queue) (window_in reached.old site.window)
        (region_at reached.old site.named) windows.old windows.new }
    ensures parts { let was_bound = binds.is_bound_in_named (window_in reached.old site.window) None in
        OnOk result (reached.new ≡ sites.after_bind reached.old site was_bound
        (request_of op.now site.drawn site.queue)) }
    ensures err { OnErr result (reached.new ≡ reached.old) }
{
    let window = reached.windows.at_mut(site.window);
    let Some(named) = site.named else {
        let (drawn, queue) = (site.drawn, site.queue);
        return ca_localops::bind(alloc, window, None, None, windows, op, drawn, queue);
    };
    let region = reached.regions.at_mut(named);
    bind_named(alloc, window, region, op, site, windows)
}

/// Binds the window of a site, which is bound in another region than the one that is named, if one is: it leaves that
/// one.
#[tactic(auto, using(ca_adapter_reach::specs::Laws::same_thing))]
fn bind_across(
    alloc: Global,
    reached: &mut Reached,
    former: &mut Region,
    op: &SendOp,
    site: Site,
    windows: &mut WindowCount,
) -> Result<Marks2, OpError>
    requires operation { IsBind op.now }
    requires window { has_window reached.old site.window ≡ true }
    requires named { IfSome site.named (λ s. has_region reached.old s ≡ true) }
    requires counted { 0 < former.old.bound }
    requires room { IfSome (region_at reached.old site.named) (λ r. r.bound < u32.MAX) }
    requires few { windows.old.count < u32.MAX }
    ensures bound { sites.HasBound result (request_of op.now site.drawn site.queue) (window_in reached.old site.window)
        (region_at reached.old site.named) windows.old windows.new }
    ensures parts { let was_bound = binds.is_bound_in_named (window_in reached.old site.window) (Some former.old) in
        OnOk result (reached.new ≡ sites.after_bind reached.old site was_bound
        (request_of op.now site.drawn site.queue)) }
    ensures err { OnErr result (reached.new ≡ reached.old) }
    ensures former { OnOk result (former.new ≡ with_window_unbound former.old) }
    ensures err_former { OnErr result (former.new ≡ former.old) }
{
    let window = reached.windows.at_mut(site.window);
    let Some(named) = site.named else {
        let (drawn, queue) = (site.drawn, site.queue);
        return ca_localops::bind(alloc, window, Some(former), None, windows, op, drawn, queue);
    };
    let region = reached.regions.at_mut(named);
    bind_moving(alloc, window, former, region, op, site, windows)
}

/// Binds a window that is unbound, or bound in the region that is named.
fn bind_named(
    alloc: Global,
    window: &mut Window,
    region: &mut Region,
    op: &SendOp,
    site: Site,
    windows: &mut WindowCount,
) -> Result<Marks2, OpError>
    requires operation { IsBind op.now }
    requires counted { binds.CountsBinding window.old None (Some region.old) }
    requires room { region.old.bound < u32.MAX }
    requires few { windows.old.count < u32.MAX }
    ensures bound { sites.HasBound result (request_of op.now site.drawn site.queue) window.old (Some region.old)
        windows.old windows.new }
    ensures window { OnOk result (window.new
        ≡ binds.window_after_bind (request_of op.now site.drawn site.queue) window.old) }
    ensures region { OnOk result (region.new ≡ binds.named_after_bind (request_of op.now site.drawn site.queue).length
        (binds.is_bound_in_named window.old None) region.old) }
    ensures err_window { OnErr result (window.new ≡ window.old) }
    ensures err_region { OnErr result (region.new ≡ region.old) }
{
    let (drawn, queue) = (site.drawn, site.queue);
    ca_localops::bind(alloc, window, None, Some(region), windows, op, drawn, queue)
}

/// Binds a window that is bound in another region than the one that is named: it leaves that one.
fn bind_moving(
    alloc: Global,
    window: &mut Window,
    former: &mut Region,
    region: &mut Region,
    op: &SendOp,
    site: Site,
    windows: &mut WindowCount,
) -> Result<Marks2, OpError>
    requires operation { IsBind op.now }
    requires counted { 0 < former.old.bound }
    requires room { region.old.bound < u32.MAX }
    requires few { windows.old.count < u32.MAX }
    ensures bound { sites.HasBound result (request_of op.now site.drawn site.queue) window.old (Some region.old)
        windows.old windows.new }
    ensures window { OnOk result (window.new
        ≡ binds.window_after_bind (request_of op.now site.drawn site.queue) window.old) }
    ensures former { OnOk result (former.new ≡ with_window_unbound former.old) }
    ensures region { OnOk result (region.new ≡ binds.named_after_bind (request_of op.now site.drawn site.queue).length
        (binds.is_bound_in_named window.old (Some former.old)) region.old) }
    ensures err_window { OnErr result (window.new ≡ window.old) }
    ensures err_former { OnErr result (former.new ≡ former.old) }
    ensures err_region { OnErr result (region.new ≡ region.old) }
{
    let (drawn, queue) = (site.drawn, site.queue);
    ca_localops::bind(
        alloc,
        window,
        Some(former),
        Some(region),
        windows,
        op,
        drawn,
        queue,
    )
}
