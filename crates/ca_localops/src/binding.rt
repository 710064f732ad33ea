ghost use Rattle.std.specs.Prelude.{◌≡◌, ◌<◌, None, Some, IfErr, IfOk, IfSome, OnOk, OnErr, true};
ghost use Rattle.std.specs.Option.{option_copied, option_map, option_and_then};
ghost use Rattle.ca_keys.specs.Refusals.{first_of};
ghost use Rattle.ca_base.specs.objects.Region.{grant_of_region};
ghost use Rattle.ca_localops.specs.Binds as binds;
ghost use Rattle.ca_localops.specs.Errors.{FailsBy};
ghost use Rattle.ca_region.specs.Region.{HasBytes};

use crate::marks::{Marks2, OpError};
use crate::request::{BindKind, BindRequest};
use ca_base::{
    Grant, Key, Memory, OpRefusal, QueueId, RegionView, Rights, WindowCount, WindowError,
};
use ca_region::Region;
use ca_window::Window;
use std::alloc::Global;

// What is seen of the region that a bind names by this key.
fn named_view(named: Option<&Region>, key: Key) -> Option<RegionView>
    ensures view { result ≡ binds.view_for_bind key (option_copied named.entry) }
    ensures key { IfSome result (λ v. v.key ≡ key) }
{
    let view = named?.view();
    if view.valid && view.key == key {
        Some(view)
    } else {
        None
    }
}

fn bind_refusal(w: &Window, view: Option<&RegionView>, b: &BindRequest) -> Option<OpRefusal>
    ensures { result ≡ first_of (binds.bind_refusals b.now (option_copied view.entry) w.now) }
{
    match b.kind {
        BindKind::Type1 { drawn } => match drawn {
            None => Some(OpRefusal::Window(WindowError::WrongType)),
            Some(_) => of_window(w.bind1_refusal(view, b.address, b.length, b.rights)),
        },
        BindKind::Type2 { .. } => of_window(w.bind2_refusal(view, b.address, b.length, b.rights)),
    }
}

fn of_window(refusal: Option<WindowError>) -> Option<OpRefusal>
    ensures { result ≡ option_map OpRefusal.Window refusal }
{
    match refusal {
        Some(error) => Some(OpRefusal::Window(error)),
        None => None,
    }
}

fn low_byte(kind: BindKind) -> u8
    ensures { result ≡ binds.low_for_bind kind }
{
    match kind {
        BindKind::Type1 { drawn: Some(low) } | BindKind::Type2 { low, .. } => low,
        BindKind::Type1 { drawn: None } => 0,
    }
}

fn queue_named(kind: BindKind) -> Option<QueueId>
    ensures { result ≡ binds.queue_for_bind kind }
{
    match kind {
        BindKind::Type1 { .. } => None,
        BindKind::Type2 { queue, .. } => Some(queue),
    }
}

fn key_ended(w: &Window, b: &BindRequest) -> Option<Key>
    ensures { result ≡ binds.key_ended_by_bind b.now w.now }
{
    let BindKind::Type1 { .. } = b.kind else {
        return None;
    };
    match w.view() {
        Some(v) => Some(v.key),
        None => None,
    }
}

// The grant of a bind over a region that has its bytes.
fn grant_over_region(
    alloc: Global,
    w: &Window,
    region: &Region,
    b: &BindRequest,
) -> Result<Grant, Memory>
    requires some { 0 < b.now.length }
    requires has { HasBytes b.now.address b.now.length (grant_of_region region.now) }
    ensures { IfOk result (λ g. Some g ≡ binds.granted_by_bind b.now w.now (grant_of_region region.now)) }
{
    let slot = w.slot();
    Ok(Grant {
        key: Key::of_window(slot, low_byte(b.kind)),
        domain: slot.domain,
        queue: queue_named(b.kind),
        local: false,
        address: b.address,
        length: b.length,
        rights: Rights {
            local_write: false,
            window_bind: false,
            ..b.rights
        },
        runs: region.runs(alloc, b.address, b.length)?,
    })
}

// What a bind grants; one of no bytes grants nothing.
fn grant_of_request(
    alloc: Global,
    w: &Window,
    named: Option<&Region>,
    b: &BindRequest,
) -> Result<Option<Grant>, Memory>
    requires { 0 < b.now.length
        → HasBytes b.now.address b.now.length (option_and_then grant_of_region (option_copied named)) }
    ensures { IfOk result (λ g. g
        ≡ binds.granted_by_bind b.now w.now (option_and_then grant_of_region (option_copied named.entry))) }
{
    if b.length == 0 {
        return Ok(None);
    }
    let Some(region) = named else { unreachable!() };
    Ok(Some(grant_over_region(alloc, w, region, b)?))
}

// What a bind revokes and grants, where it is not refused. It changes nothing.
fn marks_of_bind(
    alloc: Global,
    w: &Window,
    named: Option<&Region>,
    view: Option<&RegionView>,
    b: &BindRequest,
) -> Result<Marks2, OpError>
    requires { option_copied view ≡ binds.view_for_bind b.now.key (option_copied named) }
    ensures accepted { OnOk result (first_of (binds.bind_refusals b.now (option_copied view.entry) w.now) ≡ None) }
    ensures refused { IfErr result (FailsBy (first_of (binds.bind_refusals b.now (option_copied view.entry) w.now))) }
    ensures revoked { IfOk result (λ m. m.revoked ≡ binds.key_ended_by_bind b.now w.now) }
    ensures granted { IfOk result (λ m. m.granted
        ≡ binds.granted_by_bind b.now w.now (option_and_then grant_of_region (option_copied named.entry))) }
{
    if let Some(refusal) = bind_refusal(w, view, b) {
        return Err(OpError::Refused(refusal));
    }
    Ok(Marks2 {
        revoked: key_ended(w, b),
        granted: grant_of_request(alloc, w, named, b)?,
    })
}

// Binds a window that is not refused, by what is seen of the region that the bind names.
fn change_window(w: &mut Window, view: Option<&RegionView>, b: &BindRequest)
    requires accepted { first_of (binds.bind_refusals b.now (option_copied view) w.old) ≡ None }
    requires key { IfSome (option_copied view) (λ v. v.key ≡ b.now.key) }
    ensures { w.new ≡ binds.window_after_bind b.now w.old }
{
    let _ = match b.kind {
        BindKind::Type1 { drawn } => {
            w.bind1(drawn.unwrap_or(0), view, b.address, b.length, b.rights)
        }
        BindKind::Type2 { low, queue } => {
            w.bind2(low, queue, view, b.address, b.length, b.rights)
        }
    };
}

/// Counts the windows of the region that a bind of so many bytes names; the window leaves it first, if it was bound
/// there.
pub fn count_window(region: &mut Region, was_bound: bool, length: u32)
    requires counted { was_bound ≡ true → 0 < region.old.bound }
    requires room { region.old.bound < u32.MAX }
    ensures { region.new ≡ binds.named_after_bind length was_bound region.old }
{
    if was_bound {
        region.note_unbind();
    }
    if length > 0 {
        region.note_bind();
    }
}

/// Binds a window, and counts it where it is of type 2, to a part of the region that the bind names. It changes no
/// region.
pub fn rebind(
    alloc: Global,
    w: &mut Window,
    named: Option<&Region>,
    b: &BindRequest,
    q: &mut WindowCount,
) -> Result<Marks2, OpError>
    requires { q.old.count < u32.MAX }
    ensures accepted { OnOk result
        (first_of (binds.bind_refusals b.now (binds.view_for_bind b.now.key (option_copied named.entry)) w.old)
        ≡ None) }
    ensures refused { IfErr result
        (FailsBy (first_of (binds.bind_refusals b.now
        (binds.view_for_bind b.now.key (option_copied named.entry)) w.old))) }
    ensures revoked { IfOk result (λ m. m.revoked ≡ binds.key_ended_by_bind b.now w.old) }
    ensures granted { IfOk result (λ m. m.granted
        ≡ binds.granted_by_bind b.now w.old (option_and_then grant_of_region (option_copied named.entry))) }
    ensures window { OnOk result (w.new ≡ binds.window_after_bind b.now w.old) }
    ensures count { OnOk result (q.new ≡ binds.count_after_bind b.now q.old) }
    ensures err_window { OnErr result (w.new ≡ w.old) }
    ensures err_count { OnErr result (q.new ≡ q.old) }
{
    let view = named_view(named, b.key);
    let marks = marks_of_bind(alloc, w, named, view.as_ref(), b)?;
    change_window(w, view.as_ref(), b);
    if let BindKind::Type2 { .. } = b.kind {
        q.count += 1;
    }
    Ok(marks)
}
