ghost use Rattle.std.specs.Prelude.{◌≡◌, ◌<◌, None, Some, IfErr, IfOk, IfSome, OnOk, OnErr, is_none, not, false};
ghost use Rattle.std.specs.Option.{option_copied_mut, option_map, option_and_then};
ghost use Rattle.ca_keys.specs.Refusals.{first_of};
ghost use Rattle.ca_base.specs.objects.Region.{grant_of_region, with_window_unbound};
ghost use Rattle.ca_localops.specs.Binds as binds;
ghost use Rattle.ca_localops.specs.Errors.{FailsBy};
ghost use Rattle.ca_base.specs.Handed.{left_behind};
ghost use Rattle.ca_localops.specs.Requests.{IsBind, request_of};

use crate::binding::{count_window, rebind};
use crate::marks::{Marks2, OpError};
use crate::request::{BindRequest, request_from};
use ca_base::{QueueId, SendOp, WindowCount};
use ca_region::Region;
use ca_window::Window;
use std::alloc::Global;

/// Performs a bind of a window: it leaves the region in which it was bound, `former`, and is bound in the one that the
/// bind names, `r`. Where both are one region it is handed in as `r` alone. The byte that a Bind1 drew when it was
/// posted is `drawn`; one that drew none is refused as `WrongType`. The refusals in order are those of the window, and
/// then `Memory`; each leaves everything as it was.
pub fn bind(
    alloc: Global,
    w: &mut Window,
    former: Option<&mut Region>,
    r: Option<&mut Region>,
    q: &mut WindowCount,
    op: &SendOp,
    drawn: Option<u8>,
    queue: QueueId,
) -> Result<Marks2, OpError>
    requires operation { IsBind op.now }
    requires counted { binds.CountsBinding w.old (option_copied_mut former) (option_copied_mut r) }
    requires region_room { IfSome (option_copied_mut r) (λ r. r.bound < u32.MAX) }
    requires room { q.old.count < u32.MAX }
    ensures accepted { let b = request_of op.now drawn queue in
        OnOk result (first_of (binds.bind_refusals b (binds.view_for_bind b.key (option_copied_mut r.entry)) w.old)
        ≡ None) }
    ensures refused { let b = request_of op.now drawn queue in
        IfErr result (FailsBy
        (first_of (binds.bind_refusals b (binds.view_for_bind b.key (option_copied_mut r.entry)) w.old))) }
    ensures revoked { IfOk result (λ m. m.revoked ≡ binds.key_ended_by_bind (request_of op.now drawn queue) w.old) }
    ensures granted { IfOk result (λ m. m.granted
        ≡ binds.granted_by_bind (request_of op.now drawn queue) w.old
        (option_and_then grant_of_region (option_copied_mut r.entry))) }
    ensures window { OnOk result (w.new ≡ binds.window_after_bind (request_of op.now drawn queue) w.old) }
    ensures former { OnOk result (left_behind former.exit
        ≡ option_map with_window_unbound (option_copied_mut former.entry)) }
    ensures region { let was_bound = binds.is_bound_in_named w.old (option_copied_mut former.entry) in
        OnOk result (left_behind r.exit
        ≡ option_map (binds.named_after_bind (request_of op.now drawn queue).length was_bound)
        (option_copied_mut r.entry)) }
    ensures count { OnOk result (q.new ≡ binds.count_after_bind (request_of op.now drawn queue) q.old) }
    ensures err_window { OnErr result (w.new ≡ w.old) }
    ensures err_former { OnErr result (left_behind former.exit ≡ option_copied_mut former.entry) }
    ensures err_region { OnErr result (left_behind r.exit ≡ option_copied_mut r.entry) }
    ensures err_count { OnErr result (q.new ≡ q.old) }
{
    let b = request_from(op, drawn, queue);
    let Some(former) = former else {
        let Some(region) = r else {
            return rebind(alloc, w, None, &b, q);
        };
        return bind_in_named(alloc, w, region, &b, q);
    };
    let Some(region) = r else {
        return bind_away(alloc, w, former, &b, q);
    };
    bind_elsewhere(alloc, w, former, region, &b, q)
}

// A bind of a window that is unbound, or bound in the region that the bind names.
fn bind_in_named(
    alloc: Global,
    w: &mut Window,
    region: &mut Region,
    b: &BindRequest,
    q: &mut WindowCount,
) -> Result<Marks2, OpError>
    requires counted { binds.CountsBinding w.old None (Some region.old) }
    requires region_room { region.old.bound < u32.MAX }
    requires room { q.old.count < u32.MAX }
    ensures accepted { OnOk result
        (first_of (binds.bind_refusals b.now (binds.view_for_bind b.now.key (Some region.old)) w.old) ≡ None) }
    ensures refused { IfErr result
        (FailsBy (first_of (binds.bind_refusals b.now (binds.view_for_bind b.now.key (Some region.old)) w.old))) }
    ensures revoked { IfOk result (λ m. m.revoked ≡ binds.key_ended_by_bind b.now w.old) }
    ensures granted { IfOk result (λ m. m.granted ≡ binds.granted_by_bind b.now w.old (grant_of_region region.old)) }
    ensures window { OnOk result (w.new ≡ binds.window_after_bind b.now w.old) }
    ensures count { OnOk result (q.new ≡ binds.count_after_bind b.now q.old) }
    ensures region { OnOk result (region.new
        ≡ binds.named_after_bind b.now.length (not (is_none w.old.binding)) region.old) }
    ensures err_window { OnErr result (w.new ≡ w.old) }
    ensures err_count { OnErr result (q.new ≡ q.old) }
    ensures err_region { OnErr result (region.new ≡ region.old) }
{
    let was_bound = w.region().is_some();
    let marks = rebind(alloc, w, Some(&*region), b, q)?;
    count_window(region, was_bound, b.length);
    Ok(marks)
}

// A bind of a window that leaves a region, and names none.
fn bind_away(
    alloc: Global,
    w: &mut Window,
    former: &mut Region,
    b: &BindRequest,
    q: &mut WindowCount,
) -> Result<Marks2, OpError>
    requires counted { 0 < former.old.bound }
    requires room { q.old.count < u32.MAX }
    ensures accepted { OnOk result (first_of (binds.bind_refusals b.now (binds.view_for_bind b.now.key None) w.old)
        ≡ None) }
    ensures refused { IfErr result
        (FailsBy (first_of (binds.bind_refusals b.now (binds.view_for_bind b.now.key None) w.old))) }
    ensures revoked { IfOk result (λ m. m.revoked ≡ binds.key_ended_by_bind b.now w.old) }
    ensures granted { IfOk result (λ m. m.granted ≡ binds.granted_by_bind b.now w.old None) }
    ensures window { OnOk result (w.new ≡ binds.window_after_bind b.now w.old) }
    ensures count { OnOk result (q.new ≡ binds.count_after_bind b.now q.old) }
    ensures former { OnOk result (former.new ≡ with_window_unbound former.old) }
    ensures err_window { OnErr result (w.new ≡ w.old) }
    ensures err_count { OnErr result (q.new ≡ q.old) }
    ensures err_former { OnErr result (former.new ≡ former.old) }
{
    let marks = rebind(alloc, w, None, b, q)?;
    former.note_unbind();
    Ok(marks)
}

// A bind of a window that leaves one region, and names another.
fn bind_elsewhere(
    alloc: Global,
    w: &mut Window,
    former: &mut Region,
    region: &mut Region,
    b: &BindRequest,
    q: &mut WindowCount,
) -> Result<Marks2, OpError>
    requires counted { 0 < former.old.bound }
    requires region_room { region.old.bound < u32.MAX }
    requires room { q.old.count < u32.MAX }
    ensures accepted { OnOk result
        (first_of (binds.bind_refusals b.now (binds.view_for_bind b.now.key (Some region.old)) w.old) ≡ None) }
    ensures refused { IfErr result
        (FailsBy (first_of (binds.bind_refusals b.now (binds.view_for_bind b.now.key (Some region.old)) w.old))) }
    ensures revoked { IfOk result (λ m. m.revoked ≡ binds.key_ended_by_bind b.now w.old) }
    ensures granted { IfOk result (λ m. m.granted ≡ binds.granted_by_bind b.now w.old (grant_of_region region.old)) }
    ensures window { OnOk result (w.new ≡ binds.window_after_bind b.now w.old) }
    ensures count { OnOk result (q.new ≡ binds.count_after_bind b.now q.old) }
    ensures former { OnOk result (former.new ≡ with_window_unbound former.old) }
    ensures region { OnOk result (region.new ≡ binds.named_after_bind b.now.length false region.old) }
    ensures err_window { OnErr result (w.new ≡ w.old) }
    ensures err_count { OnErr result (q.new ≡ q.old) }
    ensures err_former { OnErr result (former.new ≡ former.old) }
    ensures err_region { OnErr result (region.new ≡ region.old) }
{
    let marks = rebind(alloc, w, Some(&*region), b, q)?;
    former.note_unbind();
    count_window(region, false, b.length);
    Ok(marks)
}
