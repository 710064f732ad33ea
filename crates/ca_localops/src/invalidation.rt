ghost use Rattle.std.specs.Prelude.{◌≡◌, ◌<◌, None, Some, IfErr, IfOk, OnOk, OnErr, IsTrue, IsErr, false};
ghost use Rattle.std.specs.Option.{option_copied_mut, option_map};
ghost use Rattle.ca_base.specs.objects.LocalRequest.{region_refusal, unnamed_refusal, window_refusal};
ghost use Rattle.ca_base.specs.objects.Region.{after_region_invalidation};
ghost use Rattle.ca_keys.specs.Numbers.{is_window_key};
ghost use Rattle.ca_base.specs.objects.Window.{without_binding};
ghost use Rattle.ca_base.specs.Handed.{left_behind};
ghost use Rattle.ca_base.specs.objects.Window.{count_without};
ghost use Rattle.ca_localops.specs.Operations.{CountsWindow, key_refusal, key_refusal_by_region, region_without_key, window_without_key};

use crate::marks::Marks2;
use ca_base::{Key, OpRefusal, QueueId, RegionError, WindowCount, WindowError};
use ca_region::Region;
use ca_window::Window;

/// Ends a key, asked by a queue pair: that of a window, with the region under it, or that of a region. A key that is not
/// of the queue pair's domain, or whose slot is not there, is handed in without parts. The refusals in order are those
/// of the part that the key names; a key without its part is `NotValid` for a region's and `NoWindow` for a window's.
/// It takes no memory.
pub fn invalidate(
    w: Option<&mut Window>,
    r: Option<&mut Region>,
    q: &mut WindowCount,
    key: Key,
    queue: QueueId,
) -> Result<Marks2, OpRefusal>
    requires region { CountsWindow key queue (option_copied_mut w) (option_copied_mut r) }
    requires counted { IsTrue (is_window_key key) → key_refusal key queue (option_copied_mut w) (option_copied_mut r)
        ≡ None → 0 < q.old.count }
    ensures accepted { OnOk result (key_refusal key queue (option_copied_mut w.entry) (option_copied_mut r.entry)
        ≡ None) }
    ensures refused { IfErr result
        (λ e. key_refusal key queue (option_copied_mut w.entry) (option_copied_mut r.entry) ≡ Some e) }
    ensures revoked { IfOk result (λ m. m.revoked ≡ Some key) }
    ensures granted { IfOk result (λ m. m.granted ≡ None) }
    ensures window { OnOk result (left_behind w.exit
        ≡ option_map (window_without_key key) (option_copied_mut w.entry)) }
    ensures region { OnOk result (left_behind r.exit
        ≡ option_map (region_without_key key) (option_copied_mut r.entry)) }
    ensures count { OnOk result (q.new ≡ count_without key q.old) }
    ensures err_window { OnErr result (left_behind w.exit ≡ option_copied_mut w.entry) }
    ensures err_region { OnErr result (left_behind r.exit ≡ option_copied_mut r.entry) }
    ensures err_count { OnErr result (q.new ≡ q.old) }
{
    let Some(window) = w else {
        let Some(region) = r else {
            return Err(refusal_of_unnamed(key));
        };
        return end_key_without_window(region, key);
    };
    let Some(region) = r else {
        return end_key_without_region(window, key, queue);
    };
    end_key(window, region, q, key, queue)
}

fn end_key_without_window(region: &mut Region, key: Key) -> Result<Marks2, OpRefusal>
    ensures accepted { OnOk result (key_refusal_by_region key region.old ≡ None) }
    ensures region_key { OnOk result (is_window_key key ≡ false) }
    ensures refused { IfErr result (λ e. key_refusal_by_region key region.old ≡ Some e) }
    ensures revoked { IfOk result (λ m. m.revoked ≡ Some key) }
    ensures granted { IfOk result (λ m. m.granted ≡ None) }
    ensures ok { OnOk result (region.new ≡ region_without_key key region.old) }
    ensures err { OnErr result (region.new ≡ region.old) }
{
    if key.names_window() {
        return Err(refusal_of_unnamed(key));
    }
    end_region_key(region, key)?;
    Ok(revocation_of(key))
}

fn end_key_without_region(
    window: &mut Window,
    key: Key,
    queue: QueueId,
) -> Result<Marks2, OpRefusal>
    requires { CountsWindow key queue (Some window.old) None }
    ensures refused { IfErr result (λ e. key_refusal key queue (Some window.old) None ≡ Some e) }
    ensures err { IsErr result }
    ensures same { window.new ≡ window.old }
{
    if !key.names_window() {
        return Err(refusal_of_unnamed(key));
    }
    end_window_key(window, key, queue)?;
    unreachable!()
}

fn end_key(
    window: &mut Window,
    region: &mut Region,
    q: &mut WindowCount,
    key: Key,
    queue: QueueId,
) -> Result<Marks2, OpRefusal>
    requires region { CountsWindow key queue (Some window.old) (Some region.old) }
    requires counted { IsTrue (is_window_key key) → key_refusal key queue (Some window.old) (Some region.old) ≡ None
        → 0 < q.old.count }
    ensures accepted { OnOk result (key_refusal key queue (Some window.old) (Some region.old) ≡ None) }
    ensures refused { IfErr result (λ e. key_refusal key queue (Some window.old) (Some region.old) ≡ Some e) }
    ensures revoked { IfOk result (λ m. m.revoked ≡ Some key) }
    ensures granted { IfOk result (λ m. m.granted ≡ None) }
    ensures window { OnOk result (window.new ≡ window_without_key key window.old) }
    ensures region { OnOk result (region.new ≡ region_without_key key region.old) }
    ensures count { OnOk result (q.new ≡ count_without key q.old) }
    ensures err_window { OnErr result (window.new ≡ window.old) }
    ensures err_region { OnErr result (region.new ≡ region.old) }
    ensures err_count { OnErr result (q.new ≡ q.old) }
{
    if key.names_window() {
        end_window_key(window, key, queue)?;
        region.note_unbind();
        q.count -= 1;
    } else {
        end_region_key(region, key)?;
    }
    Ok(revocation_of(key))
}

fn revocation_of(key: Key) -> Marks2
    ensures revoked { result.revoked ≡ Some key }
    ensures granted { result.granted ≡ None }
{
    Marks2 {
        revoked: Some(key),
        granted: None,
    }
}

// Why the invalidation of a key is refused that names nothing.
fn refusal_of_unnamed(key: Key) -> OpRefusal
    ensures { result ≡ unnamed_refusal key }
{
    if key.names_window() {
        OpRefusal::Window(WindowError::NoWindow)
    } else {
        OpRefusal::Region(RegionError::NotValid)
    }
}

fn end_region_key(region: &mut Region, key: Key) -> Result<(), OpRefusal>
    ensures accepted { OnOk result (region_refusal key region.old ≡ None) }
    ensures refused { IfErr result (λ e. region_refusal key region.old ≡ Some e) }
    ensures ok { OnOk result (region.new ≡ after_region_invalidation region.old) }
    ensures err { OnErr result (region.new ≡ region.old) }
{
    match region.invalidate(key) {
        Ok(()) => Ok(()),
        Err(error) => Err(OpRefusal::Region(error)),
    }
}

fn end_window_key(window: &mut Window, key: Key, queue: QueueId) -> Result<(), OpRefusal>
    ensures accepted { OnOk result (window_refusal key queue window.old ≡ None) }
    ensures refused { IfErr result (λ e. window_refusal key queue window.old ≡ Some e) }
    ensures ok { OnOk result (window.new ≡ without_binding window.old) }
    ensures err { OnErr result (window.new ≡ window.old) }
{
    match window.invalidate(key, queue) {
        Ok(()) => Ok(()),
        Err(error) => Err(OpRefusal::Window(error)),
    }
}
