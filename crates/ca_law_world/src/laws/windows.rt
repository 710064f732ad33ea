ghost use Rattle.std.specs.Prelude.{◌≡◌, ◌<◌, true, None, Some};
ghost use Rattle.ca_base.specs.Configuration.{Configuration};
ghost use Rattle.ca_keys.specs.Memory.{ByteMap};
ghost use Rattle.ca_keys.specs.declared.names.Slot.{Slot};
ghost use Rattle.ca_keys.specs.Numbers.{is_window_key};
ghost use Rattle.ca_base.specs.Sight.{Invalidation};
ghost use Rattle.ca_base.specs.objects.QueuePair.{Present, QueuePair};
ghost use Rattle.ca_base.specs.objects.Window.{Binding};
ghost use Rattle.ca_law_world.specs.Bindings.{IsBoundWorld, IsCounted};
ghost use Rattle.ca_model.specs.declared.event.Event.{Event};
ghost use Rattle.ca_model.specs.machine.Frame.{Afterwards};
ghost use Rattle.ca_model.specs.machine.Seen.{refusal_in};
ghost use Rattle.ca_model.specs.machine.Sound.{IsSoundWorld};
ghost use Rattle.ca_model.specs.machine.Step.{step};
ghost use Rattle.ca_model.specs.machine.World.{World, opening_world};

/// In the world before the first event no window is bound, so that all that are bound are counted.
pub fn opening_world_counts_windows()
    ensures { (byte : ByteMap) → IsBoundWorld (opening_world byte) }
{}

/// Every event leaves bound windows counted: those of a region are no more than it counts, and those of a queue pair no
/// more than this counts. And each lies in its region, which is valid.
pub fn event_keeps_windows_counted()
    ensures { (c : Configuration) (event : Event) (w : World) → IsSoundWorld c w → IsBoundWorld w
        → Afterwards IsBoundWorld (step c w event) }
{}

/// Where bound windows are counted, the region of each counts one at least, and so does its queue pair; and the window
/// lies in what the region grants.
pub fn bound_window_is_counted()
    ensures { (w : World) (s : Slot) (b : Binding) → IsBoundWorld w → (w.window s).binding ≡ Some b
        → IsCounted (w.window s) b w.region w.queue }
{}

/// Where bound windows are counted, a queue pair that may end a window's key counts that window, as its invalidation by a
/// Local Invalidate or by a SEND with Invalidate asks.
pub fn ended_window_is_counted()
    ensures { (c : Configuration) (w : World) (i : Invalidation) (q : QueuePair) → IsBoundWorld w
        → is_window_key i.key ≡ true → refusal_in c w i ≡ None → w.queue i.queue ≡ Present q → 0 < q.windows }
{}
