ghost use Rattle.std.specs.Prelude.{◌≡◌, ◌<◌, true, IfSome};
ghost use Rattle.ca_adapter_parts.specs.HeldView.{holding};
ghost use Rattle.ca_model.specs.machine.World.{Window_of};
ghost use Rattle.ca_adapter_posts.specs.Drawing as drawing;

use ca_adapter_parts::Held;
use ca_base::{Key, SendOp, Slot};

/// The window whose next byte a request draws: that of a bind of a type 1 window.
pub(crate) fn window_of_bind(slot: Slot, op: &SendOp) -> Option<Slot>
    ensures { result ≡ drawing.window_of_bind slot op.now }
{
    match op {
        SendOp::Bind1 { window, .. } => Some(Slot {
            domain: slot.domain,
            slot: *window,
        }),
        _ => None,
    }
}

/// Whether that window's slot is vacant.
pub(crate) fn is_no_window(held: &Held, window: Option<Slot>) -> bool
    requires { IfSome window (λ x. (holding held.now).has (Window_of x) ≡ true) }
    ensures { result ≡ drawing.is_no_window (holding held.now).world window }
{
    match window {
        Some(window) => held.window(window).kind() == 0,
        None => false,
    }
}

/// Draws the byte, which cannot be taken back.
#[tactic(auto, using(ca_adapter_parts::proofs::HoldLemmas::put_window))]
pub(crate) fn draw(held: &mut Held, window: Option<Slot>) -> Option<u8>
    requires { IfSome window (λ x. (holding held.old).has (Window_of x) ≡ true) }
    ensures byte { result ≡ drawing.byte_for (holding held.old).world window }
    ensures drawn { holding held.new ≡ record (holding held.old) {
      world = record (holding held.old).world { window = drawing.windows_after (holding held.old).world window };
    } }
{
    match window {
        Some(window) => held.window_mut(window).draw(),
        None => None,
    }
}

/// The key that the bind will have, under the byte that it drew.
pub(crate) fn key_for(window: Option<Slot>, drawn: Option<u8>) -> Option<Key>
    requires { IfSome window (λ x. x.slot < 32768) }
    ensures { result ≡ drawing.key_for window drawn }
{
    match (window, drawn) {
        (Some(window), Some(low)) => Some(Key::of_window(window, low)),
        _ => None,
    }
}
