ghost use Rattle.std.specs.Prelude.{◌≡◌, ◌==◌, ◌-◌, ◌^◌, ◌<◌, ◌∷◌, min, if◌then◌else◌, false};
ghost use Rattle.std.specs.Option.{option_map_or};
ghost use Rattle.ca_base.specs.objects.CompletionQueue.{is_for_sends, is_same_side, is_shared_in, room_reserved, source_in, source_of, user_of};

use ca_base::{QueueId, Reservation, Reserve};

/// The queue pair of a reservation.
fn user_of(who: Reserve) -> QueueId
    ensures { result ≡ user_of who }
{
    match who {
        Reserve::Sends(queue) => queue,
        Reserve::Receives(queue) => queue,
        Reserve::Shared { user, .. } => user,
    }
}

/// The shared receive queue of a reservation.
fn source_of(who: Reserve) -> Option<u16>
    ensures { result ≡ source_of who }
{
    match who {
        Reserve::Shared { srq, .. } => Some(srq),
        Reserve::Sends(_) | Reserve::Receives(_) => None,
    }
}

/// Whether a reservation is for sends.
fn is_for_sends(who: Reserve) -> bool
    ensures { result ≡ is_for_sends who }
{
    matches!(who, Reserve::Sends(_))
}

/// Whether two reservations are of one side of one queue pair.
pub(crate) fn is_same_side(a: Reserve, b: Reserve) -> bool
    ensures { result ≡ is_same_side a b }
{
    user_of(a) == user_of(b) && is_for_sends(a) == is_for_sends(b)
}

/// Whether a reservation is for this shared receive queue.
fn is_for_source(who: Reserve, srq: u16) -> bool
    ensures { result ≡ option_map_or (λ other. other == srq) (source_of who) false }
{
    match source_of(who) {
        Some(other) => other == srq,
        None => false,
    }
}

/// Whether a reservation for the same shared receive queue is among these.
fn is_shared_in(reservations: &[Reservation], who: Reserve) -> bool
    ensures { result ≡ is_shared_in reservations.now who }
{
    if let Some(srq) = source_of(who) {
        for reservation in reservations {
            if is_for_source(reservation.who, srq) {
                return true;
            }
        }
    }
    false
}

/// How much room a reservation takes beside these: none, where one of them is for the same shared receive queue.
pub(crate) fn room_taken(reservations: &[Reservation], who: Reserve, room: u16) -> u32
    ensures value { result ≡ (if is_shared_in reservations.now who then 0 else room) }
    ensures few { result < 2 ^ 16 }
{
    if is_shared_in(reservations, who) {
        0
    } else {
        u32::from(room)
    }
}

/// The same where a first one stands beside these.
pub(crate) fn room_taken_behind(
    first: Reservation,
    reservations: &[Reservation],
    who: Reserve,
    room: u16,
) -> u32
    ensures value { result ≡ (if is_shared_in (first ∷ reservations.now) who then 0 else room) }
    ensures few { result < 2 ^ 16 }
{
    if is_shared_in([first].as_slice(), who) {
        0
    } else {
        room_taken(reservations, who, room)
    }
}

/// How much is reserved, as far as 32 bits can say; a shared receive queue counts once.
pub(crate) fn room_reserved(reservations: &[Reservation]) -> u32
    ensures { result ≡ min (room_reserved reservations.now) (2 ^ 32 - 1) }
{
    let mut room: u32 = 0;
    let mut place = reservations.len();
    while place > 0 {
        place -= 1;
        let reservation = &reservations[place];
        let behind = &reservations[place + 1..];
        room = room_taken(behind, reservation.who, reservation.room).saturating_add(room);
    }
    room
}

/// The shared receive queue for which a queue pair reserved among these.
pub(crate) fn source_in(reservations: &[Reservation], queue: QueueId) -> Option<u16>
    ensures { result ≡ source_in reservations.now queue }
{
    for reservation in reservations {
        if user_of(reservation.who) == queue {
            if let Some(srq) = source_of(reservation.who) {
                return Some(srq);
            }
        }
    }
    None
}
