ghost use Rattle.std.specs.Prelude.{◌≡◌, ℕ, ◌<◌, true, false, [], ◌∷◌, length};
ghost use Rattle.ca_base.specs.declared.completion.Completion.{Completion};
ghost use Rattle.ca_keys.specs.declared.names.QueueId.{QueueId};
ghost use Rattle.ca_base.specs.declared.reserve.Reserve.{Reserve};
ghost use Rattle.ca_base.specs.objects.CompletionQueue.{CompletionQueue, after_polls, after_puts, after_release, after_reserve, empty_cq, is_too_small, without_completions};
ghost use Rattle.ca_cq.specs.Room.{HaveRoomOf, IsReserved, has_room_left, is_new_side, is_polled_side};

/// Where every reservation has room for what waits, and the reservation of one more completion has room left, fewer wait
/// than the capacity. So a reservation makes `Cq::put` succeed.
pub fn reservation_makes_room()
    ensures { (q : CompletionQueue) (c : Completion) → IsReserved q → has_room_left q c ≡ true
        → length q.waiting < q.capacity }
{}

/// Every reservation has room for what waits in a new queue, and each call keeps it so: a reservation of a side that has
/// none, which is not refused, and which for a shared receive queue is as large as those of its other users; a put where
/// the completion's reservation has room left; a poll; the removal of a queue pair's completions; and a release of a side
/// of which none waits.
pub fn calls_keep_room()
    ensures create { (capacity : ℕ) → IsReserved (empty_cq capacity) }
    ensures reserve { (who : Reserve) (room : ℕ) (q : CompletionQueue) → IsReserved q → is_new_side who q ≡ true
        → HaveRoomOf who room q.reservations → is_too_small who room q ≡ false → IsReserved (after_reserve who room q) }
    ensures put { (c : Completion) (q : CompletionQueue) → IsReserved q → has_room_left q c ≡ true
        → IsReserved (after_puts (c ∷ []) q) }
    ensures poll { (n : ℕ) (q : CompletionQueue) → IsReserved q → IsReserved (after_polls n q) }
    ensures drop_queue { (queue : QueueId) (q : CompletionQueue) → IsReserved q
        → IsReserved (without_completions queue q) }
    ensures release { (who : Reserve) (q : CompletionQueue) → IsReserved q → is_polled_side who q ≡ true
        → IsReserved (after_release who q) }
{}

/// A release takes back what was reserved: where no reservation of that side stood, the queue is as it was before. So it
/// is where two sides reserved, one after the other, and are released in either order.
pub fn release_undoes_reserve()
    ensures one { (who : Reserve) (room : ℕ) (q : CompletionQueue) → is_new_side who q ≡ true
        → after_release who (after_reserve who room q) ≡ q }
    ensures latest_first { (a b : Reserve) (m n : ℕ) (q : CompletionQueue) → is_new_side a q ≡ true
        → is_new_side b (after_reserve a m q) ≡ true
        → after_release a (after_release b (after_reserve b n (after_reserve a m q))) ≡ q }
    ensures latest_last { (a b : Reserve) (m n : ℕ) (q : CompletionQueue) → is_new_side a q ≡ true
        → is_new_side b (after_reserve a m q) ≡ true
        → after_release b (after_release a (after_reserve b n (after_reserve a m q))) ≡ q }
{}
