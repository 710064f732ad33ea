ghost use Rattle.std.specs.Prelude.{◌≡◌, ℕ, suc, ◌<◌, ◌≤◌, true, false};
ghost use Rattle.std.specs.List.{Contains, count_by};
ghost use Rattle.ca_connection.specs.Layout.{Direction, HasNumber, first, is_atomic, is_read, psns, start};
ghost use Rattle.ca_connection.specs.Link.{Acceptance, Link};
ghost use Rattle.ca_connection.specs.Moves.{Reached};
ghost use Rattle.ca_connection.specs.Once.{HasSucceeded, takes_number, acceptances_of_packet, acceptances_of_request, falling, numbers_at, passed};

/// An accepted packet is of the request that has its number.
pub fn acceptance_is_of_its_request()
    ensures { (d : Direction) (l : Link) (a : Acceptance) → Reached d l → Contains l.acceptances a
        → HasNumber d a.place a.number }
{}

/// Of all packets with one number, however often they were sent and delivered, one at most was accepted.
pub fn packet_acts_once()
    ensures { (d : Direction) (l : Link) (n : ℕ) → Reached d l → acceptances_of_packet n l.acceptances ≤ 1 }
{}

/// Each number below the expected one was taken by one accepted packet.
pub fn number_is_accepted_once()
    ensures { (d : Direction) (l : Link) (n : ℕ) → Reached d l → start d ≤ n → n < l.responder.expected
        → count_by (takes_number d n) l.acceptances ≡ 1 }
{}

/// At most one acceptance stems from a posted atomic.
pub fn atomic_acts_once()
    ensures { (d : Direction) (l : Link) (place : ℕ) → Reached d l → is_atomic (d.work place) ≡ true
        → acceptances_of_request place l.acceptances ≤ 1 }
{}

/// Where a SEND, a WRITE or an atomic succeeded, each of its packets was accepted exactly once, and as one of that request.
pub fn packet_of_success_acted_once()
    ensures { (d : Direction) (l : Link) (place n : ℕ) → Reached d l → is_read (d.work place) ≡ false
        → HasNumber d place n
        → HasSucceeded d l place
        → (acceptances_of_packet n l.acceptances ≡ 1)
        × ((found : ℕ) × Contains l.acceptances (record { number = n; place = place; found = found })) }
{}

/// An atomic that completed has exactly one acceptance, and the value that its completion gives is what that acceptance found.
pub fn completed_atomic_acted_once()
    ensures { (d : Direction) (l : Link) (place found : ℕ) → Reached d l
        → Contains l.completions (record { place = place; found = found })
        → (acceptances_of_request place l.acceptances ≡ 1)
        × Contains l.acceptances (record { number = first d place; place = place; found = found }) }
{}

/// No acknowledgement passes an atomic: where `una` is beyond it, its own response has completed it.
pub fn atomic_that_succeeded_completed()
    ensures { (d : Direction) (l : Link) (place : ℕ) → Reached d l → is_atomic (d.work place) ≡ true
        → HasSucceeded d l place
        → (found : ℕ) × Contains l.completions (record { place = place; found = found }) }
{}

/// The accepted packets of a request that is no READ are those with its numbers below the expected one, each once, and in
/// order.
pub fn numbers_are_accepted_in_order()
    ensures { (d : Direction) (l : Link) (place : ℕ) → Reached d l → is_read (d.work place) ≡ false
        → numbers_at place l.acceptances ≡ falling (first d place) (passed d place l.responder.expected) }
{}

/// Where all its numbers lie below the expected one, each of them was accepted once, and in order.
pub fn passed_request_acted_once()
    ensures { (d : Direction) (l : Link) (place : ℕ) → Reached d l → is_read (d.work place) ≡ false
        → first d (suc place) ≤ l.responder.expected
        → numbers_at place l.acceptances ≡ falling (first d place) (psns d.mtu (d.work place)) }
{}
