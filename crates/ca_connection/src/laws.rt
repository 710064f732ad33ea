ghost use Rattle.std.specs.Prelude.{◌≡◌, ℕ, suc, ◌<◌, ◌≤◌, Some, slice_get};
ghost use Rattle.ca_connection.specs.Layout.{Direction};
ghost use Rattle.ca_connection.specs.Link.{RequestPacket, Response, number_of, reach};
ghost use Rattle.ca_connection.specs.Moves.{Reached};
ghost use Rattle.ca_connection.specs.Calm.{CalmLink, IsCalm, Passes, calm_opening};
ghost use Rattle.ca_connection.specs.Calm.Standing.{Accepting, Waiting};
ghost use Rattle.ca_connection.specs.CalmMoves.{CalmMove, IsCalmlyReached};

/// Before the first packet all is calm.
pub fn opening_is_calm()
    ensures { (d : Direction) → IsCalm d (calm_opening d) }
{}

/// A calm move of a link that moves lead to, and that is calm, leads to such a link.
pub fn calm_move_keeps_calm()
    ensures link { (d : Direction) (c new : CalmLink) → Reached d c.link → IsCalm d c → CalmMove d c new
        → Reached d new.link }
    ensures calm { (d : Direction) (c new : CalmLink) → Reached d c.link → IsCalm d c → CalmMove d c new
        → IsCalm d new }
{}

/// What calm moves lead to, moves lead to: so all laws of links hold of it.
pub fn calm_links_are_links()
    ensures { (d : Direction) (c : CalmLink) → IsCalmlyReached d c → Reached d c.link }
{}

/// Every link that calm moves lead to is calm.
pub fn calm_links_are_calm()
    ensures { (d : Direction) (c : CalmLink) → IsCalmlyReached d c → IsCalm d c }
{}

/// Where the responder accepts, the oldest undelivered request is the one that it expects, and so neither ahead nor a
/// duplicate; where it waits for a receive, that request lies ahead.
pub fn oldest_request_is_expected()
    ensures accepting { (d : Direction) (c : CalmLink) (k : ℕ) (packet : RequestPacket) → IsCalm d c
        → c.standing ≡ Accepting → c.requests ≡ suc k → slice_get c.link.requests k ≡ Some (Some packet)
        → packet.number ≡ c.link.responder.expected }
    ensures waiting { (d : Direction) (c : CalmLink) (k : ℕ) (packet : RequestPacket) → IsCalm d c
        → c.standing ≡ Waiting → c.requests ≡ suc k → slice_get c.link.requests k ≡ Some (Some packet)
        → c.link.responder.expected < packet.number }
{}

/// The oldest undelivered response passes no READ and no atomic that is unanswered but the one that it answers, and
/// is no sequence error; it reaches no further than what was sent, and its number was sent.
pub fn oldest_response_passes_nothing()
    ensures passes { (d : Direction) (c : CalmLink) (k : ℕ) (a : Response) → IsCalm d c → c.responses ≡ suc k
        → slice_get c.link.responses k ≡ Some (Some a) → Passes d c.link.requester.una a }
    ensures reaches { (d : Direction) (c : CalmLink) (k : ℕ) (a : Response) → Reached d c.link → IsCalm d c
        → slice_get c.link.responses k ≡ Some (Some a) → reach a ≤ c.link.requester.cursor }
    ensures outstanding { (d : Direction) (c : CalmLink) (k : ℕ) (a : Response) → Reached d c.link → IsCalm d c
        → c.responses ≡ suc k
        → slice_get c.link.responses k ≡ Some (Some a) → number_of a < c.link.requester.cursor }
{}

/// The requester's cursor never goes back.
pub fn calm_cursor_goes_on()
    ensures { (d : Direction) (c new : CalmLink) → CalmMove d c new
        → c.link.requester.cursor ≤ new.link.requester.cursor }
{}
