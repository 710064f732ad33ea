ghost use Rattle.std.specs.Prelude.{◌≡◌, ℕ, Bool, Option, true};
ghost use Rattle.ca_base.specs.declared.refusals.OpRefusal.{OpRefusal};
ghost use Rattle.ca_base.specs.objects.LocalRequest.{LocalMarks};
ghost use Rattle.ca_base.specs.objects.QueuePair.{QueuePair};
ghost use Rattle.ca_connection.specs.Layout.{Direction};
ghost use Rattle.ca_model.specs.machine.Invariants.{IsQueue, is_sending};
ghost use Rattle.ca_model.specs.machine.LocalOperations.{operation_effects};
ghost use Rattle.ca_model.specs.machine.Numbering.{Numbered};
ghost use Rattle.ca_model.specs.machine.Requester.{Performs, Sends, packet_row, turn_of};
ghost use Rattle.ca_model.specs.machine.Respond.{respond_row};
ghost use Rattle.ca_model.specs.machine.Timers.{after_timeout, after_wake};
ghost use Rattle.ca_law_once.specs.Moves.{ForgetsIn, GoesBackIn, LeavesState, RowLeads, SendsRequests, SendsResponses, StaysIn};
ghost use Rattle.ca_law_once.specs.Sides.{IsLaid, requester_in, responder_in};

/// A turn of the requester leaves the responder, or empties its response queue where it fails.
pub fn packet_row_forgets()
    ensures { (d : Direction) (q : QueuePair) (room : Bool) (n : Numbered) → q.responder.mtu ≡ d.mtu
        → RowLeads (ForgetsIn d (responder_in q)) (packet_row q room n) }
{}

/// A turn of the responder leaves the requester's numbers.
pub fn respond_row_stays()
    ensures { (d : Direction) (q : QueuePair) (room : Bool) → (is_sending q.state ≡ true → IsLaid d q)
        → RowLeads (StaysIn d (requester_in q)) (respond_row room q) }
{}

/// A timer that fires lets the cursor go back, or fails; the responder stays, or its response queue is emptied.
pub fn timeout_goes_back()
    ensures requester { (d : Direction) (silent : Bool) (q : QueuePair) → IsQueue q
        → (is_sending q.state ≡ true → IsLaid d q) → GoesBackIn d (requester_in q) (after_timeout silent q) }
    ensures responder { (d : Direction) (silent : Bool) (q : QueuePair) → q.responder.mtu ≡ d.mtu
        → ForgetsIn d (responder_in q) (after_timeout silent q) }
{}

/// A wake leaves the numbers of both sides.
pub fn wake_stays()
    ensures requester { (d : Direction) (q : QueuePair) → (is_sending q.state ≡ true → IsLaid d q)
        → StaysIn d (requester_in q) (after_wake q) }
    ensures responder { (d : Direction) (q : QueuePair) → q.responder.mtu ≡ d.mtu
        → ForgetsIn d (responder_in q) (after_wake q) }
{}

/// A local operation takes no number: it leaves the numbers of both sides, and where it fails the response queue is
/// emptied.
pub fn operation_stays()
    ensures requester { (d : Direction) (q : QueuePair) (n : Numbered) (windows : ℕ) (m : LocalMarks)
        (refusal : Option OpRefusal) → IsQueue q → (is_sending q.state ≡ true → IsLaid d q) → turn_of q ≡ Performs n
        → StaysIn d (requester_in q) (operation_effects q n (record q { windows = windows }) m refusal) }
    ensures responder { (d : Direction) (q : QueuePair) (n : Numbered) (windows : ℕ) (m : LocalMarks)
        (refusal : Option OpRefusal) → q.responder.mtu ≡ d.mtu
        → ForgetsIn d (responder_in q) (operation_effects q n (record q { windows = windows }) m refusal) }
{}

/// After a turn, a timer, a wake and a local operation the queue pair stays in its state, or moves to Error, and keeps its path MTU.
pub fn turns_leave_state()
    ensures request { (q : QueuePair) (room : Bool) (n : Numbered)
        → RowLeads (LeavesState q) (packet_row q room n) }
    ensures respond { (q : QueuePair) (room : Bool) → RowLeads (LeavesState q) (respond_row room q) }
    ensures timeout { (silent : Bool) (q : QueuePair) → LeavesState q (after_timeout silent q) }
    ensures wake { (q : QueuePair) → LeavesState q (after_wake q) }
    ensures operation { (q : QueuePair) (n : Numbered) (windows : ℕ) (m : LocalMarks) (refusal : Option OpRefusal)
        → LeavesState q (operation_effects q n (record q { windows = windows }) m refusal) }
{}

/// Whatever the direction, what a turn of the requester sends decodes, if it decodes, to a packet that is no response, and
/// what a turn of the responder sends to a response.
pub fn turns_send_their_packets()
    ensures request { (q : QueuePair) (room : Bool) (n : Numbered) → IsQueue q → turn_of q ≡ Sends n
        → RowLeads SendsRequests (packet_row q room n) }
    ensures respond { (q : QueuePair) (room : Bool) → IsQueue q → RowLeads SendsResponses (respond_row room q) }
{}
