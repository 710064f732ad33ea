ghost use Rattle.std.specs.Prelude.{◌≡◌, ◌%◌, ◌^◌, ℕ, List, Option, true};
ghost use Rattle.ca_base.specs.objects.QueuePair.{QueuePair};
ghost use Rattle.ca_base.specs.objects.SharedReceives.{SharedReceives};
ghost use Rattle.ca_connection.specs.Layout.{Direction};
ghost use Rattle.ca_connection.specs.Link.{RequestPacket, Response, number_of};
ghost use Rattle.ca_model.specs.machine.Delivery.{arrival_row};
ghost use Rattle.ca_model.specs.machine.Invariants.{IsQueue, is_sending};
ghost use Rattle.ca_psn.specs.Psn.{widened};
ghost use Rattle.ca_law_once.specs.Entries.{SpellsRequest, SpellsResponse, SpellsSomeRequest, SpellsSomeResponse};
ghost use Rattle.ca_law_once.specs.Moves.{ForgetsIn, LeavesState, ReceivesIn, RowLeads, StaysIn, TakesIn};
ghost use Rattle.ca_law_once.specs.Sides.{IsLaid, requester_in, responder_in};

/// Bytes of a request packet that arrive are received as a link's responder may receive this packet, for the number that
/// its PSN is taken for beside the expected one. An atomic's mark stands exactly where the packet was accepted, and so does
/// the mark of a remote write of a WRITE.
pub fn arriving_request_is_received()
    ensures { (d : Direction) (x : RequestPacket) (bytes : List ℕ) (envelope : Option ℕ)
        (shared : Option SharedReceives) (q : QueuePair) → q.responder.mtu ≡ d.mtu → SpellsRequest d x bytes
        → RowLeads (ReceivesIn d x (widened q.responder.expected (x.number % 2 ^ 24)) (responder_in q))
        (arrival_row bytes envelope shared q) }
{}

/// Bytes of a response that arrive are taken as a link's requester may take this response, for the number that its PSN is
/// taken for beside `una`; requests lie as before while they are sent.
pub fn arriving_response_is_taken()
    ensures { (d : Direction) (a : Response) (bytes : List ℕ) (envelope : Option ℕ)
        (shared : Option SharedReceives) (q : QueuePair) → IsQueue q → (is_sending q.state ≡ true → IsLaid d q)
        → SpellsResponse a bytes
        → RowLeads (TakesIn d a (widened q.requester.una (number_of a % 2 ^ 24)) (requester_in q))
        (arrival_row bytes envelope shared q) }
{}

/// A response of the connection's other direction leaves the responder, or empties its response queue.
pub fn other_response_forgets()
    ensures { (d : Direction) (bytes : List ℕ) (envelope : Option ℕ) (shared : Option SharedReceives)
        (q : QueuePair) → q.responder.mtu ≡ d.mtu → SpellsSomeResponse bytes
        → RowLeads (ForgetsIn d (responder_in q)) (arrival_row bytes envelope shared q) }
{}

/// A request of the connection's other direction leaves the requester's numbers.
pub fn other_request_stays()
    ensures { (d : Direction) (bytes : List ℕ) (envelope : Option ℕ) (shared : Option SharedReceives)
        (q : QueuePair) → (is_sending q.state ≡ true → IsLaid d q) → SpellsSomeRequest bytes
        → RowLeads (StaysIn d (requester_in q)) (arrival_row bytes envelope shared q) }
{}

/// Whatever arrives, the queue pair stays in its state or moves to Error, and keeps its path MTU.
pub fn arrival_leaves_state()
    ensures { (bytes : List ℕ) (envelope : Option ℕ) (shared : Option SharedReceives) (q : QueuePair)
        → RowLeads (LeavesState q) (arrival_row bytes envelope shared q) }
{}
