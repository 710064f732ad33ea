ghost use Rattle.std.specs.Prelude.{◌≡◌, Bool, true};
ghost use Rattle.ca_base.specs.objects.QueuePair.{QueuePair};
ghost use Rattle.ca_connection.specs.Layout.{Direction};
ghost use Rattle.ca_connection.specs.Link.{Response};
ghost use Rattle.ca_model.specs.machine.Invariants.{IsQueue, is_sending};
ghost use Rattle.ca_model.specs.machine.Numbering.{Numbered};
ghost use Rattle.ca_model.specs.machine.Requester.{Sends, packet_row, turn_of};
ghost use Rattle.ca_model.specs.machine.Responses.{response_psn, response_row};
ghost use Rattle.ca_wire.specs.Packet.{Fields};
ghost use Rattle.ca_law_once.specs.Entries.{ResponseEntry};
ghost use Rattle.ca_law_once.specs.Moves.{IsRequestTurn, RowLeads, TakesIn};
ghost use Rattle.ca_law_once.specs.Sides.{IsLaid, requester_in};

/// Whatever the requester makes of a response, it takes it as a link's requester may, for the number that it takes its
/// PSN for, and its requests lie as before while they are sent.
pub fn response_row_is_taken()
    ensures { (d : Direction) (a : Response) (p : Fields) (q : QueuePair) → IsQueue q
        → (is_sending q.state ≡ true → IsLaid d q) → ResponseEntry a p
        → RowLeads (TakesIn d a (response_psn q p) (requester_in q)) (response_row p q) }
{}

/// The packet that a turn of the requester sends is the one at its cursor, of the request that has this number, as a link's
/// requester may send it.
pub fn packet_row_is_sent()
    ensures { (d : Direction) (q : QueuePair) (room : Bool) (n : Numbered) → IsQueue q
        → (is_sending q.state ≡ true → IsLaid d q) → turn_of q ≡ Sends n
        → RowLeads (IsRequestTurn d (requester_in q)) (packet_row q room n) }
{}
