ghost use Rattle.std.specs.Prelude.{◌≡◌, Bool, List, Option, ℕ, true};
ghost use Rattle.ca_base.specs.objects.QueuePair.{QueuePair};
ghost use Rattle.ca_base.specs.objects.SharedReceives.{SharedReceives};
ghost use Rattle.ca_connection.specs.Layout.{Direction};
ghost use Rattle.ca_model.specs.machine.Delivery.{arrival_row};
ghost use Rattle.ca_model.specs.machine.Invariants.{IsQueue, is_sending};
ghost use Rattle.ca_model.specs.machine.Numbering.{Numbered};
ghost use Rattle.ca_model.specs.machine.Requester.{Sends, packet_row, turn_of};
ghost use Rattle.ca_model.specs.machine.Respond.{respond_row};
ghost use Rattle.ca_law_once.specs.Moves.{RowLeads};
ghost use Rattle.ca_law_once.specs.Sides.{IsLaid};
ghost use Rattle.ca_law_bounds.specs.Weights.{Lowers, packet_weight};

/// Whatever bytes arrive at a queue pair, their row lowers its weight together with theirs, unless it lowers the
/// cursor: a packet is dropped, a request is answered, once more or for the first time, and a response is taken.
pub fn arrival_lowers_weight()
    ensures { (q : QueuePair) (bytes : List ℕ) (envelope : Option ℕ) (shared : Option SharedReceives) → IsQueue q
        → RowLeads (Lowers q (packet_weight q.responder.mtu bytes)) (arrival_row bytes envelope shared q) }
{}

/// A turn of the responder lowers the weight, with the response that it sends.
pub fn respond_row_lowers_weight()
    ensures { (q : QueuePair) (room : Bool) → IsQueue q → RowLeads (Lowers q 0) (respond_row room q) }
{}

/// A turn of the requester lowers the weight, with the packet that it sends to a queue pair with the same path MTU:
/// where its requests lie as those of a direction do, as in every clean connection.
pub fn packet_row_lowers_weight()
    ensures { (d : Direction) (q : QueuePair) (room : Bool) (n : Numbered) → IsQueue q
        → (is_sending q.state ≡ true → IsLaid d q) → turn_of q ≡ Sends n
        → RowLeads (Lowers q 0) (packet_row q room n) }
{}
