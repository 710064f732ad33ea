ghost use Rattle.std.specs.Prelude.{◌≡◌, Bool, ℕ, Option};
ghost use Rattle.ca_base.specs.objects.QueuePair.{QueuePair};
ghost use Rattle.ca_base.specs.objects.SharedReceives.{SharedReceives};
ghost use Rattle.ca_connection.specs.Layout.{Direction};
ghost use Rattle.ca_connection.specs.Link.{Link, RequestPacket};
ghost use Rattle.ca_connection.specs.Moves.{Reached};
ghost use Rattle.ca_model.specs.machine.Duplicates.{request_row};
ghost use Rattle.ca_model.specs.machine.Invariants.{IsQueue};
ghost use Rattle.ca_model.specs.machine.Respond.{respond_row};
ghost use Rattle.ca_wire.specs.Packet.{Fields};
ghost use Rattle.ca_wire.specs.declared.shape.Shape.{Shape};
ghost use Rattle.ca_psn.specs.Psn.{widened};
ghost use Rattle.ca_law_once.specs.Entries.{RequestEntry};
ghost use Rattle.ca_law_once.specs.Moves.{ReceivesIn, RespondsIn, RowLeads};
ghost use Rattle.ca_law_once.specs.Sides.{responder_in};

/// Whatever the responder makes of a request packet, it receives it as a link's responder may, for the number that it
/// takes its PSN for: ahead, once more, refused or accepted. An atomic's mark stands where the packet was accepted.
pub fn request_row_is_received()
    ensures { (d : Direction) (x : RequestPacket) (p : Fields) (envelope : Option ℕ) (shared : Option SharedReceives)
        (shape : Shape) (q : QueuePair) → q.responder.mtu ≡ d.mtu → RequestEntry d x shape p
        → RowLeads (ReceivesIn d x (widened q.responder.expected p.psn) (responder_in q))
        (request_row p envelope shared shape q) }
{}

/// The response that a turn of the responder sends is one that a link's responder may send, where that link's responder
/// is the queue pair's.
pub fn respond_row_is_responded()
    ensures { (d : Direction) (l : Link) (room : Bool) (q : QueuePair) → IsQueue q → Reached d l
        → l.responder ≡ responder_in q → q.responder.mtu ≡ d.mtu
        → RowLeads (RespondsIn d (responder_in q)) (respond_row room q) }
{}
