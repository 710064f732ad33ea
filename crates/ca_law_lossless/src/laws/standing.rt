ghost use Rattle.std.specs.Prelude.{◌≡◌, Bool, Option, ℕ, true};
ghost use Rattle.ca_base.specs.objects.QueuePair.{QueuePair};
ghost use Rattle.ca_base.specs.objects.SharedReceives.{SharedReceives};
ghost use Rattle.ca_connection.specs.Layout.{Direction};
ghost use Rattle.ca_connection.specs.Link.{Link, RequestPacket};
ghost use Rattle.ca_connection.specs.Moves.{Reached};
ghost use Rattle.ca_model.specs.machine.Duplicates.{request_row};
ghost use Rattle.ca_model.specs.machine.Invariants.{IsQueue, is_connected};
ghost use Rattle.ca_model.specs.machine.Respond.{respond_row};
ghost use Rattle.ca_wire.specs.Packet.{Fields};
ghost use Rattle.ca_wire.specs.declared.shape.Shape.{Shape};
ghost use Rattle.ca_psn.specs.Psn.{widened};
ghost use Rattle.ca_law_lossless.specs.Standing.{AdmitsStanding, RespondsCalmly};
ghost use Rattle.ca_law_once.specs.Entries.{RequestEntry};
ghost use Rattle.ca_law_once.specs.Moves.{RowLeads};
ghost use Rattle.ca_law_once.specs.Sides.{responder_in};

/// A request packet that a connected queue pair expects is admitted as by a calm link's responder; and afterwards the
/// queue pair stands as that responder does: it accepts, it waits for a receive, or it is closed.
pub fn expected_request_stands()
    ensures { (d : Direction) (x : RequestPacket) (p : Fields) (envelope : Option ℕ) (shared : Option SharedReceives)
        (shape : Shape) (q : QueuePair) → is_connected q.state ≡ true → q.responder.mtu ≡ d.mtu
        → RequestEntry d x shape p → widened q.responder.expected p.psn ≡ q.responder.expected
        → RowLeads (AdmitsStanding d x q.responder.expected (responder_in q))
        (request_row p envelope shared shape q) }
{}

/// A turn of the responder sends the front of its response queue, and says so unless that is an RNR NAK; or a NAK of a
/// READ that is denied, which closes it. The responder is that of a link that moves lead to.
pub fn turns_answer_calmly()
    ensures { (d : Direction) (l : Link) (room : Bool) (q : QueuePair) → IsQueue q → Reached d l
        → l.responder ≡ responder_in q → q.responder.mtu ≡ d.mtu
        → RowLeads (RespondsCalmly d q) (respond_row room q) }
{}
