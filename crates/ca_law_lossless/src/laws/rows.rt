ghost use Rattle.std.specs.Prelude.{◌≡◌, ◌<◌, Option, ℕ, true};
ghost use Rattle.ca_base.specs.objects.QueuePair.{QueuePair};
ghost use Rattle.ca_base.specs.objects.SharedReceives.{SharedReceives};
ghost use Rattle.ca_connection.specs.Layout.{Direction};
ghost use Rattle.ca_connection.specs.Link.{RequestPacket, Response, number_of};
ghost use Rattle.ca_connection.specs.Calm.{Passes};
ghost use Rattle.ca_model.specs.machine.Duplicates.{request_row};
ghost use Rattle.ca_model.specs.machine.Invariants.{IsQueue, is_sending};
ghost use Rattle.ca_model.specs.machine.Responses.{response_psn, response_row};
ghost use Rattle.ca_wire.specs.Packet.{Fields};
ghost use Rattle.ca_wire.specs.declared.shape.Shape.{Shape};
ghost use Rattle.ca_psn.specs.Psn.{widened};
ghost use Rattle.ca_law_lossless.specs.Calmly.{AdmitsIn, SaysPlainly, TakesCalmly};
ghost use Rattle.ca_law_once.specs.Entries.{RequestEntry};
ghost use Rattle.ca_law_once.specs.Moves.{RowLeads};
ghost use Rattle.ca_law_once.specs.Sides.{IsLaid, responder_in};

/// A response whose PSN is taken for the number with which it was sent, which was sent to it and passes nothing that is
/// unanswered, leaves the requester's cursor.
pub fn response_row_takes_calmly()
    ensures { (d : Direction) (a : Response) (p : Fields) (q : QueuePair) → IsQueue q
        → (is_sending q.state ≡ true → IsLaid d q) → SaysPlainly a p → response_psn q p ≡ number_of a
        → number_of a < q.requester.cursor → Passes d q.requester.una a
        → RowLeads (TakesCalmly a q.requester.una q.requester.cursor) (response_row p q) }
{}

/// A request packet that the responder expects is accepted or rejected as by a calm link's responder, and answered
/// at the end of its response queue: whichever keys, bytes and refusals it meets, it is not dropped.
pub fn expected_request_is_admitted()
    ensures { (d : Direction) (x : RequestPacket) (p : Fields) (envelope : Option ℕ) (shared : Option SharedReceives)
        (shape : Shape) (q : QueuePair) → q.responder.mtu ≡ d.mtu → RequestEntry d x shape p
        → widened q.responder.expected p.psn ≡ q.responder.expected
        → RowLeads (AdmitsIn d x q.responder.expected (responder_in q)) (request_row p envelope shared shape q) }
{}
