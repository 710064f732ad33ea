ghost use Rattle.std.specs.Prelude.{◌≡◌, ◌%◌, ◌^◌, ◌∷◌, [], ℕ, Some};
ghost use Rattle.ca_connection.specs.Layout.{Direction};
ghost use Rattle.ca_connection.specs.Link.{Link, RequestPacket, Response, number_of};
ghost use Rattle.ca_connection.specs.Moves.{MayArrive, MayBeTaken, Reached};
ghost use Rattle.ca_model.specs.machine.Row.{Effects};
ghost use Rattle.ca_psn.specs.Psn.{widened};
ghost use Rattle.ca_law_once.specs.Links.{IsReceived, IsTaken, LeadsTo};
ghost use Rattle.ca_law_once.specs.Moves.{ForgetsIn, GoesBackIn, ReceivesIn, RespondsIn, SendsIn, TakesIn};
ghost use Rattle.ca_law_once.specs.Sides.{requester_in, responder_in};

/// A request packet that may be delivered to the responder of a link is taken for the number with which it was sent; and
/// where it is received, a move leads to a link with the responder that is left. The numbers that an atomic found grew by
/// those that the marks tell of, and the accepted packets of a WRITE by this one, where they tell of a remote write.
pub fn received_request_moves()
    ensures { (d : Direction) (l : Link) (k : ℕ) (x : RequestPacket) (e : Effects) → Reached d l → MayArrive l k x
        → ReceivesIn d x (widened l.responder.expected (x.number % 2 ^ 24)) l.responder e
        → (widened l.responder.expected (x.number % 2 ^ 24) ≡ x.number) × IsReceived d l x (responder_in e.queue) e }
{}

/// A response that may be delivered to the requester of a link is taken for the number with which it was sent; and where it
/// is taken, a move leads to a link with the requester that is left.
pub fn taken_response_moves()
    ensures { (d : Direction) (l : Link) (k : ℕ) (a : Response) (e : Effects) → Reached d l → MayBeTaken l k a
        → (does : TakesIn d a (widened l.requester.una (number_of a % 2 ^ 24)) l.requester e)
        → (widened l.requester.una (number_of a % 2 ^ 24) ≡ number_of a)
        × IsTaken d l (requester_in e.queue) does.completion }
{}

/// Where the requester of a link sends a packet, a move leads to a link with the requester that is left, and with this packet
/// in the mailbox at the responder; or with none, where no path leads there.
pub fn sent_request_moves()
    ensures there { (d : Direction) (l : Link) (place : ℕ) (e : Effects) → Reached d l
        → SendsIn d l.requester place e
        → LeadsTo d l (requester_in e.queue) l.responder
        (Some (record { number = l.requester.cursor; place = place }) ∷ l.requests) l.responses }
    ensures nowhere { (d : Direction) (l : Link) (place : ℕ) (e : Effects) → Reached d l → l.requests ≡ []
        → SendsIn d l.requester place e → LeadsTo d l (requester_in e.queue) l.responder [] l.responses }
{}

/// Where the responder of a link sends a response, a move leads to a link with the responder that is left, and with this
/// response in the mailbox at the requester; or with none, where no path leads there.
pub fn sent_response_moves()
    ensures there { (d : Direction) (l : Link) (e : Effects) → Reached d l → (does : RespondsIn d l.responder e)
        → LeadsTo d l l.requester (responder_in e.queue) l.requests (Some does.response ∷ l.responses) }
    ensures nowhere { (d : Direction) (l : Link) (e : Effects) → Reached d l → l.responses ≡ []
        → RespondsIn d l.responder e → LeadsTo d l l.requester (responder_in e.queue) l.requests [] }
{}

/// Where a responder loses its response queue, and where a requester goes back, a move leads to a link with the side that is
/// left.
pub fn loss_moves()
    ensures responder { (d : Direction) (l : Link) (e : Effects) → Reached d l → ForgetsIn d l.responder e
        → LeadsTo d l l.requester (responder_in e.queue) l.requests l.responses }
    ensures requester { (d : Direction) (l : Link) (e : Effects) → Reached d l → GoesBackIn d l.requester e
        → LeadsTo d l (requester_in e.queue) l.responder l.requests l.responses }
{}
