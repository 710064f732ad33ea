ghost use Rattle.std.specs.Prelude.{◌≡◌, ℕ, Bool, List, Ok, Option, false};
ghost use Rattle.ca_base.specs.declared.refusals.OpRefusal.{OpRefusal};
ghost use Rattle.ca_base.specs.objects.LocalRequest.{LocalMarks};
ghost use Rattle.ca_base.specs.objects.QueuePair.{QueuePair};
ghost use Rattle.ca_base.specs.objects.SharedReceives.{SharedReceives};
ghost use Rattle.ca_model.specs.machine.Delivery.{arrival_row};
ghost use Rattle.ca_model.specs.machine.Invariants.{IsQueue};
ghost use Rattle.ca_model.specs.machine.LocalOperations.{operation_effects};
ghost use Rattle.ca_model.specs.machine.Numbering.{Numbered};
ghost use Rattle.ca_model.specs.machine.Requester.{packet_row, Sends, turn_of};
ghost use Rattle.ca_model.specs.machine.Respond.{respond_row};
ghost use Rattle.ca_model.specs.machine.Timers.{after_timeout};
ghost use Rattle.ca_wire.specs.Decoding.{packet_in};
ghost use Rattle.ca_wire.specs.Packet.{Fields};
ghost use Rattle.ca_law_lossless.specs.RowMail.{IsFor, KeepsCalm, SendsFor};
ghost use Rattle.ca_law_lossless.specs.Standing.{is_not_ready};
ghost use Rattle.ca_law_once.specs.Entries.{syndrome_of};
ghost use Rattle.ca_law_once.specs.Moves.{RowLeads};

/// Where bytes arrive that are a packet for this queue pair in the default partition, and no RNR NAK, its requester
/// does not come to wait for a wake, and the packet is not dropped for what it is itself.
pub fn arrival_keeps_calm()
    ensures { (bytes : List ℕ) (envelope : Option ℕ) (shared : Option SharedReceives) (q : QueuePair) (p : Fields)
        → packet_in bytes ≡ Ok p → IsFor q.queue.number p → is_not_ready (syndrome_of p) ≡ false
        → q.requester.waiting ≡ false → RowLeads KeepsCalm (arrival_row bytes envelope shared q) }
{}

/// No turn, timer and local operation makes a requester wait for a wake, and none drops a packet for what it is itself.
pub fn turns_keep_calm()
    ensures request { (q : QueuePair) (room : Bool) (n : Numbered) → q.requester.waiting ≡ false
        → RowLeads KeepsCalm (packet_row q room n) }
    ensures respond { (room : Bool) (q : QueuePair) → q.requester.waiting ≡ false
        → RowLeads KeepsCalm (respond_row room q) }
    ensures timeout { (silent : Bool) (q : QueuePair) → q.requester.waiting ≡ false
        → KeepsCalm (after_timeout silent q) }
    ensures operation { (q : QueuePair) (n : Numbered) (windows : ℕ) (m : LocalMarks) (refusal : Option OpRefusal)
        → q.requester.waiting ≡ false → KeepsCalm (operation_effects q n (record q { windows = windows }) m refusal) }
{}

/// What a turn sends is in the default partition and for the queue pair that its own has named, if it is a packet.
pub fn turns_send_to_peers()
    ensures request { (q : QueuePair) (room : Bool) (n : Numbered) → IsQueue q → turn_of q ≡ Sends n
        → RowLeads (SendsFor q) (packet_row q room n) }
    ensures respond { (q : QueuePair) (room : Bool) → IsQueue q → RowLeads (SendsFor q) (respond_row room q) }
{}
