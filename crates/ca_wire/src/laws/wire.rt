ghost use Rattle.std.specs.Prelude.{◌≡◌, ℕ, Option, Some};
ghost use Rattle.ca_wire.specs.declared.shape.Operation.TheVariants.{Request, ReadResponse};
ghost use Rattle.ca_wire.specs.declared.shape.Position.{Position};
ghost use Rattle.ca_wire.specs.declared.shape.Shape.TheVariants as shapes;
ghost use Rattle.ca_wire.specs.Table.{operation_of};
ghost use Rattle.ca_wire.specs.declared.requests.SendKind.{SendKind};
ghost use Rattle.ca_wire.specs.declared.syndrome.Syndrome.{Syndrome};
ghost use Rattle.ca_wire.specs.Builders.{send_opcode, write_opcode, read_response_opcode};
ghost use Rattle.ca_wire.specs.Syndrome.{FitsSyndrome, syndrome_byte, syndrome_in};

/// A syndrome that is sent is received as what it says, and eight bits say one syndrome at most.
pub fn syndromes()
    ensures received { (s : Syndrome) → FitsSyndrome s → syndrome_in (syndrome_byte s) ≡ Some s }
    ensures only { (byte : ℕ) (s : Syndrome) → syndrome_in byte ≡ Some s → (syndrome_byte s ≡ byte) × FitsSyndrome s }
{}

/// The opcode of a packet of a SEND, of a WRITE or of the answer to a READ has that operation in its row, at that place in
/// the message.
pub fn operations()
    ensures send { (kind : SendKind) (place : Position)
        → operation_of (send_opcode kind place) ≡ Some (Request (shapes.Send place)) }
    ensures write { (imm : Option ℕ) (place : Position)
        → operation_of (write_opcode imm place) ≡ Some (Request (shapes.Write place)) }
    ensures read_response { (place : Position)
        → operation_of (read_response_opcode place) ≡ Some (ReadResponse place) }
{}
