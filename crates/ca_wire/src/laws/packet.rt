ghost use Rattle.std.specs.Prelude.{◌≡◌, ◌≤◌, List, ℕ, None, Ok, length};
ghost use Rattle.ca_wire.specs.declared.packet.TheConstants.{MAX_PACKET_BYTES};
ghost use Rattle.ca_wire.specs.Decoding.{packet_in};
ghost use Rattle.ca_wire.specs.Packet.{Fields, FitsBits, IsWellFormed, Spells, most_of_response, most_spelt, spelling, spelling_size};
ghost use Rattle.ca_wire.specs.Table.{shape_of};

/// Bytes spell one packet at most.
pub fn one_packet()
    ensures { (bytes : List ℕ) (f g : Fields) → Spells bytes f → Spells bytes g → f ≡ g }
{}

/// The canonical spelling of a packet spells it, and no other.
pub fn round_trip()
    ensures spells { (f : Fields) → IsWellFormed f → FitsBits f → Spells (spelling f) f }
    ensures only { (f g : Fields) → IsWellFormed f → FitsBits f → Spells (spelling f) g → g ≡ f }
{}

/// How many bytes spell a packet, and that none takes more than the most; by the bytes of its payload, no packet takes more
/// than an atomic or a WRITE with immediate data, and no response more than an ATOMIC Acknowledge or a READ Response.
pub fn spelling_length()
    ensures exact { (f : Fields) → IsWellFormed f → length (spelling f) ≡ spelling_size f }
    ensures most { (f : Fields) → IsWellFormed f → length (spelling f) ≤ MAX_PACKET_BYTES }
    ensures by_payload { (f : Fields) → IsWellFormed f → length (spelling f) ≤ most_spelt (length f.payload) }
    ensures response { (f : Fields) → IsWellFormed f → shape_of f.opcode ≡ None
        → length (spelling f) ≤ most_of_response (length f.payload) }
{}

/// The reading from left to right gives the packet that the bytes spell.
pub fn reading()
    ensures { (bytes : List ℕ) (f : Fields) → Spells bytes f → packet_in bytes ≡ Ok f }
{}
