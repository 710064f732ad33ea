ghost use Rattle.std.specs.Prelude.{◌≡◌};
ghost use Rattle.ca_wire.specs.Packet.{plain};

use crate::aeth::Aeth;
use crate::atomic_eth::AtomicEth;
use crate::reth::Reth;
use ca_base::limits::MAX_PAYLOAD_BYTES;
use std::marker::Model;

/// The default partition key, which this profile sends and takes alone.
pub const DEFAULT_PKEY: u16 = 0xFFFF;

/// The most bytes that spell a packet: 12 of the base transport header, 20 of RETH and ImmDt, and the largest payload.
pub const MAX_PACKET_BYTES: usize = MAX_PAYLOAD_BYTES + 32;

/// A packet of the reliable connection. The payload is a slice of the bytes that it was read from, without its pad
/// bytes.
#[derive(Drop)]
pub struct Packet<'a> {
    /// What the packet is, by the table of opcodes.
    pub opcode: u8,
    /// The responder is asked for a solicited event.
    pub solicited: bool,
    /// MigReq: the migration state.
    pub migrated: bool,
    /// AckReq: an acknowledgement is asked for.
    pub ack: bool,
    /// The number of the destination queue pair, below 2^24.
    pub queue: u32,
    /// The packet sequence number, below 2^24.
    pub psn: u32,
    /// The partition key.
    pub pkey: u16,
    /// What a WRITE or a READ reaches.
    pub reth: Option<Reth>,
    /// What an atomic does.
    pub atomic: Option<AtomicEth>,
    /// The acknowledgement.
    pub aeth: Option<Aeth>,
    /// AtomicAckETH: the value that an atomic found.
    pub result: Option<u64>,
    /// ImmDt: the immediate data.
    pub imm: Option<u32>,
    /// IETH: the R_Key that is to be invalidated.
    pub ieth: Option<u32>,
    /// The payload.
    pub payload: &'a [u8],
}

/// In contracts a packet is its fields, and the payload the bytes that it brings.
impl<'a> Model for Packet<'a> {
    ghost use Rattle.ca_wire.specs.Packet.{Fields};

    ghost Value = { Fields };

    ghost use Rattle.ca_wire.specs.PacketView.{packet_seen};

    ghost view = { packet_seen };
}

impl<'a> Packet<'a> {
    /// The packet with this opcode, for this queue pair, at this PSN, in the default partition, with this payload: no
    /// flag is set, and it has no header.
    #[inline(always)]
    pub fn plain(opcode: u8, queue: u32, psn: u32, payload: &'a [u8]) -> Packet<'a>
        ensures { result ≡ record (plain opcode queue psn) { payload = payload.now } }
    {
        Packet {
            opcode,
            solicited: false,
            migrated: false,
            pkey: DEFAULT_PKEY,
            queue,
            ack: false,
            psn,
            reth: None,
            atomic: None,
            aeth: None,
            result: None,
            imm: None,
            ieth: None,
            payload,
        }
    }
}
