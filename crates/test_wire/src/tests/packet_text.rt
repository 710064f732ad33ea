use ca_wire::Packet;
use std::fmt;

/// The fields of a packet in the words of the rows of other programs.
#[derive(Drop)]
pub struct PacketText<'a>(pub &'a Packet<'a>);

fn bit(flag: bool) -> u8 {
    if flag { 1 } else { 0 }
}

fn write_addresses<W: fmt::Write>(p: &Packet<'_>, f: &mut fmt::Formatter<W>) -> fmt::Result {
    if let Some(h) = p.reth {
        write!(f, " va={} rkey={} length={}", h.address, h.key.0, h.length)?;
    }
    if let Some(h) = p.atomic {
        write!(
            f,
            " va={} rkey={} swap={} compare={}",
            h.address, h.key.0, h.swap, h.compare
        )?;
    }
    Ok(())
}

fn write_answers<W: fmt::Write>(p: &Packet<'_>, f: &mut fmt::Formatter<W>) -> fmt::Result {
    if let Some(h) = p.aeth {
        write!(f, " syndrome={} msn={}", h.syndrome, h.msn)?;
    }
    if let Some(found) = p.result {
        write!(f, " found={found}")?;
    }
    if let Some(imm) = p.imm {
        write!(f, " imm={imm}")?;
    }
    if let Some(ieth) = p.ieth {
        write!(f, " ieth={ieth}")?;
    }
    Ok(())
}

impl fmt::Display for PacketText<'_> {
    fn fmt<W: fmt::Write>(&self, f: &mut fmt::Formatter<W>) -> fmt::Result {
        let p = self.0;
        write!(
            f,
            "opcode={} se={} mig={}",
            p.opcode,
            bit(p.solicited),
            bit(p.migrated)
        )?;
        write!(
            f,
            " pkey={} qp={} ackreq={} psn={}",
            p.pkey,
            p.queue,
            bit(p.ack),
            p.psn
        )?;
        write_addresses(p, f)?;
        write_answers(p, f)?;
        write!(f, " payload={}", p.payload.len())
    }
}
