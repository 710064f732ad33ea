ghost use Rattle.std.specs.Prelude.{◌≤◌, IfSome};
ghost use Rattle.ca_trace_lex.specs.Fits.{DomainFits, KeyFits, LotFits, PieceFits, QueueFits, RunFits, SlotFits};

use ca_base::{DomainId, Key, Lot, Piece, QueueId, Run, Slot};

/// A number of 8 bits is below 256.
pub fn u8_fits(_n: u8)
    ensures { _n ≤ u8.MAX }
{}

/// A number of 16 bits is below 65,536.
pub fn u16_fits(_n: u16)
    ensures { _n ≤ u16.MAX }
{}

/// A number of 32 bits is below 2^32.
pub fn u32_fits(_n: u32)
    ensures { _n ≤ u32.MAX }
{}

/// A number of 64 bits is below 2^64.
pub fn u64_fits(_n: u64)
    ensures { _n ≤ u64.MAX }
{}

pub fn domain_fits(domain: DomainId)
    ensures { DomainFits domain }
{
    u8_fits(domain.adapter);
    u8_fits(domain.domain);
}

pub fn slot_fits(slot: Slot)
    ensures { SlotFits slot }
{
    domain_fits(slot.domain);
    u16_fits(slot.slot);
}

pub fn queue_fits(queue: QueueId)
    ensures { QueueFits queue }
{
    u8_fits(queue.adapter);
    u32_fits(queue.number);
}

pub fn key_fits(key: Key)
    ensures { KeyFits key }
{
    u32_fits(key.0);
}

pub fn piece_fits(piece: Piece)
    ensures { PieceFits piece }
{
    key_fits(piece.key);
    u64_fits(piece.address);
    u32_fits(piece.length);
}

pub fn run_fits(run: Run)
    ensures { RunFits run }
{
    u8_fits(run.adapter);
    u16_fits(run.buffer);
    u32_fits(run.offset);
    u32_fits(run.length);
}

pub fn lot_fits(lot: Lot)
    ensures { LotFits lot }
{
    match lot {
        Lot::Repeat(count) | Lot::Hold(count) => u8_fits(count),
        Lot::Pass | Lot::Lose => {}
    }
}

pub fn perhaps_u16_fits(n: Option<u16>)
    ensures { IfSome n (λ n. n ≤ u16.MAX) }
{
    if let Some(n) = n {
        u16_fits(n);
    }
}

pub fn perhaps_u32_fits(n: Option<u32>)
    ensures { IfSome n (λ n. n ≤ u32.MAX) }
{
    if let Some(n) = n {
        u32_fits(n);
    }
}

pub fn perhaps_u64_fits(n: Option<u64>)
    ensures { IfSome n (λ n. n ≤ u64.MAX) }
{
    if let Some(n) = n {
        u64_fits(n);
    }
}

pub fn perhaps_key_fits(key: Option<Key>)
    ensures { IfSome key KeyFits }
{
    if let Some(key) = key {
        key_fits(key);
    }
}

pub fn perhaps_queue_fits(queue: Option<QueueId>)
    ensures { IfSome queue QueueFits }
{
    if let Some(queue) = queue {
        queue_fits(queue);
    }
}
