use super::{
    DONE, INCARNATION_OUT, MTU_OUT, PEER_OUT, PSN_OUT, QUEUE, READS_OUT, RETRY_OUT, RNR_CODE_OUT,
    RNR_RETRY_OUT, TO_RTR, TRANSITION, change, created, settings, tries,
};
use ca_base::QueueId;
use ca_qpstate::{Change, State};

/// The peer's adapter and number, its incarnation, the PSN, the path MTU, the RNR code, and the answer in Init.
const RTR: [((u8, u32), u32, u32, u16, u8, u8); 54] = [
    // The peer: slots 0 to 2 of domains 0 and 1 at adapter 0, slots 0 and 1 of domain 0 at adapter 1, and not itself.
    ((0, 0), 1, 0, 256, 0, PEER_OUT),
    ((0, 1), 1, 0, 256, 0, PEER_OUT),
    ((0, 255), 1, 0, 256, 0, PEER_OUT),
    ((0, 256), 1, 0, 256, 0, DONE),
    ((0, 257), 1, 0, 256, 0, PEER_OUT),
    ((0, 258), 1, 0, 256, 0, DONE),
    ((0, 259), 1, 0, 256, 0, PEER_OUT),
    ((0, 511), 1, 0, 256, 0, PEER_OUT),
    ((0, 512), 1, 0, 256, 0, DONE),
    ((0, 514), 1, 0, 256, 0, DONE),
    ((0, 515), 1, 0, 256, 0, PEER_OUT),
    ((0, 768), 1, 0, 256, 0, PEER_OUT),
    ((0, u32::MAX), 1, 0, 256, 0, PEER_OUT),
    ((1, 256), 1, 0, 256, 0, DONE),
    ((1, 257), 1, 0, 256, 0, DONE),
    ((1, 258), 1, 0, 256, 0, PEER_OUT),
    ((1, 512), 1, 0, 256, 0, PEER_OUT),
    ((2, 256), 1, 0, 256, 0, PEER_OUT),
    ((255, 256), 1, 0, 256, 0, PEER_OUT),
    // Its incarnation: from 1 on.
    ((0, 512), 0, 0, 256, 0, INCARNATION_OUT),
    ((0, 512), 2, 0, 256, 0, DONE),
    ((0, 512), u32::MAX, 0, 256, 0, DONE),
    // The PSN: 24 bits.
    ((0, 512), 1, 0xFF_FFFF, 256, 0, DONE),
    ((0, 512), 1, 0x100_0000, 256, 0, PSN_OUT),
    ((0, 512), 1, u32::MAX, 256, 0, PSN_OUT),
    // The path MTU: five of them.
    ((0, 512), 1, 0, 0, 0, MTU_OUT),
    ((0, 512), 1, 0, 128, 0, MTU_OUT),
    ((0, 512), 1, 0, 255, 0, MTU_OUT),
    ((0, 512), 1, 0, 257, 0, MTU_OUT),
    ((0, 512), 1, 0, 511, 0, MTU_OUT),
    ((0, 512), 1, 0, 512, 0, DONE),
    ((0, 512), 1, 0, 513, 0, MTU_OUT),
    ((0, 512), 1, 0, 768, 0, MTU_OUT),
    ((0, 512), 1, 0, 1023, 0, MTU_OUT),
    ((0, 512), 1, 0, 1024, 0, DONE),
    ((0, 512), 1, 0, 1025, 0, MTU_OUT),
    ((0, 512), 1, 0, 2047, 0, MTU_OUT),
    ((0, 512), 1, 0, 2048, 0, DONE),
    ((0, 512), 1, 0, 2049, 0, MTU_OUT),
    ((0, 512), 1, 0, 4095, 0, MTU_OUT),
    ((0, 512), 1, 0, 4096, 0, DONE),
    ((0, 512), 1, 0, 4097, 0, MTU_OUT),
    ((0, 512), 1, 0, 8192, 0, MTU_OUT),
    ((0, 512), 1, 0, u16::MAX, 0, MTU_OUT),
    // The timer code of RNR NAKs: 5 bits.
    ((0, 512), 1, 0, 256, 1, DONE),
    ((0, 512), 1, 0, 256, 31, DONE),
    ((0, 512), 1, 0, 256, 32, RNR_CODE_OUT),
    ((0, 512), 1, 0, 256, 255, RNR_CODE_OUT),
    // The first field that is out of its range answers.
    ((0, 257), 0, 0x100_0000, 0, 32, PEER_OUT),
    ((0, 512), 0, 0x100_0000, 0, 32, INCARNATION_OUT),
    ((0, 512), 1, 0x100_0000, 0, 32, PSN_OUT),
    ((0, 512), 1, 0, 0, 32, MTU_OUT),
    ((0, 512), 1, 0, 4096, 32, RNR_CODE_OUT),
    ((0, 512), 1, 0xFF_FFFF, 4096, 31, DONE),
];

/// The PSN, the retry count, the RNR retry count, the bound of READs, and the answer in Ready to Receive.
const RTS: [(u32, u8, u8, u8, u8); 19] = [
    (0, 0, 0, 1, DONE),
    // The PSN: 24 bits.
    (0xFF_FFFF, 0, 0, 1, DONE),
    (0x100_0000, 0, 0, 1, PSN_OUT),
    (u32::MAX, 0, 0, 1, PSN_OUT),
    // The retry count: 3 bits.
    (0, 7, 0, 1, DONE),
    (0, 8, 0, 1, RETRY_OUT),
    (0, 255, 0, 1, RETRY_OUT),
    // The RNR retry count: 3 bits.
    (0, 0, 7, 1, DONE),
    (0, 0, 8, 1, RNR_RETRY_OUT),
    (0, 0, 255, 1, RNR_RETRY_OUT),
    // The bound of READs and atomics: 1 to 16.
    (0, 0, 0, 0, READS_OUT),
    (0, 0, 0, 16, DONE),
    (0, 0, 0, 17, READS_OUT),
    (0, 0, 0, 255, READS_OUT),
    // The first field that is out of its range answers.
    (0x100_0000, 8, 8, 0, PSN_OUT),
    (0, 8, 8, 0, RETRY_OUT),
    (0, 7, 8, 0, RNR_RETRY_OUT),
    (0, 7, 7, 17, READS_OUT),
    (0xFF_FFFF, 7, 7, 16, DONE),
];

// The number of the first state where the answer is Ok, and else of the second.
fn state_after(answer: u8, done: State, refused: State) -> u8 {
    if answer == DONE {
        done as u8
    } else {
        refused as u8
    }
}

#[test]
fn each_field_of_ready_to_receive_at_its_edges(rt: HostRuntime) {
    let settings = settings(&rt);
    for ((adapter, number), incarnation, psn, mtu, rnr_code, want) in RTR.as_slice() {
        let mut q = created(&rt, rt.alloc());
        change(&rt, &mut q, &settings, &Change::Init);
        let peer = QueueId {
            adapter: *adapter,
            number: *number,
        };
        let to_rtr = Change::Rtr {
            peer,
            incarnation: *incarnation,
            psn: *psn,
            mtu: *mtu,
            rnr_code: *rnr_code,
        };
        let after = state_after(*want, State::Rtr, State::Init);
        tries(&rt, &mut q, &settings, &to_rtr, (*want, after));
    }
}

#[test]
fn each_field_of_ready_to_send_at_its_edges(rt: HostRuntime) {
    let settings = settings(&rt);
    for (psn, retry, rnr_retry, reads, want) in RTS.as_slice() {
        let mut q = created(&rt, rt.alloc());
        change(&rt, &mut q, &settings, &Change::Init);
        change(&rt, &mut q, &settings, &TO_RTR);
        let to_rts = Change::Rts {
            psn: *psn,
            retry: *retry,
            rnr_retry: *rnr_retry,
            reads: *reads,
        };
        let after = state_after(*want, State::Rts, State::Rtr);
        tries(&rt, &mut q, &settings, &to_rts, (*want, after));
    }
}

const BAD_RTR: Change = Change::Rtr {
    peer: QUEUE,
    incarnation: 0,
    psn: u32::MAX,
    mtu: 0,
    rnr_code: 255,
};

const BAD_RTS: Change = Change::Rts {
    psn: u32::MAX,
    retry: 8,
    rnr_retry: 8,
    reads: 0,
};

#[test]
fn a_wrong_state_comes_before_a_wrong_field(rt: HostRuntime) {
    let settings = settings(&rt);
    let mut q = created(&rt, rt.alloc());
    let in_reset = (TRANSITION, State::Reset as u8);
    tries(&rt, &mut q, &settings, &BAD_RTR, in_reset);
    tries(&rt, &mut q, &settings, &BAD_RTS, in_reset);
}
