/// The most adapters that stand in one process.
pub const MAX_ADAPTERS: usize = 8;

/// The most protection domains of an adapter.
pub const MAX_DOMAINS: u8 = 16;

/// The most buffers of an adapter.
pub const MAX_BUFFERS: usize = 16;

/// The most bytes of a buffer.
pub const MAX_BUFFER_BYTES: u32 = 1_048_576;

/// The most bytes of all buffers together.
pub const MAX_TOTAL_BYTES: u32 = 67_108_864;

/// The most memory regions of a domain.
pub const MAX_REGIONS: u16 = 256;

/// The most memory windows of a domain.
pub const MAX_WINDOWS: u16 = 256;

/// The most completion queues of a domain.
pub const MAX_CQS: u16 = 64;

/// The most shared receive queues of a domain.
pub const MAX_SRQS: u16 = 64;

/// The most queue pairs of a domain.
pub const MAX_QPS: u16 = 64;

/// The most parts of a fabric, summed over its adapters.
pub const MAX_PARTS: u32 = 4096;

/// The most pieces of a request's scatter or gather list.
pub const MAX_PIECES: usize = 4;

/// The most bytes of a message.
pub const MAX_MESSAGE_BYTES: u32 = 1_048_576;

/// The smallest path MTU: the bytes of a full packet's payload.
pub const MIN_PATH_MTU: u32 = 256;

/// The most packets of a message: the longest one at the smallest path MTU.
pub const MAX_MESSAGE_PACKETS: u32 = 4096;

/// The most requests of a send, a receive or a shared receive queue.
pub const MAX_DEPTH: usize = 256;

/// The most completions that a completion queue holds.
pub const MAX_CAPACITY: u16 = 4096;

/// The most completions that one poll takes.
pub const MAX_POLLED: usize = 16;

/// How many PSNs there are, which count modulo this. MSNs and the numbers of queue pairs have 24 bits too.
pub const PSN_COUNT: u32 = 0x100_0000;

/// The whole number of PSN 0, so that there are numbers before the first.
pub const PSN_BASE: u64 = PSN_COUNT as u64;

/// The most PSNs that a queue pair has outstanding.
pub const MAX_OUTSTANDING_PSNS: u32 = 8192;

/// The most request packets that a queue pair has outstanding.
pub const MAX_OUTSTANDING_PACKETS: u32 = 64;

/// The most bytes of one host store or load.
pub const MAX_STORE_BYTES: u32 = 4096;

/// The most events that a configuration may allow.
pub const MAX_EVENTS: u32 = 131_072;

/// The most consumers of a script.
pub const MAX_CONSUMERS: u32 = 64;

/// The most bytes of a script.
pub const MAX_SCRIPT_BYTES: usize = 1_048_576;

/// The most worker threads of a race.
pub const MAX_WORKERS: u32 = 16;

/// The most bytes of a packet's payload: the largest path MTU.
pub const MAX_PAYLOAD_BYTES: usize = 4096;

/// The bytes of a page of a fast registration.
pub const PAGE_BYTES: u32 = 4096;

/// The most pages of a region that is allocated for fast registration.
pub const MAX_PAGES: u16 = 256;

/// The most undelivered envelopes of a mailbox.
pub const MAX_UNDELIVERED: u32 = 128;

/// The latest envelopes of a mailbox that can be delivered.
pub const KEPT_ENVELOPES: u32 = 256;

/// The results of atomics that a queue pair keeps for duplicates: of all that can be outstanding.
pub const SAVED_RESULTS: usize = MAX_READS as usize;

/// The most READs and atomics that a queue pair has outstanding, and that a responder queues, duplicates apart.
pub const MAX_READS: u8 = 16;

/// The most duplicates that a responder queues.
pub const MAX_DUPLICATES: usize = 16;

/// The greatest retry count and RNR retry count. As an RNR retry count it is without end.
pub const MAX_RETRY: u8 = 7;

/// The greatest timer code of an RNR NAK.
pub const MAX_RNR_CODE: u8 = 31;

/// The bytes that an atomic reaches.
pub const ATOMIC_BYTES: u32 = 8;

/// The most parts that an event holds.
pub const MAX_HELD_PARTS: u8 = 32;

/// The most passes over one row of parts: how many numbers the first pass has, and its share.
pub const MAX_PASSES: u64 = 4_294_967_296;

/// The stamp from which on each pass number has at most one stamp more.
pub const LATE_STAMP: u64 = 9_223_372_036_854_775_808;
