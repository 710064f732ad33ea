use crate::answers::Answers;
use crate::request::RecvRequest;
use ca_keys::Key;

/// What the requester of a queue pair counts. PSNs are whole numbers here: 2^24 and the first PSN, and onwards.
#[derive(Clone, Copy)]
pub struct RequesterNumbers {
    /// The first PSN that is not acknowledged or answered.
    pub una: u64,
    /// The next PSN to send.
    pub cursor: u64,
    /// The posting place of the oldest unfinished request, or the next posting place where there is none.
    pub oldest: u64,
    /// The first PSN that the oldest unfinished request has or would get.
    pub oldest_psn: u64,
    /// The posting place of the next request to begin. A request is begun once, when its first packet is sent.
    pub next: u64,
    /// Retries since the last progress.
    pub retries: u8,
    /// RNR NAKs since the last progress.
    pub rnrs: u64,
    /// Whether it waits for a wake after an RNR NAK.
    pub waiting: bool,
    /// How many timers fired in this slot.
    pub timers: u64,
    /// The retry count, the RNR retry count and the bound of READs and atomics outstanding.
    pub retry: u8,
    pub rnr_retry: u8,
    pub reads: u8,
}

/// What the responder of a queue pair counts. The expected PSN is a whole number here.
#[derive(Drop)]
pub struct ResponderNumbers {
    pub expected: u64,
    /// Messages accepted, modulo 2^24.
    pub msn: u32,
    /// The message in progress.
    pub message: Option<Message>,
    /// The response queue, from its front.
    pub answers: Answers,
    /// Whether a NAK 0 or an RNR NAK was queued since the last expected packet.
    pub nak_sent: bool,
    /// The path MTU in bytes.
    pub mtu: u16,
    /// The timer code of RNR NAKs.
    pub rnr_code: u8,
}

/// A message of several packets that has begun to arrive.
#[derive(Clone, Drop)]
pub enum Message {
    /// A SEND: the posting place of the receive that it took, that receive, and the bytes received so far.
    Send {
        place: u64,
        receive: RecvRequest,
        bytes: u32,
    },
    /// A WRITE of `length` bytes: what is left of it, and where.
    Write {
        key: Key,
        address: u64,
        left: u32,
        length: u32,
    },
}

/// An answer that waits to be sent.
#[derive(Clone, Copy, PartialEq, Eq)]
pub enum Queued {
    Ack {
        psn: u64,
    },
    Rnr {
        psn: u64,
    },
    /// A NAK with its code.
    Nak {
        psn: u64,
        code: u8,
    },
    /// A READ: PSN, key, address and length of what is left, whether no response was sent yet, and the envelope of its
    /// request, or None where it was injected.
    Read {
        psn: u64,
        key: Key,
        address: u64,
        left: u32,
        first: bool,
        envelope: Option<u64>,
        duplicate: bool,
    },
    /// An atomic, with the number that it found.
    Atomic {
        psn: u64,
        found: u64,
        duplicate: bool,
    },
}

impl Queued {
    ghost use Rattle.std.specs.Prelude.{◌≡◌};
    ghost use Rattle.ca_base.specs.objects.Answers as answers;

    /// The PSN that it stands at: of a READ that of its next response.
    pub fn psn(&self) -> u64
        ensures { result ≡ answers.psn_of_answer self.now }
    {
        match *self {
            Queued::Ack { psn }
            | Queued::Rnr { psn }
            | Queued::Nak { psn, .. }
            | Queued::Read { psn, .. }
            | Queued::Atomic { psn, .. } => psn,
        }
    }

    /// Whether it is an acknowledgement.
    pub fn is_ack(&self) -> bool
        ensures { result ≡ answers.is_ack self.now }
    {
        matches!(self, Queued::Ack { .. })
    }

    /// Whether it is a NAK or an RNR NAK.
    pub fn is_nak(&self) -> bool
        ensures { result ≡ answers.is_nak self.now }
    {
        matches!(self, Queued::Rnr { .. } | Queued::Nak { .. })
    }

    /// Whether it answers a READ or an atomic that came for the first time.
    pub fn is_fresh(&self) -> bool
        ensures { result ≡ answers.is_fresh_answer self.now }
    {
        match self {
            Queued::Read { duplicate, .. } | Queued::Atomic { duplicate, .. } => !duplicate,
            _ => false,
        }
    }

    /// Whether it answers a READ or an atomic that came once more.
    pub fn is_duplicate(&self) -> bool
        ensures { result ≡ answers.is_duplicate_answer self.now }
    {
        match self {
            Queued::Read { duplicate, .. } | Queued::Atomic { duplicate, .. } => *duplicate,
            _ => false,
        }
    }
}

/// How many type 2 windows are bound to a queue pair.
#[derive(Clone, Copy)]
pub struct WindowCount {
    pub count: u32,
}
