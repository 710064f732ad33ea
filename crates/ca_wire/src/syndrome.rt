ghost use Rattle.std.specs.Prelude.{◌≡◌};
ghost use Rattle.ca_wire.specs.Syndrome.{FitsSyndrome, nak_code, nak_code_in, syndrome_byte, syndrome_in};

/// The syndromes below this are those of an acknowledgement, each the credit code; from this on stand those of an RNR
/// NAK, this plus the timer code.
pub const RNR_NAK: u8 = 0x20;

/// From this on stand the syndromes of a NAK, this plus the code.
pub const NAK: u8 = 0x60;

/// How many credit codes and how many timer codes there are.
pub const SYNDROME_CODES: u8 = 32;

/// The credit code of a responder that does not limit its requester, which this profile sends.
pub const UNLIMITED_CREDITS: u8 = 31;

/// Why a request is refused by a NAK.
#[derive(Clone, Copy)]
pub enum NakCode {
    /// A packet is missing: the one that came is ahead of the expected PSN.
    PsnSequenceError,
    /// The packet does not fit its message, or asks for what no request may ask for.
    InvalidRequest,
    /// The R_Key does not allow the access.
    RemoteAccessError,
    /// The responder could not do what was asked.
    RemoteOperationalError,
}

impl NakCode {
    /// The code in the low five bits of the syndrome.
    pub fn code(self) -> u8
        ensures { result ≡ nak_code self }
    {
        match self {
            NakCode::PsnSequenceError => 0,
            NakCode::InvalidRequest => 1,
            NakCode::RemoteAccessError => 2,
            NakCode::RemoteOperationalError => 3,
        }
    }

    /// What this code says; None for those that the profile does not know.
    pub fn of(code: u8) -> Option<NakCode>
        ensures { result ≡ nak_code_in code }
    {
        match code {
            0 => Some(NakCode::PsnSequenceError),
            1 => Some(NakCode::InvalidRequest),
            2 => Some(NakCode::RemoteAccessError),
            3 => Some(NakCode::RemoteOperationalError),
            _ => None,
        }
    }
}

/// What the syndrome of an AETH says.
#[derive(Clone, Copy)]
pub enum Syndrome {
    /// An acknowledgement, with its credit code, below 32. A requester of this profile ignores the code.
    Ack(u8),
    /// The receiver is not ready, with its timer code, below 32.
    RnrNak(u8),
    /// The request is refused.
    Nak(NakCode),
}

impl Syndrome {
    /// The eight bits that say it. The codes are below 32.
    pub fn byte(self) -> u8
        requires { FitsSyndrome self }
        ensures { result ≡ syndrome_byte self }
    {
        match self {
            Syndrome::Ack(credits) => credits,
            Syndrome::RnrNak(timer) => RNR_NAK + timer,
            Syndrome::Nak(code) => NAK + code.code(),
        }
    }

    /// What these eight bits say when they are received; None where they are no syndrome of this profile.
    pub fn of(byte: u8) -> Option<Syndrome>
        ensures { result ≡ syndrome_in byte }
    {
        if byte < RNR_NAK {
            return Some(Syndrome::Ack(byte));
        }
        if byte < RNR_NAK + SYNDROME_CODES {
            return Some(Syndrome::RnrNak(byte - RNR_NAK));
        }
        if byte < NAK {
            return None;
        }
        match NakCode::of(byte - NAK) {
            Some(code) => Some(Syndrome::Nak(code)),
            None => None,
        }
    }
}
