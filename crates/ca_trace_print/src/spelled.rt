//! Words of a line: what has one spelling adds it to a text, behind a character.

ghost use Rattle.std.specs.Prelude.{◌≡◌, ◌++◌, ◌∷◌, OnOk};

use crate::text::Text;
use crate::words::{Flags, Queues};
use ca_base::{
    Address, Denial, DomainId, Key, Kind, Lot, Memory, OpRefusal, Perhaps, Piece, QueueId, Rights,
    Run, Slot, State, WcOp, WcStatus,
};
use ca_model::{Drop1, Refusal};

/// A value that has one spelling in a line.
pub trait Word {
    ghost use Rattle.std.specs.Prelude.{ℕ, List};

    ghost spelling: { Self → List ℕ };

    /// Adds a character, and the value's spelling behind it.
    fn put_in(&self, text: &mut Text, before: u8) -> Result<(), Memory>
        ensures ok { OnOk result (text.new ≡ text.old ++ before ∷ spelling self.now) };
}

impl<T: Word> Word for &T {
    ghost spelling = { λ word. T.spelling word.now };

    #[inline(always)]
    fn put_in(&self, text: &mut Text, before: u8) -> Result<(), Memory> {
        (**self).put_in(text, before)
    }
}

/// A word of the language.
impl Word for &'static str {
    ghost spelling = { λ word. word.now };

    #[inline(always)]
    fn put_in(&self, text: &mut Text, before: u8) -> Result<(), Memory> {
        text.put_name(before, *self)
    }
}

impl Word for u8 {
    ghost use Rattle.std.specs.Prelude.{decimal};

    ghost spelling = { decimal };

    #[inline(always)]
    fn put_in(&self, text: &mut Text, before: u8) -> Result<(), Memory> {
        text.put_number(before, u64::from(*self))
    }
}

impl Word for u16 {
    ghost use Rattle.std.specs.Prelude.{decimal};

    ghost spelling = { decimal };

    #[inline(always)]
    fn put_in(&self, text: &mut Text, before: u8) -> Result<(), Memory> {
        text.put_number(before, u64::from(*self))
    }
}

impl Word for u32 {
    ghost use Rattle.std.specs.Prelude.{decimal};

    ghost spelling = { decimal };

    #[inline(always)]
    fn put_in(&self, text: &mut Text, before: u8) -> Result<(), Memory> {
        text.put_number(before, u64::from(*self))
    }
}

impl Word for u64 {
    ghost use Rattle.std.specs.Prelude.{decimal};

    ghost spelling = { decimal };

    #[inline(always)]
    fn put_in(&self, text: &mut Text, before: u8) -> Result<(), Memory> {
        text.put_number(before, *self)
    }
}

impl Word for DomainId {
    ghost use Rattle.ca_keys.specs.Spelling.{domain_text};

    ghost spelling = { domain_text };

    #[inline(always)]
    fn put_in(&self, text: &mut Text, before: u8) -> Result<(), Memory> {
        self.adapter.put_in(text, before)?;
        self.domain.put_in(text, b'/')
    }
}

impl Word for Slot {
    ghost use Rattle.ca_keys.specs.Spelling.{slot_text};

    ghost spelling = { slot_text };

    fn put_in(&self, text: &mut Text, before: u8) -> Result<(), Memory> {
        self.domain.put_in(text, before)?;
        self.slot.put_in(text, b'/')
    }
}

impl Word for QueueId {
    ghost use Rattle.ca_keys.specs.Spelling.{queue_text};

    ghost spelling = { queue_text };

    fn put_in(&self, text: &mut Text, before: u8) -> Result<(), Memory> {
        self.adapter.put_in(text, before)?;
        self.number.put_in(text, b'/')
    }
}

/// An adapter, and a buffer there.
#[derive(Clone, Copy)]
pub struct InAdapter {
    pub adapter: u8,
    pub buffer: u16,
}

impl Word for InAdapter {
    ghost use Rattle.std.specs.Prelude.{codes, decimal};

    ghost spelling = { λ place. decimal place.adapter ++ codes "/" ++ decimal place.buffer };

    fn put_in(&self, text: &mut Text, before: u8) -> Result<(), Memory> {
        self.adapter.put_in(text, before)?;
        self.buffer.put_in(text, b'/')
    }
}

impl Word for Key {
    ghost use Rattle.ca_keys.specs.Spelling.{key_text};

    ghost spelling = { key_text };

    fn put_in(&self, text: &mut Text, before: u8) -> Result<(), Memory> {
        text.put_key(before, *self)
    }
}

impl Word for Address {
    ghost use Rattle.ca_keys.specs.Spelling.{address_text};

    ghost spelling = { λ address. address_text address.0 };

    fn put_in(&self, text: &mut Text, before: u8) -> Result<(), Memory> {
        text.put_shown(before, self)
    }
}

impl<T: Word> Word for Perhaps<T> {
    ghost use Rattle.ca_keys.specs.Spelling.{perhaps};

    ghost spelling = { λ value. perhaps T.spelling value.0 };

    fn put_in(&self, text: &mut Text, before: u8) -> Result<(), Memory> {
        match &self.0 {
            None => text.put_name(before, "-"),
            Some(value) => value.put_in(text, before),
        }
    }
}

impl Word for Piece {
    ghost use Rattle.ca_base.specs.Spelling.{piece_text};

    ghost spelling = { piece_text };

    fn put_in(&self, text: &mut Text, before: u8) -> Result<(), Memory> {
        self.key.put_in(text, before)?;
        Address(self.address).put_in(text, b':')?;
        self.length.put_in(text, b':')
    }
}

impl Word for Run {
    ghost use Rattle.ca_keys.specs.Spelling.{run_text};

    ghost spelling = { run_text };

    fn put_in(&self, text: &mut Text, before: u8) -> Result<(), Memory> {
        self.adapter.put_in(text, before)?;
        self.buffer.put_in(text, b'/')?;
        self.offset.put_in(text, b':')?;
        self.length.put_in(text, b'+')
    }
}

/// A list prints as its words with commas between, or `-` for none.
impl<T: Word> Word for &[T] {
    ghost use Rattle.std.specs.Prelude.{map};
    ghost use Rattle.ca_trace_print.specs.Words.{commas};

    ghost spelling = { λ list. commas (map T.spelling list.now) };

    fn put_in(&self, text: &mut Text, before: u8) -> Result<(), Memory> {
        text.put_list(before, *self)
    }
}

/// Bytes that print as two hexadecimal digits each, or `-` for none.
#[derive(Clone, Copy)]
pub struct Hex<'a>(pub &'a [u8]);

impl<'a> Word for Hex<'a> {
    ghost use Rattle.ca_trace_print.specs.Words.{hexadecimal};

    ghost spelling = { λ bytes. hexadecimal bytes.0.now };

    fn put_in(&self, text: &mut Text, before: u8) -> Result<(), Memory> {
        text.put_byte(before)?;
        text.put_hex(self.0)
    }
}

impl Word for Flags {
    ghost use Rattle.ca_trace_print.specs.Words.{flags_text};

    ghost spelling = { λ flags. flags_text flags.signalled flags.fence flags.solicited };

    fn put_in(&self, text: &mut Text, before: u8) -> Result<(), Memory> {
        text.put_shown(before, self)
    }
}

impl Word for Queues {
    ghost use Rattle.ca_trace_print.specs.Words.{queues_text};

    ghost spelling = { λ queues. queues_text queues.0 };

    fn put_in(&self, text: &mut Text, before: u8) -> Result<(), Memory> {
        text.put_shown(before, self)
    }
}

impl Word for Rights {
    ghost use Rattle.ca_keys.specs.Spelling.{rights_text};

    ghost spelling = { rights_text };

    fn put_in(&self, text: &mut Text, before: u8) -> Result<(), Memory> {
        text.put_shown(before, self)
    }
}

impl Word for Kind {
    ghost use Rattle.ca_keys.specs.Spelling.{kind_text};

    ghost spelling = { kind_text };

    fn put_in(&self, text: &mut Text, before: u8) -> Result<(), Memory> {
        text.put_shown(before, self)
    }
}

impl Word for Denial {
    ghost use Rattle.ca_keys.specs.Spelling.{denial_text};

    ghost spelling = { denial_text };

    fn put_in(&self, text: &mut Text, before: u8) -> Result<(), Memory> {
        text.put_shown(before, self)
    }
}

impl Word for Lot {
    ghost use Rattle.ca_base.specs.Spelling.{lot_text};

    ghost spelling = { lot_text };

    fn put_in(&self, text: &mut Text, before: u8) -> Result<(), Memory> {
        text.put_shown(before, self)
    }
}

impl Word for State {
    ghost use Rattle.ca_base.specs.Spelling.{state_text};

    ghost spelling = { state_text };

    fn put_in(&self, text: &mut Text, before: u8) -> Result<(), Memory> {
        text.put_shown(before, self)
    }
}

impl Word for WcOp {
    ghost use Rattle.ca_base.specs.Spelling.{operation_text};

    ghost spelling = { operation_text };

    fn put_in(&self, text: &mut Text, before: u8) -> Result<(), Memory> {
        text.put_shown(before, self)
    }
}

impl Word for WcStatus {
    ghost use Rattle.ca_base.specs.Spelling.{status_text};

    ghost spelling = { status_text };

    fn put_in(&self, text: &mut Text, before: u8) -> Result<(), Memory> {
        text.put_shown(before, self)
    }
}

impl Word for OpRefusal {
    ghost use Rattle.ca_base.specs.Spelling.{op_refusal_text};

    ghost spelling = { op_refusal_text };

    fn put_in(&self, text: &mut Text, before: u8) -> Result<(), Memory> {
        text.put_shown(before, self)
    }
}

impl Word for Refusal {
    ghost use Rattle.ca_model.specs.Answers.{refusal_text};

    ghost spelling = { refusal_text };

    fn put_in(&self, text: &mut Text, before: u8) -> Result<(), Memory> {
        text.put_shown(before, self)
    }
}

impl Word for Drop1 {
    ghost use Rattle.ca_model.specs.Answers.{drop_text};

    ghost spelling = { drop_text };

    fn put_in(&self, text: &mut Text, before: u8) -> Result<(), Memory> {
        text.put_shown(before, self)
    }
}

/// Words that stand one behind the other in a line.
pub trait Words {
    ghost use Rattle.std.specs.Prelude.{ℕ, List};

    ghost spellings: { Self → List ℕ };

    /// Adds each of the words behind a space.
    fn put_all(&self, text: &mut Text) -> Result<(), Memory>
        ensures ok { OnOk result (text.new ≡ text.old ++ spellings self.now) };
}

impl<A: Word> Words for (A,) {
    ghost spellings = { λ x. (32 ∷ A.spelling x.0) };

    #[inline(always)]
    fn put_all(&self, text: &mut Text) -> Result<(), Memory> {
        self.0.put_in(text, b' ')
    }
}

impl<A: Word, B: Word> Words for (A, B) {
    ghost spellings = { λ x. (32 ∷ A.spelling x.0) ++ (32 ∷ B.spelling x.1) };

    #[inline(always)]
    fn put_all(&self, text: &mut Text) -> Result<(), Memory> {
        self.0.put_in(text, b' ')?;
        self.1.put_in(text, b' ')
    }
}

impl<A: Word, B: Word, C: Word> Words for (A, B, C) {
    ghost spellings = { λ x. (32 ∷ A.spelling x.0) ++ (32 ∷ B.spelling x.1) ++ (32 ∷ C.spelling x.2) };

    #[inline(always)]
    fn put_all(&self, text: &mut Text) -> Result<(), Memory> {
        self.0.put_in(text, b' ')?;
        self.1.put_in(text, b' ')?;
        self.2.put_in(text, b' ')
    }
}

impl<A: Word, B: Word, C: Word, D: Word> Words for (A, B, C, D) {
    ghost spellings = { λ x. (32 ∷ A.spelling x.0) ++ (32 ∷ B.spelling x.1) ++ (32 ∷ C.spelling x.2) ++ (32 ∷ D.spelling x.3) };

    #[inline(always)]
    fn put_all(&self, text: &mut Text) -> Result<(), Memory> {
        self.0.put_in(text, b' ')?;
        self.1.put_in(text, b' ')?;
        self.2.put_in(text, b' ')?;
        self.3.put_in(text, b' ')
    }
}

impl<A: Word, B: Word, C: Word, D: Word, E: Word> Words for (A, B, C, D, E) {
    ghost spellings = { λ x. (32 ∷ A.spelling x.0) ++ (32 ∷ B.spelling x.1) ++ (32 ∷ C.spelling x.2) ++ (32 ∷ D.spelling x.3) ++ (32 ∷ E.spelling x.4) };

    #[inline(always)]
    fn put_all(&self, text: &mut Text) -> Result<(), Memory> {
        self.0.put_in(text, b' ')?;
        self.1.put_in(text, b' ')?;
        self.2.put_in(text, b' ')?;
        self.3.put_in(text, b' ')?;
        self.4.put_in(text, b' ')
    }
}

impl<A: Word, B: Word, C: Word, D: Word, E: Word, F: Word> Words for (A, B, C, D, E, F) {
    ghost spellings = { λ x. (32 ∷ A.spelling x.0) ++ (32 ∷ B.spelling x.1) ++ (32 ∷ C.spelling x.2) ++ (32 ∷ D.spelling x.3) ++ (32 ∷ E.spelling x.4) ++ (32 ∷ F.spelling x.5) };

    #[inline(always)]
    fn put_all(&self, text: &mut Text) -> Result<(), Memory> {
        self.0.put_in(text, b' ')?;
        self.1.put_in(text, b' ')?;
        self.2.put_in(text, b' ')?;
        self.3.put_in(text, b' ')?;
        self.4.put_in(text, b' ')?;
        self.5.put_in(text, b' ')
    }
}

impl<A: Word, B: Word, C: Word, D: Word, E: Word, F: Word, G: Word> Words
    for (A, B, C, D, E, F, G) {
    ghost spellings = { λ x. (32 ∷ A.spelling x.0) ++ (32 ∷ B.spelling x.1) ++ (32 ∷ C.spelling x.2) ++ (32 ∷ D.spelling x.3) ++ (32 ∷ E.spelling x.4) ++ (32 ∷ F.spelling x.5) ++ (32 ∷ G.spelling x.6) };

    #[inline(always)]
    fn put_all(&self, text: &mut Text) -> Result<(), Memory> {
        self.0.put_in(text, b' ')?;
        self.1.put_in(text, b' ')?;
        self.2.put_in(text, b' ')?;
        self.3.put_in(text, b' ')?;
        self.4.put_in(text, b' ')?;
        self.5.put_in(text, b' ')?;
        self.6.put_in(text, b' ')
    }
}

impl<A: Word, B: Word, C: Word, D: Word, E: Word, F: Word, G: Word, H: Word> Words
    for (A, B, C, D, E, F, G, H) {
    ghost spellings = { λ x. (32 ∷ A.spelling x.0) ++ (32 ∷ B.spelling x.1) ++ (32 ∷ C.spelling x.2) ++ (32 ∷ D.spelling x.3) ++ (32 ∷ E.spelling x.4) ++ (32 ∷ F.spelling x.5) ++ (32 ∷ G.spelling x.6) ++ (32 ∷ H.spelling x.7) };

    #[inline(always)]
    fn put_all(&self, text: &mut Text) -> Result<(), Memory> {
        self.0.put_in(text, b' ')?;
        self.1.put_in(text, b' ')?;
        self.2.put_in(text, b' ')?;
        self.3.put_in(text, b' ')?;
        self.4.put_in(text, b' ')?;
        self.5.put_in(text, b' ')?;
        self.6.put_in(text, b' ')?;
        self.7.put_in(text, b' ')
    }
}
