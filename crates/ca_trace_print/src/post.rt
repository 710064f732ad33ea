ghost use Rattle.std.specs.Prelude.{◌≡◌, ◌∷◌, [], ◌++◌, codes, OnOk};
ghost use Rattle.std.specs.Int.{w64};
ghost use Rattle.ca_trace_print.specs.Words as fields;
ghost use Rattle.ca_trace_print.specs.Words.{Fixed, OfKey, OfPieces, Number};
ghost use Rattle.ca_trace_print.specs.Words.{led, words};
ghost use Rattle.ca_trace_print.specs.Verbs.{operation_words};

use crate::text::Text;
use ca_base::{Address, Key, Memory, Piece, SendOp};

/// Adds a WRITE or a READ, by its word, with what it reaches and its list.
fn put_reach(
    text: &mut Text,
    name: &'static str,
    address: u64,
    key: Key,
    list: &[Piece],
) -> Result<(), Memory>
    ensures ok { OnOk result (text.new ≡ text.old
        ++ led 32 (words (Fixed name.now ∷ fields.Address address ∷ OfKey key ∷ OfPieces list.now ∷ []))) }
{
    let address = Address(address);
    text.put_words((name, address, key, list))
}

fn put_cmp_swap(
    text: &mut Text,
    address: u64,
    key: Key,
    compare: u64,
    swap: u64,
    list: &[Piece],
) -> Result<(), Memory>
    ensures ok { OnOk result (text.new ≡ text.old
        ++ led 32 (words (Fixed (codes "cas") ∷ fields.Address address ∷ OfKey key ∷ Number w64 compare
        ∷ Number w64 swap
        ∷ OfPieces list.now ∷ []))) }
{
    let address = Address(address);
    text.put_words(("cas", address, key, compare, swap, list))
}

fn put_fetch_add(
    text: &mut Text,
    address: u64,
    key: Key,
    add: u64,
    list: &[Piece],
) -> Result<(), Memory>
    ensures ok { OnOk result (text.new ≡ text.old
        ++ led 32 (words (Fixed (codes "add") ∷ fields.Address address ∷ OfKey key ∷ Number w64 add
        ∷ OfPieces list.now ∷ []))) }
{
    let address = Address(address);
    text.put_words(("add", address, key, add, list))
}

/// Adds the words of what a send request asks for, each after a space.
pub fn put_operation(text: &mut Text, op: &SendOp) -> Result<(), Memory>
    ensures ok { OnOk result (text.new ≡ text.old ++ led 32 (words (operation_words op.now))) }
{
    match op {
        SendOp::Send { list } => text.put_words(("send", list.as_slice())),
        SendOp::SendImm { imm, list } => text.put_words(("sendimm", imm, list.as_slice())),
        SendOp::SendInv { key, list } => text.put_words(("sendinv", key, list.as_slice())),
        SendOp::Write { address, key, list } => {
            put_reach(text, "write", *address, *key, list.as_slice())
        }
        SendOp::WriteImm {
            address,
            key,
            imm,
            list,
        } => {
            let address = Address(*address);
            text.put_words(("writeimm", address, key, imm, list.as_slice()))
        }
        SendOp::Read { address, key, list } => {
            put_reach(text, "read", *address, *key, list.as_slice())
        }
        SendOp::CmpSwap {
            address,
            key,
            compare,
            swap,
            list,
        } => put_cmp_swap(text, *address, *key, *compare, *swap, list.as_slice()),
        SendOp::FetchAdd {
            address,
            key,
            add,
            list,
        } => put_fetch_add(text, *address, *key, *add, list.as_slice()),
        SendOp::Bind1 {
            window,
            region,
            address,
            length,
            rights,
        } => {
            let address = Address(*address);
            text.put_words(("bind1", window, region, address, length, rights))
        }
        SendOp::Bind2 {
            window,
            region,
            low,
            address,
            length,
            rights,
        } => {
            let address = Address(*address);
            text.put_words(("bind2", window, region, low, address, length, rights))
        }
        SendOp::FastReg {
            region,
            low,
            buffer,
            address,
            length,
            rights,
            pages,
        } => {
            let address = Address(*address);
            text.put_words((
                "fastreg",
                region,
                low,
                buffer,
                address,
                length,
                rights,
                pages.as_slice(),
            ))
        }
        SendOp::LocalInv { key } => text.put_words(("inv", key)),
    }
}
