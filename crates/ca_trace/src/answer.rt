ghost use Rattle.std.specs.Prelude.{◌≡◌, ◌++◌, OnOk};
ghost use Rattle.std.specs.List.{flat_map};
ghost use Rattle.ca_trace_print.specs.Words.{led, words};
ghost use Rattle.ca_trace.specs.Table.{completion_words, told_words};
ghost use Rattle.ca_trace.specs.Trace.{got_line, got_lines};

use ca_base::{Completion, Memory, Perhaps};
use ca_model::Answer;
use ca_trace_print::{Hex, Text, side};

/// Adds what a verb answered, as it stands behind the call, each word after a space.
pub fn put_answer(text: &mut Text, answer: &Answer) -> Result<(), Memory>
    ensures ok { OnOk result (text.new ≡ text.old ++ led 32 (words (told_words answer.now))) }
{
    match answer {
        Answer::Fine => text.put_words(("->", "ok")),
        Answer::Key(key) => text.put_words(("->", "key", key)),
        Answer::Queue {
            number,
            incarnation,
        } => text.put_words(("->", "qp", number, incarnation)),
        Answer::Posted(key) => {
            let key = Perhaps(*key);
            text.put_words(("->", "posted", key))
        }
        Answer::Polled(completions) => {
            let count = completions.as_slice().len() as u64;
            text.put_words(("->", "polled", count))
        }
        Answer::Query {
            state,
            incarnation,
            sends,
            receives,
        } => text.put_words(("->", "state", state, incarnation, sends, receives)),
        Answer::Loaded(bytes) => text.put_words(("->", "bytes", Hex(bytes.as_slice()))),
        Answer::Refused(refusal) => text.put_words(("->", "refused", refusal)),
    }
}

/// Adds the lines of the completions that an answer gave.
pub fn put_got_lines(text: &mut Text, answer: &Answer) -> Result<(), Memory>
    ensures ok { OnOk result (text.new ≡ text.old ++ got_lines answer.now) }
{
    match answer {
        Answer::Polled(completions) => put_got(text, completions.as_slice()),
        _ => Ok(()),
    }
}

fn put_got(text: &mut Text, completions: &[Completion]) -> Result<(), Memory>
    ensures ok { OnOk result (text.new ≡ text.old ++ flat_map got_line completions.now) }
{
    for completion in completions {
        text.put_words(("got",))?;
        put_completion(text, completion)?;
        text.put_byte(b'\n')?;
    }
    Ok(())
}

/// Adds the words of a completion, each after a space.
pub fn put_completion(text: &mut Text, completion: &Completion) -> Result<(), Memory>
    ensures ok { OnOk result (text.new ≡ text.old ++ led 32 (words (completion_words completion.now))) }
{
    let queue = completion.queue;
    let side = side(completion.side());
    let place = completion.place;
    let id = completion.id;
    let op = completion.op;
    text.put_words((queue, side, place, id, op))?;
    let status = completion.status;
    let bytes = completion.bytes;
    let imm = Perhaps(completion.imm);
    let key = Perhaps(completion.invalidated);
    text.put_words((status, bytes, imm, key))
}
