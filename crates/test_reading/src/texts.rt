use ca_trace::print_history;
use ca_trace_read::{TraceError, TraceReader, read};
use std::alloc::Global;
use std::process::Abort;
use std::test::Fail;

/// The trace of a script, which another program wrote from the rules alone.
const FIRST: &str = "@0 p0 c0 pd 0/0 -> ok
@1 p0 c0 cq 0/0/0 2 -> ok
@2 p0 c0 qp 0/0/0 0 0 1 1 - -> qp 256 1
@3 p0 c0 reg 0/0/0 0 0 64 lw -> key 0x00000001
 granted 0/0 0x00000001 region any 0x100000000 64 lw 0/0:0+64
@4 p0 c0 init 0/0/0 -> ok
@5 p0 c0 rtr 0/0/0 0/257 1 0 256 12 -> ok
@6 p0 c0 inject 0/256 0a30ffff000001000000000000000001000000000000000100000001ab000000 -> ok
 arrived 0/256 -
 remote 0/256 0/0 - 0x00000001 write 0x100000000 1 wrote ab
end 7
";

/// The trace of a write that is acknowledged, which the same program wrote.
const WRITE: &str = "@0 p0 c0 pd 0/0 -> ok
@1 p0 c1 pd 1/0 -> ok
@2 p0 c0 cq 0/0/0 8 -> ok
@3 p0 c1 cq 1/0/0 8 -> ok
@4 p0 c0 qp 0/0/0 0 0 4 4 - -> qp 256 1
@5 p0 c1 qp 1/0/0 0 0 4 4 - -> qp 256 1
@6 p0 c0 reg 0/0/0 0 0 4096 lrwab -> key 0x00000001
 granted 0/0 0x00000001 region any 0x100000000 4096 lrwab 0/0:0+4096
@7 p0 c1 reg 1/0/0 0 0 4096 lrwab -> key 0x00000001
 granted 1/0 0x00000001 region any 0x100000000 4096 lrwab 1/0:0+4096
@8 p0 c0 init 0/0/0 -> ok
@9 p0 c1 init 1/0/0 -> ok
@10 p0 c0 rtr 0/0/0 1/256 1 0 256 12 -> ok
@11 p0 c1 rtr 1/0/0 0/256 1 0 256 12 -> ok
@12 p0 c0 rts 0/0/0 0 7 7 16 -> ok
@13 p0 c1 rts 1/0/0 0 7 7 16 -> ok
@14 p0 c0 store 0/0 0 ab -> ok
 stored 0/0 0 ab
@15 p0 c0 post 0/0/0 1 s write 0x100000000 0x00000001 0x00000001:0x100000000:1 -> posted -
@16 p0 request 0/256 pass
 local 0/256 0/0 0x00000001 read 0x100000000 1 read ab
 sent 0/256 1/256 0 0 0a30ffff000001008000000000000001000000000000000100000001ab000000
@17 p0 deliver 1/256 0
 arrived 1/256 0
 remote 1/256 1/0 0 0x00000001 write 0x100000000 1 wrote ab
@18 p0 respond 1/256 pass
 sent 1/256 0/256 0 - 1100ffff00000100000000001f000001
@19 p0 deliver 0/256 0
 arrived 0/256 0
 done 0/256 send 0 1 write success 0 - - -
end 20
";

/// Traces that tell of no completions, so that no line says how many follow it.
const UNPOLLED: [&str; 2] = [FIRST, WRITE];

/// For each line of the first trace, the stamp of the entry that it shows to be complete.
const SHOWN: [Option<u64>; 11] = [
    None,
    Some(0),
    Some(1),
    Some(2),
    None,
    Some(3),
    Some(4),
    Some(5),
    None,
    None,
    Some(6),
];

/// Texts of histories.
const TEXTS: [&str; 6] = [
    FIRST,
    WRITE,
    "end 0\n",
    "@0 p0 wake 0/256\nend 1\n",
    "@0 p4294967295 c4294967295 poll 0/0/0 4 -> polled 2\n got 0/256 send 0 1 send success 0 - -\n got 0/256 recv 1 18446744073709551615 recv-imm success 4294967295 4294967295 0xffffffff\n arrived 0/256 -\n@1 p0 c0 wait 0/0/0 1 -> polled 1\n got 0/256 send 2 3 bind success 0 - -\nend 2\n",
    "@0 p0 c0 post 0/0/0 1 s fastreg 4 1 0 0xffa 5 lrwab 8,9,65535 -> polled 0\n done 0/256 send 0 1 fast-reg memory-management 0 - - region:bad-pages\nend 1\n",
];

/// Texts that are outside the grammar, with the number of the first line that is.
const REFUSED: [(&str, u32); 27] = [
    ("", 1),
    ("\n", 1),
    ("end 0", 1),
    ("end 1\n", 1),
    ("end 0\n\n", 2),
    ("end 0\nend 0\n", 2),
    ("end 0\nx", 2),
    ("\nend 0\n", 1),
    ("@0 p0 wake 0/256", 1),
    ("@0 p0 wake 0/256\n", 2),
    ("@0 p0 wake 0/256\nend 1", 2),
    ("@0 p0 wake 0/256\nend 0\n", 2),
    ("@0 p0 wake 0/256\nend 2\n", 2),
    ("@0 p0 wake 0/256\nend 1\n@1 p0 wake 0/256\n", 3),
    ("@1 p0 wake 0/256\nend 1\n", 1),
    ("@0 p0 wake 0/256\n@0 p0 wake 0/256\nend 2\n", 2),
    ("@0 p0 wake 0/256\n@2 p0 wake 0/256\nend 2\n", 2),
    ("@18446744073709551615 p0 wake 0/256\n", 1),
    (" arrived 0/256 -\nend 0\n", 1),
    ("@0 p0 wake 0/256\r\nend 1\n", 1),
    ("@0 p0 wake 0/256\n -> ok\nend 1\n", 2),
    (
        "@0 p0 wake 0/256\n got 0/256 send 0 1 send success 0 - -\nend 1\n",
        2,
    ),
    ("@0 p0 c0 poll 0/0/0 1 -> polled 1\nend 1\n", 2),
    (
        "@0 p0 c0 poll 0/0/0 1 -> polled 1\n arrived 0/256 -\nend 1\n",
        2,
    ),
    (
        "@0 p0 c0 poll 0/0/0 1 -> polled 1\n@1 p0 wake 0/256\nend 2\n",
        2,
    ),
    (
        "@0 p0 c0 poll 0/0/0 1 -> polled 0\n got 0/256 send 0 1 send success 0 - -\nend 1\n",
        2,
    ),
    ("@0 p0 c0 poll 0/0/0 1 -> polled 17\n", 1),
];

/// One change of a text at one byte.
#[derive(Clone, Copy)]
enum Edit {
    Another,
    Missing,
    Doubled,
    UpperCase,
    ZeroBefore,
    ReturnBefore,
    FeedBefore,
}

const EDITS: [Edit; 7] = [
    Edit::Another,
    Edit::Missing,
    Edit::Doubled,
    Edit::UpperCase,
    Edit::ZeroBefore,
    Edit::ReturnBefore,
    Edit::FeedBefore,
];

/// What stands at a place after an edit of this byte.
fn put(out: &mut Vec<u8>, byte: u8, edit: Edit) -> Result<(), Fail> {
    match edit {
        Edit::Another => out.push(byte ^ 1)?,
        Edit::Missing => {}
        Edit::Doubled => out.extend_from_slice(&[byte, byte])?,
        Edit::UpperCase => out.push(byte.to_ascii_uppercase())?,
        Edit::ZeroBefore => out.extend_from_slice(&[b'0', byte])?,
        Edit::ReturnBefore => out.extend_from_slice(&[b'\r', byte])?,
        Edit::FeedBefore => out.extend_from_slice(&[b'\n', byte])?,
    }
    Ok(())
}

/// A text with one byte edited.
fn edited(alloc: Global, text: &[u8], place: usize, edit: Edit) -> Result<Vec<u8>, Fail> {
    let mut out = Vec::new(alloc);
    for (i, byte) in text.iter().enumerate() {
        if i == place {
            put(&mut out, *byte, edit)?;
        } else {
            out.push(*byte)?;
        }
    }
    Ok(out)
}

/// A text with the word that begins at one place and the word behind the space at another exchanged.
fn exchanged(alloc: Global, text: &[u8], start: usize, space: usize) -> Result<Vec<u8>, Fail> {
    let mut out = Vec::new(alloc);
    let (Some(front), Some(word), Some(rest)) = (
        text.get(..start),
        text.get(start..space),
        text.get(space.saturating_add(1)..),
    ) else {
        return Ok(out);
    };
    let behind = rest.iter().position(|b| *b == b' ' || *b == b'\n');
    let (next, rest) = rest.split_at(behind.unwrap_or(0).min(rest.len()));
    out.extend_from_slice(front)?;
    out.extend_from_slice(next)?;
    out.push(b' ')?;
    out.extend_from_slice(word)?;
    out.extend_from_slice(rest)?;
    Ok(out)
}

fn refused_line(alloc: Global, text: &[u8]) -> u32 {
    match read(alloc, text) {
        Err(TraceError::Refused(line)) => line,
        _ => 0,
    }
}

/// The text of the history that a text is, or none.
fn printed_again(alloc: Global, text: &[u8]) -> Result<Vec<u8>, Fail> {
    let mut printed = Vec::new(alloc);
    if let Ok(history) = read(alloc, text) {
        print_history(&history, &mut printed)?;
    }
    Ok(printed)
}

/// A text is refused at one of these lines, or is that of another history.
fn is_refused_or_another<R: Abort + AllocGlobal>(
    rt: &R,
    text: &[u8],
    first: u32,
    last: u32,
) -> Result<(), Fail> {
    let refused = refused_line(rt.alloc(), text);
    if refused == 0 {
        let again = printed_again(rt.alloc(), text)?;
        assert!(rt; again.as_slice() == text, "line {first}");
    } else {
        assert!(rt;
            first <= refused && refused <= last,
            "line {first}: {refused}"
        );
    }
    Ok(())
}

/// A text with the byte at this place edited is refused at its line, or is that of another history, whichever edit it is. A
/// line feed that is added may leave a whole line before it, and then it is the next line.
fn is_edited_at<R: Abort + AllocGlobal>(
    rt: &R,
    text: &[u8],
    place: usize,
    line: u32,
    ends: bool,
) -> Result<(), Fail> {
    for edit in EDITS.as_slice() {
        let adds = matches!(edit, Edit::FeedBefore) || ends && matches!(edit, Edit::Doubled);
        let last = line.saturating_add(u32::from(adds));
        let text = edited(rt.alloc(), text, place, *edit)?;
        is_refused_or_another(rt, text.as_slice(), line, last)?;
    }
    Ok(())
}

#[test]
fn each_text_is_read_and_printed_again(rt: HostRuntime) -> Result<(), Fail> {
    for text in TEXTS.as_slice() {
        let again = printed_again(rt.alloc(), text.as_bytes())?;
        assert_eq!(rt;
            str::from_utf8(again.as_slice()).unwrap_or("no text"),
            *text
        );
    }
    Ok(())
}

#[test]
fn a_text_is_refused_at_its_first_line_outside(rt: HostRuntime) -> Result<(), Fail> {
    for (text, line) in REFUSED.as_slice() {
        assert_eq!(rt; refused_line(rt.alloc(), text.as_bytes()), *line, "{text}");
    }
    Ok(())
}

#[test]
fn an_edited_line_is_refused_there_or_says_something_else(rt: HostRuntime) -> Result<(), Fail> {
    for text in UNPOLLED.as_slice() {
        let mut line = 1u32;
        for (place, byte) in text.as_bytes().iter().enumerate() {
            let ends = *byte == b'\n';
            is_edited_at(&rt, text.as_bytes(), place, line, ends)?;
            line = line.saturating_add(u32::from(ends));
        }
    }
    Ok(())
}

#[test]
fn a_line_with_two_words_exchanged_is_refused_or_says_something_else(
    rt: HostRuntime,
) -> Result<(), Fail> {
    for text in UNPOLLED.as_slice() {
        let mut line = 1u32;
        let mut start = 0;
        for (place, byte) in text.as_bytes().iter().enumerate() {
            if *byte == b' ' {
                let other = exchanged(rt.alloc(), text.as_bytes(), start, place)?;
                is_refused_or_another(&rt, other.as_slice(), line, line)?;
            }
            if *byte == b' ' || *byte == b'\n' {
                start = place.saturating_add(1);
            }
            line = line.saturating_add(u32::from(*byte == b'\n'));
        }
    }
    Ok(())
}

fn stamp_shown(alloc: Global, reader: &mut TraceReader, line: &str) -> Result<Option<u64>, u32> {
    match reader.line(alloc, line.as_bytes()) {
        Ok(Some(entry)) => Ok(Some(entry.stamp)),
        Ok(None) => Ok(None),
        Err(TraceError::Refused(line)) => Err(line),
        Err(TraceError::Memory) => Err(0),
    }
}

#[test]
fn a_line_shows_the_entry_before_it(rt: HostRuntime) -> Result<(), Fail> {
    let mut reader = TraceReader::start();
    for (line, shown) in FIRST.lines().zip(SHOWN.as_slice()) {
        assert!(rt; reader.finish().is_err(), "{line}");
        assert_eq!(rt; stamp_shown(rt.alloc(), &mut reader, line), Ok(*shown));
    }
    assert!(rt; reader.finish().is_ok(), "the end");
    assert_eq!(rt; stamp_shown(rt.alloc(), &mut reader, "end 7"), Err(12));
    assert_eq!(rt;
        stamp_shown(rt.alloc(), &mut reader, "@7 p0 wake 0/256"),
        Err(12)
    );
    assert!(rt; reader.finish().is_err(), "a line behind the end");
    Ok(())
}
