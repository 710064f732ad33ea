use crate::guide::GUIDE;
use crate::rows::ROWS;
use ca_base::limits::MAX_SCRIPT_BYTES;
use ca_script::{Script, ScriptError, read_script};
use std::alloc::{AllocError, Global};
use std::process::Abort;
use std::test::Fail;

/// What the reader says of a script, as a text.
fn said(alloc: Global, read: &Result<Script, ScriptError>) -> Result<String, AllocError> {
    match read {
        Ok(_) => format!(in alloc; "ok"),
        Err(ScriptError::Refused { line, cause }) => format!(in alloc; "{line} {cause}"),
        Err(ScriptError::Memory) => format!(in alloc; "memory"),
    }
}

/// The reader says this of a script.
fn says<R: Abort + AllocGlobal>(rt: &R, want: &str, script: &[u8]) -> Result<(), Fail> {
    let got = said(rt.alloc(), &read_script(rt.alloc(), script))?;
    assert_eq!(rt; got.as_str(), want, "what is said of a script");
    Ok(())
}

/// The bytes of a script in which a `|` is a line feed.
fn script_of(alloc: Global, text: &str) -> Result<Vec<u8>, AllocError> {
    let mut bytes = Vec::new(alloc);
    for c in text.as_bytes() {
        bytes.push(if *c == b'|' { b'\n' } else { *c })?;
    }
    Ok(bytes)
}

/// The reader says of a row's script what stands before it.
fn row_is_said<R: Abort + AllocGlobal>(rt: &R, row: &str) -> Result<(), Fail> {
    if let Some((want, text)) = row.split_once(": ") {
        let script = script_of(rt.alloc(), text)?;
        says(rt, want, script.as_slice())?;
    }
    Ok(())
}

#[test]
fn scripts_are_read_or_refused_as_another_program_says(rt: HostRuntime) -> Result<(), Fail> {
    for row in ROWS.lines() {
        row_is_said(&rt, row)?;
    }
    Ok(())
}

#[test]
fn bytes_that_are_no_text_are_refused_also_in_comments(rt: HostRuntime) -> Result<(), Fail> {
    says(&rt, "1 not text", b"#\x7f\n".as_slice())?;
    says(&rt, "2 not text", b"\n#\x1f".as_slice())?;
    says(&rt, "1 not text", b"c0 pd 0/0\r\n".as_slice())?;
    says(&rt, "1 not text", b"\t\n".as_slice())?;
    says(&rt, "1 not text", b"x\xc3\n".as_slice())?;
    says(&rt, "ok", b"# ~ !\n".as_slice())
}

/// A comment and a line feed, and so many line feeds behind it.
fn long_script(alloc: Global, bytes: usize) -> Result<Vec<u8>, AllocError> {
    let mut script = vec![in alloc; b' '; bytes]?;
    if let Some(first) = script.as_mut_slice().first_mut() {
        *first = b'#';
    }
    Ok(script)
}

#[test]
fn a_script_has_at_most_1048576_bytes(rt: HostRuntime) -> Result<(), Fail> {
    let most = long_script(rt.alloc(), MAX_SCRIPT_BYTES)?;
    says(&rt, "ok", most.as_slice())?;
    let more = long_script(rt.alloc(), MAX_SCRIPT_BYTES + 1)?;
    says(&rt, "1 too large", more.as_slice())?;
    let less = long_script(rt.alloc(), MAX_SCRIPT_BYTES - 1)?;
    says(&rt, "ok", less.as_slice())
}

/// The examples of docs/SCRIPTS.md are read.
#[test]
fn the_examples_of_the_guide_are_scripts(rt: HostRuntime) -> Result<(), Fail> {
    for example in GUIDE.split("~") {
        says(&rt, "ok", example.as_bytes())?;
    }
    Ok(())
}
