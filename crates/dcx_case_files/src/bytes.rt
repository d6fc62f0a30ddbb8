//! The lines by which a case gives bytes.

use crate::made::{after, in_io};
use std::alloc::{AllocError, Global};
use std::rt::Files;
use std::{fs, io};

/// What most scripts begin with.
const IMPORTS: &[u8] = b"import cvxpy as cp\nimport numpy as np\n";

/// The value of a hexadecimal digit.
fn digit(byte: u8) -> Option<u8> {
    match byte {
        b'0'..=b'9' => Some(byte - b'0'),
        b'a'..=b'f' => Some(byte - b'a' + 10),
        _ => None,
    }
}

/// Where the reading of a text with escapes stands.
#[derive(Clone, Copy)]
enum Escape {
    /// Behind what is whole.
    Whole,
    /// Behind a backslash.
    Begun,
    /// Behind a backslash and an `x`.
    Hex,
    /// Behind these and the first digit, of this value.
    Half(u8),
    /// Behind a backslash that stands for nothing.
    Wrong,
}

/// Where the reading stands behind a byte more, and the byte that is whole then.
fn step(escape: Escape, byte: u8) -> (Escape, Option<u8>) {
    match escape {
        Escape::Whole => match byte {
            b'\\' => (Escape::Begun, None),
            _ => (Escape::Whole, Some(byte)),
        },
        Escape::Begun => match byte {
            b'n' => (Escape::Whole, Some(b'\n')),
            b'r' => (Escape::Whole, Some(b'\r')),
            b't' => (Escape::Whole, Some(b'\t')),
            b'\\' => (Escape::Whole, Some(b'\\')),
            b'x' => (Escape::Hex, None),
            _ => (Escape::Wrong, None),
        },
        Escape::Hex => match digit(byte) {
            Some(high) => (Escape::Half(high), None),
            None => (Escape::Wrong, None),
        },
        Escape::Half(high) => match digit(byte) {
            Some(low) => (Escape::Whole, Some(high.wrapping_mul(16) | low)),
            None => (Escape::Wrong, None),
        },
        Escape::Wrong => (Escape::Wrong, None),
    }
}

/// Adds what a text with `\n`, `\r`, `\t`, `\\` and `\x0f` stands for. Answers false where a backslash stands for nothing.
pub(crate) fn push_escaped(bytes: &mut Vec<u8>, text: &str) -> Result<bool, AllocError> {
    let mut escape = Escape::Whole;
    for byte in text.as_bytes() {
        let (next, whole) = step(escape, *byte);
        if let Some(whole) = whole {
            bytes.push(whole)?;
        }
        escape = next;
    }
    Ok(matches!(escape, Escape::Whole))
}

/// Adds bytes so many times.
fn push_times(bytes: &mut Vec<u8>, part: &[u8], times: u32) -> Result<bool, AllocError> {
    for _ in 0..times {
        bytes.extend_from_slice(part)?;
    }
    Ok(true)
}

/// Adds what a text stands for so many times. Answers false where a backslash in it stands for nothing.
fn push_escaped_times(
    alloc: Global,
    bytes: &mut Vec<u8>,
    text: &str,
    times: u32,
) -> Result<bool, AllocError> {
    let mut once = Vec::new(alloc);
    match push_escaped(&mut once, text) {
        Ok(true) => push_times(bytes, &once, times),
        not_read => not_read,
    }
}

/// Adds a text so many times, as `64 (` says. Answers false where the text says something else.
fn push_repeated(alloc: Global, bytes: &mut Vec<u8>, text: &str) -> Result<bool, AllocError> {
    let Some((times, part)) = text.split_once(' ') else {
        return Ok(false);
    };
    match times.parse::<u32>() {
        Ok(times) => push_escaped_times(alloc, bytes, part, times),
        Err(_) => Ok(false),
    }
}

/// Adds bytes.
fn push_bytes(bytes: &mut Vec<u8>, part: &[u8]) -> Result<bool, AllocError> {
    bytes.extend_from_slice(part)?;
    Ok(true)
}

/// Adds a text and a line end.
fn push_text(bytes: &mut Vec<u8>, text: &str) -> Result<bool, AllocError> {
    bytes.extend_from_slice(text.as_bytes())?;
    push_bytes(bytes, b"\n")
}

/// Adds the bytes of a file.
fn push_file(rt: &(impl Files + AllocGlobal), bytes: &mut Vec<u8>, name: &str) -> io::Result<bool> {
    let file = fs::read(rt, name)?;
    in_io(push_bytes(bytes, &file))
}

/// Adds what the text behind a mark gives. Answers false where there is no such mark.
fn push_marked(alloc: Global, bytes: &mut Vec<u8>, line: &str) -> Result<bool, AllocError> {
    match line.split_once(' ') {
        Some(("|", text)) => push_text(bytes, text),
        Some(("%", text)) => push_escaped(bytes, text),
        Some(("*", text)) => push_repeated(alloc, bytes, text),
        _ => Ok(false),
    }
}

/// Adds what a line gives that names no file. Answers false where it is no such line.
fn push_plain(alloc: Global, bytes: &mut Vec<u8>, line: &str) -> Result<bool, AllocError> {
    match line {
        "imports" => push_bytes(bytes, IMPORTS),
        "|" => push_text(bytes, ""),
        _ => push_marked(alloc, bytes, line),
    }
}

/// Adds what a line of a body gives. Answers false where it is no such line.
///
/// `| text` is a line, `% text` is text with escapes and no line end, `* N text` the same N times, `< NAME` the bytes of
/// a file of the folder, and `imports` what most scripts begin with.
pub(crate) fn push_line(
    rt: &(impl Files + AllocGlobal),
    bytes: &mut Vec<u8>,
    line: &str,
) -> io::Result<bool> {
    match line.strip_prefix("< ") {
        Some(name) => push_file(rt, bytes, name),
        None => in_io(push_plain(rt.alloc(), bytes, line)),
    }
}

/// Adds texts.
fn push_texts(bytes: &mut Vec<u8>, texts: &[&str]) -> Result<(), AllocError> {
    for text in texts {
        bytes.extend_from_slice(text.as_bytes())?;
    }
    Ok(())
}

/// The bytes of texts, one behind the other.
pub(crate) fn joined(alloc: Global, texts: &[&str]) -> Result<Vec<u8>, AllocError> {
    let mut bytes = Vec::new(alloc);
    let pushed = push_texts(&mut bytes, texts);
    after(pushed, bytes)
}
