//! Bytes as they are written in a line: `\n`, `\r`, `\t`, `\s` for a blank, `\b` for a backslash, `\xff` for a byte, and
//! `\(20:, 1\)` for a text so many times.
use crate::lines::{CaseFault, count};
use std::alloc::Global;

/// The bytes so far, and for each text that is repeated where it begins and how often it is to stand.
#[derive(Drop)]
struct Spelled {
    bytes: Vec<u8>,
    open: Vec<(usize, u32)>,
}

/// A digit of a byte.
fn digit(byte: u8) -> Result<u8, CaseFault> {
    match byte {
        b'0'..=b'9' => Ok(byte - b'0'),
        b'a'..=b'f' => Ok(byte - b'a' + 10),
        _ => Err(CaseFault::Unreadable),
    }
}

/// A byte of two digits.
fn byte_of(high: u8, low: u8) -> Result<u8, CaseFault> {
    Ok(digit(high)?.wrapping_mul(16).wrapping_add(digit(low)?))
}

/// Adds bytes.
fn put(bytes: &mut Vec<u8>, more: &[u8]) -> Result<(), CaseFault> {
    Ok(bytes.extend_from_slice(more)?)
}

/// Adds a text until it stands so many times, where it stands once.
fn repeat(bytes: &mut Vec<u8>, text: &[u8], count: u32) -> Result<(), CaseFault> {
    for _ in 1..count {
        bytes.extend_from_slice(text)?;
    }
    Ok(())
}

/// The byte that stands behind a backslash, and what follows it.
fn named_byte(piece: &[u8]) -> Result<(u8, &[u8]), CaseFault> {
    match *piece {
        [b'n', ref rest @ ..] => Ok((b'\n', rest)),
        [b'r', ref rest @ ..] => Ok((b'\r', rest)),
        [b't', ref rest @ ..] => Ok((b'\t', rest)),
        [b's', ref rest @ ..] => Ok((b' ', rest)),
        [b'b', ref rest @ ..] => Ok((b'\\', rest)),
        [b'x', high, low, ref rest @ ..] => Ok((byte_of(high, low)?, rest)),
        _ => Err(CaseFault::Unreadable),
    }
}

/// Adds the byte that stands behind a backslash, and what follows it.
fn put_named(bytes: &mut Vec<u8>, piece: &[u8]) -> Result<(), CaseFault> {
    let (byte, rest) = named_byte(piece)?;
    bytes.push(byte)?;
    put(bytes, rest)
}

impl Spelled {
    /// Begins a text that is repeated: the count, a colon, and its first bytes.
    fn begin(&mut self, text: &str) -> Result<(), CaseFault> {
        let Some((word, rest)) = text.split_once(':') else {
            return Err(CaseFault::Unreadable);
        };
        self.open.push((self.bytes.len(), count(word)?))?;
        put(&mut self.bytes, rest.as_bytes())
    }

    /// Ends the text that began last.
    fn end(&mut self, alloc: Global) -> Result<(), CaseFault> {
        let Some((from, count)) = self.open.pop() else {
            return Err(CaseFault::Unreadable);
        };
        match self.bytes.get(from..) {
            Some(text) => match text.to_vec(alloc) {
                Ok(text) => repeat(&mut self.bytes, &text, count),
                Err(_) => Err(CaseFault::Memory),
            },
            None => Err(CaseFault::Unreadable),
        }
    }

    /// Adds what stands behind a backslash.
    fn escaped(&mut self, alloc: Global, piece: &str) -> Result<(), CaseFault> {
        if let Some(text) = piece.strip_prefix('(') {
            return self.begin(text);
        }
        if let Some(rest) = piece.strip_prefix(')') {
            self.end(alloc)?;
            return put(&mut self.bytes, rest.as_bytes());
        }
        put_named(&mut self.bytes, piece.as_bytes())
    }

    /// Adds what a text spells.
    fn spell(&mut self, alloc: Global, text: &str) -> Result<(), CaseFault> {
        for (k, piece) in text.split('\\').enumerate() {
            if k == 0 {
                put(&mut self.bytes, piece.as_bytes())?;
            } else {
                self.escaped(alloc, piece)?;
            }
        }
        Ok(())
    }
}

/// The bytes that a text spells.
pub(crate) fn bytes_of(alloc: Global, text: &str) -> Result<Vec<u8>, CaseFault> {
    let mut spelled = Spelled {
        bytes: Vec::new(alloc),
        open: Vec::new(alloc),
    };
    match spelled.spell(alloc, text) {
        Ok(()) => Ok(spelled.bytes),
        Err(fault) => Err(fault),
    }
}
