//! Reading a whole text.
ghost use Rattle.std.specs.Prelude.{◌≡◌, ◌<◌, ◌-◌, ◌^◌, ◌↔◌, length, IfOk, IsTrue};
ghost use Rattle.std.specs.Str.{chars};
ghost use Rattle.dcx_tokens.specs.Position.{end_of, position_behind, IsInText};
ghost use Rattle.dcx_tokens.specs.State.{start};
ghost use Rattle.dcx_tokens.specs.View.{state_of, HasRoom, IsBefore};
ghost use Rattle.dcx_tokens.specs.Reading.{Reads, IsLexed};
ghost use Rattle.dcx_tokens.specs.Lexed.{Lexes};

use crate::fault::ReadFault;
use crate::list::{Lexed, Tokens};
use crate::position::{Position, behind, behind_last_line, start_of_text};
use crate::reader::{Line, Reader};
use dcx_shape::Place;
use std::alloc::{AllocError, Global};

/// The characters of a text.
fn characters(alloc: Global, text: &str) -> Result<Vec<char>, AllocError>
    ensures { IfOk result (λ v. v.items ≡ chars text.now) }
{
    text.chars().collect(alloc)
}

/// Nothing is read yet.
fn unread(alloc: Global) -> Reader
    ensures { state_of result ≡ start }
{
    Reader {
        tokens: Vec::new(alloc),
        indents: Vec::new(alloc),
        brackets: Vec::new(alloc),
        line: Line::Lead {
            spaces: 0,
            has_tab: false,
        },
        at: start_of_text(),
    }
}

/// Whether it is memory that there was none of.
fn is_memory(fault: ReadFault) -> bool
    ensures { IsTrue result ↔ (fault ≡ ReadFault.Memory) }
{
    match fault {
        ReadFault::Memory => true,
        _ => false,
    }
}

/// Reads these characters, up to the end or to the first fault.
fn read_all(reader: &mut Reader, chars: &[char]) -> Result<Option<ReadFault>, AllocError>
    requires within { IsInText reader.old.at }
    requires before { IsBefore reader.old chars.now }
    requires room { HasRoom reader.old }
    ensures { IfOk result (λ fault. Reads (state_of reader.old) chars.now reader.new.tokens.items fault) }
{
    let mut rest = chars;
    while let [c, after @ ..] = rest {
        match reader.step(*c, after, rest) {
            Ok(count) => {
                let (_, behind) = rest.split_at(count);
                rest = behind;
            }
            Err(fault) => {
                if is_memory(fault) {
                    return Err(AllocError);
                }
                return Ok(Some(fault));
            }
        }
    }
    match reader.finish() {
        Ok(()) => Ok(None),
        Err(fault) => {
            if is_memory(fault) {
                return Err(AllocError);
            }
            Ok(Some(fault))
        }
    }
}

/// The tokens of a text in their order, up to its end or to the first fault that a reading from left to right meets:
/// `BadChar`, `BadNumber`, `Unclosed`, `Indent` or `TooDeep`, with its place. The text has fewer than 2^32 - 1 bytes.
///
/// An `Err` says that there was no memory for them.
pub fn lexed(alloc: Global, text: &str) -> Result<Lexed, AllocError>
    requires { length text.now < 2 ^ 32 - 1 }
    ensures { IfOk result (λ l. IsLexed text.now l.tokens l.fault) }
{
    let chars = characters(alloc, text)?;
    let mut reader = unread(alloc);
    let fault = read_all(&mut reader, &chars)?;
    Ok(Lexed {
        tokens: Tokens::from_vec(reader.tokens),
        fault,
    })
}

/// The tokens of a text in their order. The text has fewer than 2^32 - 1 bytes.
///
/// An `Err` is the first fault that a reading from left to right meets, as `lexed` tells it, or `Memory` where there was
/// none.
pub fn tokens(alloc: Global, text: &str) -> Result<Tokens, ReadFault>
    requires { length text.now < 2 ^ 32 - 1 }
    ensures { Lexes text.now result }
{
    let lexed = lexed(alloc, text)?;
    match lexed.fault {
        None => Ok(lexed.tokens),
        Some(fault) => Err(fault),
    }
}

/// The position behind a whole text.
pub(crate) fn behind_text(text: &str) -> Position
    requires { length text.now < 2 ^ 32 - 1 }
    ensures value { result ≡ position_behind text.now }
    ensures within { IsInText result }
    ensures offset { result.offset ≡ length text.now }
{
    let mut at = start_of_text();
    for c in text.chars() {
        at = behind(at, c);
    }
    at
}

/// Where the end of a text stands: the first column of the line behind its last. The text has fewer than 2^32 - 1
/// bytes.
pub fn end_place(text: &str) -> Place
    requires { length text.now < 2 ^ 32 - 1 }
    ensures { result ≡ end_of text.now }
{
    behind_last_line(behind_text(text))
}
