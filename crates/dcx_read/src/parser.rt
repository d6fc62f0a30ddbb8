//! Parsing tokens, and reading a whole script.
ghost use Rattle.std.specs.Prelude.{◌≡◌, ◌-◌, length, drop};
ghost use Rattle.dcx_read.specs.Parses.{ReadsScript, stop_fault, Parses, IsReading, first_place};

use crate::front::Stop;
use crate::statement::lines;
use dcx_shape::Place;
use dcx_syntax::Script;
use dcx_tokens::{ReadFault, Token, end_place, read_text, tokens};
use std::alloc::Global;

/// The place of the first of the last `left` tokens, or the end where there is none.
fn place_of(tokens: &[Token], left: usize, end: Place) -> Place
    ensures { result ≡ first_place (drop (length tokens.now - left) tokens.now) end }
{
    let (_, rest) = tokens.split_at(tokens.len().saturating_sub(left));
    match rest {
        [] => end,
        [head, ..] => head.place,
    }
}

/// The script that the tokens of a text spell, all of them.
fn script<'a>(alloc: Global, text: &[u8], tokens: &'a [Token]) -> Result<Script, Stop<'a>>
    ensures { ReadsScript text.now tokens.now result }
{
    let (all, rest) = lines(alloc, text, tokens)?;
    match rest {
        [] => Ok(Script { lines: all }),
        [_, ..] => Err(Stop::At(rest)),
    }
}

/// The fault that a stop is, among these tokens and the end of their text.
fn fault_of(stop: Stop, tokens: &[Token], end: Place) -> ReadFault
    ensures { result ≡ stop_fault stop.entry tokens.now end }
{
    match stop {
        Stop::Memory => ReadFault::Memory,
        Stop::At(rest) => ReadFault::Unexpected(place_of(tokens, rest.len(), end)),
    }
}

/// The script that the tokens of a text spell, where the text ends at `end`.
///
/// An `Err` is `Unexpected` with the place of the first token such that no script begins with the tokens up to it, which
/// is `end` where there are too few; or `Memory` where there was none.
fn parse_tokens(
    alloc: Global,
    text: &[u8],
    tokens: &[Token],
    end: Place,
) -> Result<Script, ReadFault>
    ensures { Parses text.now tokens.now end result }
{
    match script(alloc, text, tokens) {
        Ok(found) => Ok(found),
        Err(stop) => Err(fault_of(stop, tokens, end)),
    }
}

/// The script that a file of these bytes is.
///
/// An `Err` is, in this order: `TooLong` at 1:1 for more than 1,048,576 bytes; `NotText` at the first byte that is not
/// UTF-8; the first fault of a token, with its place; `Unexpected` at the first token such that no script begins with the
/// tokens up to it, or at the end of the text. `Memory` says that there was none.
pub fn parse(alloc: Global, bytes: &[u8]) -> Result<Script, ReadFault>
    ensures { IsReading bytes.now result }
{
    let text = read_text(bytes)?;
    let all = tokens(alloc, text)?;
    parse_tokens(alloc, bytes, all.as_slice(), end_place(text))
}
