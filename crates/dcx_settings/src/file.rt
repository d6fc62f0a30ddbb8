//! Reading the settings of a file.
ghost use Rattle.std.specs.Prelude.{◌≡◌, ◌<◌, ◌≤◌, ◌-◌, ◌^◌, ◌↔◌, List, length, take, IsTrue, None, Err, MatchOption};
ghost use Rattle.dcx_settings.specs.Terminal.{terminals};
ghost use Rattle.dcx_settings.specs.Grammar.{Line, settings_text};
ghost use Rattle.dcx_settings.specs.Reading.{StopsUnexpected};
ghost use Rattle.dcx_settings.specs.File.{place_at, BeginsDividedByZero, NeverDividesByZero, FirstDividesByZero, HasFault, behind_line, IsTokensReading, IsSettingsReading};

use crate::read::read_tokens;
use crate::role::{Mark, eat, eat_digits};
use crate::settings::Settings;
use crate::stop::Stop;
use dcx_shape::Place;
use dcx_tokens::{Lexed, ReadFault, Token, end_place, lexed, read_text};
use std::alloc::Global;

/// The most settings of a file.
const MOST_SETTINGS: usize = 1_000;

/// The place of a token by its index, or of the end of the text behind all tokens.
fn place_at(text: &str, tokens: &[Token], index: usize) -> Place
    requires { length text.now < 2 ^ 32 - 1 }
    ensures { result ≡ place_at text.now tokens.now index }
{
    match tokens.get(index) {
        Some(token) => token.place,
        None => end_place(text),
    }
}

/// Whether the tokens begin with digits that are divided by 0.
fn divides_by_zero(text: &[u8], tokens: &[Token]) -> bool
    ensures { IsTrue result ↔ BeginsDividedByZero (terminals text.now tokens.now) }
{
    let Some((_, behind)) = eat_digits(text, tokens) else {
        return false;
    };
    let Some(rest) = eat(text, behind, Mark::Slash) else {
        return false;
    };
    match eat_digits(text, rest) {
        Some((divisor, _)) => divisor.num() == 0,
        None => false,
    }
}

/// The index of the first token from which on digits are divided by 0.
fn first_division_by_zero(text: &[u8], tokens: &[Token]) -> Option<usize>
    ensures { MatchOption result (NeverDividesByZero (terminals text.now tokens.now)) (FirstDividesByZero (terminals text.now tokens.now)) }
{
    for i in 0..tokens.len() {
        if divides_by_zero(text, &tokens[i..]) {
            return Some(i);
        }
    }
    None
}

/// The first fault of the tokens: digits that are divided by 0, or the fault where the tokens end.
fn first_fault(text: &str, lexed: &Lexed) -> Option<ReadFault>
    requires { length text.now < 2 ^ 32 - 1 }
    ensures { MatchOption result ((lexed.now.fault ≡ None) × NeverDividesByZero (terminals text.now lexed.now.tokens)) (HasFault text.now lexed.now.tokens lexed.now.fault) }
{
    let tokens = lexed.tokens.as_slice();
    match first_division_by_zero(text.as_bytes(), tokens) {
        Some(index) => Some(ReadFault::BadNumber(place_at(text, tokens, index))),
        None => lexed.fault,
    }
}

/// The tokens behind the first line end.
fn behind_line<'a>(text: &[u8], tokens: &'a [Token]) -> &'a [Token]
    ensures rest { terminals text.now result.now ≡ behind_line (terminals text.now tokens.now) }
    ensures within { length result.now ≤ length tokens.now }
{
    let mut rest = tokens;
    while let [_, behind @ ..] = rest {
        if eat(text, rest, Mark::Newline).is_some() {
            return behind;
        }
        rest = behind;
    }
    rest
}

/// The index of the first token behind so many lines.
fn behind_lines(text: &[u8], tokens: &[Token], count: usize) -> usize
    ensures { (lines : List Line) → settings_text lines ≡ terminals text.now tokens.now → result ≡ length (settings_text (take count lines)) }
{
    let mut rest = tokens;
    for _ in 0..count {
        rest = behind_line(text, rest);
    }
    tokens.len() - rest.len()
}

/// Why reading the tokens of a text stopped.
fn fault_of_stop(text: &str, tokens: &[Token], stop: Stop<'_>) -> ReadFault
    requires short { length text.now < 2 ^ 32 - 1 }
    requires stops { StopsUnexpected text.now (terminals text.now tokens.now) stop }
    ensures { IsTokensReading text.now tokens.now (Err result) }
{
    match stop {
        Stop::Memory => ReadFault::Memory,
        Stop::At(rest) => {
            ReadFault::Unexpected(place_at(text, tokens, tokens.len() - rest.len()))
        }
    }
}

/// The settings that the tokens of a text spell, where they are not too many.
fn settings_of(alloc: Global, text: &str, tokens: &[Token]) -> Result<Settings, ReadFault>
    requires { length text.now < 2 ^ 32 - 1 }
    ensures { IsTokensReading text.now tokens.now result }
{
    let bytes = text.as_bytes();
    match read_tokens(alloc, bytes, tokens) {
        Ok(settings) => {
            if settings.as_slice().len() <= MOST_SETTINGS {
                return Ok(settings);
            }
            let index = behind_lines(bytes, tokens, MOST_SETTINGS);
            Err(ReadFault::TooLong(place_at(text, tokens, index)))
        }
        Err(stop) => Err(fault_of_stop(text, tokens, stop)),
    }
}

/// The settings that the bytes of a file spell: one for each line that has a token, 1,000 at most.
///
/// An `Err` is the first of: `TooLong` at 1:1 where there are more than 1,048,576 bytes; `NotText` at the first byte that
/// is not UTF-8; the first of `BadChar`, `BadNumber`, `Unclosed`, `Indent` and `TooDeep` that a reading from left to right
/// meets, where digits, `/` and digits of value 0 are `BadNumber` at the first of them, met at the last; `Unexpected` at
/// the first token that no settings go on with; `TooLong` at the first byte of the 1,001st setting. It is `Memory` where
/// there was none.
pub fn parse_settings(alloc: Global, bytes: &[u8]) -> Result<Settings, ReadFault>
    ensures { IsSettingsReading bytes.now result }
{
    let text = read_text(bytes)?;
    let lexed = lexed(alloc, text)?;
    match first_fault(text, &lexed) {
        Some(fault) => Err(fault),
        None => settings_of(alloc, text, lexed.tokens.as_slice()),
    }
}
