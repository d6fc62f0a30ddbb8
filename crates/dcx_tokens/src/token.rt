//! What a token is.

use dcx_frac::Frac;
use dcx_shape::Place;

/// The words that no name may be: those of Python, and `print`.
#[derive(Clone, Copy, Debug, PartialEq, Eq)]
pub enum Keyword {
    Import,
    As,
    For,
    In,
    True,
    False,
    None,
    Print,
    /// Another keyword of Python, which no rule of the grammar takes.
    Other,
}

/// The signs.
#[derive(Clone, Copy, Debug, PartialEq, Eq)]
pub enum Symbol {
    Plus,
    Minus,
    Star,
    Slash,
    At,
    Percent,
    StarStar,
    SlashSlash,
    Less,
    Greater,
    LessEqual,
    GreaterEqual,
    EqualEqual,
    NotEqual,
    Equal,
    PlusEqual,
    MinusEqual,
    StarEqual,
    SlashEqual,
    OpenRound,
    CloseRound,
    OpenSquare,
    CloseSquare,
    OpenCurly,
    CloseCurly,
    Comma,
    Colon,
    Dot,
    Semicolon,
}

/// What a token is. What a name or a text says is the slice of its span.
#[derive(Clone, Copy, PartialEq, Eq)]
pub enum TokenKind {
    Name,
    Keyword(Keyword),
    /// A number, with its exact value.
    Number(Frac),
    /// A text between quotes, which its span includes.
    Text,
    Sign(Symbol),
    /// The end of a line that has a token. Its span is the line end's, empty at the end of the text where it is supplied.
    Newline,
    /// A deeper indentation, before the first token of its line. Its span is empty.
    Indent,
    /// The end of an indentation, before the first token of a line or at the end of the text. Its span is empty.
    Dedent,
}

/// A token: what it is, its span of bytes from `start` on and before `end`, and the place of its first byte.
///
/// An indentation has the place of the first token of its line, and so has its end; at the end of the text the place
/// is the first column of the line behind the last.
#[derive(Clone, Copy)]
pub struct Token {
    pub kind: TokenKind,
    pub start: u32,
    pub end: u32,
    pub place: Place,
}
