//! Why a text is not read.

use dcx_shape::Place;
use std::alloc::{AllocError, AllocFailed};
use thiserror::Error;

/// Why a text is not read, with the place where that shows.
#[derive(Clone, Copy, Debug, Error)]
pub enum ReadFault {
    /// The bytes are not UTF-8; the first byte that is not.
    #[error("the text is not UTF-8")]
    NotText(Place),
    /// A character begins no token.
    #[error("a character begins no token")]
    BadChar(Place),
    /// A number is malformed, or too long, or beyond 128 bits; its first byte.
    #[error("a number is malformed or too large")]
    BadNumber(Place),
    /// A bracket is open at the end of the text, or a text at the end of its line; the opener.
    #[error("a bracket or a text is not closed")]
    Unclosed(Place),
    /// An indentation is not one that stands, or has a tab; the first token of the line.
    #[error("an indentation is not one that stands")]
    Indent(Place),
    /// The tokens up to this one begin no text of the grammar.
    #[error("a token is unexpected")]
    Unexpected(Place),
    /// More than 64 brackets and indentations are open; the bracket, or the first token of the line that is indented.
    #[error("brackets and blocks are too deep")]
    TooDeep(Place),
    /// The file has more bytes than it may, at 1:1; or more settings, at the first token of the first that is too many.
    #[error("the text is too long")]
    TooLong(Place),
    /// No memory for what was read.
    #[error("out of memory")]
    Memory,
}

impl From<AllocError> for ReadFault {
    ghost use Rattle.std.specs.Prelude.{◌≡◌};
    ghost use Rattle.dcx_tokens.specs.declared.fault.ReadFault.TheVariants.{Memory};

    ghost from_gives = { λ _ e. e ≡ Memory };

    fn from(_e: AllocError) -> ReadFault {
        ReadFault::Memory
    }
}

impl<T: Drop> From<AllocFailed<T>> for ReadFault {
    ghost use Rattle.std.specs.Prelude.{◌≡◌};
    ghost use Rattle.dcx_tokens.specs.declared.fault.ReadFault.TheVariants.{Memory};

    ghost from_gives = { λ _ e. e ≡ Memory };

    fn from(_e: AllocFailed<T>) -> ReadFault {
        ReadFault::Memory
    }
}
