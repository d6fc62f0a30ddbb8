//! The tokens of a text: names, keywords, numbers, texts and signs, and what Python's indentation adds.
//!
//! `read_text` gives the text that the bytes of a file are. A text is read from left to right, each character once:
//! `tokens` gives all its tokens or the first fault, `lexed` the tokens in front of the first fault too, and `end_place`
//! where the end of a text stands. What they give is defined without the code, and each call is exact against its
//! definition; want of memory alone is free.
//!
//! | what must hold | where |
//! |---|---|
//! | which bytes are the text of a file; the place of the first byte that is not UTF-8 | `specs/File.antt`; `read_text` |
//! | what stands at the front of a text: a line end, blanks, a comment, or the longest token that fits | `specs/Front.antt`, `specs/Lexeme.antt` |
//! | which words are keywords | `specs/Word.antt` |
//! | how a number is spelled, its limits, and its exact value as a rational | `specs/Number.antt` |
//! | where a text between quotes ends | `specs/Quoted.antt` |
//! | lines and columns; where the end of a text stands | `specs/Position.antt`; `end_place` |
//! | when a line ends, an indentation begins or ends, a bracket opens or closes, and which fault comes first | `specs/Layout.antt`, `specs/State.antt` |
//! | the tokens of a whole text, up to its end or to the first fault | `specs/Reading.antt`; `lexed`, `tokens` |
//! | bytes are a text, or none for one reason; a text has one list of tokens, and a first fault of tokens if any | `specs/Laws.antt`; `laws` |
//! | the spans stand in order inside the text; never more than 64 brackets and indentations are open, and without a fault all are closed | `specs/Laws.antt`; `laws` |
#![tactic(auto)]

mod fault;
mod file;
mod front;
pub mod laws;
mod layout;
mod lexeme;
mod list;
mod number;
mod position;
mod quoted;
mod read;
mod reader;
mod token;
mod word;

pub use fault::ReadFault;
pub use file::read_text;
pub use list::{Lexed, Tokens};
pub use read::{end_place, lexed, tokens};
pub use token::{Keyword, Symbol, Token, TokenKind};
