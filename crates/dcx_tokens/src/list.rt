//! The tokens of a text, seen by contracts as a list.

use crate::fault::ReadFault;
use crate::token::Token;
use dcx_math::List;

/// A list of tokens, in the order of the text.
pub type Tokens = List<Token>;

/// The tokens of a text up to its end, or up to the first fault.
#[derive(Drop)]
pub struct Lexed {
    pub tokens: Tokens,
    pub fault: Option<ReadFault>,
}
