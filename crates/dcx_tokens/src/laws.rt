//! Laws above the definitions of `specs/`. There is no code: each clause is a statement about all texts.
ghost use Rattle.dcx_tokens.specs.Laws.{HasFaultsOfTokens, HasOneReading, HasOneText, HasSpans, NestsTokens};

/// The bytes of a file are a text, or none for one reason.
pub fn texts()
    ensures { HasOneText }
{}

/// A text has one list of tokens, and at most one first fault.
pub fn readings()
    ensures { HasOneReading }
{}

/// The first fault of a text is one of its tokens: a character, a number, an open text or bracket, an indentation, or too
/// many open at once.
pub fn faults()
    ensures { HasFaultsOfTokens }
{}

/// The spans of a text's tokens stand in order and inside it. Each has bytes, but for an indentation, its end, and the
/// line end that is supplied.
pub fn spans()
    ensures { HasSpans }
{}

/// No more than 64 brackets and indentations are ever open together. Without a fault each bracket is closed, and each
/// indentation has its end.
pub fn nesting()
    ensures { NestsTokens }
{}
