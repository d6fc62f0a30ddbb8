//! What lines make of tokens.
ghost use Rattle.dcx_token_laws.specs.Lines.{TextsAreLines};

/// The tokens of a text without a fault are those of lines, with the indentations that their first columns make. A line
/// ends with its row of the text, unless a bracket is open there.
pub fn texts_are_lines()
    ensures { TextsAreLines }
{}
