//! What stands in a text beside its tokens.
ghost use Rattle.dcx_token_laws.specs.Cut.{TextsAreCut};

/// A text is its tokens, each the longest that begins where it does, and between them blanks, comments and line ends.
/// Where it has a fault, this holds of what comes before it.
pub fn texts_are_cut()
    ensures { TextsAreCut }
{}
