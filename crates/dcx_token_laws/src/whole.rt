//! What a text without a fault is.
ghost use Rattle.dcx_token_laws.specs.Fine.{FineTextsAreRead};

/// A text has no fault, and these are its tokens, exactly where it is cut into them, they are those of lines, at most 64
/// brackets and blocks are open together, and numbers end and lines begin as they must.
pub fn fine_texts()
    ensures { FineTextsAreRead }
{}
