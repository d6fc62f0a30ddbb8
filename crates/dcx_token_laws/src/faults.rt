//! What the fault of a text says of it, at its place.
ghost use Rattle.dcx_token_laws.specs.Faults.{BadCharsBeginNothing, BadNumbersAreNone, IndentsDoNotFollow, TooDeepAreAbove64, UnclosedAreOpen};

/// At the place of a bad character no token is spelled, and nothing that stands between tokens; it begins no number and
/// opens no text.
pub fn bad_chars()
    ensures { BadCharsBeginNothing }
{}

/// At the place of a bad number a digit stands, or a point with one behind it, and what is spelled there as a number has a
/// name character or a point right behind it. A line that begins there follows the lines before: no tab leads it, and the
/// innermost block has its depth.
pub fn bad_numbers()
    ensures { BadNumbersAreNone }
{}

/// What isn't closed is a quote with which no text is spelled; or the text has no characters more, and it is the innermost
/// bracket that is left open. A line that begins with the quote follows the lines before.
pub fn unclosed()
    ensures { UnclosedAreOpen }
{}

/// An indentation that is refused stands where a token begins, outside brackets: there is a tab in it, or none of the marks
/// of lines leads from the blocks that are open to a line of this depth.
pub fn indents()
    ensures { IndentsDoNotFollow }
{}

/// Where something is too deep, 64 brackets and blocks are open, and one more opens: a bracket, or the block of a line that
/// is deeper than all of them. A line that begins with the bracket follows the lines before.
pub fn too_deep()
    ensures { TooDeepAreAbove64 }
{}
