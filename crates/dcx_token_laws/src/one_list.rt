//! No list but that of its tokens is what the other laws say of a text.
ghost use Rattle.dcx_token_laws.specs.OneList.{LawsLeaveOne};

/// A text without a fault is cut into one list of tokens that are those of lines: with one left out, added or changed, a law
/// would not hold.
pub fn laws_leave_one()
    ensures { LawsLeaveOne }
{}
