//! A text is that of one certificate, and is read as it.
ghost use Rattle.dcx_cert_text.specs.Laws.{TextsAreOne, WrittenIsRead};

/// The bytes of a certificate for a problem are the text of no other: two that have one text have the same format and the
/// same sections, number for number.
pub fn texts_are_one()
    ensures { TextsAreOne }
{}

/// A certificate with the names, shapes, counts and order of a problem, in its format, is the one that its text is read as,
/// by any reading that gives the certificate that bytes are the text of, or the line or the want of memory for which they
/// are none.
pub fn written_is_read()
    ensures { WrittenIsRead }
{}
