//! Bytes are a text, or are refused at one line.
ghost use Rattle.dcx_cert_text.specs.Laws.{TextsAreNotRefused, LinesAreOne, FrontsGoOn};

/// The bytes of a certificate are refused for want of memory alone.
pub fn texts_are_not_refused()
    ensures { TextsAreNotRefused }
{}

/// Bytes are refused at one line.
pub fn lines_are_one()
    ensures { LinesAreOne }
{}

/// Bytes that are refused at a line agree with a certificate up to each line before it, and with none up to that line or
/// any behind it.
pub fn fronts_go_on()
    ensures { FrontsGoOn }
{}
