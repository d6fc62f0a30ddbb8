//! How the program ends.
use dcx_report::Run;

/// How the program ends.
#[derive(Drop)]
pub struct Ended {
    /// The exit status: 0 where the problem was accepted, each setting answered, or each section of a certificate holds; 1 where the
    /// script, the settings file or the file of a certificate was refused; 2 where the words are no plain form; 3 where a file could
    /// not be fetched; 4 where a write failed; 5 for want of memory, also where a write failed besides; 6 where a setting stopped;
    /// 7 where a certificate was refused.
    pub status: u8,
    /// What the report tells.
    pub run: Run,
}
