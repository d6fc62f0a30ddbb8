//! A file, whichever of the two kinds it is of.

use crate::case::Entry;
use crate::list::list_entries;
use crate::page::page_entries;
use std::rt::Files;
use std::{fs, io};

/// The cases of a file, in its order: those of a page with examples where the name ends in `.md`, and else of a list. Where a
/// case names other files of the folder, they are read too. An error where the file, or one that it names by `<`, isn't read.
pub fn entries(rt: &(impl Files + AllocGlobal), name: &str) -> io::Result<Vec<Entry>> {
    let text = fs::read_to_string(rt, name)?;
    if name.ends_with(".md") {
        page_entries(rt, text.as_str())
    } else {
        list_entries(rt, text.as_str())
    }
}
