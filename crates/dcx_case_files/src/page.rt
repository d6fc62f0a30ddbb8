//! The examples of a page, which docs/CASES.md describes.

use crate::bytes::joined;
use crate::case::{Entry, put_case, put_unreadable, with_file};
use crate::count::Wanted;
use crate::given::Given;
use crate::made::{after, in_io};
use std::alloc::{AllocError, Global};
use std::rt::Files;
use std::{fs, io, mem};

/// A page, as far as it is read.
#[derive(Drop)]
struct Page {
    /// How many lines are read.
    line: usize,
    /// The last script that the page shows below its last heading.
    script: String,
    /// Whether no report of it has been shown.
    is_asked: bool,
    /// The lines of the open block.
    block: String,
    /// Whether a block is open.
    is_open: bool,
    /// Whether that is a script.
    is_script: bool,
    /// The cases before.
    entries: Vec<Entry>,
}

/// What a page shows, which states no status.
fn shown(alloc: Global, report: &[&str]) -> Result<Wanted, AllocError> {
    let report = joined(alloc, report)?;
    Ok(Wanted {
        status: None,
        report,
        goes_on: false,
    })
}

/// The code of a row's first cell, and the other cells.
fn first_cell(line: &str) -> Option<(&str, &str)> {
    line.strip_prefix("| `")?.split_once("` |")
}

/// What is refused of the code of a row, as one of these cells shows, and what follows it.
fn refusal_in(cells: &str) -> Option<(&str, &str)> {
    let (_, rest) = cells.split_once("`refused ")?;
    rest.split_once('`')
}

/// What these words are given of a script.
fn given_script(alloc: Global, words: &str, script: &[&str]) -> Result<Given, AllocError> {
    let given = Given::of(alloc, words);
    with_file(alloc, given, "model.py", joined(alloc, script))
}

/// Adds a check of a script.
fn put_check(
    alloc: Global,
    entries: &mut Vec<Entry>,
    line: usize,
    script: &[&str],
    report: &[&str],
) -> Result<(), AllocError> {
    let given = given_script(alloc, "check model.py", script);
    put_case(entries, line, given, shown(alloc, report))
}

/// Adds a script at the settings of a file that is refused.
fn put_settings(
    alloc: Global,
    entries: &mut Vec<Entry>,
    line: usize,
    texts: (&str, &str),
    report: &[&str],
) -> Result<(), AllocError> {
    let (script, settings) = texts;
    let given = given_script(alloc, "resolve model.py settings.txt", &[script]);
    let given = with_file(alloc, given, "settings.txt", joined(alloc, &[settings]));
    put_case(entries, line, given, shown(alloc, report))
}

/// Adds the case of a row: a check of its code behind the script, or the script at its code as a settings file.
fn put_row(
    alloc: Global,
    entries: &mut Vec<Entry>,
    line: usize,
    texts: (&str, &str),
    refusal: &str,
) -> Result<(), AllocError> {
    let report = ["refused ", refusal, "\n"];
    if refusal.starts_with("settings ") {
        return put_settings(alloc, entries, line, texts, &report);
    }
    let (script, code) = texts;
    put_check(alloc, entries, line, &[script, code], &report)
}

/// Adds a file of the folder, if this is the name of one.
fn put_file(
    rt: &(impl Files + AllocGlobal),
    given: &mut Given,
    name: &str,
) -> Result<(), AllocError> {
    match fs::read(rt, name) {
        Ok(bytes) => given.put(rt.alloc(), name, bytes),
        Err(_) => Ok(()),
    }
}

/// Adds each file of the folder that one of the words names.
fn put_files(
    rt: &(impl Files + AllocGlobal),
    given: &mut Given,
    words: &str,
) -> Result<(), AllocError> {
    for word in words.split(' ') {
        put_file(rt, given, word)?;
    }
    Ok(())
}

/// Words, over the files that they name.
fn given_words(rt: &(impl Files + AllocGlobal), words: &str) -> Result<Given, AllocError> {
    let mut given = Given::of(rt.alloc(), words)?;
    let put = put_files(rt, &mut given, words);
    after(put, given)
}

/// Adds the words that a block shows, over the files that they name, with the report below them.
fn put_words(
    rt: &(impl Files + AllocGlobal),
    entries: &mut Vec<Entry>,
    line: usize,
    session: &str,
) -> Result<(), AllocError> {
    let (words, report) = session.split_once('\n').unwrap_or((session, ""));
    let given = given_words(rt, words);
    put_case(entries, line, given, shown(rt.alloc(), &[report]))
}

impl Page {
    /// A page of which nothing is read.
    fn new(alloc: Global) -> Page {
        Page {
            line: 0,
            script: String::new(alloc),
            is_asked: false,
            block: String::new(alloc),
            is_open: false,
            is_script: false,
            entries: Vec::new(alloc),
        }
    }

    /// Takes the block as what a check of the script gives.
    fn take_check(&mut self, alloc: Global) -> Result<(), AllocError> {
        let (script, report) = ([self.script.as_str()], [self.block.as_str()]);
        put_check(alloc, &mut self.entries, self.line, &script, &report)
    }

    /// Takes the block as what comes of words, or of the script, if it is asked for.
    fn take_shown(
        &mut self,
        rt: &(impl Files + AllocGlobal),
        is_asked: bool,
    ) -> Result<(), AllocError> {
        if let Some(session) = self.block.as_str().strip_prefix("$ ./dcx ") {
            put_words(rt, &mut self.entries, self.line, session)
        } else if is_asked {
            self.take_check(rt.alloc())
        } else {
            Ok(())
        }
    }

    /// Takes the block, which has ended.
    fn close(&mut self, rt: &(impl Files + AllocGlobal)) -> Result<(), AllocError> {
        self.is_open = false;
        let is_asked = mem::replace(&mut self.is_asked, self.is_script);
        if self.is_script {
            mem::swap(&mut self.script, &mut self.block);
            Ok(())
        } else {
            self.take_shown(rt, is_asked)
        }
    }

    /// Takes what a row shows.
    fn take_row(&mut self, alloc: Global, text: &str) -> Result<(), AllocError> {
        let Some((code, cells)) = first_cell(text) else {
            return Ok(());
        };
        let Some((refusal, _)) = refusal_in(cells) else {
            return Ok(());
        };
        let texts = (self.script.as_str(), code);
        put_row(alloc, &mut self.entries, self.line, texts, refusal)
    }

    /// Takes a line of the open block.
    fn take(&mut self, rt: &(impl Files + AllocGlobal), text: &str) -> Result<(), AllocError> {
        if text == "```" {
            return self.close(rt);
        }
        self.block.push_str(text)?;
        self.block.push_str("\n")
    }

    /// Takes the end of the page, and a block that nothing has closed as a line that says no case.
    fn end(&mut self, alloc: Global) -> Result<(), AllocError> {
        if self.is_open {
            put_unreadable(alloc, &mut self.entries, self.line, "a block is open")
        } else {
            Ok(())
        }
    }

    /// Opens a block.
    fn open(&mut self, alloc: Global, language: &str) {
        self.block = String::new(alloc);
        self.is_open = true;
        self.is_script = language == "python";
    }

    /// Takes a line outside of blocks.
    fn take_plain(&mut self, alloc: Global, text: &str) -> Result<(), AllocError> {
        if let Some(language) = text.strip_prefix("```") {
            self.open(alloc, language);
            Ok(())
        } else if text.starts_with('#') {
            self.script = String::new(alloc);
            self.is_asked = false;
            Ok(())
        } else {
            self.take_row(alloc, text)
        }
    }

    /// Takes a line.
    fn read(&mut self, rt: &(impl Files + AllocGlobal), text: &str) -> Result<(), AllocError> {
        self.line = self.line.saturating_add(1);
        if self.is_open {
            self.take(rt, text)
        } else {
            self.take_plain(rt.alloc(), text)
        }
    }

    /// Takes all lines.
    fn read_all(&mut self, rt: &(impl Files + AllocGlobal), text: &str) -> Result<(), AllocError> {
        for line in text.lines() {
            self.read(rt, line)?;
        }
        self.end(rt.alloc())
    }
}

/// The cases of the examples of a page, in their order.
pub(crate) fn page_entries(rt: &(impl Files + AllocGlobal), text: &str) -> io::Result<Vec<Entry>> {
    let mut page = Page::new(rt.alloc());
    let read = page.read_all(rt, text);
    let Page { entries, .. } = page;
    in_io(after(read, entries))
}
