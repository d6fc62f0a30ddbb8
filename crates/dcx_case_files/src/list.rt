//! A list of cases.

use crate::bytes::push_line;
use crate::case::{Entry, Parts, put_case, put_unreadable, with_file};
use crate::count::Wanted;
use crate::given::Given;
use crate::made::{after, in_io, set};
use crate::short::{Short, short_case};
use std::alloc::{AllocError, Global};
use std::rt::Files;
use std::{io, mem};

/// A list, as far as it is read.
#[derive(Drop)]
struct Reader<'a> {
    /// How many lines are read.
    line: usize,
    /// The last line that gives no bytes, and its number, from 1.
    head: &'a str,
    head_line: usize,
    /// The bytes that the lines below it give.
    body: Vec<u8>,
    /// What the scripts of one line begin with.
    start: Vec<u8>,
    /// The words that these are given with.
    words: String,
    /// The case whose parts are being read.
    open: Option<Parts>,
    /// The cases before it.
    entries: Vec<Entry>,
}

/// The first word of a head, and what follows it.
fn words_of(head: &str) -> (&str, &str) {
    head.split_once(' ').unwrap_or((head, ""))
}

/// Adds a case of one line.
fn put_short(
    alloc: Global,
    entries: &mut Vec<Entry>,
    line: usize,
    words: &str,
    short: Short,
) -> Result<(), AllocError> {
    let Short {
        script,
        report,
        is_accepted,
        ..
    } = short;
    let given = with_file(alloc, Given::of(alloc, words), "model.py", Ok(script));
    let wanted = Wanted {
        status: Some(if is_accepted { 0 } else { 1 }),
        report: report.into_bytes(),
        goes_on: is_accepted,
    };
    put_case(entries, line, given, Ok(wanted))
}

impl<'a> Reader<'a> {
    /// A list of which nothing is read.
    fn new(alloc: Global) -> Result<Reader<'a>, AllocError> {
        let words = String::from_str(alloc, "check model.py")?;
        Ok(Reader {
            line: 0,
            head: "",
            head_line: 0,
            body: Vec::new(alloc),
            start: Vec::new(alloc),
            words,
            open: None,
            entries: Vec::new(alloc),
        })
    }

    /// Whether there are lines below the head only where it takes some.
    fn is_well_formed(&self) -> bool {
        let (word, _) = words_of(self.head);
        self.body.is_empty() || matches!(word, "start" | "file" | "gives" | "begins")
    }

    /// Ends the case whose parts are read.
    fn close(&mut self, alloc: Global) -> Result<(), AllocError> {
        match self.open.take() {
            Some(parts) => parts.put(alloc, &mut self.entries),
            None => Ok(()),
        }
    }

    /// Takes a part of the open case. Answers false where the head is none.
    fn take(&mut self, alloc: Global) -> Result<bool, AllocError> {
        let (word, text) = words_of(self.head);
        match &mut self.open {
            Some(parts) => parts.take(alloc, word, text, &self.body),
            None => Ok(false),
        }
    }

    /// Takes the head as a line that says no case.
    fn refuse(&mut self, alloc: Global) -> Result<(), AllocError> {
        put_unreadable(alloc, &mut self.entries, self.head_line, self.head)
    }

    /// Takes a case of one line, or a line that is none.
    fn take_short(&mut self, alloc: Global) -> Result<(), AllocError> {
        match short_case(alloc, &self.start, self.head)? {
            Some(short) => {
                let words = self.words.as_str();
                put_short(alloc, &mut self.entries, self.head_line, words, short)
            }
            None => self.refuse(alloc),
        }
    }

    /// Takes a head that is no part of a case.
    fn begin(&mut self, alloc: Global) -> Result<(), AllocError> {
        let (word, text) = words_of(self.head);
        match word {
            "case" => set(&mut self.open, Parts::of(alloc, self.head_line, text)),
            "words" => set(&mut self.words, String::from_str(alloc, text)),
            "start" => set(&mut self.start, self.body.as_slice().to_vec(alloc)),
            _ => self.take_short(alloc),
        }
    }

    /// Takes the head and the bytes below it, all of which are read.
    fn end(&mut self, alloc: Global) -> Result<(), AllocError> {
        if self.head.is_empty() && self.body.is_empty() {
            return Ok(());
        }
        if !self.is_well_formed() {
            return self.refuse(alloc);
        }
        if self.take(alloc)? {
            return Ok(());
        }
        self.close(alloc)?;
        self.begin(alloc)
    }

    /// Begins a head.
    fn turn(&mut self, alloc: Global, head: &'a str) -> io::Result<()> {
        self.end(alloc)?;
        self.head = head;
        self.head_line = self.line;
        self.body = Vec::new(alloc);
        Ok(())
    }

    /// Takes a line. Empty lines and lines behind a `#` count for nothing.
    fn read(&mut self, rt: &(impl Files + AllocGlobal), text: &'a str) -> io::Result<()> {
        self.line = self.line.saturating_add(1);
        if text.is_empty() || text.starts_with('#') || push_line(rt, &mut self.body, text)? {
            Ok(())
        } else {
            self.turn(rt.alloc(), text)
        }
    }

    /// Takes the end of the list.
    fn close_all(&mut self, alloc: Global) -> Result<(), AllocError> {
        self.end(alloc)?;
        self.close(alloc)
    }

    /// Takes all lines.
    fn read_all(&mut self, rt: &(impl Files + AllocGlobal), text: &'a str) -> io::Result<()> {
        for line in text.lines() {
            self.read(rt, line)?;
        }
        in_io(self.close_all(rt.alloc()))
    }
}

/// The cases of a list, in their order.
pub(crate) fn list_entries(rt: &(impl Files + AllocGlobal), text: &str) -> io::Result<Vec<Entry>> {
    let mut reader = Reader::new(rt.alloc())?;
    let read = reader.read_all(rt, text);
    let entries = mem::replace(&mut reader.entries, Vec::new(rt.alloc()));
    after(read, entries)
}
