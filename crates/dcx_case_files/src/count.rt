//! How many cases there were, what was wanted of each, and what is told of one that differs.
ghost use Rattle.std.specs.Prelude.{◌≡◌, ◌↔◌, ◌⊎◌, IsTrue};
ghost use Rattle.dcx_case_files.specs.Judging.{IsReport, IsMet, one_more};

use std::io;

/// How many cases were run, and how many of them differ.
#[derive(Clone, Copy)]
pub struct Count {
    /// All cases.
    pub cases: u64,
    /// Those that differ.
    pub differ: u64,
}

/// Where a case stands: its file and its line.
#[derive(Clone, Copy)]
pub struct At<'a> {
    /// The file's name.
    pub file: &'a str,
    /// The line on which the case begins, from 1.
    pub line: usize,
}

/// What the program gives.
#[derive(Drop)]
pub struct Came {
    /// The status with which it ends.
    pub status: u8,
    /// The bytes of its report.
    pub report: Vec<u8>,
}

/// What a case wants.
#[derive(Drop)]
pub struct Wanted {
    /// The status, where it is stated.
    pub status: Option<u8>,
    /// The bytes of the report.
    pub report: Vec<u8>,
    /// Whether the report may go on behind these bytes.
    pub goes_on: bool,
}

impl Wanted {
    /// Whether this is the report that is wanted.
    fn is_report(&self, report: &[u8]) -> bool
        ensures { IsTrue result ↔ IsReport self.now.goes_on self.now.report.items report.now }
    {
        if self.goes_on {
            report.starts_with(&self.report)
        } else {
            *report == *self.report.as_slice()
        }
    }

    /// Whether this is what came.
    fn is_met(&self, came: &Came) -> bool
        ensures { IsTrue result ↔ IsMet self.now came.now }
    {
        let is_status = match self.status {
            Some(status) => status == came.status,
            None => true,
        };
        is_status && self.is_report(&came.report)
    }
}

impl Count {
    /// No cases.
    pub fn new() -> Count
        ensures cases { result.cases ≡ 0 }
        ensures differ { result.differ ≡ 0 }
    {
        Count {
            cases: 0,
            differ: 0,
        }
    }

    /// Counts a case that differs.
    fn differs(&mut self)
        ensures cases { self.new.cases ≡ one_more self.old.cases }
        ensures differ { self.new.differ ≡ one_more self.old.differ }
    {
        self.cases = self.cases.saturating_add(1);
        self.differ = self.differ.saturating_add(1);
    }

    /// Counts a case, and tells it where it differs.
    pub fn judge(
        &mut self,
        rt: &impl Print,
        at: At,
        words: &str,
        wanted: &Wanted,
        came: &Came,
    ) -> io::Result<()>
        ensures cases { self.new.cases ≡ one_more self.old.cases }
        ensures met { IsMet wanted.now came.now → self.new.differ ≡ self.old.differ }
        ensures differs { IsMet wanted.now came.now ⊎ (self.new.differ ≡ one_more self.old.differ) }
    {
        if wanted.is_met(came) {
            self.cases = self.cases.saturating_add(1);
            return Ok(());
        }
        self.differs();
        tell(rt, at, words, wanted, came)
    }

    /// Counts a front of a script, and tells it where it doesn't fit.
    pub fn judge_front(
        &mut self,
        rt: &impl Print,
        at: At,
        length: usize,
        fits: bool,
        came: &Came,
    ) -> io::Result<()>
        ensures cases { self.new.cases ≡ one_more self.old.cases }
        ensures met { IsTrue fits → self.new.differ ≡ self.old.differ }
        ensures differs { IsTrue fits ⊎ (self.new.differ ≡ one_more self.old.differ) }
    {
        if fits {
            self.cases = self.cases.saturating_add(1);
            return Ok(());
        }
        self.differs();
        tell_front(rt, at, length, came)
    }

    /// Counts and tells a line that is no line of a case.
    pub fn refuse(&mut self, rt: &impl Print, at: At, line: &str) -> io::Result<()>
        ensures cases { self.new.cases ≡ one_more self.old.cases }
        ensures differ { self.new.differ ≡ one_more self.old.differ }
    {
        self.differs();
        tell_line(rt, at, "no case says: ", line)
    }
}

/// Tells where a case stands, and a text in two parts.
fn tell_line(rt: &impl Print, at: At, what: &str, text: &str) -> io::Result<()> {
    let At { file, line } = at;
    println!(rt; "{file}:{line}: {what}{text}")
}

/// Tells a status and a report, behind a text that says whose they are.
fn tell_report(rt: &impl Print, what: &str, status: u8, report: &[u8]) -> io::Result<()> {
    println!(rt; "{what}, with status {status}:")?;
    rt.write_all(report)
}

/// Tells what was wanted.
fn tell_wanted(rt: &impl Print, wanted: &Wanted) -> io::Result<()> {
    if let Some(status) = wanted.status {
        return tell_report(rt, "wanted", status, &wanted.report);
    }
    println!(rt; "wanted:")?;
    rt.write_all(&wanted.report)
}

/// Tells what was wanted and what came.
fn tell(rt: &impl Print, at: At, words: &str, wanted: &Wanted, came: &Came) -> io::Result<()> {
    tell_line(rt, at, "", words)?;
    tell_wanted(rt, wanted)?;
    tell_report(rt, "came", came.status, &came.report)
}

/// Tells what came of a front of this length.
fn tell_front(rt: &impl Print, at: At, length: usize, came: &Came) -> io::Result<()> {
    let At { file, line } = at;
    print!(rt; "{file}:{line}: of the first {length} bytes ")?;
    tell_report(rt, "came", came.status, &came.report)
}
