//! The program over files in memory: the status and the bytes that it gives.
ghost use Rattle.std.specs.Prelude.{◌≡◌, ◌<◌};

use dcx_case_files::{Came, Given};
use dcx_host::{Library, MemoryLibrary, MemorySink, Sink};
use dcx_listing::{Asked, branch_line, problem_lines, program_lines, short_report};
use dcx_steps::Steps;
use dcx_top::{Ended, run};
use std::alloc::{AllocError, Global};
use std::collections::BTreeMap;
use std::marker::Brand;
use std::mem;
use std::sync::ledger::{Blank, Ledger};

/// The status of the program over a library and a sink of any kind, with a counter of its own.
fn run_with<L: Library, K: Sink, S: Ledger>(
    alloc: Global,
    words: &[String],
    library: &mut L,
    sink: &mut K,
    blank: Blank,
) -> u8
    requires name { blank.name ≡ S.name }
    requires parts { blank.parts ≡ S.parts }
    requires some { 0 < blank.parts }
{
    let mut steps = Steps::<S>::new(blank);
    let Ended { status, run } = run(alloc, words, library, sink, &mut steps);
    drop(run);
    status
}

/// The same, with a counter whose kind doesn't matter.
fn status_with<L: Library, K: Sink>(
    alloc: Global,
    words: &[String],
    library: &mut L,
    sink: &mut K,
) -> u8 {
    run_with::<L, K, Brand>(alloc, words, library, sink, Blank::new(1))
}

/// Adds the words that are separated by blanks.
fn push_words(alloc: Global, words: &mut Vec<String>, text: &str) -> Result<(), AllocError> {
    for word in text.split_whitespace() {
        let word = String::from_str(alloc, word)?;
        words.push(word)?;
    }
    Ok(())
}

/// The words that are separated by blanks.
fn words_of(alloc: Global, text: &str) -> Result<Vec<String>, AllocError> {
    let mut words = Vec::new(alloc);
    push_words(alloc, &mut words, text)?;
    Ok(words)
}

/// The report of a run that has no memory, where the words ask for that.
fn short(alloc: Global, words: &[String]) -> Result<Option<Came>, AllocError> {
    let [verb, word] = words else {
        return Ok(None);
    };
    if verb.as_str() != "short" {
        return Ok(None);
    }
    match short_report(alloc, word.as_str())? {
        Some(report) => Ok(Some(Came { status: 0, report })),
        None => Ok(None),
    }
}

/// Lines with status 0, and status 1 where there are none.
fn came_of(
    alloc: Global,
    lines: Result<Option<String>, AllocError>,
) -> Result<Option<Came>, AllocError> {
    match lines? {
        Some(text) => Ok(Some(Came {
            status: 0,
            report: text.into_bytes(),
        })),
        None => Ok(Some(Came {
            status: 1,
            report: Vec::new(alloc),
        })),
    }
}

/// What the problem of a file is, or its reduced program, where the words ask for that.
fn asked(alloc: Global, words: &[String], given: &Given) -> Result<Option<Came>, AllocError> {
    let [verb, name] = words else {
        return Ok(None);
    };
    let Some(bytes) = given.files.get(name) else {
        return Ok(None);
    };
    let bytes = bytes.as_slice();
    match verb.as_str() {
        "gather" => came_of(alloc, problem_lines(alloc, bytes)),
        "rows" => came_of(alloc, program_lines(alloc, Asked::Rows, bytes)),
        "map" => came_of(alloc, program_lines(alloc, Asked::Map, bytes)),
        _ => Ok(None),
    }
}

/// How branch and bound with a limit of nodes ends over the problem of a file, where the words ask for that.
fn branched(alloc: Global, words: &[String], given: &Given) -> Result<Option<Came>, AllocError> {
    let [verb, limit, name] = words else {
        return Ok(None);
    };
    if verb.as_str() != "branch" {
        return Ok(None);
    }
    let (Ok(limit), Some(bytes)) = (limit.as_str().parse::<u32>(), given.files.get(name)) else {
        return Ok(None);
    };
    came_of(alloc, branch_line(alloc, limit, bytes.as_slice()))
}

/// What no command of the program shows, where the words ask for that.
fn listed(alloc: Global, words: &[String], given: &Given) -> Result<Option<Came>, AllocError> {
    if let Some(came) = short(alloc, words)? {
        return Ok(Some(came));
    }
    match branched(alloc, words, given)? {
        Some(came) => Ok(Some(came)),
        None => asked(alloc, words, given),
    }
}

/// What the program gives over the files, which are taken.
fn program(alloc: Global, words: &[String], given: &mut Given) -> Came {
    let files = mem::replace(&mut given.files, BTreeMap::new(alloc));
    let reads = mem::replace(&mut given.reads, Vec::new(alloc));
    let writes = mem::replace(&mut given.writes, Vec::new(alloc));
    let mut library = MemoryLibrary::new(files, reads);
    let mut sink = MemorySink::new(alloc, given.most, writes);
    let status = status_with(alloc, words, &mut library, &mut sink);
    Came {
        status,
        report: sink.bytes,
    }
}

/// What the program gives, or, for the verbs `gather`, `rows` and `map`, the lines of the problem or of its reduced program, for
/// `branch` how the run of nodes ends, and for `short` the report of a run that has no memory. The files are taken, and the words stay.
pub(crate) fn outcome(alloc: Global, given: &mut Given) -> Result<Came, AllocError> {
    let words = words_of(alloc, given.words.as_str())?;
    match listed(alloc, &words, given)? {
        Some(came) => Ok(came),
        None => Ok(program(alloc, &words, given)),
    }
}
