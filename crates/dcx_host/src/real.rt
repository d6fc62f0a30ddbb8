//! The files of the host as a library, and a writer of the host as a sink. What they hold is not told.
ghost use Rattle.std.specs.Prelude.{◌≡◌, ◌≢◌, ◌<◌, ◌≤◌, length, IfErr, IfOk, IfSome, IsErrOf, None};
ghost use Rattle.std.specs.IoError.{error_kind};
ghost use Rattle.std.specs.Io.KnownBytes.{WriteAppends};

use crate::{FetchFault, Library, Sink, SinkFault};
use dcx_shape::Bytes;
use std::alloc::Global;
use std::fs;
use std::io::{self, Error, ErrorKind, Read, Write};
use std::rt::Files;

/// The files of the host, by their paths. A file that is missing, or no file, is `Failed`.
#[derive(Drop)]
pub struct FileLibrary<'a, R: Files> {
    rt: &'a R,
    /// How many fetches have answered an `Err`.
    pub faults: u64,
}

impl<'a, R: Files> FileLibrary<'a, R> {
    /// The files of the host, with no fault counted yet.
    pub fn new(rt: &'a R) -> Self
        ensures { result.faults ≡ 0 }
    {
        FileLibrary { rt, faults: 0 }
    }
}

// All that the reader has left, if that is not more than `most` bytes. At most one byte more is read.
fn read_at_most<F: Read + Drop>(alloc: Global, file: F, most: usize) -> Result<Bytes, FetchFault>
    ensures size { IfOk result (λ bytes. length bytes ≤ most) }
    ensures whole { IfOk result (λ bytes. IfSome (F.remaining file) (λ all. bytes ≡ all)) }
    ensures too_long { IsErrOf result FetchFault.TooLong → IfSome (F.remaining file) (λ all. most < length all) }
    ensures present { IsErrOf result FetchFault.Absent → ⊥ }
{
    let mut bytes = Vec::new(alloc);
    let mut front = file.take((most as u64).saturating_add(1));
    match front.read_to_end(&mut bytes) {
        Ok(_) if bytes.len() <= most => Ok(Bytes::from_vec(bytes)),
        Ok(_) => Err(FetchFault::TooLong),
        Err(error) if error.kind() == ErrorKind::OutOfMemory => Err(FetchFault::Memory),
        Err(_) => Err(FetchFault::Failed),
    }
}

fn read_file<R: Files>(rt: &R, alloc: Global, name: &str, most: usize) -> Result<Bytes, FetchFault>
    ensures size { IfOk result (λ bytes. length bytes ≤ most) }
    ensures present { IsErrOf result FetchFault.Absent → ⊥ }
{
    match fs::open(rt, name) {
        Ok(file) => read_at_most(alloc, file, most),
        Err(_) => Err(FetchFault::Failed),
    }
}

impl<'a, R: Files> Library for FileLibrary<'a, R> {
    ghost told = { λ _. None };

    ghost faults = { λ s. s.faults };

    fn fetch(&mut self, alloc: Global, name: &str, most: usize) -> Result<Bytes, FetchFault> {
        let result = read_file(self.rt, alloc, name, most);
        if result.is_err() {
            self.faults = self.faults.saturating_add(1);
        }
        result
    }
}

/// A writer as a sink, such as standard output.
#[derive(Drop)]
pub struct OutSink<W: Write> {
    /// Where the bytes go.
    pub writer: W,
    /// How many writes have answered an `Err`.
    pub faults: u64,
}

impl<W: Write> OutSink<W> {
    /// The writer as a sink, with no fault counted yet.
    pub fn new(writer: W) -> Self
        ensures writer { result.writer ≡ writer }
        ensures faults { result.faults ≡ 0 }
    {
        OutSink { writer, faults: 0 }
    }
}

// One write, made again where a signal interrupts it, as the reader's `read_to_end` does with a read. The limit is there because each
// function has to end.
fn write_some<W: Write>(writer: &mut W, piece: &[u8]) -> io::Result<usize>
    ensures size { IfOk result (λ n. n ≤ length piece.now) }
    ensures written { WriteAppends (W.contents writer.old) (W.contents writer.new) result piece.now }
    ensures retried { IfErr result (λ e. error_kind e ≢ ErrorKind.Interrupted) }
{
    'tries: for _ in 0..u64::MAX {
        match writer.write(piece) {
            Err(error) if error.kind() == ErrorKind::Interrupted => {}
            done => return done,
        }
    }
    Err(Error::from(ErrorKind::TimedOut))
}

impl<W: Write> Sink for OutSink<W> {
    ghost written = { λ s. W.contents s.writer };

    ghost faults = { λ s. s.faults };

    fn write(&mut self, piece: &[u8]) -> Result<usize, SinkFault> {
        match write_some(&mut self.writer, piece) {
            Ok(count) if count > 0 || piece.is_empty() => Ok(count),
            _ => {
                self.faults = self.faults.saturating_add(1);
                Err(SinkFault::Failed)
            }
        }
    }
}
