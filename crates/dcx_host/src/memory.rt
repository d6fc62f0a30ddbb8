//! A library and a sink in memory that fail at the calls that are listed, and ones that never fail.
ghost use Rattle.std.specs.Prelude.{◌≡◌, ◌<◌, ◌≤◌, ◌++◌, [], length, Some, IfOk, IfErr, OnErr, IsErrOf};
ghost use Rattle.dcx_host.specs.Files.{IsTold, Lacks, HasMore, files_of};

use crate::{FetchFault, Library, Sink, SinkFault};
use dcx_shape::Bytes;
use std::alloc::Global;
use std::collections::BTreeMap;

/// Files by name. The calls whose numbers are listed fail, where the first call has the number 0.
#[derive(Drop)]
pub struct MemoryLibrary {
    /// The bytes of each name.
    pub files: BTreeMap<String, Bytes>,
    /// The numbers of the calls that fail.
    pub failing: Vec<u64>,
    /// How many calls there were.
    pub calls: u64,
    /// How many of them failed.
    pub faults: u64,
}

impl MemoryLibrary {
    /// A library of these files that nothing was fetched from yet. Takes no memory.
    pub fn new(files: BTreeMap<String, Bytes>, failing: Vec<u64>) -> Self
        ensures files { result.files ≡ files }
        ensures failing { result.failing ≡ failing }
        ensures calls { result.calls ≡ 0 }
        ensures faults { result.faults ≡ 0 }
    {
        MemoryLibrary {
            files,
            failing,
            calls: 0,
            faults: 0,
        }
    }
}

// The bytes that the map has under the name, if there are not more than `most`.
fn bytes_of(
    alloc: Global,
    files: &BTreeMap<String, Bytes>,
    name: &str,
    most: usize,
) -> Result<Bytes, FetchFault>
    ensures size { IfOk result (λ bytes. length bytes ≤ most) }
    ensures bytes { IfOk result (λ bytes. IsTold (Some (files_of files.now)) name.now bytes) }
    ensures too_long { IsErrOf result FetchFault.TooLong → HasMore (Some (files_of files.now)) name.now most }
    ensures absent { IsErrOf result FetchFault.Absent → Lacks (Some (files_of files.now)) name.now }
    ensures failed { IsErrOf result FetchFault.Failed → ⊥ }
{
    let Some(bytes) = files.get(name) else {
        return Err(FetchFault::Absent);
    };
    let bytes = bytes.as_slice();
    if bytes.len() > most {
        return Err(FetchFault::TooLong);
    }
    Ok(Bytes::from_vec(bytes.to_vec(alloc)?))
}

impl Library for MemoryLibrary {
    ghost told = { λ s. Some (files_of s.files) };

    ghost faults = { λ s. s.faults };

    fn fetch(&mut self, alloc: Global, name: &str, most: usize) -> Result<Bytes, FetchFault> {
        let call = self.calls;
        self.calls = call.saturating_add(1);
        if self.failing.contains(&call) {
            self.faults = self.faults.saturating_add(1);
            return Err(FetchFault::Failed);
        }
        bytes_of(alloc, &self.files, name, most)
    }
}

/// Files by name, with no call that fails.
#[derive(Drop)]
pub struct SteadyLibrary {
    /// The bytes of each name.
    pub files: BTreeMap<String, Bytes>,
}

impl SteadyLibrary {
    /// A library of these files. Takes no memory.
    pub fn new(files: BTreeMap<String, Bytes>) -> Self
        ensures { result.files ≡ files }
    {
        SteadyLibrary { files }
    }
}

impl Library for SteadyLibrary {
    ghost told = { λ s. Some (files_of s.files) };

    ghost faults = { λ _. 0 };

    fn fetch(&mut self, alloc: Global, name: &str, most: usize) -> Result<Bytes, FetchFault> {
        bytes_of(alloc, &self.files, name, most)
    }
}

/// Bytes, of which one call takes at most so many. The calls whose numbers are listed fail, where
/// the first call has the number 0.
#[derive(Drop)]
pub struct MemorySink {
    /// The bytes written so far.
    pub bytes: Vec<u8>,
    /// The most that one call takes. A sink that takes nothing fails at each call.
    pub most: usize,
    /// The numbers of the calls that fail.
    pub failing: Vec<u64>,
    /// How many calls there were.
    pub calls: u64,
    /// How many of them failed.
    pub faults: u64,
}

impl MemorySink {
    /// A sink that nothing was written to yet. Takes no memory.
    pub fn new(alloc: Global, most: usize, failing: Vec<u64>) -> Self
        ensures bytes { result.bytes.items ≡ [] }
        ensures most { result.most ≡ most }
        ensures failing { result.failing ≡ failing }
        ensures calls { result.calls ≡ 0 }
        ensures faults { result.faults ≡ 0 }
    {
        MemorySink {
            bytes: Vec::new(alloc),
            most,
            failing,
            calls: 0,
            faults: 0,
        }
    }
}

// Appends the whole piece, or nothing.
fn append(bytes: &mut Vec<u8>, piece: &[u8]) -> Result<usize, SinkFault>
    ensures whole { IfOk result (λ n. n ≡ length piece.now) }
    ensures ok { IfOk result (λ _. bytes.new.items ≡ bytes.old.items ++ piece.now) }
    ensures err { OnErr result (bytes.new.items ≡ bytes.old.items) }
    ensures memory { IfErr result (λ e. e ≡ SinkFault.Memory) }
{
    match bytes.extend_from_slice(piece) {
        Ok(()) => Ok(piece.len()),
        Err(_) => Err(SinkFault::Memory),
    }
}

impl Sink for MemorySink {
    ghost written = { λ s. Some s.bytes.items };

    ghost faults = { λ s. s.faults };

    fn write(&mut self, piece: &[u8]) -> Result<usize, SinkFault> {
        let call = self.calls;
        self.calls = call.saturating_add(1);
        let taken = piece.len().min(self.most);
        if self.failing.contains(&call) || (taken == 0 && !piece.is_empty()) {
            self.faults = self.faults.saturating_add(1);
            return Err(SinkFault::Failed);
        }
        append(&mut self.bytes, &piece[..taken])
    }
}

/// Bytes, with no call that fails.
#[derive(Drop)]
pub struct SteadySink {
    /// The bytes written so far.
    pub bytes: Vec<u8>,
}

impl SteadySink {
    /// A sink that nothing was written to yet. Takes no memory.
    pub fn new(alloc: Global) -> Self
        ensures { result.bytes.items ≡ [] }
    {
        SteadySink {
            bytes: Vec::new(alloc),
        }
    }
}

impl Sink for SteadySink {
    ghost written = { λ s. Some s.bytes.items };

    ghost faults = { λ _. 0 };

    fn write(&mut self, piece: &[u8]) -> Result<usize, SinkFault> {
        append(&mut self.bytes, piece)
    }
}
