//! Libraries and sinks, in memory and of the host, with calls that fail.
use dcx_host::{
    FetchFault, FileLibrary, Library, MemoryLibrary, MemorySink, OutSink, Sink, SinkFault,
    SteadyLibrary, SteadySink,
};
use dcx_shape::Bytes;
use std::alloc::{AllocError, Global};
use std::collections::BTreeMap;
use std::fs;
use std::rt::Files;
use std::test::Fail;

/// Adds a file, and says whether there was memory for its bytes and for it.
fn add_read(
    files: &mut BTreeMap<String, Bytes>,
    name: String,
    bytes: Result<Vec<u8>, AllocError>,
) -> bool {
    match bytes {
        Ok(bytes) => files.insert(name, Bytes::from_vec(bytes)).is_ok(),
        Err(_) => false,
    }
}

/// Adds a file, and says whether there was memory for it.
fn add_file(alloc: Global, files: &mut BTreeMap<String, Bytes>, name: &str, bytes: &[u8]) -> bool {
    match String::from_str(alloc, name) {
        Ok(name) => add_read(files, name, bytes.to_vec(alloc)),
        Err(_) => false,
    }
}

/// Adds the two files, and says whether there was memory for them.
fn add_files(alloc: Global, files: &mut BTreeMap<String, Bytes>) -> bool {
    add_file(alloc, files, "a", b"xyz") && add_file(alloc, files, "b", b"")
}

/// Whether a library gives these bytes.
fn gives<L: Library>(
    alloc: Global,
    library: &mut L,
    name: &str,
    most: usize,
    wanted: &[u8],
) -> bool {
    match library.fetch(alloc, name, most) {
        Ok(bytes) => bytes.as_slice() == wanted,
        Err(_) => false,
    }
}

/// Whether a library answers this fault.
fn refuses<L: Library>(
    alloc: Global,
    library: &mut L,
    name: &str,
    most: usize,
    wanted: FetchFault,
) -> bool {
    match library.fetch(alloc, name, most) {
        Ok(_) => false,
        Err(fault) => fault == wanted,
    }
}

/// Whether a library gives the two files at each call.
fn never_fails<L: Library>(alloc: Global, library: &mut L) -> bool {
    gives(alloc, library, "a", 3, b"xyz")
        && gives(alloc, library, "a", 3, b"xyz")
        && refuses(alloc, library, "a", 2, FetchFault::TooLong)
        && refuses(alloc, library, "c", 9, FetchFault::Absent)
        && gives(alloc, library, "b", 0, b"")
        && refuses(alloc, library, "c", 9, FetchFault::Absent)
}

/// Whether a library gives the two files at each call but 1 and 3.
fn fails_twice<L: Library>(alloc: Global, library: &mut L) -> bool {
    gives(alloc, library, "a", 3, b"xyz")
        && refuses(alloc, library, "a", 3, FetchFault::Failed)
        && refuses(alloc, library, "a", 2, FetchFault::TooLong)
        && refuses(alloc, library, "c", 9, FetchFault::Failed)
        && gives(alloc, library, "b", 0, b"")
        && refuses(alloc, library, "c", 9, FetchFault::Absent)
}

/// Whether the library with no list of failing calls gives its files.
fn is_steady(alloc: Global) -> bool {
    let mut library = SteadyLibrary::new(BTreeMap::new(alloc));
    add_files(alloc, &mut library.files) && never_fails(alloc, &mut library)
}

/// Whether a library fails at the calls that are listed, and counts its faults.
fn fails_as_listed(alloc: Global, failing: Vec<u64>) -> bool {
    let mut library = MemoryLibrary::new(BTreeMap::new(alloc), failing);
    add_files(alloc, &mut library.files) && fails_twice(alloc, &mut library) && library.faults == 2
}

#[test]
fn files_in_memory(rt: HostRuntime) -> Result<(), Fail> {
    let failing = vec![in rt.alloc(); 1u64, 3]?;
    assert!(rt; is_steady(rt.alloc()));
    assert!(rt; fails_as_listed(rt.alloc(), failing));
    Ok(())
}

/// Whether a library gives files of the host, where `fetched` holds `abc`.
fn is_of_host<L: Library>(alloc: Global, library: &mut L) -> bool {
    gives(alloc, library, "/dev/null", 0, b"")
        && gives(alloc, library, "fetched", 3, b"abc")
        && gives(alloc, library, "fetched", usize::MAX, b"abc")
        && refuses(alloc, library, "fetched", 2, FetchFault::TooLong)
        && refuses(alloc, library, "fetched", 0, FetchFault::TooLong)
        && refuses(alloc, library, "/dev/zero", 5000, FetchFault::TooLong)
        && refuses(alloc, library, ".", 5000, FetchFault::Failed)
        && refuses(alloc, library, "/no/such/file", 5000, FetchFault::Failed)
}

/// Whether the files of the host are given, and each refusal is counted.
fn are_counted<R: Files>(rt: &R, alloc: Global) -> bool {
    let mut library = FileLibrary::new(rt);
    is_of_host(alloc, &mut library) && library.faults == 5
}

#[test]
fn files_of_the_host(rt: HostRuntime) -> Result<(), Fail> {
    fs::write(&rt, "fetched", b"abc")?;
    assert!(rt; are_counted(&rt, rt.alloc()));
    Ok(fs::remove_file(&rt, "fetched")?)
}

/// Whether a sink takes so many bytes of a piece.
fn takes<K: Sink>(sink: &mut K, piece: &[u8], wanted: usize) -> bool {
    match sink.write(piece) {
        Ok(n) => n == wanted,
        Err(_) => false,
    }
}

/// Whether a sink fails at a piece.
fn fails<K: Sink>(sink: &mut K, piece: &[u8]) -> bool {
    match sink.write(piece) {
        Ok(_) => false,
        Err(fault) => fault == SinkFault::Failed,
    }
}

/// Whether a sink that takes two bytes at once and fails at its call 1 does so, and keeps the bytes.
fn takes_two(sink: &mut MemorySink) -> bool {
    takes(sink, b"abc", 2)
        && fails(sink, b"c")
        && takes(sink, b"", 0)
        && takes(sink, b"c", 1)
        && sink.bytes.as_slice() == b"abc".as_slice()
        && sink.faults == 1
}

/// Whether a sink that takes nothing fails.
fn is_closed(alloc: Global) -> bool {
    fails(&mut MemorySink::new(alloc, 0, Vec::new(alloc)), b"a")
}

/// Whether a sink that never fails keeps the bytes.
fn keeps_all(alloc: Global) -> bool {
    let mut sink = SteadySink::new(alloc);
    takes(&mut sink, b"abc", 3) && sink.bytes.as_slice() == b"abc".as_slice()
}

/// Whether a writer of three bytes fails where it is full.
fn fills_up() -> bool {
    let mut place = [0u8; 3];
    let mut sink = OutSink::new(place.as_mut_slice());
    takes(&mut sink, b"ab", 2)
        && takes(&mut sink, b"cd", 1)
        && takes(&mut sink, b"", 0)
        && fails(&mut sink, b"d")
        && sink.faults == 1
}

#[test]
fn sinks(rt: HostRuntime) -> Result<(), Fail> {
    let failing = vec![in rt.alloc(); 1u64]?;
    let mut sink = MemorySink::new(rt.alloc(), 2, failing);
    let found = [
        takes_two(&mut sink),
        is_closed(rt.alloc()),
        keeps_all(rt.alloc()),
        fills_up(),
    ];
    assert_eq!(rt; found, [true; 4]);
    Ok(())
}
