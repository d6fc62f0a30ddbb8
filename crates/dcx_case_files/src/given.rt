//! What the program is given in a case.
ghost use Rattle.std.specs.Prelude.{◌≡◌, ◌≢◌, ◌^◌, ◌-◌, [], List, ℕ, Some, IfOk, OnOk, string_bytes};
ghost use Rattle.std.specs.BTreeMap.{get_by_text};

use dcx_shape::Bytes;
use std::alloc::{AllocError, Global};
use std::collections::BTreeMap;

/// What the program is given.
#[derive(Drop)]
pub struct Given {
    /// The words behind the program's name, separated by blanks.
    pub words: String,
    /// The files that the library has, by their names.
    pub files: BTreeMap<String, Bytes>,
    /// The numbers of the calls of the library that fail, from 0.
    pub reads: Vec<u64>,
    /// The numbers of the calls of the sink that fail, from 0.
    pub writes: Vec<u64>,
    /// How many bytes the sink takes at once.
    pub most: usize,
}

impl Given {
    /// Words alone, with no file and no call that fails, and a sink that takes all at once. An error where there is no memory.
    pub fn of(alloc: Global, words: &str) -> Result<Given, AllocError>
        ensures words { IfOk result (λ given. string_bytes given.words ≡ words.now) }
        ensures files { IfOk result (λ given. given.files.entries ≡ []) }
        ensures most { IfOk result (λ given. given.most ≡ 2 ^ 64 - 1) }
        ensures reads { IfOk result (λ given. given.reads.items ≡ []) }
        ensures writes { IfOk result (λ given. given.writes.items ≡ []) }
    {
        Ok(Given {
            words: String::from_str(alloc, words)?,
            files: BTreeMap::new(alloc),
            reads: Vec::new(alloc),
            writes: Vec::new(alloc),
            most: usize::MAX,
        })
    }

    /// Adds a file, or puts it in the place of the one of this name. An error where there is no memory.
    pub fn put(&mut self, alloc: Global, name: &str, bytes: Vec<u8>) -> Result<(), AllocError>
        ensures file { OnOk result (get_by_text self.new.files name.now ≡ Some bytes.items) }
        ensures others { OnOk result ((other : List ℕ) → other ≢ name.now → get_by_text self.new.files other ≡ get_by_text self.old.files other) }
        ensures words { self.new.words ≡ self.old.words }
        ensures calls { (self.new.reads ≡ self.old.reads) × (self.new.writes ≡ self.old.writes) × (self.new.most ≡ self.old.most) }
    {
        let name = String::from_str(alloc, name)?;
        self.files.insert(name, Bytes::from_vec(bytes))?;
        Ok(())
    }
}
