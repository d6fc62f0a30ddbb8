//! A library of files, by name.
ghost use Rattle.std.specs.Prelude.{◌≡◌, ℕ, ◌≤◌, length, IfOk, IsErrOf};
ghost use Rattle.std.specs.declared.option.Option.{Option};
ghost use Rattle.dcx_host.specs.Faults.{Rose};
ghost use Rattle.dcx_host.specs.Files.{Files, IsTold, Lacks, HasMore};
ghost use Rattle.dcx_host.specs.declared.library.FetchFault.TheVariants.{Memory};

use dcx_shape::Bytes;
use std::alloc::{AllocError, AllocFailed, Global};
use thiserror::Error;

/// Why a file was not fetched.
#[derive(Clone, Copy, Debug, PartialEq, Eq, Error)]
pub enum FetchFault {
    /// The library tells its files, and this name is not among them.
    #[error("no file has this name")]
    Absent,
    /// The file could not be read. The library has counted a fault.
    #[error("the file could not be read")]
    Failed,
    /// The file has more bytes than were asked for at most.
    #[error("the file is too long")]
    TooLong,
    /// Memory ran out.
    #[error("out of memory")]
    Memory,
}

impl From<AllocError> for FetchFault {
    ghost from_gives = { λ _ e. e ≡ Memory };

    fn from(_: AllocError) -> Self {
        FetchFault::Memory
    }
}

impl<T: Drop> From<AllocFailed<T>> for FetchFault {
    ghost from_gives = { λ _ e. e ≡ Memory };

    fn from(_: AllocFailed<T>) -> Self {
        FetchFault::Memory
    }
}

/// Files that are fetched by name.
///
/// A library may tell its contents to contracts, as one in memory does, or not, as the host's files.
/// What it tells stays the same, and its count of faults never falls.
pub trait Library {
    /// The bytes that each name has, where the library tells them.
    ghost told: { Self → Option Files };

    /// How often a fetch has failed. The count stands still at the end of a `u64`.
    ghost faults: { Self → ℕ };

    /// The bytes that `name` has, of which there may be `most`.
    ///
    /// Answers `TooLong` only where there are more, `Absent` only where the library tells that it
    /// lacks the name, `Failed` only where it counts a fault in this call, and `Memory` freely.
    fn fetch(&mut self, alloc: Global, name: &str, most: usize) -> Result<Bytes, FetchFault>
        ensures same { told self.new ≡ told self.old }
        ensures never_falls { faults self.old ≤ faults self.new }
        ensures size { IfOk result (λ bytes. length bytes ≤ most) }
        ensures bytes { IfOk result (λ bytes. IsTold (told self.old) name.now bytes) }
        ensures too_long { IsErrOf result FetchFault.TooLong → HasMore (told self.old) name.now most }
        ensures absent { IsErrOf result FetchFault.Absent → Lacks (told self.old) name.now }
        ensures failed { IsErrOf result FetchFault.Failed → Rose (faults self.old) (faults self.new) };
}
