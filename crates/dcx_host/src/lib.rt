//! Where files come from and where bytes go: libraries and sinks, in memory and of the host.
//!
//! | what must hold | where |
//! |---|---|
//! | a fetch gives the bytes that the name has, and no more than were asked for; each fault has its cause | `Library` |
//! | a write appends a front of the piece and says how much, or nothing | `Sink` |
//! | a text is written whole, or a front of it | `write_all` |
//! | each write is handed all that is left; what they take adds up to what is written | `write_all`, by the pieces that a sink may tell, as one in `dcx_unit_tests` does: `specs/Pieces.antt` |
//! | a fault of reading or writing is counted in the call that answers it | `Library`, `Sink`, `Rose` of `specs/Faults.antt` |
//! | a library and a sink in memory tell what they hold | `told` and `written` of `MemoryLibrary`, `MemorySink`, `SteadyLibrary`, `SteadySink` |
//! | `SteadyLibrary` and `SteadySink` never answer `Failed` | `failed` of `Library` and `Sink`, by their `faults`, which is 0 |
//! | a write that a signal interrupts is made again and is no fault, as a read is by the `read_to_end` of the standard library | `retried` of `write_some` in `real.rt` |
//! | the files and the standard output of the host tell nothing | `FileLibrary`, `OutSink` |
//!
//! `MemoryLibrary` and `MemorySink` answer `Failed` exactly at the calls that are listed, the sink also where it takes nothing of a
//! piece that isn't empty: that is in no contract, and is tested by `dcx_unit_tests`.
#![tactic(auto)]

mod library;
mod memory;
mod real;
mod sink;
mod write;

pub use library::{FetchFault, Library};
pub use memory::{MemoryLibrary, MemorySink, SteadyLibrary, SteadySink};
pub use real::{FileLibrary, OutSink};
pub use sink::{Sink, SinkFault};
pub use write::write_all;
