//! Entries that are formed one after the other, up to the first that stops.
ghost use Rattle.std.specs.Prelude.{◌≡◌, ℕ, Result, IfOk, IfErr};
ghost use Rattle.dcx_frac.specs.declared.fraction.Frac.{Frac};
ghost use Rattle.dcx_atom.specs.declared.stops.ValueStop.{ValueStop};
ghost use Rattle.dcx_call.specs.Forming.{AreFormed, IsStop};

use dcx_atom::ValueStop;
use dcx_frac::{Frac, Fracs};
use std::alloc::Global;

/// Entries that are formed one by one.
pub(crate) trait Entrywise {
    /// Each entry, as it is formed.
    ghost formed: { Self → ℕ → Result Frac ValueStop };

    /// Entry `j`, or why it isn't formed.
    fn entry(&self, j: u32) -> Result<Frac, ValueStop>
        ensures { result ≡ formed self.now j };
}

/// So many entries in order, or the first stop.
pub(crate) fn fill<E: Entrywise>(alloc: Global, entries: &E, size: u32) -> Result<Fracs, ValueStop>
    ensures ok { IfOk result (AreFormed (E.formed entries.now) size) }
    ensures stop { IfErr result (IsStop (E.formed entries.now) size) }
{
    let mut formed = Vec::new(alloc);
    for j in 0..size {
        let entry = entries.entry(j)?;
        match formed.push(entry) {
            Ok(()) => {}
            Err(_) => return Err(ValueStop::Memory),
        }
    }
    Ok(Fracs::from_vec(formed))
}
