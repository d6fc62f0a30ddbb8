//! Words of a line, and what each stands for.
ghost use Rattle.std.specs.Prelude.{◌≡◌, IfOk};

use crate::lines::fault::CaseFault;
use crate::lines::fractions::Number;
use dcx_frac::Frac;
use dcx_shape::Name;
use std::alloc::{AllocError, Global};

/// The words of a text.
pub(crate) fn words(alloc: Global, text: &str) -> Result<Vec<&str>, AllocError> {
    text.split_whitespace().collect(alloc)
}

/// The count that a word says. `Unreadable` where it says none.
pub(crate) fn count(word: &str) -> Result<u32, CaseFault> {
    match word.parse::<u32>() {
        Ok(count) => Ok(count),
        Err(_) => Err(CaseFault::Unreadable),
    }
}

/// The fraction that a word says. `Unreadable` where it says none.
pub(crate) fn fraction(word: &str) -> Result<Frac, CaseFault> {
    Ok(word.parse::<Number>()?.0)
}

/// The name with the letters of a word.
pub(crate) fn name(alloc: Global, word: &str) -> Result<Name, AllocError>
    ensures { IfOk result (λ n. n ≡ word.now) }
{
    Ok(Name::from_vec(Vec::from_slice(alloc, word.as_bytes())?))
}

/// Writes what stands between two items before item `k`: nothing before the first one.
pub(crate) fn put_between(out: &mut String, k: usize, between: &str) -> Result<(), AllocError> {
    if k == 0 {
        Ok(())
    } else {
        out.push_str(between)
    }
}
