//! Results put beside each other, where the first error counts.

use std::alloc::AllocError;
use std::io;

/// Both of two that are made.
pub(crate) fn both<T: Drop, U: Drop, E: Drop>(
    first: Result<T, E>,
    second: Result<U, E>,
) -> Result<(T, U), E> {
    let first = first?;
    let second = second?;
    Ok((first, second))
}

/// What was made, once this is done with it.
pub(crate) fn after<T: Drop, E: Drop>(done: Result<(), E>, made: T) -> Result<T, E> {
    done?;
    Ok(made)
}

/// What was made, where it could be read.
pub(crate) fn if_read<T: Drop, E: Drop>(is_read: Result<bool, E>, made: T) -> Result<Option<T>, E> {
    if is_read? { Ok(Some(made)) } else { Ok(None) }
}

/// Puts what was made in the place of what stands there.
pub(crate) fn set<T: Drop, E: Drop>(place: &mut T, made: Result<T, E>) -> Result<(), E> {
    *place = made?;
    Ok(())
}

/// The same, with the error of one that reads and writes.
pub(crate) fn in_io<T: Drop>(made: Result<T, AllocError>) -> io::Result<T> {
    Ok(made?)
}
