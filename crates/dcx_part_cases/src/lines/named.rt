//! Points and settings as they are written: `x (2) 1 2; y () 3`.
use crate::lines::arrays::array;
use crate::lines::fault::CaseFault;
use crate::lines::word::name;
use dcx_atom::Array;
use dcx_point::{Point, Setting};
use dcx_shape::Name;
use std::alloc::{AllocError, Global};

/// Arrays under names.
trait Named {
    /// Puts an array under a name.
    fn put(&mut self, name: Name, array: Array) -> Result<(), AllocError>;
}

impl Named for Point {
    fn put(&mut self, name: Name, array: Array) -> Result<(), AllocError> {
        Point::put(self, name, array)
    }
}

impl Named for Setting {
    fn put(&mut self, name: Name, array: Array) -> Result<(), AllocError> {
        Setting::put(self, name, array)
    }
}

/// Puts the array that an item says under its name.
fn put_item<N: Named>(alloc: Global, named: &mut N, item: &str) -> Result<(), CaseFault> {
    let Some((word, rest)) = item.trim().split_once(' ') else {
        return Err(CaseFault::Unreadable);
    };
    let name = name(alloc, word)?;
    let array = array(alloc, rest)?;
    named.put(name, array)?;
    Ok(())
}

/// Puts the arrays that a text says under their names.
fn put_items<N: Named>(alloc: Global, named: &mut N, text: &str) -> Result<(), CaseFault> {
    if text.is_empty() {
        return Ok(());
    }
    for item in text.split(';') {
        put_item(alloc, named, item)?;
    }
    Ok(())
}

/// These arrays, and those that a text says.
fn with_items<N: Named + Drop>(alloc: Global, named: N, text: &str) -> Result<N, CaseFault> {
    let mut named = named;
    put_items(alloc, &mut named, text)?;
    Ok(named)
}

/// The point that a text says. `Unreadable` where it says none.
pub(crate) fn point(alloc: Global, text: &str) -> Result<Point, CaseFault> {
    with_items(alloc, Point::empty(alloc), text)
}

/// The setting that a text says. `Unreadable` where it says none.
pub(crate) fn setting(alloc: Global, text: &str) -> Result<Setting, CaseFault> {
    with_items(alloc, Setting::empty(alloc), text)
}
