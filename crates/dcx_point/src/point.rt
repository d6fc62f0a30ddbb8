//! Points: a value for each of some variables.
ghost use Rattle.std.specs.Prelude.{◌≡◌, [], length, slice_get, IfOk, OnOk, OnErr};
ghost use Rattle.std.specs.Option.{option_copied};

use crate::arrays::Arrays;
use dcx_atom::{Array, Name};
use std::alloc::{AllocError, Global};
use std::marker::Model;

/// Values of variables, seen by contracts as a list of pairs of a name and an array.
#[derive(Drop)]
pub struct Point {
    arrays: Arrays,
}

impl Model for Point {
    ghost use Rattle.dcx_point.specs.Pairs.{Pairs};

    ghost Value = { Pairs };

    ghost view = { λ x. x.arrays };
}

impl Point {
    ghost use Rattle.dcx_point.specs.Pairs.{names_of, array_of, with_array, AreDistinct};

    /// The point without names.
    pub fn empty(alloc: Global) -> Point
        ensures { result ≡ [] }
    {
        Point {
            arrays: Arrays::empty(alloc),
        }
    }

    /// Puts an array under the name of a variable: in place of the array that the name has, or else at the end.
    ///
    /// `AllocError` leaves the point as it was.
    pub fn put(&mut self, name: Name, value: Array) -> Result<(), AllocError>
        ensures ok { OnOk result (self.new ≡ with_array self.old name value) }
        ensures refused { OnErr result (self.new ≡ self.old) }
    {
        self.arrays.put(name, value)
    }

    /// How many names there are. No name stands twice.
    pub fn len(&self) -> usize
        ensures count { result ≡ length self.now }
        ensures distinct { AreDistinct self.now }
    {
        self.arrays.len()
    }

    /// The name of pair `i`, counted from 0; `None` where there are at most `i` pairs.
    pub fn name_at(&self, i: usize) -> Option<&Name>
        ensures { option_copied result ≡ slice_get (names_of self.now) i }
    {
        self.arrays.name_at(i)
    }

    /// The array of a name; `None` where no pair has the name.
    pub fn get(&self, name: &Name) -> Option<&Array>
        ensures { option_copied result ≡ array_of self.now name.now }
    {
        self.arrays.get(name)
    }

    /// The same point again. Fails only for want of memory.
    pub fn copy(&self, alloc: Global) -> Result<Point, AllocError>
        ensures { IfOk result (λ x. x ≡ self.now) }
    {
        Ok(Point {
            arrays: self.arrays.copy(alloc)?,
        })
    }
}
