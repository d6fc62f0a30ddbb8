//! Arrays under distinct names, in the order in which the names were first put.
ghost use Rattle.std.specs.Prelude.{◌≡◌, [], length, slice_get, IfOk, OnOk, OnErr};
ghost use Rattle.std.specs.Option.{option_copied};

use dcx_atom::{Array, Name, copy_array, copy_name};
use indexmap::IndexMap;
use std::alloc::{AllocError, Global};
use std::marker::Model;

/// Pairs of a name and an array.
#[derive(Drop)]
pub(crate) struct Arrays {
    pairs: IndexMap<Name, Array>,
}

impl Model for Arrays {
    ghost use Rattle.dcx_point.specs.Pairs.{Pairs, AreDistinct};

    ghost Value = { Pairs };

    ghost view = { λ x. x.pairs.entries };

    ghost invariant = { λ x. AreDistinct x.pairs.entries };
}

impl Arrays {
    ghost use Rattle.dcx_point.specs.Pairs.{names_of, array_of, with_array, AreDistinct};

    /// No pairs.
    pub(crate) fn empty(alloc: Global) -> Arrays
        ensures { result ≡ [] }
    {
        Arrays {
            pairs: IndexMap::new(alloc),
        }
    }

    /// Puts an array under a name.
    pub(crate) fn put(&mut self, name: Name, array: Array) -> Result<(), AllocError>
        ensures ok { OnOk result (self.new ≡ with_array self.old name array) }
        ensures refused { OnErr result (self.new ≡ self.old) }
    {
        self.pairs.insert(name, array)?;
        Ok(())
    }

    /// How many pairs there are.
    pub(crate) fn len(&self) -> usize
        ensures count { result ≡ length self.now }
        ensures distinct { AreDistinct self.now }
    {
        self.pairs.len()
    }

    /// The name of pair `i`.
    pub(crate) fn name_at(&self, i: usize) -> Option<&Name>
        ensures { option_copied result ≡ slice_get (names_of self.now) i }
    {
        let (name, _) = self.pairs.get_index(i)?;
        Some(name)
    }

    /// The array of a name.
    pub(crate) fn get(&self, name: &Name) -> Option<&Array>
        ensures { option_copied result ≡ array_of self.now name.now }
    {
        self.pairs.get(name)
    }

    /// The same pairs again.
    pub(crate) fn copy(&self, alloc: Global) -> Result<Arrays, AllocError>
        ensures { IfOk result (λ a. a ≡ self.now) }
    {
        let mut copied = Arrays::empty(alloc);
        for i in 0..self.len() {
            if let Some(name) = self.name_at(i) {
                if let Some(array) = self.get(name) {
                    copied.put(copy_name(alloc, name)?, copy_array(alloc, array)?)?;
                }
            }
        }
        Ok(copied)
    }
}
