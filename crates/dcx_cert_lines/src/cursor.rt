//! What is left of the bytes of a certificate, line by line.
ghost use Rattle.std.specs.Prelude.{◌≡◌, ◌∷◌, [], ◌++◌, length, ◌<◌, ◌^◌, IfOk, IfErr};
ghost use Rattle.dcx_shape.specs.Shape.{sides_of};
ghost use Rattle.dcx_shape.specs.Sides.{entries_of};
ghost use Rattle.dcx_frac.specs.declared.fraction.Frac.{Frac};
ghost use Rattle.dcx_cert_lines.specs.Templates.{IsRead, IsStopped, IsSame, filled, IfMisfit, plain_template, number_template};

use dcx_atom::Array;
use dcx_frac::{Frac, Fracs};
use dcx_lines::read_entries;
use dcx_shape::Shape;
use std::alloc::{AllocError, AllocFailed, Global};

/// Why a part of a certificate isn't read.
#[derive(Clone, Copy)]
pub(crate) enum ReadStop {
    /// The next line isn't one of a certificate.
    Misfit,
    /// No memory.
    Memory,
}

impl From<AllocError> for ReadStop {
    ghost use Rattle.std.specs.Prelude.{◌≡◌};
    ghost use Rattle.dcx_cert_lines.specs.declared.cursor.ReadStop.TheVariants.{Memory};

    ghost from_gives = { λ _ e. e ≡ Memory };

    fn from(_: AllocError) -> Self {
        ReadStop::Memory
    }
}

impl<T: Drop> From<AllocFailed<T>> for ReadStop {
    ghost use Rattle.std.specs.Prelude.{◌≡◌};
    ghost use Rattle.dcx_cert_lines.specs.declared.cursor.ReadStop.TheVariants.{Memory};

    ghost from_gives = { λ _ e. e ≡ Memory };

    fn from(_: AllocFailed<T>) -> Self {
        ReadStop::Memory
    }
}

/// What is left of the bytes, and the number of the line that stands first in it.
#[derive(Drop)]
pub(crate) struct Cursor<'a> {
    pub(crate) rest: &'a [u8],
    pub(crate) line: u32,
    ghost small: { line < 2 ^ 32 },
}

impl Cursor<'_> {
    /// Reads a line: how it begins, and so many numbers behind that.
    pub(crate) fn numbers(
        &mut self,
        alloc: Global,
        front: &[u8],
        count: u32,
    ) -> Result<Vec<Frac>, ReadStop>
        ensures counted { IfOk result (λ v. length v.items ≡ count) }
        ensures read { IfOk result (λ v. IsRead (filled front.now v.items ∷ []) self.old.rest.now self.old.line self.new.rest.now self.new.line) }
        ensures misfit { IfErr result (IfMisfit (IsStopped (record { front = front.now; count = count } ∷ []) self.old.rest.now self.old.line self.new.line)) }
        ensures same { IfErr result (IfMisfit (IsSame self.old.rest.now self.old.line self.new.rest.now self.new.line)) }
    {
        match self.rest.strip_prefix(front) {
            Some(behind) => {
                let mut numbers = Vec::new(alloc);
                match read_entries(behind, count, &mut numbers)? {
                    Some(rest) => {
                        self.rest = rest;
                        self.line = self.line.saturating_add(1);
                        Ok(numbers)
                    }
                    None => Err(ReadStop::Misfit),
                }
            }
            None => Err(ReadStop::Misfit),
        }
    }

    /// Reads a line: how it begins, and an array of this shape behind that.
    pub(crate) fn array(
        &mut self,
        alloc: Global,
        front: &[u8],
        shape: Shape,
    ) -> Result<Array, ReadStop>
        ensures shape { IfOk result (λ a. a.shape ≡ shape) }
        ensures read { IfOk result (λ a. IsRead (filled front.now a.entries ∷ []) self.old.rest.now self.old.line self.new.rest.now self.new.line) }
        ensures misfit { IfErr result (IfMisfit (IsStopped (record { front = front.now; count = entries_of (sides_of shape) } ∷ []) self.old.rest.now self.old.line self.new.line)) }
    {
        let numbers = self.numbers(alloc, front, shape.size())?;
        Ok(Array {
            shape,
            entries: Fracs::from_vec(numbers),
        })
    }

    /// Reads a line without numbers.
    pub(crate) fn plain(&mut self, alloc: Global, text: &[u8]) -> Result<(), ReadStop>
        ensures read { IfOk result (λ _. IsRead (filled text.now [] ∷ []) self.old.rest.now self.old.line self.new.rest.now self.new.line) }
        ensures misfit { IfErr result (IfMisfit (IsStopped (plain_template text.now ∷ []) self.old.rest.now self.old.line self.new.line)) }
        ensures same { IfErr result (IfMisfit (IsSame self.old.rest.now self.old.line self.new.rest.now self.new.line)) }
    {
        self.numbers(alloc, text, 0)?;
        Ok(())
    }

    /// Reads a line of a word and a number.
    pub(crate) fn number(&mut self, alloc: Global, word: &[u8]) -> Result<Frac, ReadStop>
        ensures read { IfOk result (λ f. IsRead (filled word.now (f ∷ []) ∷ []) self.old.rest.now self.old.line self.new.rest.now self.new.line) }
        ensures misfit { IfErr result (IfMisfit (IsStopped (number_template word.now ∷ []) self.old.rest.now self.old.line self.new.line)) }
    {
        let numbers = self.numbers(alloc, word, 1)?;
        Ok(numbers[0])
    }
}
