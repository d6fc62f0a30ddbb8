//! How many columns unknowns have, and counts within 32 bits.
ghost use Rattle.std.specs.Prelude.{◌≡◌, sum_by};
ghost use Rattle.dcx_linear.specs.Size.{columns_for, capped};

use crate::row::UnknownKind;

impl UnknownKind {
    /// The columns of an unknown of this kind: two where it is free, for what is above and what is below 0.
    pub fn columns(self) -> u32
        ensures { result ≡ columns_for self }
    {
        match self {
            UnknownKind::Free => 2,
            UnknownKind::Nonneg | UnknownKind::Nonpos => 1,
        }
    }
}

/// The columns of unknowns of these kinds, or 4,294,967,295 where they are more.
pub fn unknown_columns(kinds: &[UnknownKind]) -> u32
    ensures { result ≡ capped (sum_by columns_for kinds.now) }
{
    let mut count = 0u32;
    'kinds: for kind in kinds {
        count = count.saturating_add(kind.columns());
    }
    count
}

/// A length, or 4,294,967,295 where it is more.
pub fn capped_length(length: usize) -> u32
    ensures { result ≡ capped length }
{
    if length < u32::MAX as usize {
        length as u32
    } else {
        u32::MAX
    }
}
