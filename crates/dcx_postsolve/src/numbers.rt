//! The numbers of unknowns from those of their columns.
ghost use Rattle.std.specs.Prelude.{◌≡◌, ◌+◌, ◌≤◌, length, map, sum_by, IfOk};
ghost use Rattle.dcx_frac.specs.Frac.{value};
ghost use Rattle.dcx_linear.specs.Size.{columns_for};
ghost use Rattle.dcx_postsolve.specs.Numbers.{unknown_number, unknown_numbers, IsOneSidedAt, AreOneSided};

use dcx_frac::{Frac, Fracs};
use dcx_linear::UnknownKind;
use std::alloc::{AllocError, Global};

/// The number of an unknown of this kind whose columns begin with column `first`.
fn unknown_number(kind: UnknownKind, columns: &[Frac], first: usize) -> Frac
    requires there { first + columns_for kind ≤ length columns.now }
    requires one_sided { IsOneSidedAt (map value columns.now) first kind }
    ensures { value result ≡ unknown_number (map value columns.now) first kind }
{
    match kind {
        UnknownKind::Free => {
            let plus = columns[first];
            if plus.is_zero() {
                columns[first + 1].neg()
            } else {
                plus
            }
        }
        UnknownKind::Nonneg => columns[first],
        UnknownKind::Nonpos => columns[first].neg(),
    }
}

/// The number of each unknown from those of the columns, which begin with those of the unknowns, in order: of a free one the
/// first of its two columns less the second, of a nonneg one its column, of a nonpos one its column negated.
pub fn unknown_numbers(
    alloc: Global,
    kinds: &[UnknownKind],
    columns: &[Frac],
) -> Result<Fracs, AllocError>
    requires there { sum_by columns_for kinds.now ≤ length columns.now }
    requires one_sided { AreOneSided kinds.now (map value columns.now) }
    ensures { IfOk result (λ v. map value v ≡ unknown_numbers kinds.now (map value columns.now)) }
{
    let mut numbers = Vec::with_capacity(alloc, kinds.len())?;
    let mut next = 0usize;
    'kinds: for kind in kinds {
        numbers.push(unknown_number(*kind, columns, next))?;
        next += kind.columns() as usize;
    }
    Ok(Fracs::from_vec(numbers))
}
