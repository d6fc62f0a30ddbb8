//! Why a script is refused while it is carried out.
ghost use Rattle.std.specs.Prelude.{◌≡◌};
ghost use Rattle.dcx_script_values.specs.declared.fault.ElabFault.TheVariants.{Memory};
ghost use Rattle.dcx_array.specs.Shapes.{told};
ghost use Rattle.dcx_script_values.specs.Faults.{array_fault_at, tree_fault_at};

use dcx_arena::{Count, TreeFault};
use dcx_array::ArrayFault;
use dcx_frac::Passes;
use dcx_shape::Place;
use std::alloc::{AllocError, AllocFailed};
use std::fmt;
use thiserror::Error;

/// The first fault of a script, and where it stands.
#[derive(Clone, Copy, Error)]
pub enum ElabFault {
    /// A name isn't bound.
    #[error("the name is not bound")]
    UnknownName(Place),
    /// What is called is no call of the language.
    #[error("there is no such call")]
    UnknownCall(Place),
    /// An argument or operand is missing, one too many or of a wrong kind: at the argument, at the called expression where it is
    /// missing, at the operator or the `[`. Also a name that is declared again and attributes that exclude each other, at the called
    /// expression; `p.value = e` where `p` is no parameter or `e` no numbers, at `value`; a plain divisor of 0, at the `/`; and lists
    /// and tuples that would be nested more than 64 deep, at the opening bracket of the outermost.
    #[error("the argument does not fit")]
    BadArgument(Place),
    /// A form that is read and has no meaning.
    #[error("the form is not offered")]
    NotOffered(Place),
    /// The shapes don't fit the call.
    #[error("the shapes do not fit")]
    ShapeClash(Place),
    /// A whole-number index is out of range.
    #[error("the index is out of range")]
    IndexRange(Place),
    /// There would be no entry.
    #[error("there would be no entry")]
    EmptyResult(Place),
    /// The script ends without a problem.
    #[error("the script has no problem")]
    NoProblem(Place),
    /// A second problem is made.
    #[error("the script has two problems")]
    TwoProblems(Place),
    /// There would be so many, which is more than there may be; 4,294,967,295 where there would be more.
    #[error("there would be too much")]
    TooMany {
        place: Place,
        what: Count,
        count: u32,
    },
    /// An operation on plain numbers passes 128 bits.
    #[error("a number passes 128 bits")]
    PlainWide {
        place: Place,
        passes: Passes,
    },
    /// No memory.
    #[error("out of memory")]
    Memory,
}

/// The message, as `Display` has it.
impl fmt::Debug for ElabFault {
    fn fmt<W: fmt::Write>(&self, f: &mut fmt::Formatter<W>) -> fmt::Result {
        fmt::Display::fmt(self, f)
    }
}

impl From<AllocError> for ElabFault {
    ghost from_gives = { λ _ e. e ≡ Memory };

    fn from(_e: AllocError) -> ElabFault {
        ElabFault::Memory
    }
}

impl<T: Drop> From<AllocFailed<T>> for ElabFault {
    ghost from_gives = { λ _ e. e ≡ Memory };

    fn from(_e: AllocFailed<T>) -> ElabFault {
        ElabFault::Memory
    }
}

/// That there would be so many; a count that is too great for its type is told as the greatest.
pub fn too_many(place: Place, what: Count, count: u128) -> ElabFault
    ensures { result ≡ ElabFault.TooMany place what (told count) }
{
    ElabFault::TooMany {
        place,
        what,
        count: u32::try_from(count).unwrap_or(u32::MAX),
    }
}

/// Why there is no plain array, at the place of what makes it.
pub fn array_fault(place: Place, fault: ArrayFault) -> ElabFault
    ensures { result ≡ array_fault_at place fault }
{
    match fault {
        ArrayFault::Clash => ElabFault::ShapeClash(place),
        ArrayFault::ZeroDivisor => ElabFault::BadArgument(place),
        ArrayFault::TooMany { count } => ElabFault::TooMany {
            place,
            what: Count::Items,
            count,
        },
        ArrayFault::Wide(passes) => ElabFault::PlainWide { place, passes },
        ArrayFault::Range => ElabFault::IndexRange(place),
        ArrayFault::Empty => ElabFault::EmptyResult(place),
        ArrayFault::Memory => ElabFault::Memory,
    }
}

/// Why a node is refused, at the place of what makes it.
pub fn tree_fault(place: Place, fault: TreeFault) -> ElabFault
    ensures { result ≡ tree_fault_at place fault }
{
    match fault {
        TreeFault::Clash => ElabFault::ShapeClash(place),
        TreeFault::TooMany { what, count } => too_many(place, what, count as u128),
        TreeFault::Memory => ElabFault::Memory,
    }
}
