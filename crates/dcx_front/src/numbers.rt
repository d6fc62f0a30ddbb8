//! Faults of reading and of carrying out, by their numbers.
ghost use Rattle.std.specs.Prelude.{IsTrue};
ghost use Rattle.dcx_refusal.specs.Refusals.{is_refusal};
ghost use Rattle.dcx_front.specs.Accepts.{refused, plainly, read_ending, elab_ending, Tells};

use crate::FrontFault;
use dcx_refusal::{Carried, Refusal, RefusalSource};
use dcx_script_values::ElabFault;
use dcx_shape::Place;
use dcx_tokens::ReadFault;

/// The refusal of a file.
fn refused(source: RefusalSource, number: u8, place: Place, carried: Carried) -> FrontFault
    requires { IsTrue (is_refusal number carried) }
    ensures { Tells source (refused number place carried) result }
{
    FrontFault::Refused(Refusal::of(source, number, place, carried))
}

/// The refusal of a file that says nothing beside its place.
fn plainly(source: RefusalSource, number: u8, place: Place) -> FrontFault
    requires { IsTrue (is_refusal number Carried.Nothing) }
    ensures { Tells source (plainly number place) result }
{
    refused(source, number, place, Carried::Nothing)
}

/// Why a file that has this fault of reading is refused, or that memory ran out.
pub fn unread(source: RefusalSource, fault: ReadFault) -> FrontFault
    ensures { Tells source (read_ending fault) result }
{
    match fault {
        ReadFault::NotText(place) => plainly(source, 1, place),
        ReadFault::BadChar(place) => plainly(source, 2, place),
        ReadFault::BadNumber(place) => plainly(source, 3, place),
        ReadFault::Unclosed(place) => plainly(source, 4, place),
        ReadFault::Indent(place) => plainly(source, 5, place),
        ReadFault::Unexpected(place) => plainly(source, 6, place),
        ReadFault::TooDeep(place) => plainly(source, 7, place),
        ReadFault::TooLong(place) => plainly(source, 8, place),
        ReadFault::Memory => FrontFault::Memory,
    }
}

/// Why a script that has this fault of carrying out is refused, or that memory ran out.
pub(crate) fn faulty(fault: ElabFault) -> FrontFault
    ensures { Tells RefusalSource.Script (elab_ending fault) result }
{
    match fault {
        ElabFault::UnknownName(place) => plainly(RefusalSource::Script, 9, place),
        ElabFault::UnknownCall(place) => plainly(RefusalSource::Script, 10, place),
        ElabFault::BadArgument(place) => plainly(RefusalSource::Script, 11, place),
        ElabFault::NotOffered(place) => plainly(RefusalSource::Script, 12, place),
        ElabFault::ShapeClash(place) => plainly(RefusalSource::Script, 13, place),
        ElabFault::IndexRange(place) => plainly(RefusalSource::Script, 14, place),
        ElabFault::EmptyResult(place) => plainly(RefusalSource::Script, 15, place),
        ElabFault::NoProblem(place) => plainly(RefusalSource::Script, 16, place),
        ElabFault::TwoProblems(place) => plainly(RefusalSource::Script, 17, place),
        ElabFault::TooMany { place, what, count } => {
            let carried = Carried::Count { what, count };
            refused(RefusalSource::Script, 18, place, carried)
        }
        ElabFault::PlainWide { place, passes } => {
            refused(RefusalSource::Script, 20, place, Carried::Passes(passes))
        }
        ElabFault::Memory => FrontFault::Memory,
    }
}
