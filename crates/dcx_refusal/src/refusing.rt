//! Refusals as they are made, and their names.
ghost use Rattle.std.specs.Prelude.{◌≡◌, IsTrue};
ghost use Rattle.dcx_refusal.specs.Refusals.{is_refusal, refusal_name};
ghost use Rattle.dcx_refusal.specs.Made.{IsRefusedAs, IsTooLong};

use crate::{Carried, Refusal, RefusalSource};
use dcx_answer::NotRanged;
use dcx_shape::Place;

/// The name of the refusal of a number.
#[tactic(auto, unfolding(crate::specs::Refusals::refusal_name))]
fn name_of(number: u8) -> &'static [u8]
    ensures { result.now ≡ refusal_name number }
{
    match number {
        1 => b"NotText",
        2 => b"BadChar",
        3 => b"BadNumber",
        4 => b"Unclosed",
        5 => b"Indent",
        6 => b"Unexpected",
        7 => b"TooDeep",
        8 => b"TooLong",
        9 => b"UnknownName",
        10 => b"UnknownCall",
        11 => b"BadArgument",
        12 => b"NotOffered",
        13 => b"ShapeClash",
        14 => b"IndexRange",
        15 => b"EmptyResult",
        16 => b"NoProblem",
        17 => b"TwoProblems",
        18 => b"TooMany",
        19 => b"NotDcp",
        20 => b"PlainWide",
        34 => b"WholeVariable",
        35 => b"NotRanged",
        _ => b"",
    }
}

impl Refusal {
    /// The refusal of a file with this number, at this place, which says this.
    pub fn of(source: RefusalSource, number: u8, place: Place, carried: Carried) -> Refusal
        requires { IsTrue (is_refusal number carried) }
        ensures { IsRefusedAs source number place carried result }
    {
        Refusal {
            source,
            number,
            place,
            carried,
        }
    }

    /// The refusal of a whole file for its length.
    pub fn too_long(source: RefusalSource) -> Refusal
        ensures { IsTooLong source result }
    {
        let place = Place { line: 1, column: 1 };
        Refusal::of(source, 8, place, Carried::Nothing)
    }

    /// The refusal of a script for a variable whose entries are to be whole, which stands at this place.
    pub fn whole_variable(place: Place) -> Refusal
        ensures { IsRefusedAs RefusalSource.Script 34 place Carried.Nothing result }
    {
        Refusal::of(RefusalSource::Script, 34, place, Carried::Nothing)
    }

    /// The refusal of a script at this place for what stands against the range of a parameter.
    pub fn not_ranged(place: Place, fault: NotRanged) -> Refusal
        ensures { IsRefusedAs RefusalSource.Script 35 place (Carried.NotRanged fault) result }
    {
        Refusal::of(RefusalSource::Script, 35, place, Carried::NotRanged(fault))
    }

    /// The name of the refusal.
    pub fn name(&self) -> &'static [u8]
        ensures { result.now ≡ refusal_name self.now.number }
    {
        name_of(self.number)
    }
}
