//! The unknowns of the entries of variables.
ghost use Rattle.std.specs.Prelude.{◌≡◌, ◌↔◌, ◌+◌, ◌<◌, ◌^◌, false, length, map, IsTrue, IfOk, OnOk, ◌++◌};
ghost use Rattle.dcx_shape.specs.Sides.{entries_of};
ghost use Rattle.dcx_shape.specs.Places.{places_below};
ghost use Rattle.dcx_unknowns.specs.Own.{is_own, own_count, source_of, listed_for};
ghost use Rattle.dcx_unknowns.specs.Unknowns.{demanded, sides_in, own_kinds, variable_unknowns, variable_kinds, AreFirstsOf, unknown_from};
ghost use Rattle.dcx_call.specs.Attributes.{IsSquare, AreSquare};

use crate::own::{is_own, kind_of, mirror, own_count};
use dcx_linear::UnknownKind;
use dcx_tree::{Attribute, Variable};
use std::alloc::{AllocError, Global};

/// For each variable the number of its first unknown: that of all unknowns of the variables before it. A problem's variables
/// have at most 400,000,000 unknowns.
pub fn first_unknowns(alloc: Global, variables: &[Variable]) -> Result<Vec<u32>, AllocError>
    requires { variable_unknowns variables.now < 2 ^ 32 }
    ensures { IfOk result (λ v. AreFirstsOf variables.now v.items) }
{
    let mut firsts = Vec::new(alloc);
    let mut next = 0u32;
    'variables: for variable in variables {
        firsts.push(next)?;
        next += own_count(variable);
    }
    Ok(firsts)
}

/// For each entry of a variable the unknown that stands for it, where the variable's unknowns begin with `first`; `None` where
/// the entry is 0.
pub fn entry_unknowns(
    alloc: Global,
    first: u32,
    variable: &Variable,
) -> Result<Vec<Option<u32>>, AllocError>
    requires square { IsSquare variable.now }
    requires fits { first + own_count (demanded variable.now) (sides_in variable.now) < 2 ^ 32 }
    ensures { IfOk result (λ v. v.items ≡ map (unknown_from first variable.now) (places_below (entries_of (sides_in variable.now)))) }
{
    let mut unknowns = Vec::new(alloc);
    let mut next = first;
    'entries: for entry in 0..variable.shape.size() {
        if is_own(variable, entry) {
            unknowns.push(Some(next))?;
            next += 1;
        } else {
            unknowns.push(mirrored(variable, entry, &unknowns))?;
        }
    }
    Ok(unknowns)
}

/// The unknown of an entry that has none of its own, where those of the entries before it are listed: that of its mirror, or
/// none.
fn mirrored(variable: &Variable, entry: u32, unknowns: &[Option<u32>]) -> Option<u32>
    requires there { entry < entries_of (sides_in variable.now) }
    requires square { IsSquare variable.now }
    requires other { is_own (demanded variable.now) (sides_in variable.now) entry ≡ false }
    requires listed { length unknowns.now ≡ entry }
    ensures { result ≡ listed_for unknowns.now (source_of (demanded variable.now) (sides_in variable.now) entry) }
{
    match variable.demanded() {
        Attribute::Symmetric => unknowns[mirror(variable, entry) as usize],
        _ => None,
    }
}

/// Adds the kinds of the unknowns of variables, in order.
pub(crate) fn push_kinds(
    kinds: &mut Vec<UnknownKind>,
    variables: &[Variable],
) -> Result<(), AllocError>
    ensures { OnOk result (kinds.new.items ≡ kinds.old.items ++ variable_kinds variables.now) }
{
    'variables: for variable in variables {
        push_own(kinds, variable)?;
    }
    Ok(())
}

/// Adds the kinds of the unknowns of one variable.
fn push_own(kinds: &mut Vec<UnknownKind>, variable: &Variable) -> Result<(), AllocError>
    ensures { OnOk result (kinds.new.items ≡ kinds.old.items ++ own_kinds variable.now) }
{
    let kind = kind_of(variable.demanded());
    'own: for _ in 0..own_count(variable) {
        kinds.push(kind)?;
    }
    Ok(())
}
