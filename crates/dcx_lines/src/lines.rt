//! Appends lines of numbers and arrays.
ghost use Rattle.std.specs.Prelude.{◌≡◌, ◌++◌, IfSome, slice_get, OnOk};
ghost use Rattle.std.specs.List.{flat_map};
ghost use Rattle.dcx_lines.specs.Lines.{number_line, named_line, dual_line, dual_lines};

use crate::pieces::{put_array, put_bytes, put_frac, put_number};
use crate::point::pair_at;
use dcx_atom::Array;
use dcx_frac::Frac;
use dcx_point::Point;
use dcx_shape::Name;
use std::alloc::AllocError;

/// Appends a line of a word and a number.
#[tactic(auto, unfolding(crate::specs::Lines::number_line))]
pub fn put_number_line(out: &mut Vec<u8>, word: &[u8], number: Frac) -> Result<(), AllocError>
    ensures { OnOk result (out.new.items ≡ out.old.items ++ number_line word.now number) }
{
    put_bytes(out, word)?;
    put_bytes(out, b" ")?;
    put_frac(out, &number)?;
    put_bytes(out, b"\n")
}

/// Appends a line of an array under a word and a name.
#[tactic(auto, unfolding(crate::specs::Lines::named_line))]
pub fn put_named_line(
    out: &mut Vec<u8>,
    word: &[u8],
    name: &Name,
    array: &Array,
) -> Result<(), AllocError>
    ensures { OnOk result (out.new.items ≡ out.old.items ++ named_line word.now (name.now, array.now)) }
{
    put_bytes(out, word)?;
    put_bytes(out, b" ")?;
    put_bytes(out, name.as_slice())?;
    put_bytes(out, b" ")?;
    put_array(out, array)?;
    put_bytes(out, b"\n")
}

/// Appends the line of pair `i`, where there is one, under a word.
fn put_pair_line(out: &mut Vec<u8>, word: &[u8], point: &Point, i: usize) -> Result<(), AllocError>
    ensures { OnOk result (IfSome (slice_get point.now i) (λ pair. out.new.items ≡ out.old.items ++ named_line word.now pair)) }
{
    match pair_at(point, i) {
        Some((name, array)) => put_named_line(out, word, name, array),
        None => Ok(()),
    }
}

/// Appends a line of each array of a point under a word and its name, in order.
pub fn put_named_lines(out: &mut Vec<u8>, word: &[u8], point: &Point) -> Result<(), AllocError>
    ensures { OnOk result (out.new.items ≡ out.old.items ++ flat_map (named_line word.now) point.now) }
{
    'pairs: for i in 0..point.len() {
        put_pair_line(out, word, point, i)?;
    }
    Ok(())
}

/// Appends the line of a constraint's multipliers under its number.
#[tactic(auto, unfolding(crate::specs::Lines::dual_line))]
fn put_dual_line(out: &mut Vec<u8>, number: u64, duals: &Array) -> Result<(), AllocError>
    ensures { OnOk result (out.new.items ≡ out.old.items ++ dual_line (number, duals.now)) }
{
    put_bytes(out, b"dual ")?;
    put_number(out, number)?;
    put_bytes(out, b" ")?;
    put_array(out, duals)?;
    put_bytes(out, b"\n")
}

/// Appends a line of each constraint's multipliers, numbered from 1.
#[tactic(auto, using(crate::proofs::Numbered::numbered_more), unfolding(crate::specs::Lines::dual_lines))]
pub fn put_dual_lines(out: &mut Vec<u8>, duals: &[Array]) -> Result<(), AllocError>
    ensures { OnOk result (out.new.items ≡ out.old.items ++ dual_lines duals.now) }
{
    let mut number = 0;
    for array in duals {
        number += 1;
        put_dual_line(out, number, array)?;
    }
    Ok(())
}
