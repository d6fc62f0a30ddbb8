//! The rows or columns of arguments, one after another.
ghost use Rattle.std.specs.Prelude.{◌≡◌, ◌+◌, ◌<◌, ◌≤◌, ◌++◌, IfOk, OnOk, IfSome, IfNone, length};
ghost use Rattle.dcx_shape.specs.Shape.{sides_of};
ghost use Rattle.dcx_atom.specs.Arrays.{sides_list, list_below};
ghost use Rattle.dcx_affine.specs.Joined.{lines_of, lined_up, all_lines};

use dcx_shape::{MOST_ENTRIES, Shape};
use std::alloc::{AllocError, Global};

/// A kind of line of an array.
#[derive(Clone, Copy)]
pub(crate) enum Line {
    /// A row.
    Row,
    /// A column.
    Column,
}

/// A line of an argument.
#[derive(Clone, Copy)]
pub(crate) struct Slot {
    /// The argument, counted from 0.
    pub argument: u32,
    /// The line in it.
    pub place: u32,
}

impl Line {
    /// How many lines of this kind an array has.
    pub fn count(self, shape: Shape) -> u32
        ensures is { result ≡ lines_of self (sides_of shape) }
        ensures some { 0 < result }
        ensures most { result ≤ 20000 }
    {
        match self {
            Line::Row => shape.rows(),
            Line::Column => shape.cols(),
        }
    }

    /// How many lines all arguments have; `None` where they are more than 20,000.
    pub fn total(self, args: &[Shape]) -> Option<u32>
        ensures sum { IfSome result (λ n. n ≡ all_lines self (sides_list args.now)) }
        ensures most { IfSome result (λ n. n ≤ 20000) }
        ensures many { IfNone result (20000 < all_lines self (sides_list args.now)) }
    {
        let mut total = 0;
        for shape in args {
            total += self.count(*shape);
            if total > MOST_ENTRIES {
                return None;
            }
        }
        Some(total)
    }

    /// The lines of the arguments, which are at most 20,000.
    pub fn slots(self, alloc: Global, args: &[Shape]) -> Result<Vec<Slot>, AllocError>
        requires { all_lines self (sides_list args.now) ≤ 20000 }
        ensures { IfOk result (λ v. v.items ≡ lined_up self 0 (sides_list args.now)) }
    {
        let mut slots = Vec::new(alloc);
        for (i, shape) in args.iter().enumerate() {
            push_slots(&mut slots, i as u32, self.count(*shape))?;
        }
        Ok(slots)
    }
}

/// Appends the lines of one argument.
fn push_slots(slots: &mut Vec<Slot>, argument: u32, count: u32) -> Result<(), AllocError>
    ensures { OnOk result (slots.new.items ≡ slots.old.items ++ list_below count (λ e. record { argument = argument; place = e })) }
{
    for place in 0..count {
        slots.push(Slot { argument, place })?;
    }
    Ok(())
}
