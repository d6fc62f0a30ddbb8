//! Appends what only a line of the report is made of: places, operations that pass 128 bits, and texts with what stands behind them.
ghost use Rattle.std.specs.Prelude.{◌≡◌, ◌++◌, OnOk, decimal};
ghost use Rattle.dcx_report.specs.Pieces.{place_text, op_text, passes_text};

use dcx_frac::{Op, Passes};
use dcx_lines::{put_bytes, put_entry, put_number};
use dcx_shape::Place;
use std::alloc::AllocError;

/// Appends two texts.
pub(crate) fn put_both(out: &mut Vec<u8>, first: &[u8], second: &[u8]) -> Result<(), AllocError>
    ensures { OnOk result (out.new.items ≡ out.old.items ++ (first.now ++ second.now)) }
{
    put_bytes(out, first)?;
    put_bytes(out, second)
}

/// Appends a text and a number.
pub(crate) fn put_numbered(out: &mut Vec<u8>, text: &[u8], number: u64) -> Result<(), AllocError>
    ensures { OnOk result (out.new.items ≡ out.old.items ++ (text.now ++ decimal number)) }
{
    put_bytes(out, text)?;
    put_number(out, number)
}

/// Appends a place.
#[tactic(auto, unfolding(crate::specs::Pieces::place_text))]
pub(crate) fn put_place(out: &mut Vec<u8>, place: Place) -> Result<(), AllocError>
    ensures { OnOk result (out.new.items ≡ out.old.items ++ place_text place) }
{
    put_number(out, u64::from(place.line))?;
    put_numbered(out, b":", u64::from(place.column))
}

/// Appends the name of an operation.
#[tactic(auto, unfolding(crate::specs::Pieces::op_text))]
fn put_op(out: &mut Vec<u8>, op: Op) -> Result<(), AllocError>
    ensures { OnOk result (out.new.items ≡ out.old.items ++ op_text op) }
{
    match op {
        Op::Add => put_bytes(out, b"add"),
        Op::Sub => put_bytes(out, b"sub"),
        Op::Mul => put_bytes(out, b"mul"),
        Op::Div => put_bytes(out, b"div"),
        Op::Lcm => put_bytes(out, b"lcm"),
    }
}

/// Appends a blank, an operation that passes 128 bits, and its operands.
#[tactic(auto, unfolding(crate::specs::Pieces::passes_text))]
pub(crate) fn put_passes(out: &mut Vec<u8>, passes: &Passes) -> Result<(), AllocError>
    ensures { OnOk result (out.new.items ≡ out.old.items ++ passes_text passes.now) }
{
    put_bytes(out, b" ")?;
    put_op(out, passes.op)?;
    put_entry(out, &passes.left)?;
    put_entry(out, &passes.right)
}
