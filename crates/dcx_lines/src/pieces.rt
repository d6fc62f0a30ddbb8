//! Appends what a line is made of: bytes, numbers, shapes and arrays.
ghost use Rattle.std.specs.Prelude.{◌≡◌, ◌++◌, OnOk, decimal};
ghost use Rattle.std.specs.List.{flat_map};
ghost use Rattle.dcx_frac.specs.Text.{frac_text};
ghost use Rattle.dcx_lines.specs.Pieces.{shape_text, entry_text, array_text};

use dcx_atom::Array;
use dcx_frac::{Frac, write_frac};
use dcx_shape::{Shape, Sides};
use itoa::Buffer;
use std::alloc::AllocError;

/// Appends bytes.
pub fn put_bytes(out: &mut Vec<u8>, bytes: &[u8]) -> Result<(), AllocError>
    ensures { OnOk result (out.new.items ≡ out.old.items ++ bytes.now) }
{
    out.extend_from_slice(bytes)
}

/// Appends the digits of a number.
pub fn put_number(out: &mut Vec<u8>, number: u64) -> Result<(), AllocError>
    ensures { OnOk result (out.new.items ≡ out.old.items ++ decimal number) }
{
    let mut buffer = Buffer::new();
    put_bytes(out, buffer.format(number).as_bytes())
}

/// Appends a fraction.
pub fn put_frac(out: &mut Vec<u8>, fraction: &Frac) -> Result<(), AllocError>
    ensures { OnOk result (out.new.items ≡ out.old.items ++ frac_text fraction.now) }
{
    let mut digits = [0; 90];
    let length = write_frac(fraction, &mut digits);
    put_bytes(out, &digits[..length])
}

/// Appends a shape.
#[tactic(auto, unfolding(crate::specs::Pieces::shape_text, crate::specs::Pieces::sides_text))]
pub fn put_shape(out: &mut Vec<u8>, shape: &Shape) -> Result<(), AllocError>
    ensures { OnOk result (out.new.items ≡ out.old.items ++ shape_text shape.now) }
{
    match shape.sides() {
        Sides::Scalar => put_bytes(out, b"()"),
        Sides::Vector(n) => {
            put_bytes(out, b"(")?;
            put_number(out, u64::from(n))?;
            put_bytes(out, b")")
        }
        Sides::Matrix(m, n) => {
            put_bytes(out, b"(")?;
            put_number(out, u64::from(m))?;
            put_bytes(out, b",")?;
            put_number(out, u64::from(n))?;
            put_bytes(out, b")")
        }
    }
}

/// Appends the entries of an array, each after a blank.
pub fn put_entries(out: &mut Vec<u8>, entries: &[Frac]) -> Result<(), AllocError>
    ensures { OnOk result (out.new.items ≡ out.old.items ++ flat_map entry_text entries.now) }
{
    for entry in entries {
        put_entry(out, entry)?;
    }
    Ok(())
}

/// Appends a blank and a number.
#[tactic(auto, unfolding(crate::specs::Pieces::entry_text))]
pub fn put_entry(out: &mut Vec<u8>, entry: &Frac) -> Result<(), AllocError>
    ensures { OnOk result (out.new.items ≡ out.old.items ++ entry_text entry.now) }
{
    put_bytes(out, b" ")?;
    put_frac(out, entry)
}

/// Appends the shape and the entries of an array.
#[tactic(auto, unfolding(crate::specs::Pieces::array_text))]
pub fn put_array(out: &mut Vec<u8>, array: &Array) -> Result<(), AllocError>
    ensures { OnOk result (out.new.items ≡ out.old.items ++ array_text array.now) }
{
    put_shape(out, &array.shape)?;
    put_bytes(out, b" =")?;
    put_entries(out, array.entries.as_slice())
}
