//! Reads the lines of arrays and of weights.
ghost use Rattle.std.specs.Prelude.{◌≡◌, ◌∷◌, ◌++◌, [], map, IfOk, IfErr, OnOk, None, codes};
ghost use Rattle.dcx_point.specs.Pairs.{array_of};
ghost use Rattle.dcx_lines.specs.Shown.{variables_of, constraints_of};
ghost use Rattle.dcx_lines.specs.Lines.{named_line, dual_line};
ghost use Rattle.dcx_cert_sections.specs.Outlines.{shown, rows_shown};
ghost use Rattle.dcx_cert_sections.specs.Shown.{atoms_of};
ghost use Rattle.dcx_cert_lines.specs.CertText.{named_lines, dual_lines, node_lines, node_line};
ghost use Rattle.dcx_cert_lines.specs.Templates.{IsRead, IsStopped, IfMisfit, named_front, dual_front, node_front, named_template};
ghost use Rattle.dcx_cert_lines.specs.Templates.{dual_template, node_template, duals_from, AreDistinctNames, IsNextRead};

use crate::cursor::{Cursor, ReadStop};
use dcx_atom::Array;
use dcx_cert_sections::{AtomRows, NodeWeights, Shown};
use dcx_frac::Fracs;
use dcx_lines::{put_bytes, put_number, put_shape};
use dcx_point::{Point, Setting};
use dcx_shape::{Shape, copy_name};
use std::alloc::{AllocError, Global};

/// Appends how the line of a named array begins.
fn put_named_front(out: &mut Vec<u8>, word: &[u8], shown: &Shown) -> Result<(), AllocError>
    ensures { OnOk result (out.new.items ≡ out.old.items ++ named_front word.now shown.now.name shown.now.shape) }
{
    put_bytes(out, word)?;
    put_bytes(out, b" ")?;
    put_bytes(out, shown.name.as_slice())?;
    put_bytes(out, b" ")?;
    put_shape(out, &shown.shape)?;
    put_bytes(out, b" =")
}

/// Reads the line of a named array.
fn read_named(
    cursor: &mut Cursor<'_>,
    alloc: Global,
    word: &[u8],
    named: &Shown,
) -> Result<Array, ReadStop>
    ensures shape { IfOk result (λ a. a.shape ≡ named.now.shape) }
    ensures read { IfOk result (λ a. IsRead (named_line word.now (named.now.name, a) ∷ []) cursor.old.rest.now cursor.old.line cursor.new.rest.now cursor.new.line) }
    ensures misfit { IfErr result (IfMisfit (IsStopped (named_template word.now (shown named.now) ∷ []) cursor.old.rest.now cursor.old.line cursor.new.line)) }
{
    let mut front = Vec::new(alloc);
    put_named_front(&mut front, word, named)?;
    cursor.array(alloc, &front, named.shape)
}

/// Reads a variable's value, and puts it behind those of a point.
fn read_variable(
    cursor: &mut Cursor<'_>,
    alloc: Global,
    word: &[u8],
    named: &Shown,
    point: &mut Point,
) -> Result<(), ReadStop>
    requires { array_of point.old named.now.name ≡ None }
    ensures read { IfOk result (λ _. IsNextRead word.now (shown named.now) point.old point.new cursor.old.rest.now cursor.old.line cursor.new.rest.now cursor.new.line) }
    ensures misfit { IfErr result (IfMisfit (IsStopped (named_template word.now (shown named.now) ∷ []) cursor.old.rest.now cursor.old.line cursor.new.line)) }
{
    let name = copy_name(alloc, &named.name)?;
    let array = read_named(cursor, alloc, word, named)?;
    point.put(name, array)?;
    Ok(())
}

/// Reads a value of each variable into an empty point.
pub(crate) fn read_point(
    cursor: &mut Cursor<'_>,
    alloc: Global,
    word: &[u8],
    variables: &[Shown],
    point: &mut Point,
) -> Result<(), ReadStop>
    requires empty { point.old ≡ [] }
    requires distinct { AreDistinctNames (map shown variables.now) }
    ensures shown { OnOk result (variables_of point.new ≡ map shown variables.now) }
    ensures read { OnOk result (IsRead (named_lines word.now point.new) cursor.old.rest.now cursor.old.line cursor.new.rest.now cursor.new.line) }
    ensures misfit { IfErr result (IfMisfit (IsStopped (map (named_template word.now) (map shown variables.now)) cursor.old.rest.now cursor.old.line cursor.new.line)) }
{
    for named in variables {
        read_variable(cursor, alloc, word, named, point)?;
    }
    Ok(())
}

/// Reads a parameter's value, and puts it behind those of a setting.
fn read_parameter(
    cursor: &mut Cursor<'_>,
    alloc: Global,
    named: &Shown,
    setting: &mut Setting,
) -> Result<(), ReadStop>
    requires { array_of setting.old named.now.name ≡ None }
    ensures read { IfOk result (λ _. IsNextRead (codes "param") (shown named.now) setting.old setting.new cursor.old.rest.now cursor.old.line cursor.new.rest.now cursor.new.line) }
    ensures misfit { IfErr result (IfMisfit (IsStopped (named_template (codes "param") (shown named.now) ∷ []) cursor.old.rest.now cursor.old.line cursor.new.line)) }
{
    let name = copy_name(alloc, &named.name)?;
    let array = read_named(cursor, alloc, b"param", named)?;
    setting.put(name, array)?;
    Ok(())
}

/// Reads a value of each parameter into an empty setting.
pub(crate) fn read_setting(
    cursor: &mut Cursor<'_>,
    alloc: Global,
    parameters: &[Shown],
    setting: &mut Setting,
) -> Result<(), ReadStop>
    requires empty { setting.old ≡ [] }
    requires distinct { AreDistinctNames (map shown parameters.now) }
    ensures shown { OnOk result (variables_of setting.new ≡ map shown parameters.now) }
    ensures read { OnOk result (IsRead (named_lines (codes "param") setting.new) cursor.old.rest.now cursor.old.line cursor.new.rest.now cursor.new.line) }
    ensures misfit { IfErr result (IfMisfit (IsStopped (map (named_template (codes "param")) (map shown parameters.now)) cursor.old.rest.now cursor.old.line cursor.new.line)) }
{
    for named in parameters {
        read_parameter(cursor, alloc, named, setting)?;
    }
    Ok(())
}

/// Appends how the line of a constraint's multipliers begins.
fn put_dual_front(out: &mut Vec<u8>, number: u64, shape: Shape) -> Result<(), AllocError>
    ensures { OnOk result (out.new.items ≡ out.old.items ++ dual_front number shape) }
{
    put_bytes(out, b"dual ")?;
    put_number(out, number)?;
    put_bytes(out, b" ")?;
    put_shape(out, &shape)?;
    put_bytes(out, b" =")
}

/// Reads the line of a constraint's multipliers.
fn read_dual(
    cursor: &mut Cursor<'_>,
    alloc: Global,
    number: u64,
    shape: Shape,
) -> Result<Array, ReadStop>
    ensures shape { IfOk result (λ a. a.shape ≡ shape) }
    ensures read { IfOk result (λ a. IsRead (dual_line (number, a) ∷ []) cursor.old.rest.now cursor.old.line cursor.new.rest.now cursor.new.line) }
    ensures misfit { IfErr result (IfMisfit (IsStopped (dual_template (number, shape) ∷ []) cursor.old.rest.now cursor.old.line cursor.new.line)) }
{
    let mut front = Vec::new(alloc);
    put_dual_front(&mut front, number, shape)?;
    cursor.array(alloc, &front, shape)
}

/// Reads the multipliers of each constraint into an empty list.
pub(crate) fn read_duals(
    cursor: &mut Cursor<'_>,
    alloc: Global,
    shapes: &[Shape],
    duals: &mut Vec<Array>,
) -> Result<(), ReadStop>
    requires { duals.old.items ≡ [] }
    ensures shown { OnOk result (constraints_of duals.new.items ≡ shapes.now) }
    ensures read { OnOk result (IsRead (dual_lines duals.new.items) cursor.old.rest.now cursor.old.line cursor.new.rest.now cursor.new.line) }
    ensures misfit { IfErr result (IfMisfit (IsStopped (duals_from 1 shapes.now) cursor.old.rest.now cursor.old.line cursor.new.line)) }
{
    let mut number = 0;
    for shape in shapes {
        number += 1;
        duals.push(read_dual(cursor, alloc, number, *shape)?)?;
    }
    Ok(())
}

/// Appends how the line of an atom's weights begins.
fn put_node_front(out: &mut Vec<u8>, node: u32) -> Result<(), AllocError>
    ensures { OnOk result (out.new.items ≡ out.old.items ++ node_front node) }
{
    put_bytes(out, b"node ")?;
    put_number(out, u64::from(node))?;
    put_bytes(out, b" =")
}

/// Reads the line of an atom's weights.
fn read_node(
    cursor: &mut Cursor<'_>,
    alloc: Global,
    atom: AtomRows,
) -> Result<NodeWeights, ReadStop>
    ensures shown { IfOk result (λ w. atoms_of (w ∷ []) ≡ rows_shown atom ∷ []) }
    ensures read { IfOk result (λ w. IsRead (node_line w ∷ []) cursor.old.rest.now cursor.old.line cursor.new.rest.now cursor.new.line) }
    ensures misfit { IfErr result (IfMisfit (IsStopped (node_template (rows_shown atom) ∷ []) cursor.old.rest.now cursor.old.line cursor.new.line)) }
{
    let mut front = Vec::new(alloc);
    put_node_front(&mut front, atom.node.0)?;
    let numbers = cursor.numbers(alloc, &front, atom.rows)?;
    Ok(NodeWeights {
        node: atom.node,
        numbers: Fracs::from_vec(numbers),
    })
}

/// Reads the weights of each atom into an empty list.
pub(crate) fn read_weights(
    cursor: &mut Cursor<'_>,
    alloc: Global,
    atoms: &[AtomRows],
    weights: &mut Vec<NodeWeights>,
) -> Result<(), ReadStop>
    requires { weights.old.items ≡ [] }
    ensures shown { OnOk result (atoms_of weights.new.items ≡ map rows_shown atoms.now) }
    ensures read { OnOk result (IsRead (node_lines weights.new.items) cursor.old.rest.now cursor.old.line cursor.new.rest.now cursor.new.line) }
    ensures misfit { IfErr result (IfMisfit (IsStopped (map node_template (map rows_shown atoms.now)) cursor.old.rest.now cursor.old.line cursor.new.line)) }
{
    for atom in atoms {
        weights.push(read_node(cursor, alloc, *atom)?)?;
    }
    Ok(())
}
