//! The cells and the basis of a program's first tableau.
ghost use Rattle.std.specs.Prelude.{◌≡◌, ◌+◌, ◌*◌, ◌<◌, ◌≤◌, ◌++◌, ◌∷◌, [], map, length, pos, OnOk, IfOk, ◌^◌};
ghost use Rattle.dcx_tab.specs.Cells.{joined};
ghost use Rattle.dcx_tab.specs.First.{first_tableau};
ghost use Rattle.dcx_tab.specs.Program.{tableau_row, plain_count, first_basic_of};

use crate::program::Program;
use crate::rows::{ColumnKind, IntRow};
use std::alloc::{AllocError, Global};

/// How many columns stand before the first artificial one.
pub fn plain_of(kinds: &[ColumnKind]) -> usize
    ensures { result ≡ plain_count kinds.now }
{
    let mut plain = 0;
    'kinds: for kind in kinds {
        if let ColumnKind::Artificial { .. } = kind {
            return plain;
        }
        plain += 1;
    }
    plain
}

/// Puts a row at the end of the cells: its entries, then what it has at z, at w and at the right side.
fn push_row(
    cells: &mut Vec<i128>,
    entries: &[i128],
    z: i128,
    w: i128,
    right: i128,
) -> Result<(), AllocError>
    ensures { OnOk result (cells.new.items ≡ cells.old.items ++ (entries.now ++ z ∷ w ∷ right ∷ [])) }
{
    cells.extend_from_slice(entries)?;
    cells.push(z)?;
    cells.push(w)?;
    cells.push(right)?;
    Ok(())
}

/// Puts the rows at the end of the cells.
fn push_rows(cells: &mut Vec<i128>, rows: &[IntRow]) -> Result<(), AllocError>
    ensures { OnOk result (cells.new.items ≡ cells.old.items ++ joined (map tableau_row rows.now)) }
{
    'rows: for row in rows {
        push_row(cells, row.entries.as_slice(), 0, 0, row.right)?;
    }
    Ok(())
}

/// All rows of the first tableau, one after the other.
pub(crate) fn first_cells(alloc: Global, program: &Program) -> Result<Vec<i128>, AllocError>
    ensures { IfOk result (λ cells. cells.items ≡ joined (first_tableau program.now).rows) }
{
    let rows = program.rows.as_slice();
    let width = program.columns.as_slice().len() + 3;
    let mut cells = Vec::with_capacity(alloc, (rows.len() + 2) * width)?;
    push_rows(&mut cells, rows)?;
    let objective = &program.objective;
    push_row(
        &mut cells,
        objective.entries.as_slice(),
        objective.lead,
        0,
        objective.right,
    )?;
    let phase = &program.phase;
    push_row(
        &mut cells,
        phase.entries.as_slice(),
        0,
        phase.lead,
        phase.right,
    )?;
    Ok(cells)
}

/// The first basic columns of the rows, with room for those of the costs.
fn row_basis(alloc: Global, rows: &[IntRow]) -> Result<Vec<u32>, AllocError>
    requires { length rows.now + 2 < 2 ^ 63 }
    ensures { IfOk result (λ basis. basis.items ≡ map first_basic_of rows.now) }
{
    let mut basis = Vec::with_capacity(alloc, rows.len() + 2)?;
    'rows: for row in rows {
        basis.push(row.basic)?;
    }
    Ok(basis)
}

/// The first basic columns, z and w at the last two rows.
pub fn first_basis(alloc: Global, program: &Program) -> Result<Vec<u32>, AllocError>
    ensures { IfOk result (λ basis. basis.items ≡ (first_tableau program.now).basis) }
{
    let mut basis = row_basis(alloc, program.rows.as_slice())?;
    let columns = program.columns.as_slice().len() as u32;
    basis.push(columns)?;
    basis.push(columns + 1)?;
    Ok(basis)
}
