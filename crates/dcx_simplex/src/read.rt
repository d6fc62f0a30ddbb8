//! The answer at the end of a run, from the tableau of its last basis.
ghost use Rattle.std.specs.Prelude.{◌≡◌, ◌≢◌, ℕ, ◌+◌, ◌<◌, ◌≤◌, ◌^◌, length, map, get_or, take, pos, ◌<ℤ◌, unsigned_abs, IfOk};
ghost use Rattle.dcx_math.specs.Rational.{whole, neg_ℚ, ◌/ℚ◌};
ghost use Rattle.dcx_math.specs.Sums.{rat_at};
ghost use Rattle.dcx_frac.specs.Frac.{value};
ghost use Rattle.dcx_tab.specs.Rows.{basic_at};
ghost use Rattle.dcx_tab.specs.Table.{entry_at};
ghost use Rattle.dcx_tab.specs.Program.{kind_at, first_basic_of, is_negated};
ghost use Rattle.dcx_tab.specs.declared.rows.ColumnKind.TheVariants.{Slack};
ghost use Rattle.dcx_simplex.specs.Basis.{IsBasic, lead_at};
ghost use Rattle.dcx_simplex.specs.Readable.{IsReadable};
ghost use Rattle.dcx_lp_answer.specs.Notes.{numbers, reduced_cost_of, factor_of, was_negated, row_factor};
ghost use Rattle.dcx_simplex.specs.Reading.{IsColumnNumber, IsColumnChange, IsOwnColumn, reduced_cost_at, read_row, IsReading, IsRayReading, HasNoRay, IsRead};
ghost use Rattle.dcx_lp_answer.specs.Right.{turned_if, IsRight};
ghost use Rattle.dcx_simplex.specs.Finished.{IsFinished};

use crate::run::LpEnd;
use dcx_frac::{Frac, Fracs};
use dcx_lp_answer::{LpAnswer, LpStatus, RowNote, RowNotes};
use dcx_tab::{ColumnKind, IntRow, Program, Tableau};
use std::alloc::{AllocError, Global};

/// The fraction `num / den`.
fn quotient(num: i128, den: i128) -> Frac
    requires num { unsigned_abs num < 2 ^ 127 }
    requires den { unsigned_abs den < 2 ^ 127 }
    requires positive { pos 0 <ℤ den }
    ensures { value result ≡ whole num /ℚ whole den }
{
    match Frac::of(num, den) {
        Some(quotient) => quotient,
        None => unreachable!(),
    }
}

/// What a row has at `column`, over its entry at its basic column `lead`.
fn ratio<T: Tableau>(tableau: &T, row: u32, column: u32, lead: u32) -> Frac
    requires row { row < length (T.table tableau.now).rows }
    requires column { column < (T.table tableau.now).columns + 3 }
    requires lead { basic_at (T.table tableau.now).basis row ≡ lead }
    requires lead_column { lead < (T.table tableau.now).columns + 3 }
    requires positive { pos 0 <ℤ lead_at (T.table tableau.now) row }
    ensures { value result ≡ whole (entry_at (T.table tableau.now) row column) /ℚ whole (lead_at (T.table tableau.now) row) }
{
    quotient(tableau.entry(row, column), tableau.entry(row, lead))
}

/// The number, negated where the test holds.
fn turned(is_negated: bool, x: Frac) -> Frac
    ensures { value result ≡ turned_if is_negated (value x) }
{
    if is_negated { x.neg() } else { x }
}

/// Puts in the place of each basic column what its row has at `column`, over its entry.
fn put_basic<T: Tableau>(tableau: &T, column: u32, is_negated: bool, xs: &mut [Frac])
    requires readable { IsReadable (T.table tableau.now) }
    requires column { column < (T.table tableau.now).columns + 3 }
    requires len { length xs.old ≡ (T.table tableau.now).columns }
    ensures basic { (i : ℕ) → i + 2 < length (T.table tableau.now).rows → rat_at (numbers xs.new) (basic_at (T.table tableau.now).basis i)
        ≡ turned_if is_negated (whole (entry_at (T.table tableau.now) i column) /ℚ whole (entry_at (T.table tableau.now) i (basic_at (T.table tableau.now).basis i))) }
    ensures other { (j : ℕ) → ¬ (IsBasic (T.table tableau.now) j) → rat_at (numbers xs.new) j ≡ rat_at (numbers xs.old) j }
{
    'rows: for i in 0..tableau.rows() {
        let j = tableau.basis(i);
        let x = ratio(tableau, i, column, j);
        xs[j as usize] = turned(is_negated, x);
    }
}

/// As many zeros.
fn zeros(alloc: Global, count: u32) -> Result<Vec<Frac>, AllocError>
    ensures len { IfOk result (λ xs. length xs.items ≡ count) }
    ensures zeros { IfOk result (λ xs. (j : ℕ) → rat_at (numbers xs.items) j ≡ whole (pos 0)) }
{
    let mut xs = Vec::with_capacity(alloc, count as usize)?;
    'columns: for _ in 0..count {
        xs.push(Frac::zero())?;
    }
    Ok(xs)
}

/// The number of each column.
pub(crate) fn column_numbers<T: Tableau>(
    alloc: Global,
    tableau: &T,
) -> Result<Vec<Frac>, AllocError>
    requires { IsReadable (T.table tableau.now) }
    ensures len { IfOk result (λ xs. length xs.items ≡ (T.table tableau.now).columns) }
    ensures numbers { IfOk result (λ xs. (j : ℕ) → j < (T.table tableau.now).columns → IsColumnNumber (T.table tableau.now) j (rat_at (numbers xs.items) j)) }
{
    let columns = tableau.columns();
    let mut xs = zeros(alloc, columns)?;
    put_basic(tableau, columns + 2, false, &mut xs);
    Ok(xs)
}

/// The change of each column for one unit of `column`.
pub(crate) fn column_changes<T: Tableau>(
    alloc: Global,
    tableau: &T,
    column: u32,
) -> Result<Vec<Frac>, AllocError>
    requires readable { IsReadable (T.table tableau.now) }
    requires column { column < (T.table tableau.now).columns }
    requires enters { ¬ (IsBasic (T.table tableau.now) column) }
    ensures len { IfOk result (λ xs. length xs.items ≡ (T.table tableau.now).columns) }
    ensures changes { IfOk result (λ xs. (j : ℕ) → j < (T.table tableau.now).columns → IsColumnChange (T.table tableau.now) column j (rat_at (numbers xs.items) j)) }
{
    let mut xs = zeros(alloc, tableau.columns())?;
    xs[column as usize] = Frac::one();
    put_basic(tableau, column, true, &mut xs);
    Ok(xs)
}

/// The first basic columns of the rows.
fn first_basics(alloc: Global, rows: &[IntRow]) -> Result<Vec<u32>, AllocError>
    ensures { IfOk result (λ basis. basis.items ≡ map first_basic_of rows.now) }
{
    let mut basis = Vec::with_capacity(alloc, rows.len())?;
    'rows: for row in rows {
        basis.push(row.basic)?;
    }
    Ok(basis)
}

/// Puts the slack of each row that has one in its place.
fn put_slacks(kinds: &[ColumnKind], own: &mut [u32])
    requires few { length kinds.now < 2 ^ 32 }
    requires rows { (j i : ℕ) → kind_at kinds.now j ≡ Slack i → i < length own.old }
    requires one { (j k i : ℕ) → kind_at kinds.now j ≡ Slack i → kind_at kinds.now k ≡ Slack i → j ≡ k }
    ensures slack { (j i : ℕ) → kind_at kinds.now j ≡ Slack i → get_or own.new i 0 ≡ j }
    ensures other { (i : ℕ) → ((j : ℕ) → kind_at kinds.now j ≢ Slack i) → get_or own.new i 0 ≡ get_or own.old i 0 }
{
    'kinds: for (j, kind) in kinds.iter().enumerate() {
        if let ColumnKind::Slack { row } = kind {
            own[*row as usize] = j as u32;
        }
    }
}

/// The own column of each row: its slack, or its artificial where it has none.
pub(crate) fn own_columns(alloc: Global, program: &Program) -> Result<Vec<u32>, AllocError>
    ensures len { IfOk result (λ own. length own.items ≡ length program.now.rows) }
    ensures own { IfOk result (λ own. (i : ℕ) → i < length program.now.rows → IsOwnColumn program.now.columns i (get_or own.items i 0)) }
{
    let mut own = first_basics(alloc, program.rows.as_slice())?;
    put_slacks(program.columns.as_slice(), &mut own);
    Ok(own)
}

/// What is kept of each row, by the costs in row `cost`, whose basic column is `lead`.
fn row_notes<T: Tableau>(
    alloc: Global,
    tableau: &T,
    rows: &[IntRow],
    own: &[u32],
    cost: u32,
    lead: u32,
) -> Result<Vec<RowNote>, AllocError>
    requires cost { cost < length (T.table tableau.now).rows }
    requires lead { basic_at (T.table tableau.now).basis cost ≡ lead }
    requires lead_column { lead < (T.table tableau.now).columns + 3 }
    requires positive { pos 0 <ℤ lead_at (T.table tableau.now) cost }
    requires len { length own.now ≡ length rows.now }
    requires own { (i : ℕ) → i < length rows.now → get_or own.now i 0 < (T.table tableau.now).columns }
    ensures len { IfOk result (λ notes. length notes.items ≡ length rows.now) }
    ensures reduced_costs { IfOk result (λ notes. (i : ℕ) → i < length rows.now → rat_at (map reduced_cost_of notes.items) i ≡ reduced_cost_at (T.table tableau.now) cost (get_or own.now i 0)) }
    ensures factors { IfOk result (λ notes. map factor_of notes.items ≡ map row_factor rows.now) }
    ensures negated { IfOk result (λ notes. map was_negated notes.items ≡ map is_negated rows.now) }
{
    let mut notes = Vec::with_capacity(alloc, rows.len())?;
    'rows: for (i, row) in rows.iter().enumerate() {
        let rate = ratio(tableau, cost, own[i], lead);
        notes.push(RowNote {
            reduced_cost: turned(true, rate),
            factor: row.factor,
            negated: row.negated,
        })?;
    }
    Ok(notes)
}

/// The row of costs that is read at an end of this status.
fn cost_row<T: Tableau>(tableau: &T, status: LpStatus) -> u32
    ensures { result ≡ read_row status (T.table tableau.now) }
{
    match status {
        LpStatus::Infeasible => tableau.rows() + 1,
        LpStatus::Optimal | LpStatus::Unbounded => tableau.rows(),
    }
}

/// Its basic column, z or w.
fn cost_column<T: Tableau>(tableau: &T, status: LpStatus) -> u32
    requires { IsReadable (T.table tableau.now) }
    ensures basic { basic_at (T.table tableau.now).basis (read_row status (T.table tableau.now)) ≡ result }
    ensures column { result < (T.table tableau.now).columns + 3 }
    ensures positive { pos 0 <ℤ lead_at (T.table tableau.now) (read_row status (T.table tableau.now)) }
{
    match status {
        LpStatus::Infeasible => tableau.columns() + 1,
        LpStatus::Optimal | LpStatus::Unbounded => tableau.columns(),
    }
}

/// What the row of costs has at `column`, over its entry at its basic column.
fn cost_ratio<T: Tableau>(tableau: &T, status: LpStatus, column: u32) -> Frac
    requires readable { IsReadable (T.table tableau.now) }
    requires rows { 2 ≤ length (T.table tableau.now).rows }
    requires column { column < (T.table tableau.now).columns + 3 }
    ensures { value result ≡ whole (entry_at (T.table tableau.now) (read_row status (T.table tableau.now)) column) /ℚ whole (lead_at (T.table tableau.now) (read_row status (T.table tableau.now))) }
{
    let cost = cost_row(tableau, status);
    let lead = cost_column(tableau, status);
    ratio(tableau, cost, column, lead)
}

/// The numbers that the tableau of a basis shows for an end of this status, without a ray: of the columns, and of the rows by the
/// costs of that status.
pub fn read_costs<T: Tableau>(
    alloc: Global,
    tableau: &T,
    program: &Program,
    status: LpStatus,
) -> Result<LpAnswer, AllocError>
    requires readable { IsReadable (T.table tableau.now) }
    requires rows { length (T.table tableau.now).rows ≡ length program.now.rows + 2 }
    requires columns { (T.table tableau.now).columns ≡ length program.now.columns }
    ensures reading { IfOk result (IsReading program.now.rows program.now.columns (T.table tableau.now) status) }
    ensures no_ray { IfOk result HasNoRay }
{
    let cost = cost_row(tableau, status);
    let lead = cost_column(tableau, status);
    let own = own_columns(alloc, program)?;
    let notes = row_notes(alloc, tableau, program.rows.as_slice(), &own, cost, lead)?;
    let columns = column_numbers(alloc, tableau)?;
    let right = tableau.columns() + 2;
    Ok(LpAnswer {
        status,
        number: cost_ratio(tableau, status, right),
        slope: Frac::zero(),
        columns: Fracs::from_vec(columns),
        rows: RowNotes::from_vec(notes),
        ray: Fracs::new(alloc),
    })
}

/// The answer where the cost falls without end along the ray of `column`.
fn read_ray<T: Tableau>(
    alloc: Global,
    tableau: &T,
    program: &Program,
    column: u32,
) -> Result<LpAnswer, AllocError>
    requires readable { IsReadable (T.table tableau.now) }
    requires rows { length (T.table tableau.now).rows ≡ length program.now.rows + 2 }
    requires columns { (T.table tableau.now).columns ≡ length program.now.columns }
    requires column { column < (T.table tableau.now).columns }
    requires enters { ¬ (IsBasic (T.table tableau.now) column) }
    ensures reading { IfOk result (IsReading program.now.rows program.now.columns (T.table tableau.now) LpStatus.Unbounded) }
    ensures ray { IfOk result (IsRayReading program.now.columns (T.table tableau.now) column) }
{
    let mut answer = read_costs(alloc, tableau, program, LpStatus::Unbounded)?;
    let changes = column_changes(alloc, tableau, column)?;
    answer.slope = cost_ratio(tableau, LpStatus::Unbounded, column);
    answer.ray = Fracs::from_vec(changes);
    Ok(answer)
}

/// The answer at an optimal, infeasible or unbounded end of the run on the program: the numbers that the tableau of
/// the last basis shows, which are right for the program.
pub fn read_end<T: Tableau>(
    alloc: Global,
    tableau: &T,
    program: &Program,
    end: &LpEnd,
) -> Result<LpAnswer, AllocError>
    requires { IsFinished program.now (T.table tableau.now) end.now }
    ensures numbers { IfOk result (IsRead program.now.rows program.now.columns (T.table tableau.now) end.now) }
    ensures right { IfOk result (IsRight program.now) }
{
    match *end {
        LpEnd::Optimal { .. } => read_costs(alloc, tableau, program, LpStatus::Optimal),
        LpEnd::Infeasible { .. } => read_costs(alloc, tableau, program, LpStatus::Infeasible),
        LpEnd::Unbounded { column, .. } => read_ray(alloc, tableau, program, column),
        LpEnd::Wide { .. } | LpEnd::PivotLimit { .. } => unreachable!(),
    }
}
