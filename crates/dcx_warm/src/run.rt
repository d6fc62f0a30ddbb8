//! The whole warm run.
ghost use Rattle.std.specs.Prelude.{◌≡◌, IsTrue, ◌↔◌, IfSome, IfNone};
ghost use Rattle.dcx_tab.specs.declared.program.Program.{Program as ProgramValue};
ghost use Rattle.dcx_tab.specs.First.{first_tableau};
ghost use Rattle.dcx_simplex.specs.Run.{NoneEnters};
ghost use Rattle.dcx_simplex.specs.Whole.{objective_row};
ghost use Rattle.dcx_warm.specs.Install.{IsColumnList};
ghost use Rattle.dcx_warm.specs.Warm.{WarmEnds, NeverEnds, IsFirst, IsOptimalAt};

use crate::columns::Columns;
use crate::dual::repair;
use crate::install::install;
use dcx_tab::Tableau;

/// Whether no column that isn't artificial has a positive cost.
fn costs_are_least<T: Tableau>(tableau: &T) -> bool
    ensures { IsTrue result ↔ NoneEnters (objective_row (T.table tableau.now)) (T.table tableau.now) }
{
    let cost = tableau.rows();
    'columns: for c in 0..tableau.plain() {
        if tableau.entry(cost, c) > 0 {
            return false;
        }
    }
    true
}

/// Makes the listed columns basic and goes on by the dual simplex, from the first basis, with at most so many pivots as the
/// limit allows: the pivots done, exactly where this ends optimal. `None` everywhere else: where the columns aren't as many
/// as the rows, where they can't all be made basic, where a cost is positive then, where no column may enter, and before a
/// pivot that is wide or beyond the limit.
///
/// Where it ends optimal, the tableau is left at the last basis, from which `read_warm` reads the answer. Takes no memory.
pub fn warm<T: Tableau>(tableau: &mut T, columns: &Columns, limit: u64) -> Option<u64>
    requires first { IsFirst (T.table tableau.old) }
    requires listed { IsColumnList (T.table tableau.old).plain columns.now }
    ensures some { IfSome result (λ n. WarmEnds limit columns.now (T.table tableau.old) (T.table tableau.new) n) }
    ensures none { IfNone result (NeverEnds limit columns.now (T.table tableau.old)) }
    ensures optimal { IfSome result (λ n. (p : ProgramValue) → T.table tableau.old ≡ first_tableau p → IsOptimalAt p (T.table tableau.new)) }
{
    let listed = columns.as_slice();
    if listed.len() != tableau.rows() as usize {
        return None;
    }
    let mut pivots = 0u64;
    if !install(tableau, listed, limit, &mut pivots) {
        return None;
    }
    if !costs_are_least(tableau) {
        return None;
    }
    if !repair(tableau, limit, &mut pivots) {
        return None;
    }
    Some(pivots)
}
