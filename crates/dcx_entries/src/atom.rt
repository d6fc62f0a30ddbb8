//! The entries of an atom, from its graph and the forms of its arguments.
ghost use Rattle.std.specs.Prelude.{◌≡◌, ◌==◌, ◌<◌, ◌+◌, ◌^◌, List, length, map, OnOk};
ghost use Rattle.std.specs.List.{All, prefix_len};
ghost use Rattle.dcx_shape.specs.declared.shape.Sides.{Sides};
ghost use Rattle.dcx_atom.specs.Graph.{row_term, form_term, IsGraphOf};
ghost use Rattle.dcx_atom.specs.Meaning.{Meaning};
ghost use Rattle.dcx_linear.specs.Stops.{Gives};
ghost use Rattle.dcx_linear.specs.Parts.{sums_parts};
ghost use Rattle.dcx_entries.specs.Forming.{FormsEach, AtEntry, IsFormed};
ghost use Rattle.dcx_entries.specs.Parts.{zero_form, aux_part, row_part};
ghost use Rattle.dcx_entries.specs.Entries.{EachSum, AtomEntry};
ghost use Rattle.dcx_entries.specs.Standing.{args_of, IsOperand};

use crate::arguments::Arguments;
use crate::entries::{EntryForms, EntryList, FormList, push_entry};
use crate::stop::stop_at;
use crate::sums::{add_result, add_row};
use dcx_atom::{AuxTerm, Graph, GraphRow, GraphTerm, ValueStop};
use dcx_linear::{Accumulator, Coef, CoefStop, Form};
use std::alloc::Global;

/// The form of a result of a graph whose auxiliary unknowns begin with `first`. The accumulator is 0 before, and again where
/// there is an answer.
fn result_form<C: Coef>(
    alloc: Global,
    sum: &mut Accumulator<C>,
    first: u32,
    terms: &[AuxTerm],
) -> Result<Form<C>, CoefStop>
    requires zero { sum.old ≡ zero_form C.of_number }
    requires few { All (λ t. first + t.aux < 2 ^ 32) terms.now }
    ensures form { Gives result (sums_parts C.of_number C.number_of C.sum_gives C.change_gives (map (aux_part C.of_number first) (map form_term terms.now))) }
    ensures zero { OnOk result (sum.new ≡ zero_form C.of_number) }
{
    add_result(alloc, sum, first, terms)?;
    Ok(sum.take(alloc)?)
}

/// The form of a row of a graph whose auxiliary unknowns begin with `first`. The accumulator is 0 before, and again where there
/// is an answer.
fn row_form<C: Coef>(
    alloc: Global,
    sum: &mut Accumulator<C>,
    args: &Arguments<C>,
    first: u32,
    terms: &[GraphTerm],
) -> Result<Form<C>, CoefStop>
    requires zero { sum.old ≡ zero_form C.of_number }
    requires there { All (λ t. IsOperand first t.operand) terms.now }
    ensures form { Gives result (sums_parts C.of_number C.number_of C.sum_gives C.change_gives (map (row_part C.of_number (args_of C.of_number args.now) first) (map row_term terms.now))) }
    ensures zero { OnOk result (sum.new ≡ zero_form C.of_number) }
{
    add_row(alloc, sum, args, first, terms)?;
    Ok(sum.take(alloc)?)
}

/// The forms of rows of a graph, in order. The accumulator is 0 before, and again where there is an answer.
fn row_forms<C: Coef>(
    alloc: Global,
    sum: &mut Accumulator<C>,
    args: &Arguments<C>,
    first: u32,
    rows: &[GraphRow],
) -> Result<FormList<C>, CoefStop>
    requires zero { sum.old ≡ zero_form C.of_number }
    requires there { All (λ r. All (λ t. IsOperand first t.operand) r.terms) rows.now }
    ensures forms { Gives result (EachSum C.of_number C.number_of C.sum_gives C.change_gives
        (map (λ r. map (row_part C.of_number (args_of C.of_number args.now) first) (map row_term r.terms)) rows.now)) }
    ensures zero { OnOk result (sum.new ≡ zero_form C.of_number) }
{
    let mut forms = Vec::new(alloc);
    'rows: for row in rows {
        let form = row_form(alloc, sum, args, first, row.terms.as_slice())?;
        forms.push(form)?;
    }
    Ok(FormList::from_vec(forms))
}

/// An entry of an atom: its result, and then its rows. The accumulator is 0 before, and again where there is an answer.
fn atom_entry<C: Coef>(
    alloc: Global,
    sum: &mut Accumulator<C>,
    args: &Arguments<C>,
    first: u32,
    terms: &[AuxTerm],
    rows: &[GraphRow],
) -> Result<EntryForms<C>, CoefStop>
    requires zero { sum.old ≡ zero_form C.of_number }
    requires few { All (λ t. first + t.aux < 2 ^ 32) terms.now }
    requires there { All (λ r. All (λ t. IsOperand first t.operand) r.terms) rows.now }
    ensures entry { Gives result (AtomEntry C.of_number C.number_of C.sum_gives C.change_gives (map (aux_part C.of_number first) (map form_term terms.now))
        (map (λ r. map (row_part C.of_number (args_of C.of_number args.now) first) (map row_term r.terms)) rows.now)) }
    ensures zero { OnOk result (sum.new ≡ zero_form C.of_number) }
{
    let form = result_form(alloc, sum, first, terms)?;
    let rows = row_forms(alloc, sum, args, first, rows)?;
    Ok(EntryForms { form, rows })
}

/// How many rows at the front belong to entry `j`.
fn own_rows(rows: &[GraphRow], j: u32) -> usize
    ensures { result ≡ prefix_len (λ r. r.entry == j) rows.now }
{
    rows.iter().take_while(|row| row.entry == j).count()
}

/// The entries of an atom whose auxiliary unknowns begin with `first`, in row-major order. Of each the result is formed, and then
/// the rows.
///
/// `Passes` at the first entry where an operation passes 128 bits, with the first such operation.
pub fn atom_entries<C: Coef>(
    alloc: Global,
    args: &Arguments<C>,
    first: u32,
    graph: &Graph,
    size: u32,
) -> Result<EntryList<C>, ValueStop>
    requires size { length graph.now.results ≡ size }
    requires few { All (λ ts. All (λ t. first + t.aux < 2 ^ 32) ts) graph.now.results }
    requires there { All (λ r. All (λ t. IsOperand first t.operand) r.terms) graph.now.rows }
    ensures { (m : Meaning) (sides : List Sides) → IsGraphOf m sides size graph.now
        → IsFormed result (FormsEach
        (λ j. AtEntry j (AtomEntry C.of_number C.number_of C.sum_gives C.change_gives (map (aux_part C.of_number first) (m.result sides j))
        (map (λ row. map (row_part C.of_number (args_of C.of_number args.now) first) row) (m.rows sides j)))) size) }
{
    let mut sum = Accumulator::new(alloc);
    let mut entries = Vec::new(alloc);
    let results = graph.results.as_slice();
    let mut rows = graph.rows.as_slice();
    'entries: for j in 0..size {
        let (own, behind) = rows.split_at(own_rows(rows, j));
        match atom_entry(
            alloc,
            &mut sum,
            args,
            first,
            results[j as usize].as_slice(),
            own,
        ) {
            Ok(entry) => push_entry(&mut entries, entry)?,
            Err(stop) => return Err(stop_at(j, stop)),
        }
        rows = behind;
    }
    Ok(EntryList::from_vec(entries))
}
