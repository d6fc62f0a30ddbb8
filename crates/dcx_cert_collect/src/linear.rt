//! What a linear call hands on.
ghost use Rattle.std.specs.Prelude.{◌≡◌, ℕ, List, length, map, Ok, Err, OnOk, IfErr, slice_index_or, []};
ghost use Rattle.dcx_atom.specs.Linear.{linear_term};
ghost use Rattle.dcx_arena.specs.Nodes.{positions};
ghost use Rattle.dcx_cert_collect.specs.Shares.{with_shares};
ghost use Rattle.dcx_cert_collect.specs.Starts.{ArePlaces};
ghost use Rattle.dcx_cert_collect.specs.Calls.{term_share, linear_shares};

use crate::places::Places;
use crate::shares::add_share;
use dcx_atom::{EntryTerms, Triple};
use dcx_frac::{Frac, Passes};

/// Hands the coefficient of an entry on by its terms.
fn hand_terms(
    places: &Places,
    coefficient: Frac,
    terms: &[Triple],
    table: &mut Vec<Frac>,
) -> Result<(), Passes>
    requires { ArePlaces places.now.tree.now places.now.starts.now (positions places.now.args.now) }
    ensures ok { OnOk result (with_shares table.old.items (map (term_share places.now.tree.now (positions places.now.args.now) coefficient) (map linear_term terms.now)) ≡ Ok table.new.items) }
    ensures passes { IfErr result (λ p. with_shares table.old.items (map (term_share places.now.tree.now (positions places.now.args.now) coefficient) (map linear_term terms.now)) ≡ Err p) }
{
    for term in terms {
        let place = places.place(term.argument as usize, term.entry);
        add_share(table, place, coefficient.mul(term.coefficient))?;
    }
    Ok(())
}

/// Hands the coefficients of all entries on by their terms.
pub(crate) fn hand_linear(
    places: &Places,
    coefficients: &[Frac],
    terms: &[EntryTerms],
    table: &mut Vec<Frac>,
) -> Result<(), Passes>
    requires places { ArePlaces places.now.tree.now places.now.starts.now (positions places.now.args.now) }
    requires terms { length terms.now ≡ length coefficients.now }
    ensures ok { OnOk result (with_shares table.old.items (linear_shares places.now.tree.now (positions places.now.args.now) coefficients.now
        (λ j. map linear_term (slice_index_or terms.now j []))) ≡ Ok table.new.items) }
    ensures passes { IfErr result (λ p. with_shares table.old.items (linear_shares places.now.tree.now (positions places.now.args.now) coefficients.now
        (λ j. map linear_term (slice_index_or terms.now j []))) ≡ Err p) }
{
    for (j, coefficient) in coefficients.iter().enumerate() {
        hand_terms(places, *coefficient, terms[j].as_slice(), table)?;
    }
    Ok(())
}
