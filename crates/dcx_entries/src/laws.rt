//! Laws of entries: each is formed in one way, and is what its call says. Each function is a law: its clause is a statement
//! about all of them, and the body is empty.
ghost use Rattle.std.specs.Prelude.{◌≡◌, ℕ, List, map, Result, Ok};
ghost use Rattle.dcx_frac.specs.declared.fraction.Passes.{Passes};
ghost use Rattle.dcx_atom.specs.declared.stops.ValueStop.{ValueStop};
ghost use Rattle.dcx_atom.specs.declared.terms.Triple.{Triple};
ghost use Rattle.dcx_atom.specs.Linear.{linear_term, terms_at};
ghost use Rattle.dcx_affine.specs.declared.pairing.Pair.{Pair};
ghost use Rattle.dcx_linear.specs.declared.change.Change.{Change};
ghost use Rattle.dcx_linear.specs.declared.form.Form.{Form};
ghost use Rattle.dcx_linear.specs.FormTerms.{Unknowns};
ghost use Rattle.dcx_linear.specs.Forms.{linear_value};
ghost use Rattle.dcx_linear.specs.Parameters.{Parameters};
ghost use Rattle.dcx_entries.specs.declared.entries.EntryForms.{EntryForms};
ghost use Rattle.dcx_entries.specs.declared.scaling.Scaling.{Scaling};
ghost use Rattle.dcx_entries.specs.Forming.{FormsEach, AtEntry};
ghost use Rattle.dcx_entries.specs.Parts.{Arguments, term_part};
ghost use Rattle.dcx_entries.specs.Entries.{LinearEntry, AtomEntry, PairEntry};

use dcx_linear::Coef;

/// The entries of a linear call have one answer: one list of forms, or one entry that stops with one operation.
pub fn one_list_of_linear_entries<C: Coef>()
    ensures { (parts : ℕ → List (Change × Form C)) (n : ℕ) (r s : Result (List (EntryForms C)) ValueStop)
        → FormsEach (λ j. AtEntry j (LinearEntry C.of_number C.number_of C.sum_gives C.change_gives (parts j))) n r
        → FormsEach (λ j. AtEntry j (LinearEntry C.of_number C.number_of C.sum_gives C.change_gives (parts j))) n s → r ≡ s }
{}

/// The entries of an atom have one answer: one list of forms and rows, or one entry that stops with one operation.
pub fn one_list_of_atom_entries<C: Coef>()
    ensures { (results : ℕ → List (Change × Form C)) (rows : ℕ → List (List (Change × Form C))) (n : ℕ) (r s : Result (List (EntryForms C)) ValueStop)
        → FormsEach (λ j. AtEntry j (AtomEntry C.of_number C.number_of C.sum_gives C.change_gives (results j) (rows j))) n r
        → FormsEach (λ j. AtEntry j (AtomEntry C.of_number C.number_of C.sum_gives C.change_gives (results j) (rows j))) n s → r ≡ s }
{}

/// The entries of a product or a quotient have one answer: one list of forms, or one entry that stops with one operation or with
/// a divisor of 0.
pub fn one_list_of_pair_entries<C: Coef>()
    ensures { (scaling : Scaling) (args : Arguments C) (pairs : ℕ → List Pair) (n : ℕ) (r s : Result (List (EntryForms C)) ValueStop)
        → FormsEach (λ j. PairEntry C.of_number C.number_of C.sum_gives C.change_gives scaling args (pairs j) j) n r
        → FormsEach (λ j. PairEntry C.of_number C.number_of C.sum_gives C.change_gives scaling args (pairs j) j) n s → r ≡ s }
{}

/// The form of an entry of a linear call is the sum of its terms over the forms of the arguments, at all unknowns and parameters.
pub fn linear_entries_are_sums<C: Coef>()
    ensures { (args : Arguments C) (terms : List Triple) (e : EntryForms C) (x : Unknowns) (p : Parameters)
        → LinearEntry C.of_number C.number_of C.sum_gives C.change_gives (map (term_part args) (map linear_term terms)) (Ok e)
        → linear_value C.value_at e.form x p ≡ terms_at (map linear_term terms) (λ k j. linear_value C.value_at (args k j) x p) }
{}
