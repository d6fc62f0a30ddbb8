//! Laws of affine numbers, forms and rows. Each function is a law: its clause is a statement about all of them, and the
//! body is empty.
ghost use Rattle.std.specs.Prelude.{◌≡◌, ◌≤◌, ◌<◌, ℕ, List, Option, Result, Ok, length};
ghost use Rattle.std.specs.List.{All};
ghost use Rattle.dcx_math.specs.Rational.{ℚ, ◌+ℚ◌, ◌≤ℚ◌};
ghost use Rattle.dcx_frac.specs.declared.fraction.Frac.{Frac};
ghost use Rattle.dcx_frac.specs.declared.fraction.Passes.{Passes};
ghost use Rattle.dcx_frac.specs.Frac.{value};
ghost use Rattle.dcx_point.specs.Pairs.{Pairs};
ghost use Rattle.dcx_linear.specs.declared.change.Change.{Change};
ghost use Rattle.dcx_linear.specs.declared.param_term.ParamTerm.{ParamTerm};
ghost use Rattle.dcx_linear.specs.declared.param_form.ParamForm.{ParamForm};
ghost use Rattle.dcx_linear.specs.declared.form.FormTerm.{FormTerm};
ghost use Rattle.dcx_linear.specs.declared.form.Form.{Form};
ghost use Rattle.dcx_linear.specs.Changes.{changed};
ghost use Rattle.dcx_linear.specs.Parameters.{Parameters, Names};
ghost use Rattle.dcx_linear.specs.Terms.{term_at};
ghost use Rattle.dcx_linear.specs.ParamTerms.{key_of, HoldsTerms};
ghost use Rattle.dcx_linear.specs.ParamForms.{form_value, IsNamedForm, IsListedBy, StandsFor, number_at};
ghost use Rattle.dcx_linear.specs.FormTerms.{Unknowns};
ghost use Rattle.dcx_linear.specs.Forms.{linear_value, sum_gives_linear, change_gives_linear};
ghost use Rattle.dcx_linear.specs.Rows.{LinearProgram, IsSolution, IsOptimal, IsInfeasible};
ghost use Rattle.dcx_linear.specs.Widths.{terms_width, form_width};

use crate::coef::Coef;

/// Sparse lists of terms that have the same terms at all entries are equal.
pub fn entries_determine_terms()
    ensures { (ts us : List ParamTerm) → HoldsTerms ts → HoldsTerms us → ((k : ℕ) → term_at key_of ts k ≡ term_at key_of us k) → ts ≡ us }
{}

/// The number at a setting is what the affine number is where the setting's numbers stand for the entries, if each
/// entry is listed under the name of its parameter.
pub fn number_at_setting()
    ensures { (names : Names) (setting : Pairs) (p : Parameters) (f : ParamForm) (x : Frac) → IsNamedForm names f → StandsFor names setting p → IsListedBy setting f
        → number_at setting f ≡ Ok x → value x ≡ form_value f p }
{}

/// A sum of forms is the sum, at all unknowns and parameters.
pub fn sum_of_forms<C: Coef>()
    ensures { (f g h : Form C) (x : Unknowns) (p : Parameters) → sum_gives_linear C.number_of C.sum_gives f g (Ok h)
        → linear_value C.value_at h x p ≡ linear_value C.value_at f x p +ℚ linear_value C.value_at g x p }
{}

/// A form multiplied or divided by a fraction is so, at all unknowns and parameters.
pub fn changed_forms<C: Coef>()
    ensures { (change : Change) (f h : Form C) (x : Unknowns) (p : Parameters) → change_gives_linear C.number_of C.change_gives change f (Ok h)
        → linear_value C.value_at h x p ≡ changed change (linear_value C.value_at f x p) }
{}

/// Adding two forms has one answer: one sum, or one operation that passes first.
pub fn one_sum_of_forms<C: Coef>()
    ensures { (f g : Form C) (r s : Result (Form C) Passes) → sum_gives_linear C.number_of C.sum_gives f g r → sum_gives_linear C.number_of C.sum_gives f g s → r ≡ s }
{}

/// Multiplying or dividing a form has one answer.
pub fn one_changed_form<C: Coef>()
    ensures { (change : Change) (f : Form C) (r s : Result (Form C) Passes) → change_gives_linear C.number_of C.change_gives change f r
        → change_gives_linear C.number_of C.change_gives change f s → r ≡ s }
{}

/// The width of terms is above each of their unknowns.
pub fn widths_bound_unknowns<C: Coef>()
    ensures { (ts : List (FormTerm C)) (n : ℕ) → terms_width ts ≤ n → All (λ t. t.unknown < n) ts }
{}

/// A sum of forms is no wider than both.
pub fn widths_of_sums<C: Coef>()
    ensures { (n : ℕ) (f g h : Form C) → sum_gives_linear C.number_of C.sum_gives f g (Ok h) → form_width f ≤ n → form_width g ≤ n → form_width h ≤ n }
{}

/// A form multiplied or divided is no wider.
pub fn widths_of_changed<C: Coef>()
    ensures { (n : ℕ) (change : Change) (f h : Form C) → change_gives_linear C.number_of C.change_gives change f (Ok h) → form_width f ≤ n → form_width h ≤ n }
{}

/// Of an optimal answer: no solution of the rows has a smaller objective.
pub fn optimal_is_least()
    ensures { (l : LinearProgram) (v : ℚ) (x y : Unknowns) (m : ℕ → ℚ) → IsOptimal l v x m → IsSolution l y → v ≤ℚ l.objective y }
{}

/// Of an infeasible answer: the rows have no solution.
pub fn infeasible_has_no_solution()
    ensures { (l : LinearProgram) (gap : ℚ) (y : Unknowns) (m : ℕ → ℚ) → IsInfeasible l gap m → ¬ (IsSolution l y) }
{}
