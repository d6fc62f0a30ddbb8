//! Laws of sums of parts, of multiples, of names and of numbers. Each function is a law: its clause is a statement about all of them,
//! and the body is empty.
ghost use Rattle.std.specs.Prelude.{◌≡◌, ◌≤◌, ℕ, List, Result, Ok};
ghost use Rattle.std.specs.List.{All};
ghost use Rattle.dcx_math.specs.Rational.{ℚ, ◌+ℚ◌, ◌*ℚ◌};
ghost use Rattle.dcx_frac.specs.declared.fraction.Passes.{Passes};
ghost use Rattle.dcx_linear.specs.declared.change.Change.{Change};
ghost use Rattle.dcx_linear.specs.declared.param_form.ParamForm.{ParamForm};
ghost use Rattle.dcx_linear.specs.declared.form.Form.{Form};
ghost use Rattle.dcx_linear.specs.ParamForms.{number_of_form, sum_gives_form, change_gives_form};
ghost use Rattle.dcx_linear.specs.Parameters.{Parameters, Names};
ghost use Rattle.dcx_linear.specs.FormTerms.{Unknowns};
ghost use Rattle.dcx_linear.specs.Forms.{linear_value, IsUnknownForm, sum_gives_linear, change_gives_linear};
ghost use Rattle.dcx_linear.specs.Widths.{form_width};
ghost use Rattle.dcx_linear.specs.Parts.{adds_parts, parts_value, part_width};
ghost use Rattle.dcx_linear.specs.Multiples.{HasNumbers, multiple_gives};
ghost use Rattle.dcx_linear.specs.NamedForms.{IsNamedLinear};

use crate::coef::Coef;

/// A sum of parts is the sum of what they are, at all unknowns and parameters.
pub fn sums_of_parts<C: Coef>()
    ensures { (ps : List (Change × Form C)) (f h : Form C) (x : Unknowns) (p : Parameters) → adds_parts C.number_of C.sum_gives C.change_gives ps f (Ok h)
        → linear_value C.value_at h x p ≡ linear_value C.value_at f x p +ℚ parts_value C.value_at ps x p }
{}

/// Adding parts has one answer: one sum, or one operation that passes first.
pub fn one_sum_of_parts<C: Coef>()
    ensures { (ps : List (Change × Form C)) (f : Form C) (r s : Result (Form C) Passes) → adds_parts C.number_of C.sum_gives C.change_gives ps f r
        → adds_parts C.number_of C.sum_gives C.change_gives ps f s → r ≡ s }
{}

/// A sum of parts is no wider than they are.
pub fn widths_of_parts<C: Coef>()
    ensures { (n : ℕ) (ps : List (Change × Form C)) (f h : Form C) → adds_parts C.number_of C.sum_gives C.change_gives ps f (Ok h) → All (λ q. part_width q ≤ n) ps → form_width f ≤ n
        → form_width h ≤ n }
{}

/// A coefficient times a form is so, at all unknowns and parameters.
pub fn multiples_of_forms<C: Coef>()
    ensures { (c : C) (f h : Form C) (x : Unknowns) (p : Parameters) → multiple_gives C.number_of C.change_gives c f (Ok h)
        → linear_value C.value_at h x p ≡ C.value_at c p *ℚ linear_value C.value_at f x p }
{}

/// A coefficient times a form has one answer.
pub fn one_multiple_of_forms<C: Coef>()
    ensures { (c : C) (f : Form C) (r s : Result (Form C) Passes) → multiple_gives C.number_of C.change_gives c f r → multiple_gives C.number_of C.change_gives c f s → r ≡ s }
{}

/// A coefficient times a form is no wider than the form.
pub fn widths_of_multiples<C: Coef>()
    ensures { (n : ℕ) (c : C) (f h : Form C) → multiple_gives C.number_of C.change_gives c f (Ok h) → form_width f ≤ n → form_width h ≤ n }
{}

/// An unknown lists no parameter.
pub fn names_of_unknowns<C: Coef>()
    ensures { (names : Names) (unknown : ℕ) (f : Form C) → IsUnknownForm C.of_number unknown f → IsNamedLinear C.is_named_by names f }
{}

/// A sum of parts keeps the names.
pub fn names_of_parts<C: Coef>()
    ensures { (names : Names) (ps : List (Change × Form C)) (f h : Form C) → adds_parts C.number_of C.sum_gives C.change_gives ps f (Ok h)
        → All (λ q. IsNamedLinear C.is_named_by names q.1) ps → IsNamedLinear C.is_named_by names f → IsNamedLinear C.is_named_by names h }
{}

/// A sum of forms keeps the names.
pub fn names_of_sums<C: Coef>()
    ensures { (names : Names) (f g h : Form C) → sum_gives_linear C.number_of C.sum_gives f g (Ok h) → IsNamedLinear C.is_named_by names f → IsNamedLinear C.is_named_by names g
        → IsNamedLinear C.is_named_by names h }
{}

/// A form multiplied or divided keeps the names.
pub fn names_of_changed<C: Coef>()
    ensures { (names : Names) (change : Change) (f h : Form C) → change_gives_linear C.number_of C.change_gives change f (Ok h) → IsNamedLinear C.is_named_by names f
        → IsNamedLinear C.is_named_by names h }
{}

/// A coefficient times a form has the names of the coefficient.
pub fn names_of_multiples<C: Coef>()
    ensures { (names : Names) (c : C) (f h : Form C) → multiple_gives C.number_of C.change_gives c f (Ok h) → C.is_named_by names c → IsNamedLinear C.is_named_by names h }
{}

/// A sum of forms whose coefficients are numbers is one.
pub fn numbers_of_sums()
    ensures { (f g h : Form ParamForm) → sum_gives_linear number_of_form sum_gives_form f g (Ok h) → HasNumbers number_of_form f → HasNumbers number_of_form g → HasNumbers number_of_form h }
{}

/// A form whose coefficients are numbers, multiplied or divided, is one.
pub fn numbers_of_changed()
    ensures { (change : Change) (f h : Form ParamForm) → change_gives_linear number_of_form change_gives_form change f (Ok h) → HasNumbers number_of_form f → HasNumbers number_of_form h }
{}
