//! Laws of forms at a setting. Each function is a law: its clause is a statement about all of them, and the body is empty.
ghost use Rattle.std.specs.Prelude.{◌≡◌, ◌≤◌, ℕ, Ok};
ghost use Rattle.dcx_frac.specs.declared.fraction.Frac.{Frac};
ghost use Rattle.dcx_point.specs.Pairs.{Pairs};
ghost use Rattle.dcx_linear.specs.declared.param_form.ParamForm.{ParamForm};
ghost use Rattle.dcx_linear.specs.declared.form.Form.{Form};
ghost use Rattle.dcx_linear.specs.Parameters.{Parameters, Names};
ghost use Rattle.dcx_linear.specs.ParamForms.{form_value, IsNamedForm, StandsFor};
ghost use Rattle.dcx_linear.specs.FormTerms.{Unknowns};
ghost use Rattle.dcx_linear.specs.Forms.{linear_value};
ghost use Rattle.dcx_linear.specs.Widths.{form_width};
ghost use Rattle.dcx_linear.specs.NamedForms.{IsNamedLinear};
ghost use Rattle.dcx_linear.specs.FormsAt.{frac_value, IsListedForm, form_at};

/// A form at a setting is what it was where the setting's numbers stand for the entries, at all unknowns, if each entry is
/// listed under the name of its parameter.
pub fn forms_at_setting()
    ensures { (names : Names) (setting : Pairs) (p : Parameters) (x : Unknowns) (f : Form ParamForm) (g : Form Frac) → IsNamedLinear IsNamedForm names f → StandsFor names setting p
        → IsListedForm setting f → form_at setting f ≡ Ok g → linear_value frac_value g x p ≡ linear_value form_value f x p }
{}

/// A form at a setting is no wider than before.
pub fn widths_at_setting()
    ensures { (setting : Pairs) (n : ℕ) (f : Form ParamForm) (g : Form Frac) → form_at setting f ≡ Ok g → form_width f ≤ n → form_width g ≤ n }
{}
