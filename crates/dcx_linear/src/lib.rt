//! Linear forms: coefficients that are fractions or affine in parameters, forms over unknowns, and rows of them.
//!
//! Both kinds of coefficient are used through one trait, `Coef`; forms and rows are generic in it. An affine number
//! (`ParamForm`) and a form (`Form`) are a constant and a list of terms with rising keys, none of them 0. One module,
//! `term`, adds such lists and multiplies them. `specs/Terms.antt` says what these operations form: at each key what
//! stands there, or the least key at which forming passes 128 bits.
//!
//! | what must hold | where |
//! |---|---|
//! | adding, multiplying and dividing give the exact number at every assignment of the parameters' entries | `Coef`: `sum_value`, `change_value` |
//! | the constant is formed first, then the coefficients by rising keys; `Passes` is the first operation that passes | `Coef::add`, `Coef::scale`, `Coef::divide`, `Form::add`, `Form::scale`, `Form::divide` |
//! | each operation has one answer | `Coef`: `one_sum`, `one_change`; `laws::one_sum_of_forms`, `laws::one_changed_form` |
//! | keys rise and no coefficient 0 is listed | `ParamTerms::as_slice`, `FormTerms::as_slice` |
//! | such a list is known from what stands at each key | `laws::entries_determine_terms` |
//! | a parameter's entry is the setting's number, or the entry itself | `Coef::parameter`, `Coef`: `parameter_value` |
//! | an affine number at a setting is formed from its constant on, by rising entries | `ParamForm::at` |
//! | it is the exact number, where each entry is listed under its parameter's name | `laws::number_at_setting` |
//! | operations keep these names | `Coef`: `sum_named`, `change_named` |
//! | sums and multiples of forms are so at all unknowns and parameters | `laws::sum_of_forms`, `laws::changed_forms` |
//! | forms added in place give the sum that `Form::add` gives; what is taken leaves 0 | `Accumulator::add`, `Accumulator::take` |
//! | a part is multiplied or divided whole and then added; the sum of parts that are added one after the other is the sum of what they are | `Accumulator::add_changed`, `sum_laws::sums_of_parts`, `sum_laws::one_sum_of_parts` |
//! | a coefficient times a form of numbers is the product, formed constant first | `Form::multiple`, `sum_laws::multiples_of_forms`, `sum_laws::one_multiple_of_forms` |
//! | forms of numbers stay so, and forms keep the names | `sum_laws::numbers_of_sums`, `sum_laws::numbers_of_changed`, `sum_laws::names_of_unknowns`, `sum_laws::names_of_sums`, `sum_laws::names_of_changed`, `sum_laws::names_of_parts`, `sum_laws::names_of_multiples` |
//! | a form at a setting lists no 0, and is what it was where the setting's numbers stand for the entries | `Form::at`, `setting_laws::forms_at_setting` |
//! | rows at a setting tell the first operation that passes, with its row; the kinds stay | `Rows::at` |
//! | sums of parts, multiples and forms at a setting are no wider | `sum_laws::widths_of_parts`, `sum_laws::widths_of_multiples`, `setting_laws::widths_at_setting` |
//! | each unknown of the rows has a kind | `Rows`, `laws::widths_bound_unknowns`, `laws::widths_of_sums`, `laws::widths_of_changed` |
//! | how many columns unknowns have | `UnknownKind::columns`, `unknown_columns` |
//! | multipliers show that no solution is better, or that there is none | `laws::optimal_is_least`, `laws::infeasible_has_no_solution` |
#![tactic(auto)]

mod accumulator;
mod change;
mod coef;
mod entry;
mod form;
mod form_at;
pub mod laws;
mod map_stop;
mod multiple;
mod number;
mod param_form;
mod param_term;
mod part;
mod row;
mod rows;
mod rows_at;
pub mod setting_laws;
mod size;
mod slots;
mod stop;
pub mod sum_laws;
mod term;

pub use accumulator::Accumulator;
pub use change::Change;
pub use coef::Coef;
pub use form::{Form, FormTerm, FormTerms};
pub use map_stop::MapStop;
pub use param_form::ParamForm;
pub use param_term::{ParamTerm, ParamTerms};
pub use row::{Row, RowKind, RowList, UnknownKind, UnknownKinds};
pub use rows::Rows;
pub use size::{capped_length, unknown_columns};
pub use stop::CoefStop;
