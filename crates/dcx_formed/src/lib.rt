//! Formed nodes meet the equations of the reduced program: the forms and rows that are formed in 128 bits are those of the
//! program over exact numbers.
//!
//! `dcx_entries` says what the forms and rows of the nodes of a problem are, as they are formed one operation after the other;
//! `dcx_unknowns` says over exact numbers when forms and rows are a reduced program. `specs/Forms.antt` reads the forms of a
//! table of formed nodes as numbers at unknowns and at numbers for the parameters. Where parameters are numbers, nodes are
//! formed of fractions, at a setting; where parameters are affine, of affine numbers, and what is formed once holds at every
//! setting. Nothing is asked of the setting: what it lacks counts as 0 on both sides. A form of a node is made of forms of earlier
//! nodes, of unknowns of the layout, and of entries of declared parameters, by sums, multiplications and divisions, none of which
//! brings in anything else. There is no code: each function of `laws` is a law, whose clause is a statement about all problems.
//!
//! | what must hold | where |
//! |---|---|
//! | nodes of an accepted problem that are formed of fractions meet the equations at their setting | `laws::fracs_meet_equations` |
//! | nodes of a problem that is accepted where parameters are affine, formed of affine numbers, meet the equations at every setting | `laws::param_forms_meet_equations` |
//! | the rows are those of the graphs, in order | the same laws, `rows` |
//! | so forms and rows are a reduced program | the same laws, `reduction` |
//! | forms and rows speak of unknowns of the layout alone | `laws::forms_are_narrow` |
//! | where parameters are affine, they list entries of declared parameters alone, under their names | `laws::forms_are_known` |
#![tactic(auto)]

pub mod laws;
