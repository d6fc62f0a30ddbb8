//! The reduced program of a script's problem at the setting that the script ends with, as lines.
ghost use Rattle.std.specs.Prelude.{◌≡◌, ◌<◌, IfOk, IsSome};
ghost use Rattle.dcx_convex.specs.Rules.{Plain};
ghost use Rattle.dcx_linear.specs.Parameters.{entry_of};
ghost use Rattle.dcx_rules.specs.Verdicts.{IsVerdictOf};
ghost use Rattle.dcx_graph.specs.Reducing.{ParametersAreGiven};
ghost use Rattle.dcx_graph.specs.Fixing.{IsListedProgram};
ghost use Rattle.dcx_graph.specs.Fixed.{HaveArrays};

use crate::given::{are_given, have_arrays};
use crate::programs::{Shown, push_program};
use crate::stops::push_stop;
use dcx_frac::Frac;
use dcx_front::{Accepted, accept};
use dcx_graph::{ReduceStop, Reduced, fix, reduce};
use dcx_linear::ParamForm;
use dcx_point::Setting;
use dcx_steps::Steps;
use std::alloc::{AllocError, Global};
use std::marker::Brand;
use std::sync::ledger::{Blank, Ledger};

/// Which program is asked for.
#[derive(Clone, Copy)]
pub enum Asked {
    /// With numbers.
    Rows,
    /// With coefficients that are affine in the parameters, and then at the setting.
    Map,
}

/// The program with numbers, with a counter of its own.
fn rows_with<L: Ledger>(
    alloc: Global,
    accepted: &Accepted,
    blank: Blank,
) -> Result<Reduced<Frac>, ReduceStop>
    requires name { blank.name ≡ L.name }
    requires parts { blank.parts ≡ L.parts }
    requires some { 0 < blank.parts }
    requires verdict { IsVerdictOf accepted.now.work.problem accepted.now.verdict }
    requires given { ParametersAreGiven Plain (λ pairs name entry. IsSome (entry_of pairs name entry)) accepted.now.work.problem accepted.now.work.last }
{
    let work = &accepted.work;
    let mut steps = Steps::<L>::new(blank);
    reduce(
        alloc,
        &work.problem,
        &accepted.verdict,
        &work.last,
        &mut steps,
    )
}

/// The program with affine coefficients, with a counter of its own.
fn map_with<L: Ledger>(
    alloc: Global,
    accepted: &Accepted,
    blank: Blank,
) -> Result<Reduced<ParamForm>, ReduceStop>
    requires name { blank.name ≡ L.name }
    requires parts { blank.parts ≡ L.parts }
    requires some { 0 < blank.parts }
    requires verdict { IsVerdictOf accepted.now.work.problem accepted.now.verdict }
    requires arrays { HaveArrays accepted.now.work.problem accepted.now.work.last }
    ensures { IfOk result (λ q. IsListedProgram accepted.now.work.last q.program) }
{
    let work = &accepted.work;
    let mut steps = Steps::<L>::new(blank);
    reduce(
        alloc,
        &work.problem,
        &accepted.verdict,
        &work.last,
        &mut steps,
    )
}

/// Adds a program, or what stops it.
fn push_answer<C: Shown>(
    text: &mut String,
    answer: Result<Reduced<C>, ReduceStop>,
) -> Result<(), AllocError> {
    match answer {
        Ok(reduced) => push_program(text, &reduced),
        Err(stop) => push_stop(text, stop),
    }
}

/// Adds the program with numbers.
fn push_plain(alloc: Global, text: &mut String, accepted: &Accepted) -> Result<(), AllocError>
    requires verdict { IsVerdictOf accepted.now.work.problem accepted.now.verdict }
    requires given { ParametersAreGiven Plain (λ pairs name entry. IsSome (entry_of pairs name entry)) accepted.now.work.problem accepted.now.work.last }
{
    push_answer(text, rows_with::<Brand>(alloc, accepted, Blank::new(1)))
}

/// Adds a program with affine coefficients, and the program at the setting.
fn push_both(
    alloc: Global,
    text: &mut String,
    map: &Reduced<ParamForm>,
    setting: &Setting,
) -> Result<(), AllocError>
    requires { IsListedProgram setting.now map.now.program }
{
    push_program(text, map)?;
    text.push_str("at the setting\n")?;
    push_answer(text, fix(alloc, map, setting))
}

/// Adds the program with affine coefficients, and the program at the setting.
fn push_map(alloc: Global, text: &mut String, accepted: &Accepted) -> Result<(), AllocError>
    requires verdict { IsVerdictOf accepted.now.work.problem accepted.now.verdict }
    requires arrays { HaveArrays accepted.now.work.problem accepted.now.work.last }
{
    match map_with::<Brand>(alloc, accepted, Blank::new(1)) {
        Ok(map) => {
            let pushed = push_both(alloc, text, &map, &accepted.work.last);
            drop(map);
            pushed
        }
        Err(stop) => push_stop(text, stop),
    }
}

/// The lines of the program that is asked for; `None` where a parameter has no array of its shape.
fn lines_of(alloc: Global, asked: Asked, accepted: &Accepted) -> Result<Option<String>, AllocError>
    requires { IsVerdictOf accepted.now.work.problem accepted.now.verdict }
{
    let problem = &accepted.work.problem;
    let setting = &accepted.work.last;
    if !are_given(setting, &problem.tree) {
        return Ok(None);
    }
    if !have_arrays(setting, problem.parameters.as_slice()) {
        return Ok(None);
    }
    let mut text = String::new(alloc);
    let pushed = match asked {
        Asked::Rows => push_plain(alloc, &mut text, accepted),
        Asked::Map => push_map(alloc, &mut text, accepted),
    };
    pushed?;
    Ok(Some(text))
}

/// The lines of the program that is asked for of the script that the bytes spell; `None` where the script isn't accepted or a
/// parameter has no array of its shape. `AllocError` where there is no memory for the lines.
pub fn program_lines(
    alloc: Global,
    asked: Asked,
    bytes: &[u8],
) -> Result<Option<String>, AllocError> {
    match accept(alloc, bytes) {
        Ok(accepted) => {
            let lines = lines_of(alloc, asked, &accepted);
            drop(accepted);
            lines
        }
        Err(_) => Ok(None),
    }
}
