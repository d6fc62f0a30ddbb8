//! Appends the lines of an answer.
ghost use Rattle.std.specs.Prelude.{◌≡◌, ◌++◌, OnOk};
ghost use Rattle.dcx_lines.specs.Lines.{number_line};
ghost use Rattle.dcx_report.specs.Negated.{negated};
ghost use Rattle.dcx_report.specs.AnswerText.{user_number as user_number_of, var_lines, ray_lines, answer_text};

use crate::{Answer, Sense};
use dcx_frac::Frac;
use dcx_lines::{put_bytes, put_dual_lines, put_named_lines, put_number_line};
use dcx_point::Point;
use std::alloc::AllocError;

/// The number with its sign turned.
fn turned(number: Frac) -> Frac
    ensures { result ≡ negated number }
{
    number.neg()
}

/// A number of the minimized objective, as the user's objective has it.
#[tactic(auto, unfolding(crate::specs::AnswerText::user_number))]
pub(crate) fn user_number(sense: Sense, number: Frac) -> Frac
    ensures { result ≡ user_number_of sense number }
{
    match sense {
        Sense::Minimize => number,
        Sense::Maximize => turned(number),
    }
}

/// Appends a line of a word and a number of the minimized objective, as the user's objective has it.
pub(crate) fn put_user_line(
    out: &mut Vec<u8>,
    word: &[u8],
    sense: Sense,
    number: Frac,
) -> Result<(), AllocError>
    ensures { OnOk result (out.new.items ≡ out.old.items ++ number_line word.now (user_number_of sense number)) }
{
    put_number_line(out, word, user_number(sense, number))
}

/// Appends a line of each variable's value.
#[tactic(auto, unfolding(crate::specs::AnswerText::var_lines))]
pub(crate) fn put_var_lines(out: &mut Vec<u8>, point: &Point) -> Result<(), AllocError>
    ensures { OnOk result (out.new.items ≡ out.old.items ++ var_lines point.now) }
{
    put_named_lines(out, b"var", point)
}

/// Appends a line of each variable's part of a ray.
#[tactic(auto, unfolding(crate::specs::AnswerText::ray_lines))]
fn put_ray_lines(out: &mut Vec<u8>, ray: &Point) -> Result<(), AllocError>
    ensures { OnOk result (out.new.items ≡ out.old.items ++ ray_lines ray.now) }
{
    put_named_lines(out, b"ray", ray)
}

/// Appends an unbounded answer, behind the number of its setting.
#[tactic(auto, unfolding(crate::specs::AnswerText::answer_text))]
fn put_unbounded(
    out: &mut Vec<u8>,
    sense: Sense,
    point: &Point,
    ray: &Point,
    bound: Frac,
    slope: Frac,
) -> Result<(), AllocError>
    ensures { OnOk result (out.new.items ≡ out.old.items ++ answer_text sense (Answer.Unbounded point.now ray.now bound slope)) }
{
    put_bytes(out, b" unbounded\n")?;
    put_user_line(out, b"bound", sense, bound)?;
    put_number_line(out, b"slope", slope)?;
    put_var_lines(out, point)?;
    put_ray_lines(out, ray)
}

/// Appends an answer, behind the number of its setting.
#[tactic(auto, unfolding(crate::specs::AnswerText::answer_text))]
pub(crate) fn put_answer(out: &mut Vec<u8>, sense: Sense, answer: &Answer) -> Result<(), AllocError>
    ensures { OnOk result (out.new.items ≡ out.old.items ++ answer_text sense answer.now) }
{
    match answer {
        Answer::Optimal {
            value,
            point,
            duals,
        } => {
            put_bytes(out, b" optimal\n")?;
            put_user_line(out, b"value", sense, *value)?;
            put_var_lines(out, point)?;
            put_dual_lines(out, duals.as_slice())
        }
        Answer::Infeasible { duals, gap } => {
            put_bytes(out, b" infeasible\n")?;
            put_number_line(out, b"gap", *gap)?;
            put_dual_lines(out, duals.as_slice())
        }
        Answer::Unbounded {
            point,
            ray,
            bound,
            slope,
        } => put_unbounded(out, sense, point, ray, *bound, *slope),
    }
}
