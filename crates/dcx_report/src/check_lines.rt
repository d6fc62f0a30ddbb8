//! Appends the lines of a check.
ghost use Rattle.std.specs.Prelude.{◌≡◌, ◌++◌, OnOk};
ghost use Rattle.dcx_report.specs.CheckText.{sense_text, sign_text, curvature_text, objective_line, dpp_line, size_line, checked_text};

use crate::pieces::{put_both, put_numbered};
use dcx_atom::Sign;
use dcx_lines::put_bytes;
use dcx_refusal::Checked;
use dcx_rules::Curvature;
use dcx_tree::Sense;
use std::alloc::AllocError;

/// The word for which way an objective goes.
#[tactic(auto, unfolding(crate::specs::CheckText::sense_text))]
fn word_of_sense(sense: Sense) -> &'static [u8]
    ensures { result.now ≡ sense_text sense }
{
    match sense {
        Sense::Minimize => b"minimize",
        Sense::Maximize => b"maximize",
    }
}

/// The word for what is known of a sign.
#[tactic(auto, unfolding(crate::specs::CheckText::sign_text, crate::specs::CheckText::signs_text))]
fn word_of_sign(sign: Sign) -> &'static [u8]
    ensures { result.now ≡ sign_text sign }
{
    match (sign.nonneg, sign.nonpos) {
        (true, true) => b"zero",
        (true, false) => b"nonneg",
        (false, true) => b"nonpos",
        (false, false) => b"unknown",
    }
}

/// The word for a curvature.
#[tactic(auto, unfolding(crate::specs::CheckText::curvature_text))]
fn word_of_curvature(curvature: Curvature) -> &'static [u8]
    ensures { result.now ≡ curvature_text curvature }
{
    match curvature {
        Curvature::Constant => b"constant",
        Curvature::Affine => b"affine",
        Curvature::Convex => b"convex",
        Curvature::Concave => b"concave",
    }
}

/// Appends what is found of the objective.
#[tactic(auto, unfolding(crate::specs::CheckText::objective_line))]
fn put_objective(out: &mut Vec<u8>, checked: &Checked) -> Result<(), AllocError>
    ensures { OnOk result (out.new.items ≡ out.old.items ++ objective_line checked.now) }
{
    put_both(out, b"objective ", word_of_sense(checked.sense))?;
    put_both(out, b" sign ", word_of_sign(checked.sign))?;
    put_both(out, b" curvature ", word_of_curvature(checked.curvature))?;
    put_bytes(out, b"\n")
}

/// Appends whether the problem is accepted also where parameters are affine.
#[tactic(auto, unfolding(crate::specs::CheckText::dpp_line))]
fn put_dpp(out: &mut Vec<u8>, dpp: bool) -> Result<(), AllocError>
    ensures { OnOk result (out.new.items ≡ out.old.items ++ dpp_line dpp) }
{
    if dpp {
        put_bytes(out, b"dpp yes\n")
    } else {
        put_bytes(out, b"dpp no\n")
    }
}

/// Appends how many there are of a kind, and how many entries they have.
#[tactic(auto, unfolding(crate::specs::CheckText::size_line))]
fn put_size(out: &mut Vec<u8>, word: &[u8], count: u64, entries: u64) -> Result<(), AllocError>
    ensures { OnOk result (out.new.items ≡ out.old.items ++ size_line word.now count entries) }
{
    put_bytes(out, word)?;
    put_numbered(out, b" ", count)?;
    put_numbered(out, b" entries ", entries)?;
    put_bytes(out, b"\n")
}

/// Appends the lines of a check.
#[tactic(auto, unfolding(crate::specs::CheckText::checked_text))]
pub(crate) fn put_checked(out: &mut Vec<u8>, checked: &Checked) -> Result<(), AllocError>
    ensures { OnOk result (out.new.items ≡ out.old.items ++ checked_text checked.now) }
{
    put_bytes(out, b"accepted\n")?;
    put_objective(out, checked)?;
    put_dpp(out, checked.dpp)?;
    put_size(
        out,
        b"variables",
        checked.variables,
        checked.variable_entries,
    )?;
    put_size(
        out,
        b"parameters",
        checked.parameters,
        checked.parameter_entries,
    )?;
    put_size(
        out,
        b"constraints",
        checked.constraints,
        checked.constraint_entries,
    )
}
