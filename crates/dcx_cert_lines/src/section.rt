//! Reads the sections of a certificate.
ghost use Rattle.std.specs.Prelude.{◌≡◌, ◌∷◌, [], None, IfOk, IfErr, OnOk};
ghost use Rattle.dcx_cert_sections.specs.Shown.{AreParams, IsSectionOf};
ghost use Rattle.dcx_cert_sections.specs.Formats.{HasParams, IsSectionOfFormat};
ghost use Rattle.dcx_cert_lines.specs.CertText.{param_lines, end_line, section_body, section_lines};
ghost use Rattle.dcx_cert_lines.specs.Parts.{AreEmpty, optimal_of, infeasible_of, unbounded_of};
ghost use Rattle.dcx_cert_lines.specs.Templates.{IsRead, IsStopped, IfMisfit, MayHead, HasDistinctNames, param_templates, body_templates, end_template, IsSectionStop, kind_of};

use crate::arrays::{read_duals, read_point, read_setting, read_weights};
use crate::cursor::{Cursor, ReadStop};
use crate::heads::read_head;
use crate::kind::Kind;
use dcx_answer::Duals;
use dcx_atom::Array;
use dcx_cert_sections::{Cert, Format, NodeWeights, Outline, Section, Weights};
use dcx_frac::Frac;
use dcx_point::{Point, Setting};
use std::alloc::Global;

/// The parts of a section, as they are read.
#[derive(Drop)]
struct Parts {
    params: Option<Setting>,
    point: Point,
    ray: Point,
    duals: Vec<Array>,
    weights: Vec<NodeWeights>,
}

/// No parts.
fn no_parts(alloc: Global) -> Parts
    ensures { AreEmpty result }
{
    Parts {
        params: None,
        point: Point::empty(alloc),
        ray: Point::empty(alloc),
        duals: Vec::new(alloc),
        weights: Vec::new(alloc),
    }
}

/// Reads a value of each parameter, where the format has them.
fn read_params(
    cursor: &mut Cursor<'_>,
    alloc: Global,
    outline: &Outline,
    format: Format,
    params: &mut Option<Setting>,
) -> Result<(), ReadStop>
    requires empty { params.old ≡ None }
    requires distinct { HasDistinctNames outline.now }
    ensures shown { OnOk result (AreParams outline.now params.new) }
    ensures format { OnOk result (HasParams format params.new) }
    ensures read { OnOk result (IsRead (param_lines params.new) cursor.old.rest.now cursor.old.line cursor.new.rest.now cursor.new.line) }
    ensures misfit { IfErr result (IfMisfit (IsStopped (param_templates format outline.now) cursor.old.rest.now cursor.old.line cursor.new.line)) }
{
    match format {
        Format::One => Ok(()),
        Format::Two => {
            let mut values = Setting::empty(alloc);
            match read_setting(cursor, alloc, outline.parameters(), &mut values) {
                Ok(()) => {
                    *params = Some(values);
                    Ok(())
                }
                Err(stop) => {
                    drop(values);
                    Err(stop)
                }
            }
        }
    }
}

/// Reads what stands behind the first line of an optimal section. Gives the value.
fn read_optimal(
    cursor: &mut Cursor<'_>,
    alloc: Global,
    outline: &Outline,
    format: Format,
    parts: &mut Parts,
) -> Result<Frac, ReadStop>
    requires empty { AreEmpty parts.old }
    requires distinct { HasDistinctNames outline.now }
    ensures shown { IfOk result (λ value. IsSectionOf outline.now (optimal_of value parts.new)) }
    ensures format { IfOk result (λ value. IsSectionOfFormat format (optimal_of value parts.new)) }
    ensures read { IfOk result (λ value. IsRead (section_body (optimal_of value parts.new)) cursor.old.rest.now cursor.old.line cursor.new.rest.now cursor.new.line) }
    ensures misfit { IfErr result (IfMisfit (IsStopped (body_templates format outline.now Kind.Optimal) cursor.old.rest.now cursor.old.line cursor.new.line)) }
{
    read_params(cursor, alloc, outline, format, &mut parts.params)?;
    let value = cursor.number(alloc, b"value")?;
    read_point(cursor, alloc, b"var", outline.variables(), &mut parts.point)?;
    read_duals(cursor, alloc, outline.constraints(), &mut parts.duals)?;
    read_weights(cursor, alloc, outline.atoms(), &mut parts.weights)?;
    cursor.plain(alloc, b"end")?;
    Ok(value)
}

/// Reads what stands behind the first line of an infeasible section. Gives the gap.
fn read_infeasible(
    cursor: &mut Cursor<'_>,
    alloc: Global,
    outline: &Outline,
    format: Format,
    parts: &mut Parts,
) -> Result<Frac, ReadStop>
    requires empty { AreEmpty parts.old }
    requires distinct { HasDistinctNames outline.now }
    ensures shown { IfOk result (λ gap. IsSectionOf outline.now (infeasible_of gap parts.new)) }
    ensures format { IfOk result (λ gap. IsSectionOfFormat format (infeasible_of gap parts.new)) }
    ensures read { IfOk result (λ gap. IsRead (section_body (infeasible_of gap parts.new)) cursor.old.rest.now cursor.old.line cursor.new.rest.now cursor.new.line) }
    ensures misfit { IfErr result (IfMisfit (IsStopped (body_templates format outline.now Kind.Infeasible) cursor.old.rest.now cursor.old.line cursor.new.line)) }
{
    read_params(cursor, alloc, outline, format, &mut parts.params)?;
    let gap = cursor.number(alloc, b"gap")?;
    read_duals(cursor, alloc, outline.constraints(), &mut parts.duals)?;
    read_weights(cursor, alloc, outline.atoms(), &mut parts.weights)?;
    cursor.plain(alloc, b"end")?;
    Ok(gap)
}

/// Reads what stands behind the first line of an unbounded section. Gives the bound and the slope.
fn read_unbounded(
    cursor: &mut Cursor<'_>,
    alloc: Global,
    outline: &Outline,
    format: Format,
    parts: &mut Parts,
) -> Result<(Frac, Frac), ReadStop>
    requires empty { AreEmpty parts.old }
    requires distinct { HasDistinctNames outline.now }
    requires may { MayHead format Kind.Unbounded }
    ensures shown { IfOk result (λ p. IsSectionOf outline.now (unbounded_of p.0 p.1 parts.new)) }
    ensures format { IfOk result (λ p. IsSectionOfFormat format (unbounded_of p.0 p.1 parts.new)) }
    ensures read { IfOk result (λ p. IsRead (section_body (unbounded_of p.0 p.1 parts.new)) cursor.old.rest.now cursor.old.line cursor.new.rest.now cursor.new.line) }
    ensures misfit { IfErr result (IfMisfit (IsStopped (body_templates format outline.now Kind.Unbounded) cursor.old.rest.now cursor.old.line cursor.new.line)) }
{
    read_params(cursor, alloc, outline, format, &mut parts.params)?;
    let bound = cursor.number(alloc, b"bound")?;
    let slope = cursor.number(alloc, b"slope")?;
    read_point(cursor, alloc, b"var", outline.variables(), &mut parts.point)?;
    read_point(cursor, alloc, b"ray", outline.variables(), &mut parts.ray)?;
    cursor.plain(alloc, b"end")?;
    Ok((bound, slope))
}

/// The optimal section that these parts make.
fn made_optimal(value: Frac, parts: Parts) -> Section
    ensures { result ≡ optimal_of value parts }
{
    let Parts {
        params,
        point,
        ray,
        duals,
        weights,
    } = parts;
    drop(ray);
    Section::Cert(Cert::Optimal {
        value,
        point,
        duals: Duals::from_vec(duals),
        weights: Weights::from_vec(weights),
        params,
    })
}

/// Reads what stands behind the first line of an optimal section.
fn optimal_section(
    cursor: &mut Cursor<'_>,
    alloc: Global,
    outline: &Outline,
    format: Format,
) -> Result<Section, ReadStop>
    requires { HasDistinctNames outline.now }
    ensures kind { IfOk result (λ s. kind_of s ≡ Kind.Optimal) }
    ensures shown { IfOk result (λ s. IsSectionOf outline.now (s)) }
    ensures format { IfOk result (λ s. IsSectionOfFormat format (s)) }
    ensures read { IfOk result (λ s. IsRead (section_body (s)) cursor.old.rest.now cursor.old.line cursor.new.rest.now cursor.new.line) }
    ensures misfit { IfErr result (IfMisfit (IsStopped (body_templates format outline.now Kind.Optimal) cursor.old.rest.now cursor.old.line cursor.new.line)) }
{
    let mut parts = no_parts(alloc);
    match read_optimal(cursor, alloc, outline, format, &mut parts) {
        Ok(value) => Ok(made_optimal(value, parts)),
        Err(stop) => {
            drop(parts);
            Err(stop)
        }
    }
}

/// The infeasible section that these parts make.
fn made_infeasible(gap: Frac, parts: Parts) -> Section
    ensures { result ≡ infeasible_of gap parts }
{
    let Parts {
        params,
        point,
        ray,
        duals,
        weights,
    } = parts;
    drop(point);
    drop(ray);
    Section::Cert(Cert::Infeasible {
        duals: Duals::from_vec(duals),
        gap,
        weights: Weights::from_vec(weights),
        params,
    })
}

/// Reads what stands behind the first line of an infeasible section.
fn infeasible_section(
    cursor: &mut Cursor<'_>,
    alloc: Global,
    outline: &Outline,
    format: Format,
) -> Result<Section, ReadStop>
    requires { HasDistinctNames outline.now }
    ensures kind { IfOk result (λ s. kind_of s ≡ Kind.Infeasible) }
    ensures shown { IfOk result (λ s. IsSectionOf outline.now (s)) }
    ensures format { IfOk result (λ s. IsSectionOfFormat format (s)) }
    ensures read { IfOk result (λ s. IsRead (section_body (s)) cursor.old.rest.now cursor.old.line cursor.new.rest.now cursor.new.line) }
    ensures misfit { IfErr result (IfMisfit (IsStopped (body_templates format outline.now Kind.Infeasible) cursor.old.rest.now cursor.old.line cursor.new.line)) }
{
    let mut parts = no_parts(alloc);
    match read_infeasible(cursor, alloc, outline, format, &mut parts) {
        Ok(gap) => Ok(made_infeasible(gap, parts)),
        Err(stop) => {
            drop(parts);
            Err(stop)
        }
    }
}

/// The unbounded section that these parts make.
fn made_unbounded(bound: Frac, slope: Frac, parts: Parts) -> Section
    ensures { result ≡ unbounded_of bound slope parts }
{
    let Parts {
        params,
        point,
        ray,
        duals,
        weights,
    } = parts;
    drop(duals);
    drop(weights);
    Section::Cert(Cert::Unbounded {
        point,
        ray,
        bound,
        slope,
        params,
    })
}

/// Reads what stands behind the first line of an unbounded section.
fn unbounded_section(
    cursor: &mut Cursor<'_>,
    alloc: Global,
    outline: &Outline,
    format: Format,
) -> Result<Section, ReadStop>
    requires distinct { HasDistinctNames outline.now }
    requires may { MayHead format Kind.Unbounded }
    ensures kind { IfOk result (λ s. kind_of s ≡ Kind.Unbounded) }
    ensures shown { IfOk result (λ s. IsSectionOf outline.now (s)) }
    ensures format { IfOk result (λ s. IsSectionOfFormat format (s)) }
    ensures read { IfOk result (λ s. IsRead (section_body (s)) cursor.old.rest.now cursor.old.line cursor.new.rest.now cursor.new.line) }
    ensures misfit { IfErr result (IfMisfit (IsStopped (body_templates format outline.now Kind.Unbounded) cursor.old.rest.now cursor.old.line cursor.new.line)) }
{
    let mut parts = no_parts(alloc);
    match read_unbounded(cursor, alloc, outline, format, &mut parts) {
        Ok((bound, slope)) => Ok(made_unbounded(bound, slope, parts)),
        Err(stop) => {
            drop(parts);
            Err(stop)
        }
    }
}

/// Reads what stands behind the first line of an empty section.
fn empty_section(cursor: &mut Cursor<'_>, alloc: Global) -> Result<Section, ReadStop>
    ensures none { IfOk result (λ s. s ≡ Section.None) }
    ensures read { OnOk result (IsRead (end_line ∷ []) cursor.old.rest.now cursor.old.line cursor.new.rest.now cursor.new.line) }
    ensures misfit { IfErr result (IfMisfit (IsStopped (end_template ∷ []) cursor.old.rest.now cursor.old.line cursor.new.line)) }
{
    cursor.plain(alloc, b"end")?;
    Ok(Section::None)
}

/// Reads what stands behind the first line of a section of a kind.
fn read_body(
    cursor: &mut Cursor<'_>,
    alloc: Global,
    outline: &Outline,
    format: Format,
    kind: Kind,
) -> Result<Section, ReadStop>
    requires distinct { HasDistinctNames outline.now }
    requires may { MayHead format kind }
    ensures kind { IfOk result (λ s. kind_of s ≡ kind) }
    ensures shown { IfOk result (IsSectionOf outline.now) }
    ensures format { IfOk result (IsSectionOfFormat format) }
    ensures read { IfOk result (λ s. IsRead (section_body s) cursor.old.rest.now cursor.old.line cursor.new.rest.now cursor.new.line) }
    ensures misfit { IfErr result (IfMisfit (IsStopped (body_templates format outline.now kind) cursor.old.rest.now cursor.old.line cursor.new.line)) }
{
    match kind {
        Kind::Optimal => optimal_section(cursor, alloc, outline, format),
        Kind::Infeasible => infeasible_section(cursor, alloc, outline, format),
        Kind::Unbounded => unbounded_section(cursor, alloc, outline, format),
        Kind::Empty => empty_section(cursor, alloc),
    }
}

/// Reads a section.
pub(crate) fn read_section(
    cursor: &mut Cursor<'_>,
    alloc: Global,
    outline: &Outline,
    format: Format,
    number: u64,
) -> Result<Section, ReadStop>
    requires { HasDistinctNames outline.now }
    ensures shown { IfOk result (IsSectionOf outline.now) }
    ensures format { IfOk result (IsSectionOfFormat format) }
    ensures read { IfOk result (λ s. IsRead (section_lines (number, s)) cursor.old.rest.now cursor.old.line cursor.new.rest.now cursor.new.line) }
    ensures misfit { IfErr result (IfMisfit (IsSectionStop format outline.now number cursor.old.rest.now cursor.old.line cursor.new.line)) }
{
    let kind = read_head(cursor, alloc, format, number)?;
    read_body(cursor, alloc, outline, format, kind)
}
