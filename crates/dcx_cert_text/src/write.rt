//! Writes the text of a certificate.
ghost use Rattle.std.specs.Prelude.{◌≡◌, ◌++◌, Some, None, IfSome, IfOk, OnOk, MatchOption, slice_get, codes};
ghost use Rattle.std.specs.List.{flat_map, enumerate_from};
ghost use Rattle.dcx_lines.specs.Lines.{named_line, dual_line};
ghost use Rattle.dcx_cert_sections.specs.declared.section.Section.TheVariants as sections;
ghost use Rattle.dcx_cert_sections.specs.declared.cert.Cert.TheVariants as certs;
ghost use Rattle.dcx_cert_lines.specs.CertText.{first_line, head_line, node_line, end_line, section_word, cert_text};
ghost use Rattle.dcx_cert_text.specs.Written.{params_text, body_text, section_text};

use dcx_atom::Array;
use dcx_cert_sections::{Cert, Format, NodeWeights, Section, Sections};
use dcx_frac::Frac;
use dcx_lines::{
    put_bytes, put_dual_lines, put_entries, put_named_line, put_named_lines, put_number,
    put_number_line,
};
use dcx_point::{Point, Setting};
use dcx_shape::{Bytes, Name};
use std::alloc::{AllocError, Global};

/// The name and the array of pair `i`, counted from 0; `None` where there are at most `i` pairs.
fn value_at(setting: &Setting, i: usize) -> Option<(&Name, &Array)>
    ensures { MatchOption result (slice_get setting.now i ≡ None) (λ pair. slice_get setting.now i ≡ Some (pair.0.now, pair.1.now)) }
{
    if i >= setting.len() {
        return None;
    }
    let name = setting.name_at(i)?;
    let array = setting.get(name)?;
    Some((name, array))
}

/// Appends the line of value `i`, where there is one.
fn put_value(out: &mut Vec<u8>, setting: &Setting, i: usize) -> Result<(), AllocError>
    ensures { OnOk result (IfSome (slice_get setting.now i) (λ pair. out.new.items ≡ out.old.items ++ named_line (codes "param") pair)) }
{
    match value_at(setting, i) {
        Some((name, array)) => put_named_line(out, b"param", name, array),
        None => Ok(()),
    }
}

/// Appends a line of each parameter.
fn put_setting(out: &mut Vec<u8>, setting: &Setting) -> Result<(), AllocError>
    ensures { OnOk result (out.new.items ≡ out.old.items ++ flat_map (named_line (codes "param")) setting.now) }
{
    'values: for i in 0..setting.len() {
        put_value(out, setting, i)?;
    }
    Ok(())
}

/// Appends the lines of the parameters, where they are told.
fn put_params(out: &mut Vec<u8>, params: &Option<Setting>) -> Result<(), AllocError>
    ensures { OnOk result (out.new.items ≡ out.old.items ++ params_text params.now) }
{
    match params {
        Some(values) => put_setting(out, values),
        None => Ok(()),
    }
}

/// Appends the line of an atom's weights.
#[tactic(auto, unfolding(dcx_cert_lines::specs::CertText::node_line))]
fn put_node(out: &mut Vec<u8>, weights: &NodeWeights) -> Result<(), AllocError>
    ensures { OnOk result (out.new.items ≡ out.old.items ++ node_line weights.now) }
{
    put_bytes(out, b"node ")?;
    put_number(out, u64::from(weights.node.0))?;
    put_bytes(out, b" =")?;
    put_entries(out, weights.numbers.as_slice())?;
    put_bytes(out, b"\n")
}

/// Appends a line of each atom's weights.
fn put_weights(out: &mut Vec<u8>, weights: &[NodeWeights]) -> Result<(), AllocError>
    ensures { OnOk result (out.new.items ≡ out.old.items ++ flat_map node_line weights.now) }
{
    for node in weights {
        put_node(out, node)?;
    }
    Ok(())
}

/// Appends the last line of a section.
#[tactic(auto, unfolding(dcx_cert_lines::specs::CertText::end_line))]
fn put_end(out: &mut Vec<u8>) -> Result<(), AllocError>
    ensures { OnOk result (out.new.items ≡ out.old.items ++ end_line) }
{
    put_bytes(out, b"end\n")
}

/// Appends the multipliers and the weights, and the last line of their section.
#[tactic(auto, unfolding(dcx_lines::specs::Lines::dual_lines))]
fn put_shown(out: &mut Vec<u8>, duals: &[Array], weights: &[NodeWeights]) -> Result<(), AllocError>
    ensures { OnOk result (out.new.items ≡ out.old.items ++ (flat_map dual_line (enumerate_from 1 duals.now) ++ (flat_map node_line weights.now ++ end_line))) }
{
    put_dual_lines(out, duals)?;
    put_weights(out, weights)?;
    put_end(out)
}

/// Appends what stands behind the first line of an optimal section.
fn put_optimal(
    out: &mut Vec<u8>,
    value: Frac,
    point: &Point,
    duals: &[Array],
    weights: &[NodeWeights],
    params: &Option<Setting>,
) -> Result<(), AllocError>
    ensures { OnOk result (out.new.items ≡ out.old.items ++ body_text (sections.Cert (certs.Optimal value point.now duals.now weights.now params.now))) }
{
    put_params(out, params)?;
    put_number_line(out, b"value", value)?;
    put_named_lines(out, b"var", point)?;
    put_shown(out, duals, weights)
}

/// Appends what stands behind the first line of an infeasible section.
fn put_infeasible(
    out: &mut Vec<u8>,
    duals: &[Array],
    gap: Frac,
    weights: &[NodeWeights],
    params: &Option<Setting>,
) -> Result<(), AllocError>
    ensures { OnOk result (out.new.items ≡ out.old.items ++ body_text (sections.Cert (certs.Infeasible duals.now gap weights.now params.now))) }
{
    put_params(out, params)?;
    put_number_line(out, b"gap", gap)?;
    put_shown(out, duals, weights)
}

/// Appends what stands behind the first line of an unbounded section.
fn put_unbounded(
    out: &mut Vec<u8>,
    point: &Point,
    ray: &Point,
    bound: Frac,
    slope: Frac,
    params: &Option<Setting>,
) -> Result<(), AllocError>
    ensures { OnOk result (out.new.items ≡ out.old.items ++ body_text (sections.Cert (certs.Unbounded point.now ray.now bound slope params.now))) }
{
    put_params(out, params)?;
    put_number_line(out, b"bound", bound)?;
    put_number_line(out, b"slope", slope)?;
    put_named_lines(out, b"var", point)?;
    put_named_lines(out, b"ray", ray)?;
    put_end(out)
}

/// Appends what stands behind the first line of a section that shows an answer.
fn put_cert(out: &mut Vec<u8>, cert: &Cert) -> Result<(), AllocError>
    ensures { OnOk result (out.new.items ≡ out.old.items ++ body_text (sections.Cert cert.now)) }
{
    match cert {
        Cert::Optimal {
            value,
            point,
            duals,
            weights,
            params,
        } => put_optimal(
            out,
            *value,
            point,
            duals.as_slice(),
            weights.as_slice(),
            params,
        ),
        Cert::Infeasible {
            duals,
            gap,
            weights,
            params,
        } => put_infeasible(out, duals.as_slice(), *gap, weights.as_slice(), params),
        Cert::Unbounded {
            point,
            ray,
            bound,
            slope,
            params,
        } => put_unbounded(out, point, ray, *bound, *slope, params),
    }
}

/// The word for what a section shows.
fn word_of(section: &Section) -> &'static [u8]
    ensures { result.now ≡ section_word section.now }
{
    match section {
        Section::Cert(Cert::Optimal { .. }) => b"optimal",
        Section::Cert(Cert::Infeasible { .. }) => b"infeasible",
        Section::Cert(Cert::Unbounded { .. }) => b"unbounded",
        Section::None => b"none",
    }
}

/// Appends the first line of a section.
#[tactic(auto, unfolding(dcx_cert_lines::specs::CertText::head_line))]
fn put_head(out: &mut Vec<u8>, number: u64, section: &Section) -> Result<(), AllocError>
    ensures { OnOk result (out.new.items ≡ out.old.items ++ head_line (section_word section.now) number) }
{
    put_bytes(out, b"section ")?;
    put_number(out, number)?;
    put_bytes(out, b" ")?;
    put_bytes(out, word_of(section))?;
    put_bytes(out, b"\n")
}

/// Appends what stands behind the first line of a section.
fn put_body(out: &mut Vec<u8>, section: &Section) -> Result<(), AllocError>
    ensures { OnOk result (out.new.items ≡ out.old.items ++ body_text section.now) }
{
    match section {
        Section::Cert(cert) => put_cert(out, cert),
        Section::None => put_end(out),
    }
}

/// Appends a section under its number.
fn put_section(out: &mut Vec<u8>, number: u64, section: &Section) -> Result<(), AllocError>
    ensures { OnOk result (out.new.items ≡ out.old.items ++ section_text (number, section.now)) }
{
    put_head(out, number, section)?;
    put_body(out, section)
}

/// Appends the sections, numbered from 1.
#[tactic(auto, using(dcx_lines::proofs::Numbered::numbered_more))]
fn put_sections(out: &mut Vec<u8>, sections: &[Section]) -> Result<(), AllocError>
    ensures { OnOk result (out.new.items ≡ out.old.items ++ flat_map section_text (enumerate_from 1 sections.now)) }
{
    let mut number = 0;
    for section in sections {
        number += 1;
        put_section(out, number, section)?;
    }
    Ok(())
}

/// Appends the first line of a certificate.
#[tactic(auto, unfolding(dcx_cert_lines::specs::CertText::first_line))]
fn put_first(out: &mut Vec<u8>, format: Format) -> Result<(), AllocError>
    ensures { OnOk result (out.new.items ≡ out.old.items ++ first_line format) }
{
    match format {
        Format::One => put_bytes(out, b"certificate 1\n"),
        Format::Two => put_bytes(out, b"certificate 2\n"),
    }
}

/// The bytes of a certificate. Each line ends with a line feed. Fails only for want of memory.
pub fn write_cert(alloc: Global, sections: &Sections) -> Result<Bytes, AllocError>
    ensures { IfOk result (λ bytes. bytes ≡ cert_text sections.now) }
{
    let mut out = Vec::new(alloc);
    put_first(&mut out, sections.format)?;
    put_sections(&mut out, sections.list.as_slice())?;
    Ok(Bytes::from_vec(out))
}
