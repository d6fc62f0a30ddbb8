//! Appends the lines of a check of a certificate.
ghost use Rattle.std.specs.Prelude.{◌≡◌, ◌++◌, OnOk, codes};
ghost use Rattle.dcx_report.specs.StopText.{stop_name};
ghost use Rattle.dcx_report.specs.CertifiedText.{index_text, numbers_text, number_at_text, numbers_at_text, fault_name, fault_details, fault_text, certified_text, cert_refused_text};

use crate::pieces::{put_both, put_numbered, put_passes};
use crate::stop_line::name_of_stop;
use crate::{CertFault, Stop};
use dcx_frac::Frac;
use dcx_lines::{put_bytes, put_entry};
use std::alloc::AllocError;

/// Appends a blank and a count.
#[tactic(auto, unfolding(crate::specs::CertifiedText::index_text))]
fn put_index(out: &mut Vec<u8>, index: u32) -> Result<(), AllocError>
    ensures { OnOk result (out.new.items ≡ out.old.items ++ index_text index) }
{
    put_numbered(out, b" ", u64::from(index))
}

/// Appends two numbers.
#[tactic(auto, unfolding(crate::specs::CertifiedText::numbers_text))]
fn put_numbers(out: &mut Vec<u8>, first: &Frac, second: &Frac) -> Result<(), AllocError>
    ensures { OnOk result (out.new.items ≡ out.old.items ++ numbers_text first.now second.now) }
{
    put_entry(out, first)?;
    put_entry(out, second)
}

/// Appends a number at an entry.
#[tactic(auto, unfolding(crate::specs::CertifiedText::number_at_text))]
fn put_number_at(out: &mut Vec<u8>, index: u32, entry: u32, number: &Frac) -> Result<(), AllocError>
    ensures { OnOk result (out.new.items ≡ out.old.items ++ number_at_text index entry number.now) }
{
    put_index(out, index)?;
    put_index(out, entry)?;
    put_entry(out, number)
}

/// Appends two numbers at an entry.
#[tactic(auto, unfolding(crate::specs::CertifiedText::numbers_at_text))]
fn put_numbers_at(
    out: &mut Vec<u8>,
    index: u32,
    entry: u32,
    first: &Frac,
    second: &Frac,
) -> Result<(), AllocError>
    ensures { OnOk result (out.new.items ≡ out.old.items ++ numbers_at_text index entry first.now second.now) }
{
    put_index(out, index)?;
    put_index(out, entry)?;
    put_numbers(out, first, second)
}

/// Appends a blank, and the number and the name of a stop.
fn put_stop_name(out: &mut Vec<u8>, stop: &Stop) -> Result<(), AllocError>
    ensures { OnOk result (out.new.items ≡ out.old.items ++ (codes " " ++ stop_name stop.now)) }
{
    put_both(out, b" ", name_of_stop(stop))
}

/// The name of a fault.
#[tactic(auto, unfolding(crate::specs::CertifiedText::fault_name))]
fn name_of_fault(fault: &CertFault) -> &'static [u8]
    ensures { result.now ≡ fault_name fault.now }
{
    match fault {
        CertFault::Form { .. } => b"Form",
        CertFault::Fit(_) => b"Fit",
        CertFault::Setting { .. } => b"Setting",
        CertFault::Domain { .. } => b"Domain",
        CertFault::Constraint { .. } => b"Constraint",
        CertFault::Value { .. } => b"Value",
        CertFault::DualSign { .. } => b"DualSign",
        CertFault::Gap { .. } => b"Gap",
        CertFault::Slope { .. } => b"Slope",
        CertFault::Variable { .. } => b"Variable",
        CertFault::Bound { .. } => b"Bound",
        CertFault::Descent { .. } => b"Descent",
        CertFault::RayDomain { .. } => b"RayDomain",
        CertFault::RayConstraint { .. } => b"RayConstraint",
        CertFault::RayValue { .. } => b"RayValue",
        CertFault::Wide(_) => b"Wide",
        CertFault::Memory => b"Memory",
    }
}

/// Appends what a fault carries.
#[tactic(auto, unfolding(crate::specs::CertifiedText::fault_details))]
fn put_details(out: &mut Vec<u8>, fault: &CertFault) -> Result<(), AllocError>
    ensures { OnOk result (out.new.items ≡ out.old.items ++ fault_details fault.now) }
{
    match fault {
        CertFault::Form { line } => put_index(out, *line),
        CertFault::Fit(stop) => put_stop_name(out, stop),
        CertFault::Setting {
            parameter,
            entry,
            stated,
            found,
        } => put_numbers_at(out, *parameter, *entry, stated, found),
        CertFault::Slope {
            node,
            entry,
            stated,
            found,
        } => put_numbers_at(out, node.0, *entry, stated, found),
        CertFault::Constraint {
            constraint,
            entry,
            left,
            right,
        }
        | CertFault::RayConstraint {
            constraint,
            entry,
            left,
            right,
        } => put_numbers_at(out, *constraint, *entry, left, right),
        CertFault::Domain {
            variable,
            entry,
            value,
        }
        | CertFault::Variable {
            variable,
            entry,
            value,
        }
        | CertFault::RayDomain {
            variable,
            entry,
            value,
        } => put_number_at(out, *variable, *entry, value),
        CertFault::DualSign {
            constraint,
            entry,
            value,
        } => put_number_at(out, *constraint, *entry, value),
        CertFault::Value { stated, found }
        | CertFault::Bound { stated, found }
        | CertFault::RayValue { stated, found } => put_numbers(out, stated, found),
        CertFault::Gap { value } | CertFault::Descent { value } => put_entry(out, value),
        CertFault::Wide(passes) => put_passes(out, passes),
        CertFault::Memory => Ok(()),
    }
}

/// Appends the name of a fault, and what it carries.
#[tactic(auto, unfolding(crate::specs::CertifiedText::fault_text))]
fn put_fault(out: &mut Vec<u8>, fault: &CertFault) -> Result<(), AllocError>
    ensures { OnOk result (out.new.items ≡ out.old.items ++ fault_text fault.now) }
{
    put_bytes(out, name_of_fault(fault))?;
    put_details(out, fault)
}

/// Appends that a certificate holds, and how many of its sections show an answer.
#[tactic(auto, unfolding(crate::specs::CertifiedText::certified_text))]
pub(crate) fn put_certified(out: &mut Vec<u8>, sections: u32) -> Result<(), AllocError>
    ensures { OnOk result (out.new.items ≡ out.old.items ++ certified_text sections) }
{
    put_numbered(out, b"certified ", u64::from(sections))?;
    put_bytes(out, b"\n")
}

/// Appends that a certificate is refused, in which section, and why.
#[tactic(auto, unfolding(crate::specs::CertifiedText::cert_refused_text))]
pub(crate) fn put_cert_refused(
    out: &mut Vec<u8>,
    section: u32,
    fault: &CertFault,
) -> Result<(), AllocError>
    ensures { OnOk result (out.new.items ≡ out.old.items ++ cert_refused_text section fault.now) }
{
    put_numbered(out, b"certificate refused section ", u64::from(section))?;
    put_bytes(out, b" ")?;
    put_fault(out, fault)?;
    put_bytes(out, b"\n")
}
