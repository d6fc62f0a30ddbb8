//! The sections of a certificate that was read are checked, each at its setting.
ghost use Rattle.std.specs.Prelude.{◌≡◌, ◌⊎◌, ◌<◌, ◌-◌, ◌^◌, length, count_by, IfOk, OnOk, IfErr};
ghost use Rattle.dcx_tree.specs.Meaning.{IsAccepted};
ghost use Rattle.dcx_cert_outline.specs.Drawn.{AreFixed, problem_outline};
ghost use Rattle.dcx_cert_sections.specs.Shown.{IsSectionOf, AreSectionsOf};
ghost use Rattle.dcx_cert_sections.specs.Checks.{Checked};
ghost use Rattle.dcx_cert_runs.specs.Checking.{is_cert as is_filled, section_check, IsSectionShown, ArePassed, AreShown, IsFirstRefused};

use dcx_answer::CertFault;
use dcx_cert_check::certify_with;
use dcx_cert_outline::fixed_nodes;
use dcx_cert_sections::Section;
use dcx_point::Setting;
use dcx_tree::Problem;
use std::alloc::Global;

/// A section that is refused.
#[derive(Drop)]
pub struct Refused {
    /// The section, counted from 1.
    pub section: u32,
    /// Why.
    pub fault: CertFault,
}

/// Checks a section at its setting; an empty one has no check.
fn check_section(
    alloc: Global,
    problem: &Problem,
    fixed: &[bool],
    setting: &Setting,
    section: &Section,
) -> Result<(), CertFault>
    requires accepted { IsAccepted problem.now }
    requires fixed { AreFixed problem.now fixed.now (length problem.now.tree) }
    requires section { IsSectionOf (problem_outline problem.now) section.now }
    ensures checked { Checked (section_check problem.now setting.now section.now) result }
    ensures shown { OnOk result (IsSectionShown problem.now setting.now section.now) }
{
    match section {
        Section::Cert(cert) => certify_with(alloc, problem, fixed, setting, cert),
        Section::None => Ok(()),
    }
}

/// Whether a section shows an answer.
fn is_cert(section: &Section) -> bool
    ensures { result ≡ is_filled section.now }
{
    matches!(section, Section::Cert(_))
}

/// How many sections show an answer.
fn certs(list: &[Section]) -> u32
    requires { length list.now < 2 ^ 32 }
    ensures { result ≡ count_by is_filled list.now }
{
    let mut certs = 0;
    for section in list {
        if is_cert(section) {
            certs += 1;
        }
    }
    certs
}

/// Checks the sections of a certificate of an accepted problem in order, each at its setting, up to the first that fails. Gives how many
/// of them show an answer; the others are empty and have no check.
pub fn check_sections(
    alloc: Global,
    problem: &Problem,
    settings: &[Setting],
    list: &[Section],
) -> Result<u32, Refused>
    requires accepted { IsAccepted problem.now }
    requires sections { AreSectionsOf (problem_outline problem.now) list.now }
    requires count { length list.now ≡ length settings.now }
    requires few { length list.now < 2 ^ 32 - 1 }
    ensures counted { IfOk result (λ n. n ≡ count_by is_filled list.now) }
    ensures passed { OnOk result (ArePassed problem.now settings.now list.now) }
    ensures shown { OnOk result (AreShown problem.now settings.now list.now) }
    ensures refused { IfErr result (λ r. (r.fault ≡ CertFault.Memory) ⊎ IsFirstRefused problem.now settings.now list.now r.section r.fault) }
{
    let Ok(fixed) = fixed_nodes(alloc, problem) else {
        return Err(Refused {
            section: 1,
            fault: CertFault::Memory,
        });
    };
    for i in 0..list.len() {
        if let Err(fault) = check_section(alloc, problem, &fixed, &settings[i], &list[i]) {
            let section = i as u32 + 1;
            return Err(Refused { section, fault });
        }
    }
    Ok(certs(list))
}
