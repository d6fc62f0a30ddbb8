//! A certificate is read for a problem at settings: each section is checked, and all of them are written with the settings' values.
ghost use Rattle.std.specs.Prelude.{◌≡◌, ◌<◌, ◌≤◌, ◌^◌, ◌⊎◌, false, ℕ, List, Some, Err, IfOk, IfErr, length};
ghost use Rattle.dcx_settings.specs.Grammar.{Every};
ghost use Rattle.dcx_settings.specs.Meaning.{IsFull};
ghost use Rattle.dcx_settings.specs.File.{most_settings};
ghost use Rattle.dcx_point.specs.Pairs.{Pairs};
ghost use Rattle.dcx_overlay.specs.Settings.{AreLaidOver};
ghost use Rattle.dcx_cert_runs.specs.Migrating.{IsMigrated};
ghost use Rattle.dcx_cert_sections.specs.declared.section.Sections.{Sections as Read};
ghost use Rattle.dcx_host.specs.Faults.{Rose};
ghost use Rattle.dcx_words.specs.Commands.{certify as certifies, migrate as migrates, command_of};
ghost use Rattle.dcx_cert_lines.specs.CertText.{cert_text};
ghost use Rattle.dcx_top.specs.Files.{HasTextOf};
ghost use Rattle.dcx_top.specs.Reading.{ReadsCertificate};
ghost use Rattle.dcx_top.specs.Runs.{Causes};
ghost use Rattle.dcx_top.specs.Certifying.{GivesSections, EndsFiles};

use crate::files::{read_certificate, read_script, read_settings, refused_at};
use crate::whole::refuse_whole;
use dcx_cert_runs::{check_sections, migrate as with_values};
use dcx_cert_sections::Sections;
use dcx_cert_text::write_cert;
use dcx_elab::Work;
use dcx_front::Accepted;
use dcx_host::Library;
use dcx_overlay::all_laid_over;
use dcx_point::Setting;
use dcx_report::Run;
use dcx_settings::Settings;
use dcx_tree::Problem;
use std::alloc::Global;

/// What the files of a command give that has a certificate.
#[derive(Drop)]
pub(crate) struct Certified {
    /// The accepted problem of the script.
    pub problem: Problem,
    /// The settings.
    pub settings: Vec<Setting>,
    /// The sections of the certificate, as many as there are settings.
    pub sections: Sections,
}

/// The text of a certificate, and whether a setting stopped.
pub(crate) fn written(alloc: Global, sections: &Sections, stopped: bool) -> Run
    ensures { (result ≡ Run.Memory) ⊎ (result ≡ Run.Certificates (cert_text sections.now) stopped) }
{
    match write_cert(alloc, sections) {
        Ok(text) => Run::Certificates { text, stopped },
        Err(_) => Run::Memory,
    }
}

/// What the certificate gives for a problem at settings.
fn read_at<L: Library>(
    alloc: Global,
    problem: Problem,
    settings: Vec<Setting>,
    certificate: &str,
    library: &mut L,
) -> Result<Certified, Run>
    requires { length settings.items < 2 ^ 32 }
    ensures reads { IfOk result (λ f. (f.problem ≡ problem) × (f.settings.items ≡ settings.items) × HasTextOf (L.told library.old) certificate.now f.problem f.settings.items f.sections) }
    ensures ends { IfErr result (λ r. ReadsCertificate (L.told library.old) (Rose (L.faults library.old) (L.faults library.new)) certificate.now problem (length settings.items) (Err r)) }
    ensures same { L.told library.new ≡ L.told library.old }
    ensures never_falls { L.faults library.old ≤ L.faults library.new }
{
    let count = settings.len() as u32;
    match read_certificate(alloc, certificate, &problem, count, library) {
        Ok(sections) => Ok(Certified {
            problem,
            settings,
            sections,
        }),
        Err(run) => {
            drop((problem, settings));
            Err(run)
        }
    }
}

/// What the certificate gives for an accepted problem at the lines of a settings file.
fn read_sections<L: Library>(
    alloc: Global,
    accepted: Accepted,
    lines: &Settings,
    certificate: &str,
    library: &mut L,
) -> Result<Certified, Run>
    requires full { Every (Every IsFull) lines.now }
    requires few { length lines.now ≤ most_settings }
    ensures reads { IfOk result (λ f. (f.problem ≡ accepted.work.problem) × AreLaidOver accepted.work.last lines.now f.settings.items
        × HasTextOf (L.told library.old) certificate.now f.problem f.settings.items f.sections) }
    ensures ends { IfErr result (λ r. (r ≡ Run.Memory) ⊎ ((laid : List Pairs) × AreLaidOver accepted.work.last lines.now laid
        × ReadsCertificate (L.told library.old) (Rose (L.faults library.old) (L.faults library.new)) certificate.now accepted.work.problem (length laid) (Err r))) }
    ensures same { L.told library.new ≡ L.told library.old }
    ensures never_falls { L.faults library.old ≤ L.faults library.new }
{
    let Accepted { work, verdict } = accepted;
    let Work {
        problem,
        events,
        last,
    } = work;
    drop((verdict, events));
    match all_laid_over(alloc, &last, lines.as_slice()) {
        Ok(settings) => read_at(alloc, problem, settings, certificate, library),
        Err(_) => {
            drop(problem);
            Err(Run::Memory)
        }
    }
}

/// What the script, the settings file and the certificate give, or the run that ends where one of them isn't had or is refused.
fn read_all<L: Library>(
    alloc: Global,
    script: &str,
    settings: &str,
    certificate: &str,
    library: &mut L,
) -> Result<Certified, Run>
    ensures reads { IfOk result (λ f. GivesSections (L.told library.old) script.now settings.now certificate.now f.problem f.settings.items f.sections) }
    ensures ends { IfErr result (EndsFiles (L.told library.old) (Rose (L.faults library.old) (L.faults library.new)) script.now settings.now certificate.now) }
    ensures same { L.told library.new ≡ L.told library.old }
{
    let accepted = read_script(alloc, script, library)?;
    if let Some(refusal) = refuse_whole(&accepted.work.problem) {
        drop(accepted);
        return Err(Run::Refused(refusal));
    }
    match read_settings(alloc, settings, library) {
        Ok(lines) => read_sections(alloc, accepted, &lines, certificate, library),
        Err(run) => {
            drop(accepted);
            Err(run)
        }
    }
}

/// Checks the sections of a certificate, each at its setting.
pub(crate) fn certify<L: Library>(
    alloc: Global,
    script: &str,
    settings: &str,
    certificate: &str,
    library: &mut L,
) -> Run
    ensures causes { (words : List (List ℕ)) (steps : ℕ) → command_of words ≡ Some (certifies script.now settings.now certificate.now)
        → Causes words (L.told library.old) (Rose (L.faults library.old) (L.faults library.new)) steps steps result }
    ensures same { L.told library.new ≡ L.told library.old }
{
    let files = match read_all(alloc, script, settings, certificate, library) {
        Ok(files) => files,
        Err(run) => return run,
    };
    match check_sections(
        alloc,
        &files.problem,
        &files.settings,
        files.sections.list.as_slice(),
    ) {
        Ok(sections) => {
            drop(files);
            Run::Certified { sections }
        }
        Err(refused) => {
            drop(files);
            refused_at(refused.section, refused.fault)
        }
    }
}

/// The text of sections that passed, with the settings' values.
fn migrated(alloc: Global, files: Certified) -> Run
    requires { length files.sections.list ≡ length files.settings.items }
    ensures { (result ≡ Run.Memory) ⊎ ((after : Read) × IsMigrated files.problem files.settings.items files.sections after × (result ≡ Run.Certificates (cert_text after) false)) }
{
    let Certified {
        problem,
        settings,
        sections,
    } = files;
    match with_values(alloc, &problem, &settings, sections) {
        Ok(sections) => {
            drop((problem, settings));
            written(alloc, &sections, false)
        }
        Err(_) => {
            drop((problem, settings));
            Run::Memory
        }
    }
}

/// Checks the sections of a certificate, each at its setting, and writes them with the settings' values.
pub(crate) fn migrate<L: Library>(
    alloc: Global,
    script: &str,
    settings: &str,
    certificate: &str,
    library: &mut L,
) -> Run
    ensures causes { (words : List (List ℕ)) (steps : ℕ) → command_of words ≡ Some (migrates script.now settings.now certificate.now)
        → Causes words (L.told library.old) (Rose (L.faults library.old) (L.faults library.new)) steps steps result }
    ensures same { L.told library.new ≡ L.told library.old }
{
    let files = match read_all(alloc, script, settings, certificate, library) {
        Ok(files) => files,
        Err(run) => return run,
    };
    match check_sections(
        alloc,
        &files.problem,
        &files.settings,
        files.sections.list.as_slice(),
    ) {
        Ok(_) => migrated(alloc, files),
        Err(refused) => {
            drop(files);
            refused_at(refused.section, refused.fault)
        }
    }
}
