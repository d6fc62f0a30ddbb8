//! What the files of a command give, or the run that ends where one isn't had or is refused.
ghost use Rattle.std.specs.Prelude.{◌≡◌, ◌≤◌, length, IfOk, IfErr};
ghost use Rattle.dcx_host.specs.Faults.{Rose};
ghost use Rattle.dcx_top.specs.Files.{most_bytes as most_bytes_of};
ghost use Rattle.dcx_top.specs.Reading.{run_of, GivesBytes, EndsAt, ReadsScript, ReadsSettings, refused_at as refused_at_of, ReadsCertificate};

use dcx_answer::CertFault;
use dcx_cert_sections::Sections;
use dcx_cert_text::read_cert;
use dcx_front::{Accepted, FrontFault, accept, unread};
use dcx_host::{FetchFault, Library};
use dcx_refusal::{Refusal, RefusalSource};
use dcx_report::Run;
use dcx_settings::{Settings, parse_settings};
use dcx_shape::Bytes;
use dcx_tree::Problem;
use std::alloc::Global;

/// How many bytes a script has at most, a settings file, and a certificate.
fn most_bytes(source: RefusalSource) -> usize
    ensures { result ≡ most_bytes_of source }
{
    match source {
        RefusalSource::Script | RefusalSource::Settings => 1_048_576,
        RefusalSource::Certificate => 67_108_864,
    }
}

/// The bytes of a file, or the run that ends where they aren't had or are too many.
fn fetched<L: Library>(
    alloc: Global,
    source: RefusalSource,
    name: &str,
    library: &mut L,
) -> Result<Bytes, Run>
    ensures bytes { GivesBytes (L.told library.old) name.now result }
    ensures few { IfOk result (λ bytes. length bytes ≤ most_bytes_of source) }
    ensures ends { IfErr result (EndsAt (L.told library.old) (Rose (L.faults library.old) (L.faults library.new)) source name.now (λ _ _. ⊥)) }
    ensures same { L.told library.new ≡ L.told library.old }
    ensures never_falls { L.faults library.old ≤ L.faults library.new }
{
    match library.fetch(alloc, name, most_bytes(source)) {
        Ok(bytes) => Ok(bytes),
        Err(FetchFault::TooLong) => Err(Run::Refused(Refusal::too_long(source))),
        Err(FetchFault::Absent) => Err(Run::ReadFault),
        Err(FetchFault::Failed) => Err(Run::ReadFault),
        Err(FetchFault::Memory) => Err(Run::Memory),
    }
}

/// The run of a file that gives nothing.
pub(crate) fn ended(fault: FrontFault) -> Run
    ensures { result ≡ run_of fault }
{
    match fault {
        FrontFault::Refused(refusal) => Run::Refused(refusal),
        FrontFault::Memory => Run::Memory,
    }
}

/// The accepted problem of a script in a file.
pub(crate) fn read_script<L: Library>(
    alloc: Global,
    name: &str,
    library: &mut L,
) -> Result<Accepted, Run>
    ensures reads { ReadsScript (L.told library.old) (Rose (L.faults library.old) (L.faults library.new)) name.now result }
    ensures same { L.told library.new ≡ L.told library.old }
    ensures never_falls { L.faults library.old ≤ L.faults library.new }
{
    let bytes = fetched(alloc, RefusalSource::Script, name, library)?;
    match accept(alloc, bytes.as_slice()) {
        Ok(accepted) => Ok(accepted),
        Err(fault) => Err(ended(fault)),
    }
}

/// The settings of a file.
pub(crate) fn read_settings<L: Library>(
    alloc: Global,
    name: &str,
    library: &mut L,
) -> Result<Settings, Run>
    ensures reads { ReadsSettings (L.told library.old) (Rose (L.faults library.old) (L.faults library.new)) name.now result }
    ensures same { L.told library.new ≡ L.told library.old }
    ensures never_falls { L.faults library.old ≤ L.faults library.new }
{
    let bytes = fetched(alloc, RefusalSource::Settings, name, library)?;
    match parse_settings(alloc, bytes.as_slice()) {
        Ok(settings) => Ok(settings),
        Err(fault) => Err(ended(unread(RefusalSource::Settings, fault))),
    }
}

/// The run of a certificate that is refused: at a section, or, where it can't be read, at none.
pub(crate) fn refused_at(section: u32, fault: CertFault) -> Run
    ensures { result ≡ refused_at_of section fault }
{
    match fault {
        CertFault::Memory => Run::Memory,
        fault => Run::CertRefused { section, fault },
    }
}

/// The sections of a certificate in a file, for a problem at so many settings.
pub(crate) fn read_certificate<L: Library>(
    alloc: Global,
    name: &str,
    problem: &Problem,
    count: u32,
    library: &mut L,
) -> Result<Sections, Run>
    ensures reads { ReadsCertificate (L.told library.old) (Rose (L.faults library.old) (L.faults library.new)) name.now problem.now count result }
    ensures same { L.told library.new ≡ L.told library.old }
    ensures never_falls { L.faults library.old ≤ L.faults library.new }
{
    let bytes = fetched(alloc, RefusalSource::Certificate, name, library)?;
    match read_cert(alloc, problem, count, bytes.as_slice()) {
        Ok(sections) => Ok(sections),
        Err(fault) => Err(refused_at(0, fault)),
    }
}
