//! Whether the setting fits the problem.
ghost use Rattle.std.specs.Prelude.{◌≡◌, ◌≢◌, ◌⊎◌, [], OnOk};
ghost use Rattle.dcx_answer.specs.declared.stop.Stop.TheVariants as stops;
ghost use Rattle.dcx_answer.specs.declared.cert_fault.CertFault.TheVariants as faults;
ghost use Rattle.dcx_cert_sections.specs.Checks.{Checked};
ghost use Rattle.dcx_tree.specs.Meaning.{IsAccepted};
ghost use Rattle.dcx_cert_values.specs.Forming.{GivesParameters};
ghost use Rattle.dcx_cert_values.specs.Tables.{AreKeptValues, AreOnlyFixed};
ghost use Rattle.dcx_cert_check.specs.SingleChecks.{parameters_fit, setting_fits};

use dcx_answer::{CertFault, Stop};
use dcx_cert_values::{Values, divisors};
use dcx_fit::fit;
use dcx_point::Setting;
use dcx_tree::Problem;
use std::alloc::Global;

/// Whether the setting fits the problem: `Fit` tells the first name that is no parameter's, else the first parameter that isn't
/// met, else, node by node, the first entry of a divisor that is 0; `Wide` comes where a node below a divisor isn't formed.
pub fn check_fit(
    alloc: Global,
    problem: &Problem,
    setting: &Setting,
    values: &mut Values,
) -> Result<(), CertFault>
    requires accepted { IsAccepted problem.now }
    requires values { AreKeptValues problem.now setting.now [] values.old }
    ensures checked { Checked (setting_fits problem.now setting.now) result }
    ensures parameters { OnOk result (GivesParameters problem.now setting.now) }
    ensures values { AreKeptValues problem.now setting.now [] values.new }
    ensures only { AreOnlyFixed problem.now values.old → AreOnlyFixed problem.now values.new }
{
    check_parameters(alloc, problem, setting)?;
    divisors(alloc, problem, setting, values)
}

/// Whether the setting names the parameters alone, and meets each of them.
fn check_parameters(alloc: Global, problem: &Problem, setting: &Setting) -> Result<(), CertFault>
    ensures { Checked (parameters_fit problem.now setting.now) result }
{
    match fit(alloc, problem, setting) {
        Ok(()) => Ok(()),
        Err(stop) => Err(fault_of(stop)),
    }
}

/// The fault of a stop.
fn fault_of(stop: Stop) -> CertFault
    ensures { ((stop ≡ stops.Memory) × (result ≡ faults.Memory)) ⊎ ((stop ≢ stops.Memory) × (result ≡ faults.Fit stop)) }
{
    match stop {
        Stop::Memory => CertFault::Memory,
        stop => CertFault::Fit(stop),
    }
}
