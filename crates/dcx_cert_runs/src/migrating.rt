//! A certificate that was read is written with the settings' values.
ghost use Rattle.std.specs.Prelude.{◌≡◌, [], length, IfOk, OnOk};
ghost use Rattle.dcx_cert_runs.specs.Migrating.{told_or as told_or_of, with_values as with_values_of, IsMigrated};

use dcx_cert_build::values_of;
use dcx_cert_sections::{Cert, Format, Section, SectionList, Sections};
use dcx_point::Setting;
use dcx_tree::Problem;
use std::alloc::{AllocError, Global};

/// The values as they are told, or else the setting's, in order of declaration.
fn told_or(
    alloc: Global,
    problem: &Problem,
    setting: &Setting,
    params: Option<Setting>,
) -> Result<Option<Setting>, AllocError>
    ensures { IfOk result (λ o. o ≡ told_or_of problem.now setting.now params) }
{
    match params {
        Some(values) => Ok(Some(values)),
        None => Ok(Some(values_of(alloc, problem, setting)?)),
    }
}

/// A section with the values of its setting.
fn with_values(
    alloc: Global,
    problem: &Problem,
    setting: &Setting,
    section: Section,
) -> Result<Section, AllocError>
    ensures { IfOk result (λ s. s ≡ with_values_of problem.now setting.now section) }
{
    match section {
        Section::Cert(
            Cert::Optimal {
                value,
                point,
                duals,
                weights,
                params,
            },
        ) => match told_or(alloc, problem, setting, params) {
            Ok(params) => Ok(Section::Cert(Cert::Optimal {
                value,
                point,
                duals,
                weights,
                params,
            })),
            Err(e) => {
                drop(point);
                drop(duals);
                drop(weights);
                Err(e)
            }
        },
        Section::Cert(
            Cert::Infeasible {
                duals,
                gap,
                weights,
                params,
            },
        ) => match told_or(alloc, problem, setting, params) {
            Ok(params) => Ok(Section::Cert(Cert::Infeasible {
                duals,
                gap,
                weights,
                params,
            })),
            Err(e) => {
                drop(duals);
                drop(weights);
                Err(e)
            }
        },
        Section::Cert(
            Cert::Unbounded {
                point,
                ray,
                bound,
                slope,
                params,
            },
        ) => match told_or(alloc, problem, setting, params) {
            Ok(params) => Ok(Section::Cert(Cert::Unbounded {
                point,
                ray,
                bound,
                slope,
                params,
            })),
            Err(e) => {
                drop(point);
                drop(ray);
                Err(e)
            }
        },
        Section::None => Ok(Section::None),
    }
}

/// Puts the sections into an empty list, each with the values of its setting.
fn put_all(
    alloc: Global,
    problem: &Problem,
    settings: &[Setting],
    sections: Sections,
    list: &mut Vec<Section>,
) -> Result<(), AllocError>
    requires empty { list.old.items ≡ [] }
    requires count { length sections.list ≡ length settings.now }
    ensures { OnOk result (IsMigrated problem.now settings.now sections (record { format = Format.Two; list = list.new.items })) }
{
    for section in sections.list.into_vec() {
        let i = list.len();
        let setting = &settings[i];
        let with = with_values(alloc, problem, setting, section)?;
        list.push(with)?;
    }
    Ok(())
}

/// The same sections in format 2, each with the values of its setting; those that have them already keep them.
pub fn migrate(
    alloc: Global,
    problem: &Problem,
    settings: &[Setting],
    sections: Sections,
) -> Result<Sections, AllocError>
    requires { length sections.list ≡ length settings.now }
    ensures { IfOk result (IsMigrated problem.now settings.now sections) }
{
    let mut list = Vec::new(alloc);
    match put_all(alloc, problem, settings, sections, &mut list) {
        Ok(()) => Ok(Sections {
            format: Format::Two,
            list: SectionList::from_vec(list),
        }),
        Err(e) => {
            drop(list);
            Err(e)
        }
    }
}
