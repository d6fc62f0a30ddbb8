//! What the words of a command line ask for.
ghost use Rattle.std.specs.Prelude.{◌∷◌, map, string_bytes, option_map, option_and_then};
ghost use Rattle.dcx_words.specs.Commands.{check, solve, resolve, certificate, certify, migrate, trial, iis, range, file_of, files_of, warm_files_of};
ghost use Rattle.dcx_words.specs.Commands.{three_files_of, size_of, command_of, limited_command, without_option as without_option_of};
ghost use Rattle.dcx_words.specs.Around.{words_around, operands_around};
ghost use Rattle.dcx_words.specs.Asked.{Asks};

use crate::operands::{Around, unlimited, without_option};

/// What a plain form of the words asks for.
#[derive(Clone, Copy)]
pub enum Form<'a> {
    /// The rules check the problem of a script.
    Check {
        script: &'a str,
    },
    /// The problem of a script is solved, with so many pivots at most.
    Solve {
        script: &'a str,
        limit: u64,
    },
    /// The problem of a script is solved at each of the settings, with so many pivots at most; where it is warm, from
    /// what the settings before left.
    Resolve {
        script: &'a str,
        settings: &'a str,
        limit: u64,
        warm: bool,
    },
    /// The answers of a script's problem at each of the settings are told with what shows them, with so many pivots at most.
    Certificate {
        script: &'a str,
        settings: &'a str,
        limit: u64,
    },
    /// What shows the answers of a script's problem at each of the settings is checked.
    Certify {
        script: &'a str,
        settings: &'a str,
        certificate: &'a str,
    },
    /// What shows the answers of a script's problem at each of the settings is checked, and told with the settings' values.
    Migrate {
        script: &'a str,
        settings: &'a str,
        certificate: &'a str,
    },
    /// The made-up problem of this size is solved, with so many pivots at most.
    Trial {
        size: u32,
        limit: u64,
    },
    /// Constraints of a script's problem that keep it from having a feasible point are told at each of the settings, with so many
    /// pivots at most in each step.
    Iis {
        script: &'a str,
        settings: &'a str,
        limit: u64,
    },
    /// How far a parameter of a script's problem may move is told at each of the settings, with so many pivots at most.
    Range {
        script: &'a str,
        settings: &'a str,
        parameter: &'a str,
        limit: u64,
    },
}

/// What a check asks for.
fn check_form<'a>(around: Around<'a>) -> Option<Form<'a>>
    ensures { Asks (option_map check (file_of (words_around around.entry))) result }
{
    let script = around.file()?;
    Some(Form::Check { script })
}

/// What a solve asks for.
fn solve_form<'a>(around: Around<'a>) -> Option<Form<'a>>
    ensures { Asks (option_map (λ script. solve script around.entry.limit) (file_of (words_around around.entry))) result }
{
    let script = around.file()?;
    Some(Form::Solve {
        script,
        limit: around.limit,
    })
}

/// What a solve at settings asks for.
fn resolve_form<'a>(around: Around<'a>) -> Option<Form<'a>>
    ensures { Asks (option_map (λ files. resolve files.0 files.1 around.entry.limit files.2) (warm_files_of (words_around around.entry))) result }
{
    let (script, settings, warm) = around.warm_files()?;
    Some(Form::Resolve {
        script,
        settings,
        limit: around.limit,
        warm,
    })
}

/// What the making of a certificate asks for.
fn certificate_form<'a>(around: Around<'a>) -> Option<Form<'a>>
    ensures { Asks (option_map (λ files. certificate files.0 files.1 around.entry.limit) (files_of (words_around around.entry))) result }
{
    let (script, settings) = around.files()?;
    Some(Form::Certificate {
        script,
        settings,
        limit: around.limit,
    })
}

/// What the check of a certificate asks for.
fn certify_form<'a>(around: Around<'a>) -> Option<Form<'a>>
    ensures { Asks (option_map (λ files. certify files.0 files.1 files.2) (three_files_of (words_around around.entry))) result }
{
    let (script, settings, certificate) = around.three_files()?;
    Some(Form::Certify {
        script,
        settings,
        certificate,
    })
}

/// What the writing anew of a certificate asks for.
fn migrate_form<'a>(around: Around<'a>) -> Option<Form<'a>>
    ensures { Asks (option_map (λ files. migrate files.0 files.1 files.2) (three_files_of (words_around around.entry))) result }
{
    let (script, settings, certificate) = around.three_files()?;
    Some(Form::Migrate {
        script,
        settings,
        certificate,
    })
}

/// What a trial asks for.
fn trial_form<'a>(around: Around<'a>) -> Option<Form<'a>>
    ensures { Asks (option_map (λ size. trial size around.entry.limit) (size_of (words_around around.entry))) result }
{
    let size = around.size()?;
    Some(Form::Trial {
        size,
        limit: around.limit,
    })
}

/// What the telling of constraints that no point keeps together asks for.
fn iis_form<'a>(around: Around<'a>) -> Option<Form<'a>>
    ensures { Asks (option_map (λ files. iis files.0 files.1 around.entry.limit) (files_of (words_around around.entry))) result }
{
    let (script, settings) = around.files()?;
    Some(Form::Iis {
        script,
        settings,
        limit: around.limit,
    })
}

/// What the telling of a parameter's range asks for.
fn range_form<'a>(around: Around<'a>) -> Option<Form<'a>>
    ensures { Asks (option_map (λ files. range files.0 files.1 files.2 around.entry.limit) (three_files_of (words_around around.entry))) result }
{
    let (script, settings, parameter) = around.three_files()?;
    Some(Form::Range {
        script,
        settings,
        parameter,
        limit: around.limit,
    })
}

/// The form of a command that takes the option.
fn limited_form<'a>(name: &str, around: Around<'a>) -> Option<Form<'a>>
    ensures { Asks (limited_command name.now (operands_around around.entry)) result }
{
    match name {
        "solve" => solve_form(around),
        "resolve" => resolve_form(around),
        "certificate" => certificate_form(around),
        "trial" => trial_form(around),
        "iis" => iis_form(around),
        "range" => range_form(around),
        _ => None,
    }
}

/// The form of a command that takes the option, with its words.
fn option_form<'a>(name: &str, words: &'a [String]) -> Option<Form<'a>>
    ensures { Asks (option_and_then (limited_command name.now) (without_option_of (map string_bytes words.now))) result }
{
    let around = without_option(words)?;
    limited_form(name, around)
}

/// The form of a command, with its words.
fn named_form<'a>(name: &str, words: &'a [String]) -> Option<Form<'a>>
    ensures { Asks (command_of (name.now ∷ map string_bytes words.now)) result }
{
    match name {
        "check" => check_form(unlimited(words)),
        "certify" => certify_form(unlimited(words)),
        "migrate" => migrate_form(unlimited(words)),
        _ => option_form(name, words),
    }
}

/// What the words ask for, where they are a plain form.
///
/// The words are those behind the program's name: the name of a command, then its operands in order. `solve`,
/// `resolve`, `certificate`, `trial`, `iis` and `range` may have the option `--max-pivots N`, or `--max-pivots=N`, once at any place
/// behind the name, and `resolve` the word `--warm` so.
pub fn plain_form(words: &[String]) -> Option<Form<'_>>
    ensures { Asks (command_of (map string_bytes words.now)) result }
{
    match words {
        [] => None,
        [name, rest @ ..] => named_form(name.as_str(), rest),
    }
}
