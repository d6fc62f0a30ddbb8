//! Hands the words, the files of the host and standard output to the top call, and ends with its status.
#![tactic(auto)]

ghost use Rattle.std.specs.Prelude.{◌≡◌, ◌<◌};

use dcx_host::{FileLibrary, OutSink};
use dcx_steps::Steps;
use dcx_top::{Ended, run, without_words};
use std::alloc::AllocError;
use std::marker::Brand;
use std::process::ExitCode;
use std::rt::{Env, Files};
use std::sync::ledger::{Blank, Ledger};
use std::{env, io};

/// Adds the words after the program's name.
fn put_words(words: &mut Vec<String>, args: env::Args) -> Result<(), AllocError> {
    for word in args.skip(1) {
        words.push(word)?;
    }
    Ok(())
}

/// The words after the program's name. Where they aren't text there are none.
fn words(rt: &(impl Env + AllocGlobal)) -> Result<Vec<String>, AllocError> {
    let mut words = Vec::new(rt.alloc());
    let put = match env::args(rt) {
        Ok(args) => put_words(&mut words, args),
        Err(error) if error.kind() == io::ErrorKind::OutOfMemory => Err(AllocError),
        Err(_) => Ok(()),
    };
    put?;
    Ok(words)
}

/// Runs with a counter of its own, for the ledger that the caller names.
fn counted<R: Files + Print + AllocGlobal, S: Ledger>(rt: &R, words: &[String], blank: Blank) -> u8
    requires name { blank.name ≡ S.name }
    requires parts { blank.parts ≡ S.parts }
    requires some { 0 < blank.parts }
{
    let mut steps = Steps::<S>::new(blank);
    let mut library = FileLibrary::new(rt);
    let mut sink = OutSink::new(io::writer(rt));
    let Ended { status, run } = run(rt.alloc(), words, &mut library, &mut sink, &mut steps);
    drop(run);
    status
}

/// Tells that there is no memory for the words.
fn told<R: Print>(rt: &R) -> u8
    ensures { result ≡ 5 }
{
    let mut sink = OutSink::new(io::writer(rt));
    let Ended { status, run } = without_words(&mut sink);
    drop(run);
    status
}

fn main(rt: HostRuntime) -> ExitCode {
    match words(&rt) {
        Ok(words) => ExitCode::from(counted::<HostRuntime, Brand>(&rt, &words, Blank::new(1))),
        Err(_) => ExitCode::from(told(&rt)),
    }
}
