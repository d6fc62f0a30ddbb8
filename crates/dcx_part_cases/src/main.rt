//! Runs the cases of parts of the solver. Of calls: their shapes, signs, trends, values, rows, slopes and maps, what is demanded of
//! variables, the places that slices and reshapes take, what the public calls of fractions give, and pushes of nodes. Of linear
//! programs: their rows, their scaled programs, and simplex runs on these. And those of tokens and of settings files.
#![tactic(auto)]

mod calls;
mod demands;
mod fractions;
mod given;
mod lines;
mod maps;
mod parts;
mod places;
mod programs;
mod pushes;
mod rows;
mod slopes;
mod tokens;
mod told;
mod values;

use crate::lines::{CaseFault, Cases, Tally};
use std::alloc::Global;
use std::io;

/// What the cases of a file ask.
#[derive(Clone, Copy)]
enum Asked {
    Told,
    Values,
    Rows,
    Slopes,
    Maps,
    Given,
    Demands,
    Places,
    Fractions,
    Pushes,
    Programs,
    Tokens,
    Settings,
}

impl Cases for Asked {
    fn answer(&self, alloc: Global, parts: &[&str], out: &mut String) -> Result<(), CaseFault> {
        match *parts {
            [first, ref rest @ ..] => put_answer(*self, alloc, first, rest, out),
            [] => Err(CaseFault::Unreadable),
        }
    }
}

/// Writes what comes of a case, by its first part and the rest.
fn put_answer(
    asked: Asked,
    alloc: Global,
    first: &str,
    rest: &[&str],
    out: &mut String,
) -> Result<(), CaseFault> {
    match asked {
        Asked::Told => told::put_told(alloc, first, rest, out),
        Asked::Values => values::put_values(alloc, first, rest, out),
        Asked::Rows => rows::put_asked(alloc, first, rest, out),
        Asked::Slopes => slopes::put_slopes(alloc, first, rest, out),
        Asked::Maps => maps::put_maps(alloc, first, rest, out),
        Asked::Given => given::put_given(alloc, first, rest, out),
        Asked::Demands => demands::put_demands(alloc, first, rest, out),
        Asked::Places => places::put_taken(alloc, first, rest, out),
        Asked::Fractions => fractions::put_fractions(alloc, first, rest, out),
        Asked::Pushes => pushes::put_pushes(alloc, first, rest, out),
        Asked::Programs => programs::put_of_rows(alloc, first, rest, out),
        Asked::Tokens => tokens::lists::put_of_text(alloc, first, rest, out),
        Asked::Settings => tokens::files::put_of_file(alloc, first, rest, out),
    }
}

fn main(rt: HostRuntime) -> io::Result<()> {
    let mut tally = Tally::new();
    for (asked, file) in [
        (Asked::Told, "told.txt"),
        (Asked::Values, "values.txt"),
        (Asked::Rows, "rows.txt"),
        (Asked::Slopes, "slopes.txt"),
        (Asked::Maps, "maps.txt"),
        (Asked::Given, "given.txt"),
        (Asked::Demands, "demands.txt"),
        (Asked::Places, "places.txt"),
        (Asked::Fractions, "fractions.txt"),
        (Asked::Pushes, "pushes.txt"),
        (Asked::Programs, "programs.txt"),
        (Asked::Tokens, "tokens.txt"),
        (Asked::Settings, "settings.txt"),
    ] {
        tally.run(&rt, &asked, file)?;
    }
    tally.print(&rt)
}
