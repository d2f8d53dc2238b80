//! Runs case files: plain texts that say what is given and what is wanted of it. It prints each case
//! that differs, with what was wanted and what came, and at the end how many cases there were.
#![tactic(auto)]

mod case;
mod case_file;
mod certificates;
mod fault;
mod outcome;
mod plain;
mod program;
mod sentences;

use case::Case;
use case_file::cases_of;
use fault::Fault;
use outcome::outcome;
use std::alloc::Global;
use std::process::ExitCode;
use std::rt::{Env, Files};
use std::{env, fs, io};

fn main(rt: HostRuntime) -> io::Result<ExitCode> {
    let words: Vec<String> = env::args(&rt)?.skip(1).collect(rt.alloc())?;
    let mut count = Count {
        cases: 0,
        differ: 0,
    };
    for name in words.iter() {
        run_file(&rt, rt.alloc(), name.as_str(), &mut count)?;
    }
    println!(rt; "{} cases, {} differ", count.cases, count.differ)?;
    Ok(ExitCode::from((count.differ != 0) as u8))
}

/// How many cases were run, and how many of them came out otherwise than wanted.
#[derive(Drop)]
struct Count {
    cases: u32,
    differ: u32,
}

// Runs the cases of one file. A file that is no list of cases counts as one case that differs.
fn run_file<R: Files + Print + AllocGlobal>(
    rt: &R,
    alloc: Global,
    name: &str,
    count: &mut Count,
) -> io::Result<()> {
    let text = fs::read_to_string(rt, name)?;
    match cases_of(alloc, text.as_str()) {
        Ok(cases) => run_cases(rt, alloc, name, &cases, count),
        Err(Fault::Line(line)) => {
            count.differ = count.differ.saturating_add(1);
            println!(rt; "{name}, line {line}: no line of a case stands here")
        }
        Err(Fault::NoMemory) => Err(io::ErrorKind::OutOfMemory.into()),
    }
}

fn run_cases<R: Print + AllocGlobal>(
    rt: &R,
    alloc: Global,
    name: &str,
    cases: &[Case],
    count: &mut Count,
) -> io::Result<()> {
    for case in cases {
        count.cases = count.cases.saturating_add(1);
        let came = outcome(alloc, case.kind, case.given.as_str())?;
        if came.as_str() != case.wanted.as_str() {
            count.differ = count.differ.saturating_add(1);
            println!(rt;
                "{name}, line {}: {}\nwanted:\n{}\ncame:\n{}",
                case.line,
                case.name.as_str(),
                case.wanted.as_str(),
                came.as_str()
            )?;
        }
    }
    Ok(())
}
