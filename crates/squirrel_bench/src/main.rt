//! Times parts of the program. The words `SUBJECT WORD TURNS` say what is done and how often, or of
//! how many KiB. The scripts in bench/ take the time around a run.
#![tactic(auto)]

mod certificates;
mod fault;
mod pool;
mod reading;
mod resolution;
mod rows;
mod sentences;
mod substitution;

use fault::Fault;
use std::alloc::Global;
use std::process::ExitCode;
use std::rt::Env;
use std::{env, io};

fn main(rt: HostRuntime) -> io::Result<ExitCode> {
    let words = words(&rt)?;
    match turned(rt.alloc(), words.as_slice()) {
        Ok(turns) => {
            println!(rt; "{turns} turns")?;
            Ok(ExitCode::SUCCESS)
        }
        Err(fault) => Ok(ExitCode::from(fault as u8)),
    }
}

// The words after the program's name.
fn words<R: Env + AllocGlobal>(rt: &R) -> io::Result<Vec<String>> {
    Ok(env::args(rt)?.skip(1).collect(rt.alloc())?)
}

// Does what the words say, and counts the turns that went well.
fn turned(alloc: Global, words: &[String]) -> Result<u32, Fault> {
    let [subject, word, turns] = words else {
        return Err(Fault::Usage);
    };
    let turns = turns.as_str().parse::<u32>().or(Err(Fault::Usage))?;
    match subject.as_str() {
        "substitution" => substitution::turned(alloc, word.as_str(), turns),
        "lexing" => reading::lexed(alloc, word.as_str(), turns),
        "parsing" => reading::parsed(alloc, word.as_str(), turns),
        "sentences" => sentences::read(alloc, word.as_str(), turns),
        "resolution" => resolution::turned(alloc, word.as_str(), turns),
        "rows" => rows::turned(alloc, word.as_str(), turns),
        "pool" => pool::turned(alloc, word.as_str(), turns),
        "certificate" => certificates::turned(alloc, word.as_str(), turns),
        _ => Err(Fault::Usage),
    }
}
