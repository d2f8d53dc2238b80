//! The program: it runs the proofs of a file, and lists the goals that they prove.
#![tactic(auto)]

use sq_edge::{FileShelf, Status, StdSink};
use sq_run::squirrel_run;
use std::process::ExitCode;
use std::rt::Env;
use std::{env, io};

fn main(rt: HostRuntime) -> ExitCode {
    let alloc = rt.alloc();
    let mut shelf = FileShelf::new(&rt);
    let mut out = StdSink::new(&rt);
    let status = match words(&rt) {
        Ok(words) => squirrel_run(alloc, words.as_slice(), &mut shelf, &mut out),
        Err(error) if error.kind() == io::ErrorKind::OutOfMemory => Status::NoMemory,
        // A word that is no text is in no listed form.
        Err(_) => squirrel_run(alloc, &[], &mut shelf, &mut out),
    };
    ExitCode::from(status as u8)
}

// The words after the program's name.
fn words<R: Env + AllocGlobal>(rt: &R) -> io::Result<Vec<String>> {
    Ok(env::args(rt)?.skip(1).collect(rt.alloc())?)
}
