// What is made of certificates and of the lines of their steps.
use crate::plain::without_wrappers;
use sq_cert::{ReadFault, read, read_step, write, write_step};
use std::alloc::{AllocError, Global};

/// What is told of a step that was read: its tree, or whether it is written as it was read.
#[derive(Clone, Copy, Debug, PartialEq, Eq)]
enum Shown {
    Tree,
    Spelling,
}

/// Of each line the step whose line it is, or the fault.
pub fn steps(alloc: Global, given: &str) -> Result<String, AllocError> {
    each_line(alloc, given, Shown::Tree)
}

/// Of each line whether it is that of a step and is written as it was read, or the fault.
pub fn steps_kept(alloc: Global, given: &str) -> Result<String, AllocError> {
    each_line(alloc, given, Shown::Spelling)
}

fn each_line(alloc: Global, given: &str, what: Shown) -> Result<String, AllocError> {
    let mut out = String::new(alloc);
    for (at, line) in given.split('\n').enumerate() {
        if at > 0 {
            out.push_str("\n")?;
        }
        let told = line_told(alloc, line, what)?;
        out.push_str(told.as_str())?;
    }
    Ok(out)
}

fn line_told(alloc: Global, line: &str, what: Shown) -> Result<String, AllocError> {
    let step = match read_step(alloc, line.as_bytes()) {
        Ok(step) => step,
        Err(fault) => return format!(in alloc; "{fault:?}"),
    };
    if what == Shown::Tree {
        return without_wrappers(alloc, format!(in alloc; "{step:?}")?);
    }
    match write_step(alloc, &step) {
        Ok(written) => kept(alloc, line, written.as_str()),
        Err(fault) => format!(in alloc; "{fault:?}"),
    }
}

fn kept(alloc: Global, given: &str, written: &str) -> Result<String, AllocError> {
    if given == written {
        String::from_str(alloc, "kept")
    } else {
        format!(in alloc; "written as {written}")
    }
}

/// The goals of a certificate with their steps, and whether it is written as it was read; or the
/// fault.
pub fn certificate(alloc: Global, given: &str) -> Result<String, AllocError> {
    let blocks = match read(alloc, given.as_bytes()) {
        Ok(blocks) => blocks,
        Err(fault) => return format!(in alloc; "{fault:?}"),
    };
    let mut out = String::new(alloc);
    for (name, steps) in blocks.as_slice() {
        out.push_str("goal ")?;
        out.push_str(name.as_str())?;
        out.push_str("\n")?;
        for step in steps.as_slice() {
            let tree = without_wrappers(alloc, format!(in alloc; "{step:?}")?)?;
            out.push_str(tree.as_str())?;
            out.push_str("\n")?;
        }
    }
    let spelling = match write(alloc, blocks.as_slice()) {
        Ok(written) => kept(alloc, given, written.as_str())?,
        Err(fault) => format!(in alloc; "{fault:?}")?,
    };
    out.push_str(spelling.as_str())?;
    Ok(out)
}

/// How many proper fronts a text has, and the first that is no certificate cut short.
pub fn certificate_fronts(alloc: Global, given: &str) -> Result<String, AllocError> {
    let bytes = given.as_bytes();
    for length in 0..bytes.len() {
        let (front, _) = bytes.split_at(length);
        match read(alloc, front) {
            Err(ReadFault::Truncated) => {}
            Err(fault) => return format!(in alloc; "{length} bytes: {fault:?}"),
            Ok(_) => return format!(in alloc; "{length} bytes: read"),
        }
    }
    format!(in alloc; "{} fronts: Truncated", bytes.len())
}
