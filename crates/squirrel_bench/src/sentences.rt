// Sentences of so many KiB, read whole.
use crate::fault::Fault;
use crate::reading::sentences;
use sq_parse_file::{FileFault, parse_sentence};
use std::alloc::Global;

/// Reads the sentences of a source. It is one parallel of many parts (`parallel`), one process that
/// is deep and ends in a long message (`process`), or many short sentences (`short`).
pub fn read(alloc: Global, word: &str, kib: u32) -> Result<u32, Fault> {
    let source = source(alloc, word, kib as usize * 1024)?;
    let sentences = sentences(alloc, source.as_bytes())?;
    for sentence in sentences.as_slice() {
        match parse_sentence(alloc, sentence) {
            Ok(_) => {}
            Err(FileFault::NoMemory) => return Err(Fault::NoMemory),
            Err(_) => return Err(Fault::Limit),
        }
    }
    Ok(kib)
}

fn source(alloc: Global, word: &str, bytes: usize) -> Result<String, Fault> {
    let (front, part, end) = match word {
        "parallel" => ("system S=(P", "|P", ")."),
        "process" => ("out(c,f(a", ",a", "))."),
        "short" => ("", "mp H as L.", ""),
        _ => return Err(Fault::Usage),
    };
    let parts = part.repeat(alloc, bytes / part.len())?;
    let body = format!(in alloc; "{front}{}{end}", parts.as_str())?;
    if word != "process" {
        return Ok(body);
    }
    let around = "if f(a)=b then in(c,x);".repeat(alloc, 100)?;
    Ok(format!(in alloc; "system S={}{}", around.as_str(), body.as_str())?)
}
