// One formula of so many KiB, cut into tokens or read whole.
ghost use Rattle.std.specs.Prelude.{◌≤◌, length};

use crate::fault::Fault;
use sq_base::Seq;
use sq_lex::{LexFault, lex};
use sq_parse_term::{ParseFault, parse_formula};
use sq_token::{Sentence, Token};
use std::alloc::Global;

const MOST_BYTES: usize = 4_294_967_294;

/// Cuts a source into tokens. It is a call whose arguments are deep (`nested`), long conjunctions
/// (`conjunctions`) or identifiers (`tokens`).
pub fn lexed(alloc: Global, word: &str, kib: u32) -> Result<u32, Fault> {
    let source = source(alloc, word, kib)?;
    let _ = sentences(alloc, source.as_slice())?;
    Ok(kib)
}

/// Reads the formula of the same source too.
pub fn parsed(alloc: Global, word: &str, kib: u32) -> Result<u32, Fault> {
    let source = source(alloc, word, kib)?;
    let sentences = sentences(alloc, source.as_slice())?;
    match sentences.as_slice().first() {
        Some(sentence) => {
            if is_formula(alloc, sentence.tokens.as_slice())? {
                Ok(kib)
            } else {
                Err(Fault::Limit)
            }
        }
        None => Err(Fault::Limit),
    }
}

/// The sentences of a source.
pub fn sentences(alloc: Global, source: &[u8]) -> Result<Seq<Sentence>, Fault> {
    if source.len() > MOST_BYTES {
        return Err(Fault::Limit);
    }
    match lex(alloc, source) {
        Ok(sentences) => Ok(sentences),
        Err(LexFault::NoMemory) => Err(Fault::NoMemory),
        Err(_) => Err(Fault::Limit),
    }
}

// Whether all of the tokens are one formula.
fn is_formula(alloc: Global, tokens: &[Token]) -> Result<bool, Fault> {
    match parse_formula(alloc, tokens, 0) {
        Ok(Some((_, end))) => Ok(end == tokens.len()),
        Ok(None) => Ok(false),
        Err(ParseFault::TooDeep) => Ok(false),
        Err(ParseFault::NoMemory) => Err(Fault::NoMemory),
    }
}

fn source(alloc: Global, word: &str, kib: u32) -> Result<Vec<u8>, Fault> {
    let part = part(alloc, word)?;
    let count = kib as usize * 1024 / (part.len() + 1);
    let mut source = Vec::from_slice(alloc, b"f(")?;
    for _ in 0..count {
        source.extend_from_slice(part.as_bytes())?;
        source.push(b',')?;
    }
    source.extend_from_slice(b"a).")?;
    Ok(source)
}

fn part(alloc: Global, word: &str) -> Result<String, Fault> {
    match word {
        "nested" => {
            let opening = "(".repeat(alloc, 250)?;
            let closing = ")".repeat(alloc, 250)?;
            Ok(format!(in alloc; "{}a{}", opening.as_str(), closing.as_str())?)
        }
        "conjunctions" => {
            let front = "a&&".repeat(alloc, 250)?;
            Ok(format!(in alloc; "{}a", front.as_str())?)
        }
        "tokens" => Ok(String::from_str(alloc, "a")?),
        _ => Err(Fault::Usage),
    }
}
