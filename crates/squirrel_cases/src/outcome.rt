// What the program makes of what a case gives, as a text.
use crate::case::Kind;
use crate::certificates::{certificate, certificate_fronts, steps, steps_kept};
use crate::plain::without_wrappers;
use crate::program::program;
use crate::sentences::{Extent, sentence, sentences};
use sq_ast::Formula;
use sq_base::NoMemory;
use sq_lex::lex;
use sq_parse_term::parse_formula;
use sq_token::{Sentence, Token};
use std::alloc::{AllocError, Global};

/// What is told of a formula that was read: how many tokens it has, or its tree too.
#[derive(Clone, Copy, Debug, PartialEq, Eq)]
enum Shown {
    Length,
    Tree,
}

/// What comes of the given text.
pub fn outcome(alloc: Global, kind: Kind, given: &str) -> Result<String, AllocError> {
    match kind {
        Kind::Tokens => tokens(alloc, given),
        Kind::Formula => formula(alloc, given, Shown::Tree),
        Kind::FormulaLength => formula(alloc, given, Shown::Length),
        Kind::Sentence => sentence(alloc, given),
        Kind::Sentences => sentences(alloc, given, Extent::Whole),
        Kind::Shortened => sentences(alloc, given, Extent::WithoutLast),
        Kind::Run => program(alloc, given).map_err(|_| AllocError),
        Kind::Steps => steps(alloc, given),
        Kind::StepsKept => steps_kept(alloc, given),
        Kind::Certificate => certificate(alloc, given),
        Kind::CertificateFronts => certificate_fronts(alloc, given),
    }
}

// Each sentence on a line, with its line and each token's kind, text and span; or the fault.
fn tokens(alloc: Global, source: &str) -> Result<String, AllocError> {
    match lex(alloc, source.as_bytes()) {
        Ok(sentences) => sentence_lines(alloc, sentences.as_slice()),
        Err(fault) => format!(in alloc; "{fault:?}"),
    }
}

fn sentence_lines(alloc: Global, sentences: &[Sentence]) -> Result<String, AllocError> {
    let mut out = String::new(alloc);
    let mut before = "";
    for sentence in sentences {
        out.push_str(before)?;
        before = "\n";
        let line = sentence_line(alloc, sentence)?;
        out.push_str(line.as_str())?;
    }
    Ok(out)
}

fn sentence_line(alloc: Global, sentence: &Sentence) -> Result<String, AllocError> {
    let mut out = format!(in alloc; "line {}:", sentence.line)?;
    for token in sentence.tokens.as_slice() {
        let shown = format!(in alloc;
            " {:?} {} {}-{}",
            token.kind,
            token.text.as_str(),
            token.from,
            token.to
        )?;
        out.push_str(shown.as_str())?;
    }
    Ok(out)
}

// How many tokens the longest formula at the beginning has, and its tree; or why there is none.
fn formula(alloc: Global, source: &str, what: Shown) -> Result<String, AllocError> {
    let text = format!(in alloc; "{source} .")?;
    match lex(alloc, text.as_bytes()) {
        Ok(sentences) => match sentences.as_slice().first() {
            Some(sentence) => longest(alloc, sentence.tokens.as_slice(), what),
            None => String::from_str(alloc, "no sentence"),
        },
        Err(fault) => format!(in alloc; "{fault:?}"),
    }
}

fn longest(alloc: Global, tokens: &[Token], what: Shown) -> Result<String, AllocError> {
    match parse_formula(alloc, tokens, 0) {
        Ok(Some((formula, end))) => told(alloc, &formula, end, what),
        Ok(None) => String::from_str(alloc, "None"),
        Err(fault) => format!(in alloc; "{fault:?}"),
    }
}

fn told(alloc: Global, formula: &Formula, end: usize, what: Shown) -> Result<String, AllocError> {
    if what == Shown::Length {
        return format!(in alloc; "{end}");
    }
    let tree = format!(in alloc; "{formula:?}")?;
    let plain = without_wrappers(alloc, tree)?;
    format!(in alloc; "{end} {}", plain.as_str())
}
