// What comes of sentences.
use crate::plain::without_wrappers;
use sq_lex::lex;
use sq_parse_file::{FileFault, Item, parse_sentence};
use sq_token::Sentence;
use std::alloc::{AllocError, Global};

/// How much of a sentence is read.
#[derive(Clone, Copy, Debug, PartialEq, Eq)]
pub enum Extent {
    Whole,
    WithoutLast,
}

/// The tree of a sentence that is given without its stop, or why it has none.
pub fn sentence(alloc: Global, given: &str) -> Result<String, AllocError> {
    match only_sentence(alloc, given)? {
        Ok(sentence) => match parse_sentence(alloc, &sentence) {
            Ok(item) => tree(alloc, &item),
            Err(fault) => format!(in alloc; "{fault:?}"),
        },
        Err(told) => Ok(told),
    }
}

/// The answer to the sentences of a text, one on each line without its stop. Where they have not
/// all the same, a line for each, with its answer.
pub fn sentences(alloc: Global, given: &str, extent: Extent) -> Result<String, AllocError> {
    let mut lines = String::new(alloc);
    let mut all: Option<String> = None;
    let mut same = true;
    for line in given.split('\n') {
        let answer = answer(alloc, line, extent)?;
        let shown = format!(in alloc; "{}: {line}\n", answer.as_str())?;
        lines.push_str(shown.as_str())?;
        same = same
            && match &all {
                None => true,
                Some(first) => first.as_str() == answer.as_str(),
            };
        all = Some(answer);
    }
    match all {
        Some(answer) if same => Ok(answer),
        _ => Ok(lines),
    }
}

// `Ok` where the sentence has a tree, else the fault.
fn answer(alloc: Global, line: &str, extent: Extent) -> Result<String, AllocError> {
    match only_sentence(alloc, line)? {
        Ok(sentence) => match read(alloc, sentence, extent) {
            Ok(_) => String::from_str(alloc, "Ok"),
            Err(fault) => format!(in alloc; "{fault:?}"),
        },
        Err(told) => Ok(told),
    }
}

fn read(alloc: Global, sentence: Sentence, extent: Extent) -> Result<Item, FileFault> {
    let mut sentence = sentence;
    if extent == Extent::WithoutLast {
        let count = sentence.tokens.len();
        sentence.tokens.truncate(count.saturating_sub(1));
    }
    parse_sentence(alloc, &sentence)
}

// The sentence that the text is, or what is told where it is none.
fn only_sentence(alloc: Global, text: &str) -> Result<Result<Sentence, String>, AllocError> {
    let stopped = format!(in alloc; "{text} .")?;
    match lex(alloc, stopped.as_bytes()) {
        Ok(sentences) => {
            let mut sentences = sentences.into_vec();
            match sentences.pop() {
                Some(sentence) if sentences.is_empty() => Ok(Ok(sentence)),
                _ => Ok(Err(String::from_str(alloc, "not one sentence")?)),
            }
        }
        Err(fault) => Ok(Err(format!(in alloc; "{fault:?}")?)),
    }
}

fn tree(alloc: Global, item: &Item) -> Result<String, AllocError> {
    let shown = format!(in alloc; "{item:?}")?;
    without_wrappers(alloc, shown)
}
