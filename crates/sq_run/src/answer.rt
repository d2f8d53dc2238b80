// What is answered for a file that was read.
ghost use Rattle.std.specs.Prelude.{◌≡◌, ◌≤◌, ◌++◌, [], Some, IfOk, OnOk, length, decimal};
ghost use Rattle.sq_run.specs.Answering as spec;
ghost use Rattle.sq_run.specs.Running as running;
ghost use Rattle.sq_run.specs.Scripts as scripts;

use crate::runner::{Trouble, trouble_of};
use crate::scan::sentences_of;
use crate::script::{Lemma, Place, Script, script_of};
use itoa::Buffer;
use sq_base::{NoMemory, Seq};
use sq_edge::Status;
use std::alloc::Global;

/// How a run is to end, and the text that it is to put.
#[derive(Drop)]
pub struct Answer {
    pub status: Status,
    pub text: Seq<u8>,
}

/// The answer for the bytes of a file. The text's buffer is reserved before the first proof is run.
#[tactic(auto, unfolding(crate::specs::Answering::answer_of))]
pub fn answer_of(alloc: Global, bytes: &[u8]) -> Result<Answer, NoMemory>
    requires { length bytes.now ≤ spec.most_bytes }
    ensures { IfOk result (λ a. (a ≡ spec.answer_of bytes.now) × spec.IsVerdict a.status) }
{
    let text = Seq::from_vec(Vec::with_capacity(alloc, 2 * bytes.len() + 256)?);
    match form_of(alloc, bytes)? {
        None => refusal(text, bytes, Trouble::NotBuilt),
        Some(script) => answer_of_run(alloc, text, bytes, script),
    }
}

// The answer for a file of the form.
fn answer_of_run(
    alloc: Global,
    text: Seq<u8>,
    bytes: &[u8],
    script: Script,
) -> Result<Answer, NoMemory>
    requires short { length bytes.now ≤ spec.most_bytes }
    requires empty { text ≡ [] }
    requires form { scripts.form_of bytes.now ≡ Some script }
    ensures { IfOk result (λ a.
        (a ≡ spec.answer_of_run bytes.now script (running.trouble_of script))
        × spec.IsVerdict a.status) }
{
    match trouble_of(alloc, &script)? {
        None => listing(text, script.lemmas.as_slice()),
        Some(trouble) => refusal(text, bytes, trouble),
    }
}

// What the file holds, where it is of the form.
#[tactic(auto, unfolding(crate::specs::Scripts::form_of))]
fn form_of(alloc: Global, bytes: &[u8]) -> Result<Option<Script>, NoMemory>
    ensures { IfOk result (λ script. script ≡ scripts.form_of bytes.now) }
{
    match sentences_of(alloc, bytes)? {
        None => Ok(None),
        Some(sentences) => script_of(alloc, sentences.as_slice()),
    }
}

// The answer with a line for each lemma.
fn listing(mut text: Seq<u8>, lemmas: &[Lemma]) -> Result<Answer, NoMemory>
    ensures { IfOk result
        (λ a. (a ≡ spec.listing text lemmas.now) × spec.IsVerdict a.status) }
{
    for lemma in lemmas {
        text.extend_from_slice(b"proved ")?;
        text.extend_from_slice(lemma.name.as_str().as_bytes())?;
        text.push(b'\n')?;
    }
    Ok(Answer {
        status: Status::Done,
        text,
    })
}

// The answer with the line of the trouble.
fn refusal(mut text: Seq<u8>, bytes: &[u8], trouble: Trouble) -> Result<Answer, NoMemory>
    requires { length bytes.now ≤ spec.most_bytes }
    ensures { IfOk result
        (λ a. (a ≡ spec.refusal text bytes.now trouble) × spec.IsVerdict a.status) }
{
    text.extend_from_slice(b"refused: ")?;
    add_trouble(&mut text, bytes, trouble)?;
    text.push(b'\n')?;
    Ok(Answer {
        status: Status::Refused,
        text,
    })
}

fn add_trouble(text: &mut Seq<u8>, bytes: &[u8], trouble: Trouble) -> Result<(), NoMemory>
    requires { length bytes.now ≤ spec.most_bytes }
    ensures { OnOk result (text.new ≡ text.old ++ spec.trouble_text bytes.now trouble) }
{
    match trouble {
        Trouble::NotBuilt => text.extend_from_slice(b"NotBuilt"),
        Trouble::Shape(place) => {
            add_place(text, bytes, place)?;
            text.extend_from_slice(b"Shape")
        }
        Trouble::OpenGoals(count, place) => {
            add_place(text, bytes, place)?;
            text.extend_from_slice(b"OpenGoals(")?;
            add_number(text, count)?;
            text.push(b')')
        }
    }
}

// A sentence's number and the line of its first token.
fn add_place(text: &mut Seq<u8>, bytes: &[u8], place: Place) -> Result<(), NoMemory>
    requires { length bytes.now ≤ spec.most_bytes }
    ensures { OnOk result (text.new ≡ text.old ++ spec.place_text bytes.now place) }
{
    text.extend_from_slice(b"sentence ")?;
    add_number(text, place.number)?;
    text.extend_from_slice(b", line ")?;
    add_number(text, line_of(bytes, place.at))?;
    text.extend_from_slice(b": ")
}

fn add_number(text: &mut Seq<u8>, number: usize) -> Result<(), NoMemory>
    ensures { OnOk result (text.new ≡ text.old ++ decimal number) }
{
    let mut buffer = Buffer::new();
    text.extend_from_slice(buffer.format(number).as_bytes())
}

// The line of the place, counted from 1.
fn line_of(bytes: &[u8], at: usize) -> usize
    requires { length bytes.now ≤ spec.most_bytes }
    ensures { result ≡ spec.line_of bytes.now at }
{
    if at < bytes.len() {
        newlines(&bytes[..at]) + 1
    } else {
        newlines(bytes) + 1
    }
}

fn newlines(bytes: &[u8]) -> usize
    ensures count { result ≡ spec.newlines bytes.now }
    ensures within { result ≤ length bytes.now }
{
    let mut count = 0;
    'bytes: for b in bytes {
        if *b == b'\n' {
            count += 1;
        }
    }
    count
}
