// The run of the program.
ghost use Rattle.std.specs.Prelude.{◌≡◌, ◌⊎◌, ◌<◌, ◌++◌, ◌∷◌, [], ℕ, List, map};
ghost use Rattle.std.specs.Prelude.{Some, None, IfOk, string_bytes};
ghost use Rattle.std.specs.Option.{option_copied};
ghost use Rattle.sq_edge.specs.Edge.{held, Rose};
ghost use Rattle.sq_run.specs.Answering.{IsVerdict};
ghost use Rattle.sq_run.specs.Headline.{ListsProved};
ghost use Rattle.sq_run.specs.Run as spec;

use crate::answer::{Answer, answer_of};
use crate::put::put_all;
use crate::reading::{MOST, read_file};
use sq_base::{NoMemory, Seq};
use sq_edge::{Shelf, ShelfError, Sink, Status};
use std::alloc::Global;

/// All that the program does, with the words after its name. It has the one command `check FILE`.
pub fn squirrel_run<F: Shelf, O: Sink>(
    alloc: Global,
    words: &[String],
    shelf: &mut F,
    out: &mut O,
) -> Status
    // What is put is what is meant for the words and the file, as the shelf tells it.
    ensures answers { spec.Answers
        (spec.IsMeant (spec.file_of (map string_bytes words.now)) (F.files shelf.old)
        (Rose (F.faults shelf.old) (F.faults shelf.new))
        (Rose (F.misses shelf.old) (F.misses shelf.new)))
        (O.bytes out.old) (O.bytes out.new) (Rose (O.faults out.old) (O.faults out.new)) result }
    // Where nothing fails, a file that is there has its answer, unless memory runs out.
    ensures complete { (name file : List ℕ) → spec.file_of (map string_bytes words.now) ≡ Some name
        → held (F.files shelf.old) name ≡ Some file
        → (Rose (F.faults shelf.old) (F.faults shelf.new) → ⊥)
        → (Rose (F.misses shelf.old) (F.misses shelf.new) → ⊥)
        → (Rose (O.faults out.old) (O.faults out.new) → ⊥)
        → (result ≡ (spec.answer_for file).status) ⊎ (result ≡ Status.NoMemory) }
    // Where a told shelf and a told sink end with Done, what was written lists goals that are
    // proved: steps of the calculus close each, and at every trace model and under every assignment
    // its translation on each side has a ground derivation.
    ensures listed { (name file old text : List ℕ) → result ≡ Status.Done
        → spec.file_of (map string_bytes words.now) ≡ Some name
        → held (F.files shelf.old) name ≡ Some file
        → O.bytes out.old ≡ Some old → O.bytes out.new ≡ Some (old ++ text)
        → ListsProved file text }
    ensures files { F.files shelf.new ≡ F.files shelf.old }
    ensures unread { spec.file_of (map string_bytes words.now) ≡ None → shelf.new ≡ shelf.old }
{
    match named_file(words) {
        Some(name) => check_file(alloc, name, shelf, out),
        None => put_answer(out, b"usage: squirrel check FILE\n", Status::Usage),
    }
}

// The file that the words name.
fn named_file(words: &[String]) -> Option<&str>
    ensures { option_copied result ≡ spec.file_of (map string_bytes words.now) }
{
    match words {
        [command, file] => {
            if command.as_str() == "check" && !file.as_str().starts_with('-') {
                Some(file.as_str())
            } else {
                None
            }
        }
        _ => None,
    }
}

// Puts the answer's text.
fn put_answer<O: Sink>(out: &mut O, text: &[u8], status: Status) -> Status
    ensures { spec.IsPut (O.bytes out.old) (O.bytes out.new)
        (Rose (O.faults out.old) (O.faults out.new)) text.now status result }
{
    match put_all(out, text) {
        Ok(()) => status,
        Err(_) => Status::OutFault,
    }
}

// Checks the file with this name.
fn check_file<F: Shelf, O: Sink>(alloc: Global, name: &str, shelf: &mut F, out: &mut O) -> Status
    ensures answers { spec.Answers
        (spec.IsMeant (Some name.now) (F.files shelf.old)
        (Rose (F.faults shelf.old) (F.faults shelf.new))
        (Rose (F.misses shelf.old) (F.misses shelf.new)))
        (O.bytes out.old) (O.bytes out.new) (Rose (O.faults out.old) (O.faults out.new)) result }
    ensures files { F.files shelf.new ≡ F.files shelf.old }
{
    match file_answer(alloc, name, shelf) {
        Ok(answer) => put_answer(out, answer.text.as_slice(), answer.status),
        Err(_) => Status::NoMemory,
    }
}

// The answer for the file with this name.
fn file_answer<F: Shelf>(alloc: Global, name: &str, shelf: &mut F) -> Result<Answer, NoMemory>
    ensures meant { IfOk result (λ a. spec.IsMeantFor name.now (F.files shelf.old)
        (Rose (F.faults shelf.old) (F.faults shelf.new))
        (Rose (F.misses shelf.old) (F.misses shelf.new)) a.status a.text) }
    ensures files { F.files shelf.new ≡ F.files shelf.old }
{
    match read_file(alloc, shelf, name) {
        Ok(bytes) => bytes_answer(alloc, &bytes),
        Err(ShelfError::Missing) => line_answer(alloc, Status::Missing, b"missing: ", name),
        Err(ShelfError::Failed) => line_answer(alloc, Status::ShelfFault, b"shelf fault: ", name),
        Err(ShelfError::NoMemory) => Err(NoMemory),
    }
}

// An answer of one line that ends with the name.
fn line_answer(alloc: Global, status: Status, front: &[u8], name: &str) -> Result<Answer, NoMemory>
    ensures { IfOk result
        (λ a. a ≡ record { status = status; text = front.now ++ name.now ++ 10 ∷ [] }) }
{
    let mut text = Seq::new(alloc);
    text.extend_from_slice(front)?;
    text.extend_from_slice(name.as_bytes())?;
    text.push(b'\n')?;
    Ok(Answer { status, text })
}

// The answer for what was read of a file.
fn bytes_answer(alloc: Global, bytes: &[u8]) -> Result<Answer, NoMemory>
    ensures { IfOk result (λ a. (a ≡ spec.answer_for bytes.now) × IsVerdict a.status) }
{
    if bytes.len() >= MOST {
        let mut text = Seq::new(alloc);
        text.extend_from_slice(b"limit: file over 1048576 bytes\n")?;
        return Ok(Answer {
            status: Status::Limit,
            text,
        });
    }
    answer_of(alloc, bytes)
}
