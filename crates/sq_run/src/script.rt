// From sentences to lemmas with their proofs.
ghost use Rattle.std.specs.Prelude.{◌≡◌, IfOk, Some, List};
ghost use Rattle.sq_run.specs.declared.scan.Sentence.{Sentence};
ghost use Rattle.sq_run.specs.declared.script.Script.{Script};
ghost use Rattle.sq_run.specs.Files.{IsFileOf};
ghost use Rattle.std.specs.Str.{bytes_eq};
ghost use Rattle.sq_run.specs.Scripts as spec;

use crate::formula::{Chain, chain_of, is_shallow};
use crate::number::number_of;
use crate::scan::{Sentence, is_word};
use sq_base::{NoMemory, Seq, Sort, Text};
use sq_sym::{SymFault, Symbol, Table};
use sq_term::FunDecl;
use sq_token::{Reserved, reserved_of};
use sq_typing::{builtin_functions, plain_function};
use std::alloc::Global;

/// A proof command. `Destruct` has the label of a hypothesis and those of its parts.
#[derive(Debug, Drop)]
pub enum Command {
    Intro(Text),
    Destruct(Text, Text, Text),
    Split,
    Assumption,
}

/// Where a sentence stands: its number, counted from 1, and the place behind its first token.
#[derive(Clone, Copy, Debug, PartialEq, Eq)]
pub struct Place {
    pub number: usize,
    pub at: usize,
}

#[derive(Debug, Drop)]
pub struct Task {
    pub command: Command,
    pub place: Place,
}

/// A lemma with the commands of its proof and the place of its `Qed`.
#[derive(Debug, Drop)]
pub struct Lemma {
    pub name: Text,
    pub formula: Chain,
    pub tasks: Seq<Task>,
    pub qed: Place,
}

/// What the sentences so far have begun: nothing, a lemma, or its proof.
#[derive(Debug, Drop)]
pub enum Stage {
    Outside,
    Stated(Text, Chain),
    Proving(Text, Chain, Seq<Task>),
}

/// What a file holds: its names and its lemmas.
#[derive(Drop)]
pub struct Script {
    pub table: Table,
    pub funs: Seq<FunDecl>,
    pub lemmas: Seq<Lemma>,
    pub stage: Stage,
}

/// What the sentences of a file hold. None stands for sentences that are not of the form, a name
/// that is declared twice, or a formula that uses an undeclared name or is too deep.
#[tactic(auto, unfolding(crate::specs::Scripts::script_of))]
pub fn script_of(alloc: Global, sentences: &[Sentence]) -> Result<Option<Script>, NoMemory>
    ensures { IfOk result (λ script. script ≡ spec.script_of sentences.now) }
{
    let mut script = Script {
        table: Table::new(alloc),
        funs: builtin_functions(alloc)?,
        lemmas: Seq::new(alloc),
        stage: Stage::Outside,
    };
    'sentences: for (number, sentence) in sentences.iter().enumerate() {
        let place = Place {
            number: number + 1,
            at: sentence.at,
        };
        match script.take(alloc, sentence.words.as_slice(), place)? {
            Some(next) => script = next,
            None => return Ok(None),
        }
    }
    if is_outside(&script.stage) {
        Ok(Some(script))
    } else {
        Ok(None)
    }
}

impl Script {
    fn take(self, alloc: Global, words: &[Text], place: Place) -> Result<Option<Script>, NoMemory>
        ensures { IfOk result (λ next. next ≡ spec.after_words self words.now place) }
    {
        match words {
            [] => Ok(None),
            [first, rest @ ..] => match reserved_of(first.as_str()) {
                Some(Reserved::Abstract) => self.declare(alloc, rest),
                Some(Reserved::Lemma) => self.state(alloc, rest),
                Some(Reserved::Proof) => Ok(self.begin(alloc, rest)),
                Some(Reserved::Qed) => self.end(rest, place),
                _ => match command_of(alloc, words)? {
                    Some(command) => self.add(command, place),
                    None => Ok(None),
                },
            },
        }
    }

    fn declare(self, alloc: Global, words: &[Text]) -> Result<Option<Script>, NoMemory>
        ensures { IfOk result (λ next. next ≡ spec.declared self words.now) }
    {
        match words {
            [name, colon, sort] => {
                if is_sort(colon, sort) && self.is_before_lemmas() && is_name(name) {
                    self.declare_constant(alloc, name.as_str())
                } else {
                    Ok(None)
                }
            }
            _ => Ok(None),
        }
    }

    fn declare_constant(self, alloc: Global, name: &str) -> Result<Option<Script>, NoMemory>
        ensures { IfOk result (λ next. next ≡ spec.declared_constant self name.now) }
    {
        let number = number_of(self.funs.len())?;
        match self.with_symbol(alloc, name, Symbol::Fun(number))? {
            Some(next) => {
                let mut funs = next.funs;
                funs.push(plain_function(0, Sort::Boolean))?;
                Ok(Some(Script {
                    table: next.table,
                    funs,
                    lemmas: next.lemmas,
                    stage: next.stage,
                }))
            }
            None => Ok(None),
        }
    }

    fn is_before_lemmas(&self) -> bool
        ensures { result ≡ spec.is_before_lemmas self.now }
    {
        is_outside(&self.stage) && matches!(self.lemmas.as_slice(), [])
    }

    // The script with a name more. None where it is there.
    fn with_symbol(
        self,
        alloc: Global,
        name: &str,
        symbol: Symbol,
    ) -> Result<Option<Script>, NoMemory>
        ensures { IfOk result (λ next. next ≡ spec.with_symbol self name.now symbol) }
    {
        let Script {
            mut table,
            funs,
            lemmas,
            stage,
        } = self;
        match table.declare(alloc, name, symbol) {
            Ok(_) => Ok(Some(Script {
                table,
                funs,
                lemmas,
                stage,
            })),
            Err(SymFault::Twice) => Ok(None),
            Err(SymFault::NoMemory) => Err(NoMemory),
        }
    }

    fn state(self, alloc: Global, words: &[Text]) -> Result<Option<Script>, NoMemory>
        ensures { IfOk result (λ next. next ≡ spec.stated self words.now) }
    {
        match words {
            [name, colon, formula @ ..] => {
                if reads(colon, ":") && is_outside(&self.stage) && is_name(name) {
                    self.state_formula(alloc, name, formula)
                } else {
                    Ok(None)
                }
            }
            _ => Ok(None),
        }
    }

    fn state_formula(
        self,
        alloc: Global,
        name: &Text,
        words: &[Text],
    ) -> Result<Option<Script>, NoMemory>
        ensures { IfOk result (λ next. next ≡ spec.stated_formula self name.now words.now) }
    {
        let chain = match chain_of(alloc, &self.table, words)? {
            Some(chain) => chain,
            None => return Ok(None),
        };
        if !is_shallow(&chain) {
            return Ok(None);
        }
        let number = number_of(self.lemmas.len())?;
        let own = name.copy(alloc)?;
        match self.with_symbol(alloc, name.as_str(), Symbol::Statement(number))? {
            Some(next) => Ok(Some(Script {
                table: next.table,
                funs: next.funs,
                lemmas: next.lemmas,
                stage: Stage::Stated(own, chain),
            })),
            None => Ok(None),
        }
    }

    fn begin(self, alloc: Global, words: &[Text]) -> Option<Script>
        ensures { result ≡ spec.begun self words.now }
    {
        let Script {
            table,
            funs,
            lemmas,
            stage,
        } = self;
        match (words, stage) {
            ([], Stage::Stated(name, formula)) => Some(Script {
                table,
                funs,
                lemmas,
                stage: Stage::Proving(name, formula, Seq::new(alloc)),
            }),
            _ => None,
        }
    }

    fn add(self, command: Command, place: Place) -> Result<Option<Script>, NoMemory>
        ensures { IfOk result (λ next. next ≡ spec.commanded_at self self.stage command place) }
    {
        let Script {
            table,
            funs,
            lemmas,
            stage,
        } = self;
        match stage {
            Stage::Proving(name, formula, mut tasks) => {
                tasks.push(Task { command, place })?;
                Ok(Some(Script {
                    table,
                    funs,
                    lemmas,
                    stage: Stage::Proving(name, formula, tasks),
                }))
            }
            _ => Ok(None),
        }
    }

    fn end(self, words: &[Text], place: Place) -> Result<Option<Script>, NoMemory>
        ensures { IfOk result (λ next. next ≡ spec.qed self words.now place) }
    {
        let Script {
            table,
            funs,
            mut lemmas,
            stage,
        } = self;
        match (words, stage) {
            ([], Stage::Proving(name, formula, tasks)) => {
                lemmas.push(Lemma {
                    name,
                    formula,
                    tasks,
                    qed: place,
                })?;
                Ok(Some(Script {
                    table,
                    funs,
                    lemmas,
                    stage: Stage::Outside,
                }))
            }
            _ => Ok(None),
        }
    }
}

fn is_outside(stage: &Stage) -> bool
    ensures { result ≡ spec.is_outside stage.now }
{
    matches!(stage, Stage::Outside)
}

/// Whether the word is this text.
pub fn reads(word: &Text, text: &str) -> bool
    ensures { result ≡ bytes_eq word.now text.now }
{
    word.as_str() == text
}

fn is_sort(colon: &Text, sort: &Text) -> bool
    ensures { result ≡ spec.is_sort colon.now sort.now }
{
    reads(colon, ":") && reads(sort, "boolean")
}

fn is_destruct(word: &Text, by: &Text) -> bool
    ensures { result ≡ spec.is_destruct word.now by.now }
{
    reads(word, "destruct") && reads(by, "as")
}

fn are_names(hyp: &Text, first: &Text, second: &Text) -> bool
    ensures { result ≡ spec.are_names hyp.now first.now second.now }
{
    is_name(hyp) && is_name(first) && is_name(second)
}

// Whether the word is an identifier.
fn is_name(word: &Text) -> bool
    ensures { result ≡ spec.is_name word.now }
{
    is_word(word.as_str().as_bytes()) && reserved_of(word.as_str()).is_none()
}

fn command_of(alloc: Global, words: &[Text]) -> Result<Option<Command>, NoMemory>
    ensures { IfOk result (λ command. command ≡ spec.command_of words.now) }
{
    match words {
        [word] => {
            if reads(word, "split") {
                Ok(Some(Command::Split))
            } else if reads(word, "assumption") {
                Ok(Some(Command::Assumption))
            } else {
                Ok(None)
            }
        }
        [word, label] => {
            if reads(word, "intro") && is_name(label) {
                Ok(Some(Command::Intro(label.copy(alloc)?)))
            } else {
                Ok(None)
            }
        }
        [word, hyp, by, first, second] => destruct_of(alloc, word, hyp, by, first, second),
        _ => Ok(None),
    }
}

fn destruct_of(
    alloc: Global,
    word: &Text,
    hyp: &Text,
    by: &Text,
    first: &Text,
    second: &Text,
) -> Result<Option<Command>, NoMemory>
    ensures { IfOk result (λ command. command
        ≡ spec.destruct_of word.now hyp.now by.now first.now second.now) }
{
    if !(is_destruct(word, by) && are_names(hyp, first, second)) {
        return Ok(None);
    }
    let hyp = hyp.copy(alloc)?;
    let first = first.copy(alloc)?;
    let second = second.copy(alloc)?;
    Ok(Some(Command::Destruct(hyp, first, second)))
}

/// What the sentences of a file hold, in the words of a file's form: sentences are read as a script
/// exactly where they are those of a file of the form that holds it.
pub fn scripts_are_of_files()
    ensures file { (sentences : List Sentence) (script : Script)
        → spec.script_of sentences ≡ Some script → IsFileOf sentences script }
    ensures complete { (sentences : List Sentence) (script : Script)
        → IsFileOf sentences script → spec.script_of sentences ≡ Some script }
{}
