// Declarations, each behind its first word.
ghost use Rattle.std.specs.Prelude.{◌≡◌, Some};
ghost use Rattle.sq_token.specs.Sign.{signs};
ghost use Rattle.sq_ast.specs.Forms as forms;
ghost use Rattle.sq_ast.specs.ProcTree.{process_tree};
ghost use Rattle.sq_ast.specs.SentenceTrees.{decl_tree};
ghost use Rattle.sq_parse_term.specs.Parse.{bind, got};
ghost use Rattle.sq_parse_file.specs.Read as spec;
ghost use Rattle.sq_parse_file.specs.Told.{Told};

use crate::parts::{arrows, end, formulas, hypotheses, is_message, parameters};
use crate::rows::{statement, two_names};
use sq_ast::{Decl, Proc};
use sq_parse_process::parse_process;
use sq_parse_term::{MAX_DEPTH, Stop, eat_mark, eat_word, identifier};
use sq_token::{Punctuation, Reserved, Token};
use std::alloc::Global;

/// `hash ID`
#[tactic(auto, unfolding(crate::specs::Read::read_row))]
pub fn hash(alloc: Global, tokens: &[Token]) -> Result<Decl, Stop>
    ensures { Told decl_tree result (spec.read_kind 256 forms.hash (signs tokens.now)) }
{
    let (name, rest) = identifier(alloc, tokens)?;
    end(rest)?;
    Ok(Decl::Hash(name))
}

/// `channel ID`
#[tactic(auto, unfolding(crate::specs::Read::read_row))]
pub fn channel(alloc: Global, tokens: &[Token]) -> Result<Decl, Stop>
    ensures { Told decl_tree result (spec.read_kind 256 forms.channel (signs tokens.now)) }
{
    let (name, rest) = identifier(alloc, tokens)?;
    end(rest)?;
    Ok(Decl::Channel(name))
}

/// `signature ID, ID, ID`
#[tactic(auto, unfolding(crate::specs::Read::read_row))]
pub fn signature(alloc: Global, tokens: &[Token]) -> Result<Decl, Stop>
    ensures { Told decl_tree result (spec.read_kind 256 forms.signature (signs tokens.now)) }
{
    let (sign, rest) = identifier(alloc, tokens)?;
    let rest = eat_mark(Punctuation::Comma, rest)?;
    let ((check, key), rest) = two_names(alloc, rest)?;
    end(rest)?;
    Ok(Decl::Signature(sign, check, key))
}

/// `name ID : index -> .. message`
#[tactic(auto, unfolding(crate::specs::Read::read_row))]
pub fn name(alloc: Global, tokens: &[Token]) -> Result<Decl, Stop>
    ensures { Told decl_tree result (spec.read_kind 256 forms.name (signs tokens.now)) }
{
    let (name, rest) = identifier(alloc, tokens)?;
    let rest = eat_mark(Punctuation::Colon, rest)?;
    let (indices, rest) = arrows(Reserved::Index, rest)?;
    let rest = eat_word(Reserved::Message, rest)?;
    end(rest)?;
    Ok(Decl::Name(name, indices))
}

/// `abstract ID : index -> .. message -> .. message`, or `boolean` at the end
#[tactic(auto, unfolding(crate::specs::Read::read_row))]
pub fn function(alloc: Global, tokens: &[Token]) -> Result<Decl, Stop>
    ensures { Told decl_tree result (spec.read_kind 256 forms.function (signs tokens.now)) }
{
    let (name, rest) = identifier(alloc, tokens)?;
    let rest = eat_mark(Punctuation::Colon, rest)?;
    let (indices, rest) = arrows(Reserved::Index, rest)?;
    let (messages, rest) = arrows(Reserved::Message, rest)?;
    let (message, rest) = is_message(rest)?;
    end(rest)?;
    if message {
        Ok(Decl::AbstractMessage(name, indices, messages))
    } else {
        Ok(Decl::AbstractBoolean(name, indices, messages))
    }
}

/// `process ID(binders) = process`
#[tactic(auto, using(crate::proofs::Definitions::process_is))]
pub fn process(alloc: Global, tokens: &[Token]) -> Result<Decl, Stop>
    ensures { Told decl_tree result (spec.read_kind 256 forms.process (signs tokens.now)) }
{
    parametrized(alloc, tokens)
}

fn parametrized(alloc: Global, tokens: &[Token]) -> Result<Decl, Stop>
    ensures { Told decl_tree result (spec.read_process 256 (signs tokens.now)) }
{
    let (name, rest) = identifier(alloc, tokens)?;
    let (parameters, rest) = parameters(alloc, rest)?;
    let body = definition(alloc, rest)?;
    Ok(Decl::Process(name, parameters, body))
}

/// `system ID = process`
#[tactic(auto, using(crate::proofs::Definitions::system_is))]
pub fn system(alloc: Global, tokens: &[Token]) -> Result<Decl, Stop>
    ensures { Told decl_tree result (spec.read_kind 256 forms.system (signs tokens.now)) }
{
    plain(alloc, tokens)
}

fn plain(alloc: Global, tokens: &[Token]) -> Result<Decl, Stop>
    ensures { Told decl_tree result (spec.read_system 256 (signs tokens.now)) }
{
    let (name, rest) = identifier(alloc, tokens)?;
    let body = definition(alloc, rest)?;
    Ok(Decl::System(name, body))
}

/// `= process`, and nothing behind it
fn definition(alloc: Global, tokens: &[Token]) -> Result<Proc, Stop>
    ensures { Told process_tree result (spec.read_definition 256 (signs tokens.now)) }
{
    let rest = eat_mark(Punctuation::Equals, tokens)?;
    let (body, rest) = parse_process(alloc, MAX_DEPTH, rest)?;
    whole(body, rest)
}

fn whole(body: Proc, rest: &[Token]) -> Result<Proc, Stop>
    ensures { Told process_tree result
        (bind (spec.end (signs rest.now)) (λ _ u. got (process_tree body) u)) }
{
    match rest.split_first() {
        None => Ok(body),
        Some(_) => {
            drop(body);
            Err(Stop::None)
        }
    }
}

/// `axiom ID : formula`
#[tactic(auto, unfolding(crate::specs::Read::read_row))]
pub fn axiom(alloc: Global, tokens: &[Token]) -> Result<Decl, Stop>
    ensures { Told decl_tree result (spec.read_kind 256 forms.postulate (signs tokens.now)) }
{
    let ((name, formula), rest) = statement(alloc, tokens)?;
    end(rest)?;
    Ok(Decl::Axiom(name, formula))
}

/// `lemma ID : formula`
#[tactic(auto, unfolding(crate::specs::Read::read_row))]
pub fn lemma(alloc: Global, tokens: &[Token]) -> Result<Decl, Stop>
    ensures { Told decl_tree result (spec.read_kind 256 forms.lemma (signs tokens.now)) }
{
    let ((name, formula), rest) = statement(alloc, tokens)?;
    end(rest)?;
    Ok(Decl::Lemma(name, formula))
}

/// `equiv ID(binders) [formula, ..] : formula, ..`
#[tactic(auto, unfolding(crate::specs::Read::read_row))]
pub fn equivalence(alloc: Global, tokens: &[Token]) -> Result<Decl, Stop>
    ensures { Told decl_tree result (spec.read_kind 256 forms.equivalence (signs tokens.now)) }
{
    let (name, rest) = identifier(alloc, tokens)?;
    let (parameters, rest) = parameters(alloc, rest)?;
    let (hypotheses, rest) = hypotheses(alloc, rest)?;
    let rest = eat_mark(Punctuation::Colon, rest)?;
    let (items, rest) = formulas(alloc, rest)?;
    end(rest)?;
    Ok(Decl::Equiv(name, parameters, hypotheses, items))
}
