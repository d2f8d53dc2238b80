// Sentences by their first word, and what is answered of a whole one.
ghost use Rattle.std.specs.Prelude.{◌≡◌, IfOk, IsErrOf, Some};
ghost use Rattle.sq_token.specs.Sign.{signs};
ghost use Rattle.sq_ast.specs.SentenceTrees.{decl_tree};
ghost use Rattle.sq_parse_file.specs.Read as spec;
ghost use Rattle.sq_parse_file.specs.Told.{Told};
ghost use Rattle.sq_parse_file.specs.Answers.{item_tree, IsItem, HasNoTree, IsTooDeep};

use crate::command::{command, exists};
use crate::declaration::{
    axiom, channel, equivalence, function, hash, lemma, name, process, signature, system,
};
use crate::depth::item_fits;
use crate::parts::end;
use crate::{FileFault, Item};
use sq_ast::CommandWord;
use sq_parse_term::{MAX_DEPTH, Stop};
use sq_token::{Reserved, Sentence, Token, TokenKind};
use std::alloc::Global;

/// The sentence that begins with the reserved word.
#[tactic(auto, unfolding(crate::specs::Read::read_row))]
fn reserved(alloc: Global, word: Reserved, tokens: &[Token]) -> Result<Item, Stop>
    ensures { Told item_tree result
        (spec.read_reserved 256 (spec.kind_at word) (signs tokens.now)) }
{
    match word {
        Reserved::Hash => Ok(Item::Decl(hash(alloc, tokens)?)),
        Reserved::Channel => Ok(Item::Decl(channel(alloc, tokens)?)),
        Reserved::Signature => Ok(Item::Decl(signature(alloc, tokens)?)),
        Reserved::Name => Ok(Item::Decl(name(alloc, tokens)?)),
        Reserved::Abstract => Ok(Item::Decl(function(alloc, tokens)?)),
        Reserved::Process => Ok(Item::Decl(process(alloc, tokens)?)),
        Reserved::System => Ok(Item::Decl(system(alloc, tokens)?)),
        Reserved::Axiom => Ok(Item::Decl(axiom(alloc, tokens)?)),
        Reserved::Lemma => Ok(Item::Decl(lemma(alloc, tokens)?)),
        Reserved::Equiv => Ok(Item::Decl(equivalence(alloc, tokens)?)),
        Reserved::Exists => Ok(Item::Command(exists(alloc, tokens)?)),
        Reserved::Proof => alone(Item::Proof, tokens),
        Reserved::Qed => alone(Item::Qed, tokens),
        _ => Err(Stop::None),
    }
}

/// A sentence of one word.
fn alone(item: Item, tokens: &[Token]) -> Result<Item, Stop>
    ensures { Told item_tree result (spec.stand_alone (item_tree item) (signs tokens.now)) }
{
    end(tokens)?;
    Ok(item)
}

fn item(alloc: Global, tokens: &[Token]) -> Result<Item, Stop>
    ensures { Told item_tree result (spec.read_sentence 256 (signs tokens.now)) }
{
    let Some((token, rest)) = tokens.split_first() else {
        return Err(Stop::None);
    };
    match token.kind {
        TokenKind::Reserved(word) => reserved(alloc, word, rest),
        TokenKind::Identifier => match CommandWord::of(token.text.as_str()) {
            Some(word) => Ok(Item::Command(command(alloc, word, rest)?)),
            None => Err(Stop::None),
        },
        _ => Err(Stop::None),
    }
}

/// The sentence that these tokens are.
pub fn parse_sentence(alloc: Global, s: &Sentence) -> Result<Item, FileFault>
    ensures ok { IfOk result (λ i. IsItem (item_tree i) (signs s.now.tokens)) }
    ensures syntax { IsErrOf result FileFault.Syntax → HasNoTree (signs s.now.tokens) }
    ensures deep { IsErrOf result FileFault.TooDeep → IsTooDeep (signs s.now.tokens) }
{
    let item = match item(alloc, s.tokens.as_slice()) {
        Ok(item) => item,
        Err(Stop::None) => return Err(FileFault::Syntax),
        Err(Stop::TooDeep) => return Err(FileFault::TooDeep),
        Err(Stop::NoMemory) => return Err(FileFault::NoMemory),
    };
    if !item_fits(&item, MAX_DEPTH) {
        return Err(FileFault::TooDeep);
    }
    Ok(item)
}
