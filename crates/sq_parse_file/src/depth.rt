// How deep a sentence is.
ghost use Rattle.std.specs.Prelude.{◌≤◌, ◌↔◌, max, IsTrue};
ghost use Rattle.sq_ast.specs.View.{formula_trees};
ghost use Rattle.sq_ast.specs.Deep.{heights};
ghost use Rattle.sq_ast.specs.Forms.{sentence_height};
ghost use Rattle.sq_ast.specs.SentenceTrees.{decl_tree, command_tree};
ghost use Rattle.sq_parse_file.specs.Answers.{item_tree};

use crate::Item;
use sq_ast::{Decl, ProofCommand};
use sq_parse_process::process_fits;
use sq_parse_term::{all_fit, fits};

/// Whether at most this many nodes of the sentence stand one inside the other.
pub fn item_fits(item: &Item, room: usize) -> bool
    ensures { IsTrue result ↔ (sentence_height (item_tree item.now) ≤ room) }
{
    match item {
        Item::Decl(decl) => decl_fits(decl, room),
        Item::Command(command) => command_fits(command, room),
        Item::Proof => true,
        Item::Qed => true,
    }
}

fn decl_fits(decl: &Decl, room: usize) -> bool
    ensures { IsTrue result ↔ (sentence_height (decl_tree decl.now) ≤ room) }
{
    match decl {
        Decl::Hash(_) => true,
        Decl::Channel(_) => true,
        Decl::Signature(_, _, _) => true,
        Decl::Name(_, _) => true,
        Decl::AbstractMessage(_, _, _) => true,
        Decl::AbstractBoolean(_, _, _) => true,
        Decl::Process(_, _, body) => process_fits(body, room),
        Decl::System(_, body) => process_fits(body, room),
        Decl::Axiom(_, formula) => fits(formula, room),
        Decl::Lemma(_, formula) => fits(formula, room),
        Decl::Equiv(_, _, None, items) => all_fit(items.as_slice(), room),
        Decl::Equiv(_, _, Some(hypotheses), items) => {
            all_fit(hypotheses.as_slice(), room) && all_fit(items.as_slice(), room)
        }
    }
}

fn command_fits(command: &ProofCommand, room: usize) -> bool
    ensures { IsTrue result ↔ (sentence_height (command_tree command.now) ≤ room) }
{
    match command {
        ProofCommand::Exists(value) => fits(value, room),
        ProofCommand::Spec(_, value, _) => fits(value, room),
        ProofCommand::Have(_, formula) => fits(formula, room),
        ProofCommand::Case(formula, _) => fits(formula, room),
        ProofCommand::UseWith(_, values, _) => all_fit(values.as_slice(), room),
        ProofCommand::Fact(value, _) => fits(value, room),
        ProofCommand::Expand(_, time, _) => fits(time, room),
        ProofCommand::Undefined(_, time, _) => fits(time, room),
        ProofCommand::Tcases(time, _) => fits(time, room),
        ProofCommand::ReplaceLeft(_, value) => fits(value, room),
        ProofCommand::ReplaceRight(_, value) => fits(value, room),
        ProofCommand::PrfLeft(_, value, other) => fits(value, room) && fits(other, room),
        ProofCommand::PrfRight(_, value, other) => fits(value, room) && fits(other, room),
        ProofCommand::Intro(_) => true,
        ProofCommand::Split => true,
        ProofCommand::Left => true,
        ProofCommand::Right => true,
        ProofCommand::Destruct(_, _, _) => true,
        ProofCommand::Mp(_, _) => true,
        ProofCommand::Contra(_) => true,
        ProofCommand::Drop(_) => true,
        ProofCommand::Use(_, _) => true,
        ProofCommand::Project => true,
        ProofCommand::Trace => true,
        ProofCommand::Assumption => true,
        ProofCommand::Refl => true,
        ProofCommand::Rewrite(_, _) => true,
        ProofCommand::RewriteIn(_, _, _) => true,
        ProofCommand::Induction(_, _) => true,
        ProofCommand::InductionWith(_, _, _) => true,
        ProofCommand::Fresh(_, _) => true,
        ProofCommand::Euf(_, _) => true,
        ProofCommand::Collision(_, _) => true,
        ProofCommand::Assume(_) => true,
        ProofCommand::Select(_) => true,
        ProofCommand::Fa(_) => true,
        ProofCommand::Atom(_) => true,
        ProofCommand::FreshItem(_) => true,
        ProofCommand::IfCase(_, _) => true,
        ProofCommand::Deduce(_, _) => true,
        ProofCommand::Constraints => true,
        ProofCommand::Congruence => true,
        ProofCommand::Auto => true,
    }
}
