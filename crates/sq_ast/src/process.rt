ghost use Rattle.std.specs.Prelude.{◌≡◌, option_map};
ghost use Rattle.sq_ast.specs.View.{formula_tree};
ghost use Rattle.sq_ast.specs.ProcTree as tree;
ghost use Rattle.sq_ast.specs.ProcTree.{process_tree};

use crate::Formula;
use sq_base::{Seq, Text};
use sqlite_items::{Boxed, Items};

/// A process as it is written. There is one variant for each alternative of the grammar, and its
/// fields are the parts of the alternative, in order.
#[derive(Debug, Drop)]
pub enum Proc {
    Null,
    /// `new name; proc`
    New(Text, Boxed<Proc>),
    /// `in(channel, variable); proc`
    In(Text, Text, Option<Boxed<Proc>>),
    /// `out(channel, formula); proc`
    Out(Text, Formula, Option<Boxed<Proc>>),
    /// `if formula then proc else proc`
    If(Formula, Boxed<Proc>, Option<Boxed<Proc>>),
    /// `find i, j such that formula in proc else proc`
    Find(Seq<Text>, Formula, Boxed<Proc>, Option<Boxed<Proc>>),
    /// `let name = formula in proc`
    Let(Text, Formula, Boxed<Proc>),
    /// `!_name proc`
    Replicate(Text, Boxed<Proc>),
    /// `name : proc`
    Label(Text, Boxed<Proc>),
    /// `name`, or `name(i, ..)` with one argument or more
    Call(Text, Option<Seq<Text>>),
    /// `(proc)`, or `(proc | proc | ..)`
    Parallel(Items<Proc>),
}

impl Proc {
    /// `in(channel, variable)`, and what goes on behind it.
    pub fn receive(channel: Text, variable: Text, next: Option<Boxed<Proc>>) -> Proc
        ensures { process_tree result ≡ tree.receive_before channel variable
            (option_map process_tree next) }
    {
        match next {
            None => Proc::In(channel, variable, None),
            Some(next) => Proc::In(channel, variable, Some(next)),
        }
    }

    /// `out(channel, message)`, and what goes on behind it.
    pub fn send(channel: Text, message: Formula, next: Option<Boxed<Proc>>) -> Proc
        ensures { process_tree result ≡ tree.send_before channel (formula_tree message)
            (option_map process_tree next) }
    {
        match next {
            None => Proc::Out(channel, message, None),
            Some(next) => Proc::Out(channel, message, Some(next)),
        }
    }

    /// `if test then yes`, and the other branch.
    pub fn branch(test: Formula, yes: Boxed<Proc>, no: Option<Boxed<Proc>>) -> Proc
        ensures { process_tree result ≡ tree.branch_or (formula_tree test) (process_tree yes)
            (option_map process_tree no) }
    {
        match no {
            None => Proc::If(test, yes, None),
            Some(no) => Proc::If(test, yes, Some(no)),
        }
    }

    /// `find names such that test in yes`, and the other branch.
    pub fn find(names: Seq<Text>, test: Formula, yes: Boxed<Proc>, no: Option<Boxed<Proc>>) -> Proc
        ensures { process_tree result ≡ tree.find_or names (formula_tree test) (process_tree yes)
            (option_map process_tree no) }
    {
        match no {
            None => Proc::Find(names, test, yes, None),
            Some(no) => Proc::Find(names, test, yes, Some(no)),
        }
    }
}
