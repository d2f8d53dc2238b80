use crate::{Binders, Formula, Proc};
use sq_base::{Seq, Text};

/// A declaration as it is written. There is one variant for each alternative of the grammar, and
/// its fields are the parts of the alternative, in order.
#[derive(Debug, Drop)]
pub enum Decl {
    /// `hash name`
    Hash(Text),
    /// `channel name`
    Channel(Text),
    /// `signature sign, checksign, pk`, by their three names
    Signature(Text, Text, Text),
    /// `name n : index -> .. message`, with the number of indices
    Name(Text, u32),
    /// `abstract f : index -> .. message -> .. message`, with the numbers of indices and messages
    AbstractMessage(Text, u32, u32),
    /// `abstract f : index -> .. message -> .. boolean`, with the numbers of indices and messages
    AbstractBoolean(Text, u32, u32),
    /// `process name(binders) = proc`
    Process(Text, Option<Seq<Binders>>, Proc),
    /// `system name = proc`
    System(Text, Proc),
    /// `axiom name : formula`
    Axiom(Text, Formula),
    /// `lemma name : formula`
    Lemma(Text, Formula),
    /// `equiv name(binders) [formula, ..] : formula, ..`, with the hypotheses and the items
    Equiv(Text, Option<Seq<Binders>>, Option<Seq<Formula>>, Seq<Formula>),
}

/// A process that was declared.
#[derive(Debug, Drop)]
pub struct ProcDecl {
    pub name: Text,
    pub params: Seq<Text>,
    pub body: Proc,
    /// The length of the symbol table before the process was declared. A call inside the body
    /// names a process with a smaller number.
    pub sentence: u32,
}
