//! Syntax trees of formulas, processes, declarations and proof commands.
#![tactic(auto)]

mod command;
mod declaration;
mod formula;
mod process;

pub use command::{CommandWord, ProofCommand};
pub use declaration::{Decl, ProcDecl};
pub use formula::{Binary, Binders, Constant, Form, Formula, MacroWord, Quantifier, Unary};
pub use process::Proc;
