use sq_ast::{Decl, ProofCommand};

/// A sentence as it is written.
#[derive(Debug, Drop)]
pub enum Item {
    Decl(Decl),
    /// `Proof`
    Proof,
    /// `Qed`
    Qed,
    Command(ProofCommand),
}
