// What a function symbol is declared as.
use sq_base::Sort;

/// What the rules know of a function.
#[derive(Clone, Copy, Debug, PartialEq, Eq)]
pub enum FunRole {
    Plain,
    Hash,
    Sign,
    Check,
    Pk,
}

/// A function: its counts of indices and of arguments, the sort of its result, and its role.
#[derive(Clone, Copy, Debug, PartialEq, Eq)]
pub struct FunDecl {
    pub idx: u32,
    pub args: u32,
    pub result: Sort,
    pub role: FunRole,
}
