use sq_base::{Seq, Sort, Text};

/// What an identifier is given to mean.
#[derive(Clone, Copy, Debug, PartialEq, Eq)]
pub enum Given {
    /// The free index with this number.
    Index(u32),
    /// A message or a Boolean: the schema variable with this number, at this sort.
    Value(u32, Sort),
}

/// Where a formula stands: the system that its actions belong to, the identifiers that are given a
/// meaning, the variables of the sequent with their names and sorts, and the names of the schema
/// variables.
///
/// What is given stands before the variables. Of two given identifiers or two variables with one
/// name the later one counts. A variable whose sort is no index and no timestamp stands for
/// nothing.
#[derive(Debug, Drop)]
pub struct Scope {
    pub system: u32,
    pub given: Seq<(Text, Given)>,
    pub vars: Seq<(Text, Sort)>,
    pub schemas: Seq<Text>,
}
