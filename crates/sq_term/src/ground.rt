use sq_base::Seq;
use sqlite_items::Items;

/// A ground term of the base logic: names and functions carry numbers in place of indices, and an
/// atom stands for a schema variable's message.
#[derive(Debug, Drop)]
pub enum GTerm {
    Name(u32, Seq<u32>),
    Fun(u32, Seq<u32>, Items<GTerm>),
    Atom(u32),
}
