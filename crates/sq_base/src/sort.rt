/// What a variable or a term stands for.
#[derive(Clone, Copy, Debug, PartialEq, Eq, Hash)]
pub enum Sort {
    Message,
    Boolean,
    Index,
    Timestamp,
}
