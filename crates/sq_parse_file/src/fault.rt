/// Why a sentence was refused.
#[derive(Clone, Copy, Debug, PartialEq, Eq)]
pub enum FileFault {
    /// The tokens are those of no sentence.
    Syntax,
    /// More than 256 nodes would stand one inside the other.
    TooDeep,
    NoMemory,
}
