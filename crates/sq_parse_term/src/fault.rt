/// Why no formula was read.
#[derive(Clone, Copy, Debug, PartialEq, Eq)]
pub enum ParseFault {
    /// More than 256 nodes would stand one inside the other.
    TooDeep,
    NoMemory,
}
