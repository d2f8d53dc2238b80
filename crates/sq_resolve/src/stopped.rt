/// The first node of a formula at which the walk over a process stops, by how many nodes stand
/// before it.
#[derive(Clone, Copy, Debug, PartialEq, Eq)]
pub enum Stopped {
    /// It speaks of time.
    Time(usize),
    /// It is one node too many, or it stands too deep.
    Limit(usize),
}
