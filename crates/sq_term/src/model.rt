// Trace models and the values of variables.
use sq_base::Seq;

/// An instance of an action.
#[derive(Debug, Drop)]
pub struct Inst {
    pub act: u32,
    pub idx: Seq<u32>,
}

/// A trace model: how many indices there are, and the instances in their order. Position 0 is init,
/// and the first instance has position 1.
#[derive(Debug, Drop)]
pub struct Model {
    pub indices: u32,
    pub list: Seq<Inst>,
}

/// The value of a variable: an index, or a position, or no position for what does not happen.
#[derive(Clone, Copy, Debug, PartialEq, Eq)]
pub enum Value {
    Index(u32),
    Time(Option<u32>),
}

/// A value for each variable of a sequent.
#[derive(Debug, Drop)]
pub struct Assign {
    pub vars: Seq<Value>,
}
