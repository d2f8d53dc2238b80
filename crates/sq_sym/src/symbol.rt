/// What a declared name stands for. Numbers are places in the lists of the environment.
#[derive(Clone, Copy, Debug, PartialEq, Eq)]
pub enum Symbol {
    Channel,
    Name(u32),
    /// A function by its number. The built-in functions come first and have no name in a table.
    Fun(u32),
    Process(u32),
    System(u32),
    /// The system, and the action's number in it.
    Action(u32, u32),
    Statement(u32),
}

/// Why a name was not declared.
#[derive(Clone, Copy, Debug, PartialEq, Eq)]
pub enum SymFault {
    /// The name is in the table.
    Twice,
    /// Memory ran out, or the table has 2^32 - 1 declarations.
    NoMemory,
}
