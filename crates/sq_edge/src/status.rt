/// How a run ends. Its number is the exit status of the program.
#[derive(Clone, Copy, Debug, PartialEq, Eq)]
pub enum Status {
    /// The command's work is done, and its text is put.
    Done = 0,
    /// The input is not accepted, and one line says where and why.
    Refused = 1,
    /// The words are no command of the program.
    Usage = 2,
    /// A file that the command reads is not there.
    Missing = 3,
    /// A call of the shelf failed.
    ShelfFault = 4,
    /// A call of the sink failed. It holds a front of the text.
    OutFault = 5,
    /// The input passes a limit, and one line says which.
    Limit = 6,
    /// Memory ran out, and nothing was put.
    NoMemory = 7,
}
