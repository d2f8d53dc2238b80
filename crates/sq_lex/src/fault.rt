use sq_base::NoMemory;

/// Why a source has no sentences. A number is a place in bytes, counted from 0.
#[derive(Clone, Copy, Debug, PartialEq, Eq)]
pub enum LexFault {
    /// The longest front of the source that is UTF-8 ends here. It comes before every other fault.
    NotUtf8(usize),
    /// A character that begins no token, blank or comment.
    BadChar(usize),
    /// A comment that does not end; the place is that of the outermost `(*`.
    OpenComment(usize),
    /// A number above 2^128 - 1.
    NumberWide(usize),
    /// Tokens behind the last stop; the place is that of the first. It comes after every other
    /// fault.
    NoStop(usize),
    NoMemory,
}

impl From<NoMemory> for LexFault {
    ghost use Rattle.std.specs.Prelude.{◌≡◌};
    ghost use Rattle.sq_lex.specs.declared.fault.LexFault.TheVariants.{NoMemory};

    ghost from_gives = { λ _ e. e ≡ NoMemory };

    fn from(_: NoMemory) -> LexFault {
        LexFault::NoMemory
    }
}
