// The words of steps.
ghost use Rattle.std.specs.Prelude.{◌≡◌, bytes_eq, find};
ghost use Rattle.sq_cert_steps.specs.Names as spec;

/// The word of a step. It tells which arguments follow.
#[derive(Clone, Copy, Debug, PartialEq, Eq)]
pub enum StepName {
    Hyp,
    True,
    Absurd,
    Impi,
    Noti,
    Alli,
    Andi,
    Orl,
    Orr,
    Exi,
    Ande,
    Ore,
    Impe,
    Note,
    Alle,
    Exe,
    Cut,
    Em,
    Drop,
    UseStmt,
    Proj,
    Trace,
    Refl,
    Sym,
    Trans,
    Arg,
    Rew,
    Fact,
    O1,
    O2,
    O3,
    O4,
    O5,
    O6,
    O7,
    O8,
    O9,
    O10,
    O11,
    O12,
    Tind,
    X,
    Xu,
    Fresh,
    Euf,
    Coll,
    Eass,
    Erefl,
    Esel,
    Efa,
    Eatom,
    Efre,
    Ecase,
    Erep,
    Eded,
    Eind,
    Eprf,
    Euse,
}

// The names whose words begin with an e, and with an o.
static WITH_E: [StepName; 16] = [
    StepName::Exi,
    StepName::Exe,
    StepName::Em,
    StepName::Euf,
    StepName::Eass,
    StepName::Erefl,
    StepName::Esel,
    StepName::Efa,
    StepName::Eatom,
    StepName::Efre,
    StepName::Ecase,
    StepName::Erep,
    StepName::Eded,
    StepName::Eind,
    StepName::Eprf,
    StepName::Euse,
];

static WITH_O: [StepName; 15] = [
    StepName::Orl,
    StepName::Orr,
    StepName::Ore,
    StepName::O1,
    StepName::O2,
    StepName::O3,
    StepName::O4,
    StepName::O5,
    StepName::O6,
    StepName::O7,
    StepName::O8,
    StepName::O9,
    StepName::O10,
    StepName::O11,
    StepName::O12,
];

impl StepName {
    /// How the word is written.
    pub fn text(self) -> &'static str
        ensures { result.now ≡ spec.name_text self }
    {
        match self {
            StepName::Hyp => "hyp",
            StepName::True => "true",
            StepName::Absurd => "absurd",
            StepName::Impi => "impi",
            StepName::Noti => "noti",
            StepName::Alli => "alli",
            StepName::Andi => "andi",
            StepName::Orl => "orl",
            StepName::Orr => "orr",
            StepName::Exi => "exi",
            StepName::Ande => "ande",
            StepName::Ore => "ore",
            StepName::Impe => "impe",
            StepName::Note => "note",
            StepName::Alle => "alle",
            StepName::Exe => "exe",
            StepName::Cut => "cut",
            StepName::Em => "em",
            StepName::Drop => "drop",
            StepName::UseStmt => "use",
            StepName::Proj => "proj",
            StepName::Trace => "trace",
            StepName::Refl => "refl",
            StepName::Sym => "sym",
            StepName::Trans => "trans",
            StepName::Arg => "arg",
            StepName::Rew => "rew",
            StepName::Fact => "fact",
            StepName::O1 => "o1",
            StepName::O2 => "o2",
            StepName::O3 => "o3",
            StepName::O4 => "o4",
            StepName::O5 => "o5",
            StepName::O6 => "o6",
            StepName::O7 => "o7",
            StepName::O8 => "o8",
            StepName::O9 => "o9",
            StepName::O10 => "o10",
            StepName::O11 => "o11",
            StepName::O12 => "o12",
            StepName::Tind => "tind",
            StepName::X => "x",
            StepName::Xu => "xu",
            StepName::Fresh => "fresh",
            StepName::Euf => "euf",
            StepName::Coll => "coll",
            StepName::Eass => "eass",
            StepName::Erefl => "erefl",
            StepName::Esel => "esel",
            StepName::Efa => "efa",
            StepName::Eatom => "eatom",
            StepName::Efre => "efre",
            StepName::Ecase => "ecase",
            StepName::Erep => "erep",
            StepName::Eded => "eded",
            StepName::Eind => "eind",
            StepName::Eprf => "eprf",
            StepName::Euse => "euse",
        }
    }

    /// The names whose words begin with this letter.
    fn beginning(letter: u8) -> &'static [StepName]
        ensures { result.now ≡ spec.names_beginning letter }
    {
        match letter {
            b'a' => &[
                StepName::Absurd,
                StepName::Alli,
                StepName::Andi,
                StepName::Ande,
                StepName::Alle,
                StepName::Arg,
            ],
            b'c' => &[StepName::Cut, StepName::Coll],
            b'd' => &[StepName::Drop],
            b'e' => &WITH_E,
            b'f' => &[StepName::Fact, StepName::Fresh],
            b'h' => &[StepName::Hyp],
            b'i' => &[StepName::Impi, StepName::Impe],
            b'n' => &[StepName::Noti, StepName::Note],
            b'o' => &WITH_O,
            b'p' => &[StepName::Proj],
            b'r' => &[StepName::Refl, StepName::Rew],
            b's' => &[StepName::Sym],
            b't' => &[
                StepName::True,
                StepName::Trace,
                StepName::Trans,
                StepName::Tind,
            ],
            b'u' => &[StepName::UseStmt],
            b'x' => &[StepName::X, StepName::Xu],
            _ => &[],
        }
    }

    /// The step whose word is written so.
    pub fn of(text: &[u8]) -> Option<StepName>
        ensures { result ≡ spec.name_written text.now }
    {
        match text.split_first() {
            Some((letter, _)) => written_so(StepName::beginning(*letter), text),
            None => None,
        }
    }
}

fn written_so(names: &[StepName], text: &[u8]) -> Option<StepName>
    ensures { result ≡ find (λ n. bytes_eq (spec.name_text n) text.now) names.now }
{
    names
        .iter()
        .copied()
        .find(|name| name.text().as_bytes() == text)
}
