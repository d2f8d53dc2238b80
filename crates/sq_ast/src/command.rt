ghost use Rattle.std.specs.Prelude.{◌≡◌};
ghost use Rattle.sq_ast.specs.Forms as spec;
ghost use Rattle.sq_ast.specs.Commands.{command_of};

use crate::{Formula, MacroWord};
use sq_base::{Seq, Text};

/// A proof command as it is written. There is one variant for each form, and its fields are the
/// parts of the form, in order. Items of an equivalence are named by their number.
#[derive(Debug, Drop)]
pub enum ProofCommand {
    /// `intro x ..`
    Intro(Seq<Text>),
    Split,
    Left,
    Right,
    /// `exists t`
    Exists(Formula),
    /// `destruct H as x y`
    Destruct(Text, Text, Text),
    /// `mp H as L`
    Mp(Text, Text),
    /// `contra H`
    Contra(Text),
    /// `spec H t as L`
    Spec(Text, Formula, Text),
    /// `have L : F`
    Have(Text, Formula),
    /// `case F as L`
    Case(Formula, Text),
    /// `drop H`
    Drop(Text),
    /// `use S as L`
    Use(Text, Text),
    /// `use S t, .. as L`
    UseWith(Text, Seq<Formula>, Text),
    Project,
    Trace,
    Assumption,
    Refl,
    /// `rewrite H`, or `rewrite <- H` where the mark says so
    Rewrite(bool, Text),
    /// `rewrite H in K`, or `rewrite <- H in K` where the mark says so
    RewriteIn(bool, Text, Text),
    /// `fact t as L`
    Fact(Formula, Text),
    /// `expand M@T as L`
    Expand(MacroWord, Formula, Text),
    /// `undefined M@T as L`
    Undefined(MacroWord, Formula, Text),
    /// `tcases T as L`
    Tcases(Formula, Text),
    /// `induction t as IH`
    Induction(Text, Text),
    /// `induction t as IH H`
    InductionWith(Text, Text, Text),
    /// `fresh H as L`
    Fresh(Text, Text),
    /// `euf H as L`
    Euf(Text, Text),
    /// `collision H as L`
    Collision(Text, Text),
    /// `assume K`
    Assume(Text),
    /// `select n ..`
    Select(Seq<u128>),
    /// `fa n`
    Fa(u128),
    /// `atom n`
    Atom(u128),
    /// `fresh n`
    FreshItem(u128),
    /// `ifcase n m`
    IfCase(u128, u128),
    /// `deduce n from m`
    Deduce(u128, u128),
    /// `replace left n by t`
    ReplaceLeft(u128, Formula),
    /// `replace right n by t`
    ReplaceRight(u128, Formula),
    /// `prf left n t by u`
    PrfLeft(u128, Formula, Formula),
    /// `prf right n t by u`
    PrfRight(u128, Formula, Formula),
    Constraints,
    Congruence,
    Auto,
}

/// The first word of a proof command. Only `exists t` begins with another.
#[derive(Clone, Copy, Debug, PartialEq, Eq)]
pub enum CommandWord {
    Intro,
    Split,
    Left,
    Right,
    Destruct,
    Mp,
    Contra,
    Spec,
    Have,
    Case,
    Drop,
    Use,
    Project,
    Trace,
    Assumption,
    Refl,
    Rewrite,
    Fact,
    Expand,
    Undefined,
    Tcases,
    Induction,
    Fresh,
    Euf,
    Collision,
    Assume,
    Select,
    Fa,
    Atom,
    IfCase,
    Deduce,
    Replace,
    Prf,
    Constraints,
    Congruence,
    Auto,
}

static WORDS: [CommandWord; 36] = [
    CommandWord::Intro,
    CommandWord::Split,
    CommandWord::Left,
    CommandWord::Right,
    CommandWord::Destruct,
    CommandWord::Mp,
    CommandWord::Contra,
    CommandWord::Spec,
    CommandWord::Have,
    CommandWord::Case,
    CommandWord::Drop,
    CommandWord::Use,
    CommandWord::Project,
    CommandWord::Trace,
    CommandWord::Assumption,
    CommandWord::Refl,
    CommandWord::Rewrite,
    CommandWord::Fact,
    CommandWord::Expand,
    CommandWord::Undefined,
    CommandWord::Tcases,
    CommandWord::Induction,
    CommandWord::Fresh,
    CommandWord::Euf,
    CommandWord::Collision,
    CommandWord::Assume,
    CommandWord::Select,
    CommandWord::Fa,
    CommandWord::Atom,
    CommandWord::IfCase,
    CommandWord::Deduce,
    CommandWord::Replace,
    CommandWord::Prf,
    CommandWord::Constraints,
    CommandWord::Congruence,
    CommandWord::Auto,
];

impl CommandWord {
    /// How the word is written.
    pub fn text(self) -> &'static str
        ensures { result.now ≡ spec.command_text self }
    {
        match self {
            CommandWord::Intro => "intro",
            CommandWord::Split => "split",
            CommandWord::Left => "left",
            CommandWord::Right => "right",
            CommandWord::Destruct => "destruct",
            CommandWord::Mp => "mp",
            CommandWord::Contra => "contra",
            CommandWord::Spec => "spec",
            CommandWord::Have => "have",
            CommandWord::Case => "case",
            CommandWord::Drop => "drop",
            CommandWord::Use => "use",
            CommandWord::Project => "project",
            CommandWord::Trace => "trace",
            CommandWord::Assumption => "assumption",
            CommandWord::Refl => "refl",
            CommandWord::Rewrite => "rewrite",
            CommandWord::Fact => "fact",
            CommandWord::Expand => "expand",
            CommandWord::Undefined => "undefined",
            CommandWord::Tcases => "tcases",
            CommandWord::Induction => "induction",
            CommandWord::Fresh => "fresh",
            CommandWord::Euf => "euf",
            CommandWord::Collision => "collision",
            CommandWord::Assume => "assume",
            CommandWord::Select => "select",
            CommandWord::Fa => "fa",
            CommandWord::Atom => "atom",
            CommandWord::IfCase => "ifcase",
            CommandWord::Deduce => "deduce",
            CommandWord::Replace => "replace",
            CommandWord::Prf => "prf",
            CommandWord::Constraints => "constraints",
            CommandWord::Congruence => "congruence",
            CommandWord::Auto => "auto",
        }
    }

    /// The word that is written so.
    #[tactic(auto, unfolding(crate::specs::Commands::command_of))]
    pub fn of(text: &str) -> Option<CommandWord>
        ensures { result ≡ command_of text.now }
    {
        WORDS.iter().copied().find(|w| w.text() == text)
    }
}
