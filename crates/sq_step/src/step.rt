// The steps of the calculus and their arguments.
use sq_base::Seq;
use sq_term::{Idx, Macro, Term, Ts};

/// A term of a sequent: its goal, a hypothesis, or a side of an item. Hypotheses and items count
/// from 0.
#[derive(Clone, Copy, Debug, PartialEq, Eq)]
pub enum Place {
    Goal,
    Hyp(u32),
    Left(u32),
    Right(u32),
}

/// A term that is written out, or that stands at a node of the sequent, counted in preorder from 0.
#[derive(Debug, Drop)]
pub enum TermArg {
    At(Place, u32),
    Written(Term),
}

/// A timestamp that is written out, or that stands at a node of the sequent.
#[derive(Debug, Drop)]
pub enum TsArg {
    At(Place, u32),
    Written(Ts),
}

/// An index that is written out, or that stands at a node of the sequent.
#[derive(Clone, Copy, Debug, PartialEq, Eq)]
pub enum IdxArg {
    At(Place, u32),
    Written(Idx),
}

/// A value for a binder.
#[derive(Debug, Drop)]
pub enum ValArg {
    Index(IdxArg),
    Time(TsArg),
}

/// A side of an item.
#[derive(Clone, Copy, Debug, PartialEq, Eq)]
pub enum Hand {
    Left,
    Right,
}

/// Whether an equation is read from left to right.
#[derive(Clone, Copy, Debug, PartialEq, Eq)]
pub enum Dir {
    Forward,
    Backward,
}

/// What an equation rewrites.
#[derive(Clone, Copy, Debug, PartialEq, Eq)]
pub enum Target {
    Goal,
    Items,
    Hyp(u32),
}

/// A step of the calculus, which replaces a sequent by its premises.
///
/// The arguments stand in the order in which a certificate spells them. A number is that of a
/// hypothesis, statement, variable, item, known list or choice. An action instance is a `TsArg`.
#[derive(Debug, Drop)]
pub enum Step {
    Hyp(u32),
    True,
    Absurd(u32),
    Impi,
    Noti,
    Alli,
    Andi,
    Orl,
    Orr,
    Exi(ValArg),
    Ande(u32),
    Ore(u32),
    Impe(u32),
    Note(u32),
    Alle(u32, ValArg),
    Exe(u32),
    Cut(TermArg),
    Em(TermArg),
    Drop(u32),
    UseStmt(u32, Seq<TermArg>),
    Proj,
    Trace,
    Refl,
    Sym,
    Trans(TermArg),
    Arg,
    Rew(u32, Dir, Target),
    Fact(TermArg),
    O1(TsArg),
    O2(TsArg, TsArg, TsArg),
    O3(TsArg, TsArg),
    O4(TsArg, TsArg),
    O5(TsArg, TsArg),
    O6(TsArg),
    O7(TsArg),
    O8(TsArg, TsArg),
    O9(TsArg),
    O10(TsArg, TsArg),
    O11(TsArg),
    O12(TsArg, TsArg, u32),
    Tind(u32),
    X(Macro, TsArg),
    Xu(Macro, TsArg),
    Fresh(u32),
    Euf(u32),
    Coll(u32),
    Eass(u32),
    Erefl,
    Esel(Seq<u32>),
    Efa(u32),
    Eatom(u32),
    Efre(u32),
    Ecase(u32, u32),
    Erep(Hand, u32, TermArg),
    Eded(u32, u32),
    Eind(u32),
    Eprf(Hand, u32, TermArg, TermArg),
    Euse(u32, Seq<ValArg>),
}
