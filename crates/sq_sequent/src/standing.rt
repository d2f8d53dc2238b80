// Which terms, timestamps and indices may stand in a sequent of a goal.
ghost use Rattle.std.specs.Prelude.{◌≡◌, IfOk, map, length, option_map};
ghost use Rattle.std.specs.Option.{option_copied};
ghost use Rattle.sq_term.specs.Arguments.{arg_tree, an_index, a_time};
ghost use Rattle.sq_term.specs.View.{ts_tree};
ghost use Rattle.sq_system.specs.Usable.{statement_at};

use crate::places::{idx_at, term_at, ts_at};
use crate::site::Site;
use crate::views::vars_of;
use sq_base::{NoMemory, Sort};
use sq_step::{IdxArg, TermArg, TsArg, ValArg};
use sq_system::{Sequent, statement};
use sq_term::{Action, Arg, Idx, Term, Ts, copy_ts};
use sq_typing::{Binders, Signature, Subject};
use std::alloc::Global;

fn as_index(found: Option<Idx>) -> Option<Arg>
    ensures { option_map arg_tree result ≡ option_map an_index found }
{
    match found {
        Some(i) => Some(Arg::Index(i)),
        None => None,
    }
}

fn as_time(alloc: Global, found: Option<&Ts>) -> Result<Option<Arg>, NoMemory>
    ensures { IfOk result (λ v. option_map arg_tree v
        ≡ option_map a_time (option_map ts_tree (option_copied found.entry))) }
{
    match found {
        Some(t) => {
            let t = copy_ts(alloc, t)?;
            Ok(Some(Arg::Time(t)))
        }
        None => Ok(None),
    }
}

impl<'a> Site<'a> {
    ghost use Rattle.std.specs.Prelude.{[]};
    ghost use Rattle.sq_term.specs.View.{term_tree};
    ghost use Rattle.sq_system.specs.Sequents.{body_of};
    ghost use Rattle.sq_system.specs.Usable.{system_of};
    ghost use Rattle.sq_system.specs.Scopes.{subject_of};
    ghost use Rattle.sq_typing.specs.Views.{signature_tree, arities, subject};
    ghost use Rattle.sq_sequent.specs.Laws.{MayBeAssumed};
    ghost use Rattle.sq_sequent.specs.Sites.{site_tree};
    ghost use Rattle.sq_sequent.specs.Standing as spec;

    // The actions of the goal's system.
    #[tactic(auto, using(crate::proofs::Scoping::system_rules))]
    fn actions(&self) -> &'a [Action]
        ensures { arities result.now
            ≡ map (λ a. a.arity) (system_of (site_tree self.now).env self.now.goal).actions }
    {
        let number = match statement(self.env, self.goal) {
            Some(stmt) => stmt.system,
            None => 0,
        };
        match sqlite_items::at(self.env.systems.as_slice(), number as usize) {
            Some(system) => system.actions(),
            None => &[],
        }
    }

    // How many schema variables the goal has.
    fn schemas(&self) -> usize
        ensures { result ≡ length (statement_at (site_tree self.now).env self.now.goal).schemas }
    {
        match statement(self.env, self.goal) {
            Some(stmt) => stmt.schemas.len(),
            None => 0,
        }
    }

    /// What the sequent's terms may speak of.
    pub fn signature(&self) -> Signature<'a>
        ensures { signature_tree result ≡ spec.signature_at (site_tree self.now) }
    {
        Signature {
            names: self.env.names.as_slice(),
            funs: self.env.funs.as_slice(),
            actions: self.actions(),
            schemas: self.schemas(),
            vars: vars_of(self.sequent).as_slice(),
        }
    }

    /// What the sequent's formulas speak of.
    pub fn subject(&self) -> Subject
        ensures { subject result ≡ subject_of (body_of (site_tree self.now).sequent) }
    {
        match self.sequent {
            Sequent::Trace { .. } | Sequent::Equiv { .. } => Subject::Trace,
            Sequent::Local { side, .. } => Subject::Side(*side),
        }
    }

    /// Whether the term has the sort and may stand in the sequent: it speaks of the environment,
    /// the goal's system and the sequent's variables alone, is a trace formula in a Trace sequent
    /// and in the hypotheses of an equivalence, and holds no Diff in a local sequent of one side.
    #[tactic(auto, unfolding(crate::specs::Standing::may_stand))]
    pub fn may_stand(&self, sort: Sort, t: &Term) -> bool
        ensures standing { result ≡ spec.may_stand (site_tree self.now) sort (term_tree t.now) }
        ensures assumed { MayBeAssumed (site_tree self.now) (term_tree t.now) }
    {
        self.signature().may_stand(self.subject(), sort, t)
    }

    /// The term of an argument, where it may stand in the sequent with this sort.
    #[tactic(auto, unfolding(crate::specs::Standing::term_in))]
    pub fn term_in<'b>(&self, sort: Sort, arg: &'b TermArg) -> Option<&'b Term>
    where
        'a: 'b,
        ensures { option_map term_tree (option_copied result)
            ≡ spec.term_in (site_tree self.now) sort arg.now }
    {
        match term_at(self.sequent, arg) {
            Some(t) => {
                if self.may_stand(sort, t) {
                    Some(t)
                } else {
                    None
                }
            }
            None => None,
        }
    }

    /// The timestamp of an argument, where it may stand in the sequent.
    #[tactic(auto, using(sq_typing::proofs::Sorting::outermost_rules), unfolding(crate::specs::Standing::time_in))]
    pub fn time_in<'b>(&self, arg: &'b TsArg) -> Option<&'b Ts>
    where
        'a: 'b,
        ensures { option_map ts_tree (option_copied result)
            ≡ spec.time_in (site_tree self.now) arg.now }
    {
        match ts_at(self.sequent, arg) {
            Some(t) => {
                if self.signature().is_timestamp(&Binders::Outermost, t) {
                    Some(t)
                } else {
                    None
                }
            }
            None => None,
        }
    }

    /// The index of an argument, where it may stand in the sequent.
    #[tactic(auto, using(sq_typing::proofs::Sorting::outermost_rules), unfolding(crate::specs::Standing::index_in))]
    pub fn index_in(&self, arg: IdxArg) -> Option<Idx>
        ensures { result ≡ spec.index_in (site_tree self.now) arg }
    {
        match idx_at(self.sequent, arg) {
            Some(i) => {
                if self.signature().is_index(&Binders::Outermost, i) {
                    Some(i)
                } else {
                    None
                }
            }
            None => None,
        }
    }

    /// The value of an argument for a binder of this sort, where it has that sort and may stand in
    /// the sequent.
    #[tactic(auto, unfolding(crate::specs::Standing::value_in))]
    pub fn value_in(&self, alloc: Global, sort: Sort, arg: &ValArg) -> Result<Option<Arg>, NoMemory>
        ensures { IfOk result
            (λ v. option_map arg_tree v ≡ spec.value_in (site_tree self.now) sort arg.now) }
    {
        match (sort, arg) {
            (Sort::Index, ValArg::Index(arg)) => Ok(as_index(self.index_in(*arg))),
            (Sort::Timestamp, ValArg::Time(arg)) => as_time(alloc, self.time_in(arg)),
            _ => Ok(None),
        }
    }
}
