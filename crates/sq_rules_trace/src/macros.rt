// The rows of macros: what they are at init, under a condition, and where nothing happens.
ghost use Rattle.std.specs.Prelude.{◌≡◌, [], ◌∷◌, true, IfOk, MatchResult, Some, map, option_map};
ghost use Rattle.sq_base.specs.Gives.{Gives};
ghost use Rattle.sq_term.specs.declared.term.Macro.TheVariants as variant;
ghost use Rattle.sq_term.specs.Arguments.{an_index, arg_tree};
ghost use Rattle.sq_term.specs.Formulas as formula;
ghost use Rattle.sq_term.specs.Syntax as syntax;
ghost use Rattle.sq_term.specs.Systems.{action_at, action_tree};
ghost use Rattle.sq_term.specs.View.{ts_tree, term_tree};
ghost use Rattle.sq_typing.specs.Typing.{is_timestamp};
ghost use Rattle.sq_formula.specs.Refusals.{IsPastLimits};
ghost use Rattle.sq_subst.specs.Projection.{projected};
ghost use Rattle.sq_subst.specs.Substitution.{instance_of};
ghost use Rattle.sq_system.specs.Sequents.{body_of, sequent_tree};
ghost use Rattle.sq_sequent.specs.Logic.{held, judged, sequent_trees};
ghost use Rattle.sq_sequent.specs.Premises as premise;
ghost use Rattle.sq_sequent.specs.Sites.{site_tree};
ghost use Rattle.sq_sequent.specs.Standing.{signature_at, time_in};
ghost use Rattle.sq_rules_logic.specs.SideLimits.{side_fits};
ghost use Rattle.sq_rules_trace.specs.Rows.{system_at};
ghost use Rattle.sq_rules_trace.specs.Time as spec;
ghost use Rattle.sq_rules_trace.specs.Unfolding as means;

use crate::instance::{Instance, actions_of, time_of};
use crate::times::{before, happens, other_time};
use sq_base::{NoMemory, Seq};
use sq_sequent::{
    MOST_NODES, RuleFault, Sequent, Site, TsArg, asking, assuming, copy_sequent, one_premise,
    two_premises,
};
use sq_subst::{instance, project};
use sq_term::{Action, Arg, Builtin, Idx, Macro, Side, Term, Ts, copy_ts, formulas};
use std::alloc::Global;

/// The macro at the timestamp.
#[tactic(auto, using(sq_term::proofs::Views::tree_rules))]
fn read_at(alloc: Global, m: Macro, t: &Ts) -> Result<Term, NoMemory>
    ensures { IfOk result (λ f. term_tree f ≡ syntax.macro m (ts_tree t.now)) }
{
    Ok(Term::Macro(m, copy_ts(alloc, t)?))
}

// The macro at the timestamp before.
fn read_before(alloc: Global, m: Macro, t: &Ts) -> Result<Term, NoMemory>
    ensures { IfOk result
        (λ f. term_tree f ≡ syntax.macro m (syntax.pred (ts_tree t.now))) }
{
    let last = before(alloc, t)?;
    read_at(alloc, m, &last)
}

// ---- what macros are

fn has_value(alloc: Global, m: Macro, t: &Ts, value: Term) -> Result<Term, NoMemory>
    ensures { IfOk result
        (λ f. term_tree f ≡ means.has_value m (ts_tree t.now) (term_tree value)) }
{
    let read = read_at(alloc, m, t)?;
    match m {
        Macro::Input | Macro::Output | Macro::Frame => formulas::equal(alloc, read, value),
        Macro::Cond | Macro::Exec => formulas::equivalent(alloc, read, value),
    }
}

#[tactic(auto, using(sq_term::proofs::Views::tree_rules))]
fn initial(alloc: Global, m: Macro) -> Result<Term, NoMemory>
    ensures { IfOk result (λ f. term_tree f ≡ means.initial m) }
{
    let read = read_at(alloc, m, &Ts::Init)?;
    match m {
        Macro::Input | Macro::Output | Macro::Frame => {
            formulas::equal(alloc, read, formulas::empty(alloc))
        }
        Macro::Cond | Macro::Exec => Ok(read),
    }
}

fn undefined(alloc: Global, m: Macro, t: &Ts) -> Result<Term, NoMemory>
    ensures { IfOk result (λ f. term_tree f ≡ means.undefined m (ts_tree t.now)) }
{
    let read = read_at(alloc, m, t)?;
    match m {
        Macro::Input | Macro::Output | Macro::Frame => {
            formulas::equal(alloc, read, formulas::empty(alloc))
        }
        Macro::Cond | Macro::Exec => formulas::negation(alloc, read),
    }
}

#[tactic(auto, using(sq_term::proofs::Views::tree_rules))]
fn is_behind_init(alloc: Global, t: &Ts) -> Result<Term, NoMemory>
    ensures { IfOk result (λ f. term_tree f ≡ means.is_behind_init (ts_tree t.now)) }
{
    let happens = happens(alloc, t)?;
    let differs = other_time(alloc, t, &Ts::Init)?;
    formulas::both(alloc, happens, differs)
}

// ---- what stands before makes a macro

fn input_of(alloc: Global, t: &Ts) -> Result<Term, NoMemory>
    ensures { IfOk result (λ f. Some (term_tree f)
        ≡ spec.made_of_before variant.Input (ts_tree t.now)) }
{
    let frame = read_before(alloc, Macro::Frame, t)?;
    formulas::unary(alloc, Builtin::Att, frame)
}

fn exec_of(alloc: Global, t: &Ts) -> Result<Term, NoMemory>
    ensures { IfOk result (λ f. Some (term_tree f)
        ≡ spec.made_of_before variant.Exec (ts_tree t.now)) }
{
    let last = read_before(alloc, Macro::Exec, t)?;
    let own = read_at(alloc, Macro::Cond, t)?;
    formulas::both(alloc, last, own)
}

// The output, where everything so far was executed.
fn sent(alloc: Global, t: &Ts) -> Result<Term, NoMemory>
    ensures { IfOk result (λ f. term_tree f
        ≡ formula.conditional (syntax.macro variant.Exec (ts_tree t.now))
        (syntax.macro variant.Output (ts_tree t.now)) formula.empty) }
{
    let executed = read_at(alloc, Macro::Exec, t)?;
    let output = read_at(alloc, Macro::Output, t)?;
    formulas::conditional(alloc, executed, output, formulas::empty(alloc))
}

fn frame_of(alloc: Global, t: &Ts) -> Result<Term, NoMemory>
    ensures { IfOk result (λ f. Some (term_tree f)
        ≡ spec.made_of_before variant.Frame (ts_tree t.now)) }
{
    let executed = formulas::of_bool(alloc, read_at(alloc, Macro::Exec, t)?)?;
    let sent = sent(alloc, t)?;
    let own = formulas::pair(alloc, executed, sent)?;
    let last = read_before(alloc, Macro::Frame, t)?;
    formulas::pair(alloc, last, own)
}

fn made_of_before(alloc: Global, m: Macro, t: &Ts) -> Result<Option<Term>, NoMemory>
    ensures { IfOk result
        (λ f. option_map term_tree f ≡ spec.made_of_before m (ts_tree t.now)) }
{
    match m {
        Macro::Input => Ok(Some(input_of(alloc, t)?)),
        Macro::Exec => Ok(Some(exec_of(alloc, t)?)),
        Macro::Frame => Ok(Some(frame_of(alloc, t)?)),
        Macro::Output | Macro::Cond => Ok(None),
    }
}

// ---- premises

// The macro's value is known.
fn assuming_value(
    alloc: Global,
    s: &Sequent,
    m: Macro,
    t: &Ts,
    value: Term,
) -> Result<Sequent, NoMemory>
    ensures { IfOk result (λ p. sequent_tree p ≡ premise.assuming (sequent_tree s.now)
        (means.has_value m (ts_tree t.now) (term_tree value))) }
{
    let known = has_value(alloc, m, t, value)?;
    assuming(copy_sequent(alloc, s)?, known)
}

// Under the condition the macro has the value.
fn unfolded(
    alloc: Global,
    s: &Sequent,
    m: Macro,
    t: &Ts,
    condition: Term,
    value: Term,
) -> Result<Seq<Sequent>, RuleFault>
    ensures { Gives RuleFault.NoMemory sequent_trees result
        (judged (spec.unfolded (sequent_tree s.now) m (ts_tree t.now) (term_tree condition)
        (term_tree value))) }
{
    let asked = asking(alloc, s, condition)?;
    let assumed = assuming_value(alloc, s, m, t, value)?;
    two_premises(alloc, asked, assumed)
}

fn behind_init(alloc: Global, s: &Sequent, m: Macro, t: &Ts) -> Result<Seq<Sequent>, RuleFault>
    ensures { Gives RuleFault.NoMemory sequent_trees result
        (judged (spec.behind_init (sequent_tree s.now) m (ts_tree t.now)
        (spec.made_of_before m (ts_tree t.now)))) }
{
    match made_of_before(alloc, m, t)? {
        Some(value) => {
            let condition = is_behind_init(alloc, t)?;
            unfolded(alloc, s, m, t, condition, value)
        }
        None => Err(RuleFault::Shape),
    }
}

fn index_arguments(alloc: Global, indices: &[Idx]) -> Result<Seq<Arg>, NoMemory>
    ensures { IfOk result (λ args. map arg_tree args ≡ map an_index indices.now) }
{
    let mut out = Seq::new(alloc);
    for i in indices {
        out.push(Arg::Index(*i))?;
    }
    Ok(out)
}

fn at_indices(alloc: Global, indices: &[Idx], body: &Term) -> Result<Term, RuleFault>
    ensures { Gives RuleFault.NoMemory term_tree result
        (held (instance_of (map an_index indices.now) [] (term_tree body.now))) }
{
    let args = index_arguments(alloc, indices)?;
    Ok(instance(alloc, body, args.as_slice(), &[], MOST_NODES)?)
}

// A side of a body, TooLarge where no sequent may hold it.
#[tactic(auto, using(sq_rules_logic::proofs::SideLimits::side_rules))]
fn side_of(alloc: Global, side: Side, body: &Term) -> Result<Term, RuleFault>
    ensures { MatchResult result
        (λ t. term_tree t ≡ projected side (term_tree body.now))
        (λ e. IsPastLimits e (side_fits side (term_tree body.now))) }
{
    Ok(project(alloc, body, side, MOST_NODES)?)
}

// An action's body at these indices, on a side.
fn body_at(alloc: Global, side: Side, indices: &[Idx], body: &Term) -> Result<Term, RuleFault>
    ensures { Gives RuleFault.NoMemory term_tree result
        (held (means.body_at side indices.now (term_tree body.now))) }
{
    match side_of(alloc, side, body) {
        Ok(there) => at_indices(alloc, indices, &there),
        Err(fault) => Err(fault),
    }
}

// The macro of an instance is the action's body.
#[tactic(auto, using(crate::proofs::BodyLimits::value_rules))]
fn of_body(
    alloc: Global,
    s: &Sequent,
    side: Side,
    m: Macro,
    i: &Instance,
    body: &Term,
) -> Result<Seq<Sequent>, RuleFault>
    ensures { let t = syntax.action i.now.action i.now.indices.now in
        Gives RuleFault.NoMemory sequent_trees result
        (judged (spec.unfolded (sequent_tree s.now) m t (syntax.happens t)
        (means.body_at side i.now.indices.now (term_tree body.now)))) }
{
    match body_at(alloc, side, i.indices, body) {
        Ok(value) => {
            let t = time_of(alloc, i)?;
            let condition = happens(alloc, &t)?;
            unfolded(alloc, s, m, &t, condition, value)
        }
        Err(fault) => Err(fault),
    }
}

fn instance_behind_init(
    alloc: Global,
    s: &Sequent,
    m: Macro,
    i: &Instance,
) -> Result<Seq<Sequent>, RuleFault>
    ensures { let t = syntax.action i.now.action i.now.indices.now in
        Gives RuleFault.NoMemory sequent_trees result
        (judged (spec.behind_init (sequent_tree s.now) m t (spec.made_of_before m t))) }
{
    let t = time_of(alloc, i)?;
    behind_init(alloc, s, m, &t)
}

// What the macro is at an instance of this action.
fn at_action(
    alloc: Global,
    at: &Site,
    side: Side,
    m: Macro,
    i: &Instance,
    action: &Action,
) -> Result<Seq<Sequent>, RuleFault>
    requires { action_at (system_at (site_tree at.now)) i.now.action ≡ action_tree action.now }
    ensures { Gives RuleFault.NoMemory sequent_trees result
        (judged (spec.at_action (site_tree at.now) side m i.now.action i.now.indices.now)) }
{
    match m {
        Macro::Output => of_body(alloc, at.sequent, side, m, i, &action.output),
        Macro::Cond => of_body(alloc, at.sequent, side, m, i, &action.cond),
        Macro::Input => instance_behind_init(alloc, at.sequent, Macro::Input, i),
        Macro::Exec => instance_behind_init(alloc, at.sequent, Macro::Exec, i),
        Macro::Frame => instance_behind_init(alloc, at.sequent, Macro::Frame, i),
    }
}

#[tactic(auto, using(crate::proofs::Lookups::there_rules))]
fn at_instance(
    alloc: Global,
    at: &Site,
    side: Side,
    m: Macro,
    i: &Instance,
) -> Result<Seq<Sequent>, RuleFault>
    requires { is_timestamp (signature_at (site_tree at.now)) []
        (syntax.action i.now.action i.now.indices.now) ≡ true }
    ensures { Gives RuleFault.NoMemory sequent_trees result
        (judged (spec.at_action (site_tree at.now) side m i.now.action i.now.indices.now)) }
{
    match sqlite_items::at(actions_of(at), i.action as usize) {
        Some(action) => at_action(alloc, at, side, m, i, action),
        None => unreachable!(),
    }
}

fn x_init(alloc: Global, s: &Sequent, m: Macro) -> Result<Seq<Sequent>, RuleFault>
    ensures { Gives RuleFault.NoMemory sequent_trees result
        (judged (Some (premise.assuming (sequent_tree s.now) (means.initial m) ∷ []))) }
{
    let known = initial(alloc, m)?;
    one_premise(alloc, assuming(copy_sequent(alloc, s)?, known)?)
}

#[tactic(auto, using(sq_term::proofs::Views::tree_rules), unfolding(crate::specs::Time::x_at))]
fn x_of(alloc: Global, at: &Site, side: Side, m: Macro, t: &Ts) -> Result<Seq<Sequent>, RuleFault>
    requires { is_timestamp (signature_at (site_tree at.now)) [] (ts_tree t.now) ≡ true }
    ensures { Gives RuleFault.NoMemory sequent_trees result
        (judged (spec.x_at (site_tree at.now) side m (Some (ts_tree t.now)))) }
{
    match t {
        Ts::Init => x_init(alloc, at.sequent, m),
        Ts::Act(action, indices) => at_instance(
            alloc,
            at,
            side,
            m,
            &Instance {
                action: *action,
                indices: indices.as_slice(),
            },
        ),
        Ts::Free(_) | Ts::Bound(_) | Ts::Pred(_) => behind_init(alloc, at.sequent, m, t),
    }
}

#[tactic(auto, using(crate::proofs::Lookups::time_rules), unfolding(crate::specs::Time::x_at))]
fn x_on(
    alloc: Global,
    at: &Site,
    side: Side,
    m: Macro,
    x: &TsArg,
) -> Result<Seq<Sequent>, RuleFault>
    ensures { let here = site_tree at.now in
        Gives RuleFault.NoMemory sequent_trees result
        (judged (spec.x_at here side m (time_in here x.now))) }
{
    match at.time_in(x) {
        Some(t) => x_of(alloc, at, side, m, t),
        None => Err(RuleFault::Shape),
    }
}

/// What a macro is at a timestamp becomes a hypothesis of a local sequent, under a condition that is
/// to be shown where it is not init.
pub fn x(alloc: Global, at: &Site, m: Macro, x: &TsArg) -> Result<Seq<Sequent>, RuleFault>
    ensures { let here = site_tree at.now in
        Gives RuleFault.NoMemory sequent_trees result
        (judged (spec.x_on here (body_of here.sequent) m x.now)) }
{
    match at.sequent {
        Sequent::Local { side, .. } => x_on(alloc, at, *side, m, x),
        Sequent::Trace { .. } | Sequent::Equiv { .. } => Err(RuleFault::Shape),
    }
}

// It is asked that the timestamp does not happen.
fn asking_absence(alloc: Global, s: &Sequent, t: &Ts) -> Result<Sequent, NoMemory>
    ensures { IfOk result (λ p. sequent_tree p ≡ premise.asking (sequent_tree s.now)
        (formula.negation (syntax.happens (ts_tree t.now)))) }
{
    let happens = happens(alloc, t)?;
    let absent = formulas::negation(alloc, happens)?;
    asking(alloc, s, absent)
}

// What the macro is where nothing happens is known.
fn assuming_undefined(alloc: Global, s: &Sequent, m: Macro, t: &Ts) -> Result<Sequent, NoMemory>
    ensures { IfOk result (λ p. sequent_tree p ≡ premise.assuming (sequent_tree s.now)
        (means.undefined m (ts_tree t.now))) }
{
    let known = undefined(alloc, m, t)?;
    assuming(copy_sequent(alloc, s)?, known)
}

fn undefined_there(alloc: Global, s: &Sequent, m: Macro, t: &Ts) -> Result<Seq<Sequent>, RuleFault>
    ensures { Gives RuleFault.NoMemory sequent_trees result
        (judged (spec.xu_at (sequent_tree s.now) m (Some (ts_tree t.now)))) }
{
    let asked = asking_absence(alloc, s, t)?;
    let assumed = assuming_undefined(alloc, s, m, t)?;
    two_premises(alloc, asked, assumed)
}

fn xu_on(alloc: Global, at: &Site, m: Macro, x: &TsArg) -> Result<Seq<Sequent>, RuleFault>
    ensures { let here = site_tree at.now in
        Gives RuleFault.NoMemory sequent_trees result
        (judged (spec.xu_at here.sequent m (time_in here x.now))) }
{
    match at.time_in(x) {
        Some(t) => undefined_there(alloc, at.sequent, m, t),
        None => Err(RuleFault::Shape),
    }
}

/// What a macro is where nothing happens becomes a hypothesis of a local sequent; that the timestamp
/// does not happen is to be shown.
pub fn xu(alloc: Global, at: &Site, m: Macro, x: &TsArg) -> Result<Seq<Sequent>, RuleFault>
    ensures { let here = site_tree at.now in
        Gives RuleFault.NoMemory sequent_trees result
        (judged (spec.xu_on here (body_of here.sequent) m x.now)) }
{
    match at.sequent {
        Sequent::Local { .. } => xu_on(alloc, at, m, x),
        Sequent::Trace { .. } | Sequent::Equiv { .. } => Err(RuleFault::Shape),
    }
}
