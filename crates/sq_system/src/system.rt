// The actions of a protocol.
ghost use Rattle.std.specs.Prelude.{◌≡◌, ◌↔◌, sum_by, ◌<◌, ◌+◌, [], ◌∷◌, ◌++◌, length, slice_get};
ghost use Rattle.std.specs.Prelude.{option_map, IfOk, OnErr, IsErrOf};
ghost use Rattle.std.specs.List.{list_any};
ghost use Rattle.std.specs.Option.{option_copied};
ghost use Rattle.sq_term.specs.Systems as spec;
ghost use Rattle.sq_term.specs.Systems.{action_tree, system_tree, is_separated, choices_from};
ghost use Rattle.sq_term.specs.Systems.{indices_bound};
ghost use Rattle.sq_system.specs.Clashes.{choice_of};
ghost use Rattle.sq_system.specs.Facts.{IsAction, IsShallow, KeepsFacts, some_diff};
ghost use Rattle.sq_system.specs.Facts.{parent_of, path_of, arity_of};

use crate::clash::{Clash, in_conflict, nth_choice};
use sq_base::Seq;
use sq_term::{Action, PathStep};
use sq_typing::holds_diff;
use std::alloc::Global;
use std::marker::Model;

/// How many actions a system may have.
const MOST_ACTIONS: usize = 1024;

/// The actions of a protocol, numbered in their order.
#[derive(Debug, Drop)]
pub struct System {
    actions: Seq<Action>,
    has_diff: bool,
}

impl Model for System {
    ghost use Rattle.std.specs.Prelude.{List, ◌≡◌};
    ghost use Rattle.sq_term.specs.declared.action.Action.{Action};

    ghost Value = { List Action };

    ghost use Rattle.std.specs.Coded.{codes};
    ghost use Rattle.sq_term.specs.contracts.action.Action as action;
    ghost use Rattle.sq_term.specs.contracts.term.Term as term;

    ghost coded = { Prim.hlevel (codes, action.the_row.coded, term.the_row.coded) };

    ghost use Rattle.sq_term.specs.Systems.{system_tree};
    ghost use Rattle.sq_system.specs.Facts.{KeepsFacts, some_diff};

    ghost view = { λ s. s.actions };

    ghost invariant = { λ s. KeepsFacts s.actions
        × (s.has_diff ≡ some_diff (system_tree s.actions)) };
}

// Whether the action's condition or its output holds a `Diff`.
fn action_holds_diff(a: &Action) -> bool
    ensures { result ≡ Rattle.sq_system.specs.Facts.action_holds_diff (action_tree a.now) }
{
    holds_diff(&a.cond) | holds_diff(&a.output)
}

/// Why an action was not added.
#[derive(Clone, Copy, Debug, PartialEq, Eq)]
pub enum PushFault {
    TooManyActions,
    NoMemory,
}

impl System {
    /// The system without actions. It takes no memory.
    pub fn empty(alloc: Global) -> System
        ensures { result ≡ [] }
    {
        System {
            actions: Seq::new(alloc),
            has_diff: false,
        }
    }

    /// Adds an action, and answers its number. A refused action is dropped. The action's parent and
    /// what its bodies read stand in the system with the action itself.
    pub fn push(&mut self, a: Action) -> Result<u32, PushFault>
        requires action { IsAction (system_tree (self.old ++ a ∷ [])) (length self.old)
            (action_tree a) }
        requires shallow { IsShallow (action_tree a) }
        ensures ok { IfOk result (λ k. (k ≡ length self.old) × (self.new ≡ self.old ++ a ∷ [])) }
        ensures too_many { IsErrOf result PushFault.TooManyActions ↔ (length self.old ≡ 1024) }
        ensures err { OnErr result (self.new ≡ self.old) }
    {
        let number = self.actions.len();
        if number >= MOST_ACTIONS {
            return Err(PushFault::TooManyActions);
        }
        let differs = action_holds_diff(&a);
        match self.actions.push(a) {
            Ok(()) => {
                self.has_diff |= differs;
                Ok(number as u32)
            }
            Err(_) => Err(PushFault::NoMemory),
        }
    }

    /// How many actions there are.
    pub fn count(&self) -> u32
        ensures count { result ≡ length self.now }
        ensures facts { KeepsFacts self.now }
    {
        self.actions.len() as u32
    }

    /// The actions in the order of their numbers.
    pub fn actions(&self) -> &[Action]
        ensures { result.now ≡ self.now }
    {
        self.actions.as_slice()
    }

    /// An action by its number.
    pub fn action(&self, k: u32) -> Option<&Action>
        ensures { option_copied result ≡ slice_get self.now k }
    {
        self.actions.as_slice().get(k as usize)
    }

    /// Whether the two sides of the system differ: some condition or output holds a `Diff`.
    pub fn has_diff(&self) -> bool
        ensures { result ≡ some_diff (system_tree self.now) }
    {
        self.has_diff
    }

    /// The action before action `a` on its line.
    pub fn depends(&self, a: u32) -> Option<u32>
        requires { a < length self.now }
        ensures { result ≡ parent_of self.now a }
    {
        self.actions.as_slice()[a as usize].parent
    }

    /// The choice number `k` on the common path of two actions, counted from 0.
    pub fn clash(&self, a: u32, b: u32, k: u32) -> Option<Clash>
        requires first { a < length self.now }
        requires second { b < length self.now }
        ensures { option_map choice_of result
            ≡ spec.clash (path_of self.now a) (path_of self.now b) k }
    {
        let (_, left) = self.shape(a);
        let (_, right) = self.shape(b);
        nth_choice(left, right, k)
    }

    /// Whether two instances exclude each other: no trace has both.
    pub fn conflict(&self, a: u32, is: &[u32], b: u32, js: &[u32]) -> bool
        requires first { a < length self.now }
        requires second { b < length self.now }
        requires first_indices { length is.now ≡ arity_of self.now a }
        requires second_indices { length js.now ≡ arity_of self.now b }
        ensures conflict { result
            ≡ spec.in_conflict (path_of self.now a) is.now (path_of self.now b) js.now }
        ensures choices { result ≡ list_any (is_separated is.now js.now)
            (choices_from 0 (path_of self.now a) (path_of self.now b)) }
    {
        let (_, left) = self.shape(a);
        let (_, right) = self.shape(b);
        in_conflict(left, is, right, js)
    }

    // The arity and the path of an action.
    fn shape(&self, a: u32) -> (u32, &[PathStep])
        requires { a < length self.now }
        ensures arity { result.0 ≡ arity_of self.now a }
        ensures path { result.1.now ≡ path_of self.now a }
        ensures bound { sum_by indices_bound result.1.now ≡ result.0 }
    {
        let action = &self.actions.as_slice()[a as usize];
        (action.arity, action.path.as_slice())
    }
}
