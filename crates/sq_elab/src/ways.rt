// Ways that share their fronts.
ghost use Rattle.std.specs.Prelude.{◌≡◌, ◌≤◌, ◌++◌, ◌∷◌, [], length, IfOk, OnErr};
ghost use Rattle.sq_elab.specs.Steps.{AreBehind, steps_at};

use crate::step::Step;
use sq_base::NoMemory;
use std::alloc::Global;

/// Ways from the root, each of which is an earlier one with a step behind it. The first is empty.
///
/// A way stays what it was while others are added, so its number stands for it.
#[derive(Drop)]
pub struct Ways<'a> {
    links: Vec<(usize, Step<'a>)>,
    ghost behind: { AreBehind links.items },
}

impl<'a> Ways<'a> {
    /// The empty way alone, which has number 0.
    pub fn new(alloc: Global) -> Ways<'a>
        ensures { result.links.items ≡ [] }
    {
        Ways {
            links: Vec::new(alloc),
        }
    }

    /// Adds the way number `before` with one step behind it, and answers its number.
    pub fn push(&mut self, before: usize, step: Step<'a>) -> Result<usize, NoMemory>
        requires { before ≤ length self.old.links.items }
        ensures ok { IfOk result (λ k. (k ≡ length self.new.links.items)
            × (self.new.links.items ≡ self.old.links.items ++ (before, step.entry) ∷ [])) }
        ensures err { OnErr result (self.new.links.items ≡ self.old.links.items) }
    {
        self.links.push((before, step))?;
        Ok(self.links.len())
    }

    /// The steps of a way, from the root on.
    pub fn steps(&self, alloc: Global, number: usize) -> Result<Vec<Step<'a>>, NoMemory>
        requires { number ≤ length self.now.links.items }
        ensures { IfOk result (λ v. v.items ≡ steps_at self.now.links.items number) }
    {
        let mut steps = Vec::new(alloc);
        let mut at = number;
        'links: while at > 0 {
            let (before, step) = self.links[at - 1];
            steps.push(step)?;
            at = before;
        }
        steps.reverse();
        Ok(steps)
    }
}
