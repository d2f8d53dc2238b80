// What a way passes, and what is known at its end.
ghost use Rattle.std.specs.Prelude.{◌≡◌, [], ◌∷◌, IfOk};
ghost use Rattle.sq_elab.specs.Steps.{IsPlace, label_text, step_tree};
ghost use Rattle.sq_elab.specs.Ways as spec;
ghost use Rattle.sq_elab.specs.Ways.{Way};

use sq_ast::Formula;
use sq_base::{NoMemory, Sort, Text};

/// What a way passes at one node. Where the node may close an action, the step has its number.
#[derive(Clone, Copy)]
pub enum Step<'a> {
    /// A new name, with its number.
    Creates(&'a Text, u32),
    Receives(&'a Text, Option<u32>),
    Repeats(&'a Text, Option<u32>),
    Sends(&'a Formula, u32),
    /// A branch, the number of what is held of its test, and whether it is the first branch.
    Tests(&'a Formula, usize, bool),
    /// The same of a `find`, and whether it found.
    Finds(&'a [Text], &'a Formula, usize, bool),
    /// A `let`, the number of what is held of its term, and its sort.
    Defines(&'a Text, &'a Formula, usize, Sort),
    /// Part so many of a parallel, counted from 0, and whether others follow it.
    Part(usize, bool, Option<u32>),
    Labels(&'a Text),
    /// Into a called body: its parameters, and what the call gives for them.
    Enters(&'a [Text], &'a [Text]),
}

impl<'a> Step<'a> {
    /// The action that the node closes.
    pub fn closes(self) -> Option<u32>
        ensures { result ≡ spec.closes (step_tree self.entry) }
    {
        match self {
            Step::Receives(_, action) | Step::Repeats(_, action) | Step::Part(_, _, action) => {
                action
            }
            Step::Sends(_, action) => Some(action),
            _ => None,
        }
    }

    /// How many indices it adds.
    pub fn indices(self) -> usize
        ensures { result ≡ spec.indices_of_step (step_tree self.entry) }
    {
        match self {
            Step::Repeats(_, _) => 1,
            Step::Finds(names, _, _, true) => names.len(),
            _ => 0,
        }
    }
}

/// What is known at the end of a way.
#[derive(Clone, Copy)]
pub struct Place<'a> {
    /// How many indices an action has there.
    pub indices: u32,
    /// Whether the next node closes an action, even if it is no `out`.
    pub pending: bool,
    /// The last action before it.
    pub parent: Option<u32>,
    /// The nearest label, of a caller too.
    pub label: Option<&'a Text>,
}

impl<'a> Place<'a> {
    /// At the root.
    pub fn root() -> Place<'a>
        ensures { IsPlace result [] }
    {
        Place {
            indices: 0,
            pending: false,
            parent: None,
            label: None,
        }
    }

    /// Behind one more step. Want of memory also comes where a way has 4,294,967,296 indices.
    pub fn behind(self, step: Step<'a>) -> Result<Place<'a>, NoMemory>
        ensures { IfOk result
            (λ p. (w : Way) → IsPlace self.entry w → IsPlace p (step_tree step.entry ∷ w)) }
    {
        let indices = match u32::try_from(step.indices()) {
            Ok(more) => self.indices.checked_add(more),
            Err(_) => None,
        };
        let Some(indices) = indices else {
            return Err(NoMemory);
        };
        Ok(Place {
            indices,
            pending: self.pending_behind(step),
            parent: step.closes().or(self.parent),
            label: self.label_behind(step),
        })
    }

    fn pending_behind(self, step: Step<'_>) -> bool
        ensures { (w : Way) → self.entry.pending ≡ spec.pending w
            → result ≡ spec.pending (step_tree step.entry ∷ w) }
    {
        match step {
            Step::Receives(_, _) | Step::Tests(_, _, _) | Step::Finds(_, _, _, _) => true,
            Step::Sends(_, _) | Step::Repeats(_, _) | Step::Part(_, _, _) => false,
            _ => self.pending,
        }
    }

    fn label_behind(self, step: Step<'a>) -> Option<&'a Text>
        ensures { (w : Way) → label_text self.entry.label ≡ spec.label w
            → label_text result ≡ spec.label (step_tree step.entry ∷ w) }
    {
        match step {
            Step::Labels(label) => Some(label),
            _ => self.label,
        }
    }
}
