// What a step and a list of steps answer.
use sq_sequent::RuleFault;

/// Why a step changes no stack: no sequent is left, or its rule has no premises for the first one.
#[derive(Debug, Drop)]
pub enum StepFault {
    Extra,
    Rule(RuleFault),
}

/// A step's fault as a verdict tells it; BadOccurrence with the number of the name.
#[derive(Clone, Copy, Debug, PartialEq, Eq)]
pub enum Kind {
    Extra,
    Shape,
    HasSchema,
    BadOccurrence(u32),
    TooLarge,
}

/// What becomes of a goal: its steps close it, or the first refused step, counted from 1, and why,
/// or how many sequents are left after the last step.
#[derive(Clone, Copy, Debug, PartialEq, Eq)]
pub enum Verdict {
    Closed,
    Rejected(u64, Kind),
    Left(u64),
}

impl StepFault {
    ghost use Rattle.std.specs.Prelude.{◌≡◌};
    ghost use Rattle.sq_kernel.specs.Verdicts.{kind_of};

    /// Why the step was refused. None is want of memory, which is no reason.
    pub fn kind(&self) -> Option<Kind>
        ensures { result ≡ kind_of self.now }
    {
        match self {
            StepFault::Extra => Some(Kind::Extra),
            StepFault::Rule(RuleFault::Shape) => Some(Kind::Shape),
            StepFault::Rule(RuleFault::HasSchema) => Some(Kind::HasSchema),
            StepFault::Rule(RuleFault::BadOccurrence(occurrence)) => {
                Some(Kind::BadOccurrence(occurrence.name))
            }
            StepFault::Rule(RuleFault::TooLarge) => Some(Kind::TooLarge),
            StepFault::Rule(RuleFault::NoMemory) => None,
        }
    }
}
