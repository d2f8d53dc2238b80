// Equal steps and equal names.
ghost use Rattle.std.specs.Prelude.{◌≡◌, IfOk};

use sq_base::{NoMemory, Seq, Text};
use sq_sequent::Step;
use sq_step::copy_step;
use std::alloc::Global;

/// Equal texts, in their order.
pub fn copy_texts(alloc: Global, texts: &[Text]) -> Result<Seq<Text>, NoMemory>
    ensures { IfOk result (λ c. c ≡ texts.now) }
{
    let mut out = Seq::new(alloc);
    for text in texts {
        out.push(text.copy(alloc)?)?;
    }
    Ok(out)
}

/// Equal steps, in their order.
pub fn copy_steps(alloc: Global, steps: &[Step]) -> Result<Seq<Step>, NoMemory>
    ensures { IfOk result (λ c. c ≡ steps.now) }
{
    let mut out = Seq::new(alloc);
    for step in steps {
        out.push(copy_step(alloc, step)?)?;
    }
    Ok(out)
}
