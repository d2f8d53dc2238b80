// Ground terms while they are built.
ghost use Rattle.std.specs.Prelude.{◌≡◌};
ghost use Rattle.sq_term.specs.Ground.{ground, grounds};
ghost use Rattle.sq_ground.specs.Calls.GroundMeasure.{ground_size, ground_sizes};
ghost use Rattle.sq_ground.specs.Calls.GroundMeasure.{ground_depth, ground_depths};

use sq_term::GTerm;
use sqlite_items::Items;

/// A ground term with how many nodes it has and how deep it is.
#[derive(Debug, Drop)]
pub struct Built {
    pub term: GTerm,
    pub size: usize,
    pub depth: usize,
    ghost size_is: { size ≡ ground_size (ground term) },
    ghost depth_is: { depth ≡ ground_depth (ground term) },
}

/// The arguments of a function, with how many nodes they have and how deep the deepest is.
#[derive(Debug, Drop)]
pub struct Arguments {
    pub terms: Items<GTerm>,
    pub size: usize,
    pub depth: usize,
    ghost size_is: { size ≡ ground_sizes (grounds terms) },
    ghost depth_is: { depth ≡ ground_depths (grounds terms) },
}
