// What holds of the lines of steps.
ghost use Rattle.std.specs.Prelude.{◌≡◌, ◌≤◌, ◌+◌, ◌*◌, length, IsTrue};
ghost use Rattle.sq_step.specs.declared.step.Step.{Step};
ghost use Rattle.sq_cert_steps.specs.Lines.{step_line, step_nodes, is_spelled};

/// Each line is that of at most one step.
pub fn a_line_is_that_of_one_step()
    ensures { (s t : Step) → IsTrue (is_spelled s) → IsTrue (is_spelled t)
        → step_line s ≡ step_line t → s ≡ t }
{}

/// The line of a step has at most 24 bytes for each node that it writes, and 6 bytes more.
pub fn lines_are_bounded_by_their_nodes()
    ensures { (s : Step) → IsTrue (is_spelled s) → length (step_line s) ≤ 24 * step_nodes s + 6 }
{}
