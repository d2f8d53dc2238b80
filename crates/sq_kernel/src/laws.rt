// What is proved of steps: functions without a body, whose contracts are the laws.
ghost use Rattle.sq_kernel.specs.Later as law;

/// What steps leave of a stack they leave whatever is declared later, so a proof goes on standing.
pub fn steps_stay()
    ensures { law.LeavesStay }
{}

/// Steps that close a goal close it whatever is declared later.
pub fn closing_steps_stay_closing()
    ensures { law.ClosingStays }
{}
