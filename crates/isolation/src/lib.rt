// Demand 3: what a pane's calls are told, and what the pane then holds, depends on nothing that other calls
// did.
#![tactic(auto)]

ghost use Rattle.isolation.specs.TwoRuns.{Isolation};

// Does nothing. Its contract is the theorem, so that no check passes without it.
pub fn isolated()
    ensures { Isolation }
{}
