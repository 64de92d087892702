// What the judge's reply holds of runs (02, A.2), and an example of it, as contracts of functions that do nothing, so
// that no check passes without them.
#![tactic(auto)]

ghost use Rattle.verdicts.specs.Verdicts.{Verdicts};
ghost use Rattle.verdicts.specs.Example.{Worked};

// Does nothing. Its contract is the theorem.
pub fn verdicts_hold()
    ensures { Verdicts }
{}

// Does nothing. Its contract is the example.
pub fn example_holds()
    ensures { Worked }
{}
