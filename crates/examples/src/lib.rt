// Worked examples, shown of the definitions themselves: one list, and one statement that every example of it holds.
#![tactic(auto)]

ghost use Rattle.std.specs.List.{AllByRecursion};
ghost use Rattle.examples.specs.Examples.{Holds, examples};

// Every worked example holds.
pub fn examples_hold()
    ensures { AllByRecursion Holds examples }
{}
