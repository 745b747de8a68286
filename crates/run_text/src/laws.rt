// Laws of the definitions, each the contract of a function with an empty body.
ghost use Rattle.run_text.specs.Journal.{JudgedOnce};
ghost use Rattle.run_text.specs.Examples.{FirstRow, SecondRow, ThirdRow};

/// A text is judged in one way at most.
pub fn judged_once()
    ensures { JudgedOnce }
{}

/// The journal of a small render, the same without its sixth line, and the same in a cache of one frame.
pub fn examples()
    ensures whole { FirstRow }
    ensures without { SecondRow }
    ensures small { ThirdRow }
{}
