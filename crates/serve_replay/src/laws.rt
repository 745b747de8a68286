// A law of the definitions, the contract of a function with an empty body.
ghost use Rattle.serve_replay.specs.Verdicts.{SaidOnce};

/// One line at most is said of a text.
pub fn said_once()
    ensures { SaidOnce }
{}
