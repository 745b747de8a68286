// Laws of the definitions. Each is the contract of a function with an empty body.
ghost use Rattle.serve_app.specs.Meaning.{MeansOneThing, MeansSomething};

/// A script means one thing at most.
pub fn a_script_means_one_thing()
    ensures { MeansOneThing }
{}

/// A script means something: there is a clip, or a first fault.
pub fn a_script_means_something()
    ensures { MeansSomething }
{}
