// Laws of the definitions, each the contract of a function with an empty body.
ghost use Rattle.avs_values.specs.Laws.{BoundArgumentsHaveTheirKinds};

/// No function but `String` says `TypeFault` of arguments that `bind` bound to its signature.
pub fn bound_arguments_have_their_kinds()
    ensures { BoundArgumentsHaveTheirKinds }
{}
