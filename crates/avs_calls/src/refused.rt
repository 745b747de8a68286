// Why the arguments of a filter are refused.
use avs_meaning::ScriptKind;
use avs_runtime::RunFault;
use std::alloc::AllocError;

/// Why arguments say nothing that a filter could do: by a fault, or because memory ran out.
#[derive(Drop)]
pub(crate) enum Refused {
    Fault(ScriptKind),
    Memory,
}

impl From<AllocError> for Refused {
    ghost use Rattle.std.specs.Prelude.{◌≡◌};
    ghost use Rattle.avs_calls.specs.declared.refused.Refused.TheVariants.{Memory};

    ghost from_gives = { λ _ refused. refused ≡ Memory };

    fn from(_: AllocError) -> Refused {
        Refused::Memory
    }
}

impl From<RunFault> for Refused {
    ghost use Rattle.std.specs.Prelude.{◌≡◌};
    ghost use Rattle.avs_calls.specs.Arguments.{refused_of};

    ghost from_gives = { λ fault refused. refused ≡ refused_of fault };

    fn from(fault: RunFault) -> Refused {
        match fault {
            RunFault::BadExpression => Refused::Fault(ScriptKind::BadExpression),
            RunFault::Memory => Refused::Memory,
        }
    }
}
