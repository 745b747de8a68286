// Why a text gives no expression.
use std::alloc::AllocError;

/// Why a text gives no expression.
#[derive(Clone, Copy, Debug, PartialEq, Eq)]
pub enum RunFault {
    /// The text is no expression: it has more than 4,096 bytes, or it is not one expression statement alone, or that has
    /// a part that no expression has, or a truth value, or the name of a plane that the test clip hasn't.
    BadExpression,
    /// Out of memory. Nothing is known of the text.
    Memory,
}

impl From<AllocError> for RunFault {
    ghost use Rattle.avs_runtime.specs.declared.fault.RunFault.TheVariants.{Memory};
    ghost use Rattle.std.specs.Prelude.{◌≡◌};

    ghost from_gives = { λ _ fault. fault ≡ Memory };

    fn from(_: AllocError) -> RunFault {
        RunFault::Memory
    }
}
