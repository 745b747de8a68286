// Why an operator or a function has no value.
ghost use Rattle.std.specs.Prelude.{◌≡◌};

use crate::Message;
use std::alloc::AllocError;

/// Why an operator or a function has no value.
#[derive(Drop)]
pub enum ValueFault {
    /// A value is of another kind than the operator or the function takes.
    TypeFault,
    /// A number is outside 64 bits.
    Overflow,
    /// A division by 0, or its remainder.
    DivZero,
    /// A text is not what the function reads.
    BadText,
    /// A number is outside the function's range.
    BadRange,
    /// A text of more than 1,048,576 bytes.
    TextLimit,
    /// The message of an `Assert` whose condition is false.
    AssertFailed(Message),
    /// Out of memory.
    Memory,
}

impl From<AllocError> for ValueFault {
    ghost use Rattle.avs_values.specs.declared.fault.ValueFault.TheVariants.{Memory};

    ghost from_gives = { λ _ e. e ≡ Memory };

    fn from(_: AllocError) -> ValueFault {
        ValueFault::Memory
    }
}
