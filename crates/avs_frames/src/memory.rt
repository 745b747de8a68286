// What is made, or that memory ran out.
ghost use Rattle.std.specs.Prelude.{◌≡◌, ◌∷◌, ◌++◌, [], IfOk};

use avs_tree::Expr;
use std::alloc::{AllocError, AllocFailed, Global};

/// Memory ran out. It is made only of what an allocation answered, so no fault can be called this by mistake.
#[derive(Clone, Copy)]
pub struct OutOfMemory {
    _refused: AllocError,
}

/// What is made, unless memory runs out.
pub type Outcome<T> = Result<T, OutOfMemory>;

impl From<AllocError> for OutOfMemory {
    fn from(refused: AllocError) -> OutOfMemory {
        OutOfMemory { _refused: refused }
    }
}

impl<T: Drop> From<AllocFailed<T>> for OutOfMemory {
    fn from(refused: AllocFailed<T>) -> OutOfMemory {
        OutOfMemory {
            _refused: AllocError::from(refused),
        }
    }
}

/// The list with one more item at its end.
pub fn pushed<T: Drop>(mut list: Vec<T>, item: T) -> Outcome<Vec<T>>
    ensures { IfOk result (λ made. made.items ≡ list.items ++ item ∷ []) }
{
    list.push(item)?;
    Ok(list)
}

/// The expression in a box.
pub fn boxed(alloc: Global, expr: Expr) -> Outcome<Box<Expr>>
    ensures { IfOk result (λ made. made.value ≡ expr) }
{
    Ok(Box::new(alloc, expr)?)
}
