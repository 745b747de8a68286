// A value of a script: a number, a text, a truth value, a clip, or none.
ghost use Rattle.std.specs.Prelude.{◌≡◌, IfOk};
ghost use Rattle.avs_values.specs.Values.{has_kind, is_undefined};

use fv_io::Text;
use std::alloc::{AllocError, Global};

/// A value of a script. A clip is the number of its node in the graph.
#[derive(Drop, Debug)]
pub enum Value {
    Undefined,
    Bool(bool),
    Int(i64),
    Text(Text),
    Clip(u32),
}

/// The kind of value that a parameter takes. `Val` is any value.
#[derive(Clone, Copy, Debug, PartialEq, Eq)]
pub enum Kind {
    Clip,
    Int,
    Text,
    Bool,
    Val,
}

impl Value {
    /// A copy of the value. An `Err` means out of memory.
    pub fn try_clone(&self, alloc: Global) -> Result<Value, AllocError>
        ensures { IfOk result (λ made. made ≡ self.now) }
    {
        match self {
            Value::Undefined => Ok(Value::Undefined),
            Value::Bool(b) => Ok(Value::Bool(*b)),
            Value::Int(n) => Ok(Value::Int(*n)),
            Value::Text(text) => Ok(Value::Text(Text::from_str(alloc, text.as_str())?)),
            Value::Clip(n) => Ok(Value::Clip(*n)),
        }
    }

    /// Whether the value is `Undefined`.
    pub fn is_undefined(&self) -> bool
        ensures { result ≡ is_undefined self.now }
    {
        matches!(self, Value::Undefined)
    }

    /// Whether a parameter of this kind takes the value.
    pub fn has_kind(&self, kind: Kind) -> bool
        ensures { result ≡ has_kind kind self.now }
    {
        match (kind, self) {
            (Kind::Val, _) => true,
            (Kind::Clip, Value::Clip(_)) => true,
            (Kind::Int, Value::Int(_)) => true,
            (Kind::Text, Value::Text(_)) => true,
            (Kind::Bool, Value::Bool(_)) => true,
            _ => false,
        }
    }
}
