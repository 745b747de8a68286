// A signature: the parameters of a function, each with its kind and name.
ghost use Rattle.std.specs.Prelude.{◌≡◌, IfOk};
ghost use Rattle.avs_values.specs.Functions as s;

use crate::Kind;
use fv_io::Text;
use std::alloc::{AllocError, Global};

/// A parameter. Only an optional one may be given by its name.
#[derive(Drop)]
pub struct Param {
    pub name: Text,
    pub kind: Kind,
    pub optional: bool,
}

impl Param {
    /// A parameter without a name, which each call gives. An `Err` is out of memory.
    pub fn required(alloc: Global, kind: Kind) -> Result<Param, AllocError>
        ensures { IfOk result (λ made. made ≡ s.required kind) }
    {
        let name = Text::from_str(alloc, "")?;
        let optional = false;
        Ok(Param {
            name,
            kind,
            optional,
        })
    }

    /// A parameter that a call may leave out, or give by its name. An `Err` is out of memory.
    pub fn optional(alloc: Global, kind: Kind, name: &str) -> Result<Param, AllocError>
        ensures { IfOk result (λ made. made ≡ s.optional kind name.now) }
    {
        let name = Text::from_str(alloc, name)?;
        let optional = true;
        Ok(Param {
            name,
            kind,
            optional,
        })
    }
}

/// What a function takes: its parameters in order, and then, where there is a rest, at least `least` more values of a kind.
#[derive(Drop)]
pub struct Signature {
    pub params: Vec<Param>,
    pub rest: Option<Kind>,
    pub least: u32,
}
