// What a name calls, and what that takes.
ghost use Rattle.std.specs.Prelude.{◌≡◌, [], map, IfOk, IsSome, OnErr, option_map};
ghost use Rattle.avs_values.specs.Views.{signature_view};
ghost use Rattle.avs_meaning.specs.Expressions as m;
ghost use Rattle.avs_state.specs.States.{state_of};
ghost use Rattle.avs_expressions.specs.Views.{callee_view};

use avs_meaning::{Builtin, Variable};
use avs_state::{ByName, Definition, RunState, set_in};
use avs_tree::{Parameter, TypeWord};
use avs_values::{Kind, Param, Signature, Value};
use fv_io::Text;
use std::alloc::{AllocError, Global};
use std::rc::Rc;

/// What a name calls.
#[derive(Drop)]
pub enum Callee {
    User(Rc<Definition>),
    Builtin(Builtin),
}

/// What a name calls. A function of the script hides a built-in one. An `Err` is out of memory.
pub fn callee_of(alloc: Global, state: &RunState, name: &Text) -> Result<Option<Callee>, AllocError>
    ensures found { IfOk result (λ found. option_map callee_view found ≡ m.callee name.now (state_of state.now).functions) }
    ensures memory { OnErr result (IsSome (m.callee name.now (state_of state.now).functions)) }
{
    if let Some(definition) = state.find(alloc, name)? {
        return Ok(Some(Callee::User(definition)));
    }
    match Builtin::named(name.as_str()) {
        Some(builtin) => Ok(Some(Callee::Builtin(builtin))),
        None => Ok(None),
    }
}

fn kind_of(word: TypeWord) -> Kind
    ensures { result ≡ m.kind_of_word word }
{
    match word {
        TypeWord::Clip => Kind::Clip,
        TypeWord::Int => Kind::Int,
        TypeWord::String => Kind::Text,
        TypeWord::Bool => Kind::Bool,
        TypeWord::Val => Kind::Val,
    }
}

/// What a function of the script takes. An `Err` is out of memory.
pub fn signature_of(alloc: Global, params: &[Parameter]) -> Result<Signature, AllocError>
    ensures { IfOk result (λ made. signature_view made ≡ m.signature_of params.now) }
{
    let mut taken = Vec::new(alloc);
    for param in params {
        let name = Text::from_str(alloc, param.name.as_str())?;
        taken.push(Param {
            name,
            kind: kind_of(param.word),
            optional: param.optional,
        })?;
    }
    Ok(Signature {
        params: taken,
        rest: None,
        least: 0,
    })
}

/// The parameters of a function as its variables. An `Err` is out of memory.
#[tactic(auto, using(crate::proofs::ParameterLemmas::no_more))]
pub fn parameters(
    alloc: Global,
    params: &[Parameter],
    values: &[Value],
) -> Result<ByName<Variable>, AllocError>
    ensures { IfOk result (λ made. made ≡ m.parameters params.now values.now []) }
{
    let mut env = ByName::new(alloc);
    for k in 0..params.len() {
        let Some(value) = values.get(k) else {
            return Ok(env);
        };
        let value = value.try_clone(alloc)?;
        set_in(alloc, &mut env, &params[k].name, value)?;
    }
    Ok(env)
}
