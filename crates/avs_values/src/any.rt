// Functions on values of any kind: `Select`, `Defined`, `Default`, `Assert` and the tests of kinds.
ghost use Rattle.avs_values.specs.Functions as s;
ghost use Rattle.avs_values.specs.Values.{Gives, AlwaysGives};

use crate::{Kind, Message, Value, ValueFault};
use std::alloc::Global;

pub fn select(alloc: Global, values: &[Value], rest: &[Value]) -> Result<Value, ValueFault>
    ensures { Gives (s.select values.now rest.now) result }
{
    let [Value::Int(i), first] = values else {
        return Err(ValueFault::TypeFault);
    };
    if *i < 0 {
        return Err(ValueFault::BadRange);
    }
    let i = i.unsigned_abs() as usize;
    if i == 0 {
        return Ok(first.try_clone(alloc)?);
    }
    match rest.get(i - 1) {
        Some(value) => Ok(value.try_clone(alloc)?),
        None => Err(ValueFault::BadRange),
    }
}

pub fn defined(values: &[Value]) -> Result<Value, ValueFault>
    ensures { AlwaysGives (s.defined values.now) result }
{
    let [value] = values else {
        return Err(ValueFault::TypeFault);
    };
    Ok(Value::Bool(!value.is_undefined()))
}

pub fn default(alloc: Global, values: &[Value]) -> Result<Value, ValueFault>
    ensures { Gives (s.default values.now) result }
{
    let [first, second] = values else {
        return Err(ValueFault::TypeFault);
    };
    let chosen = if first.is_undefined() { second } else { first };
    Ok(chosen.try_clone(alloc)?)
}

fn failed(message: Value) -> Result<Value, ValueFault>
    ensures { AlwaysGives (s.failed message) result }
{
    match message {
        Value::Undefined => Err(ValueFault::AssertFailed(Message::new(None))),
        Value::Text(text) => Err(ValueFault::AssertFailed(Message::new(Some(text)))),
        _ => Err(ValueFault::TypeFault),
    }
}

/// `Assert`. A fault takes the message out of the values.
pub fn assertion(values: &mut [Value]) -> Result<Value, ValueFault>
    ensures { AlwaysGives (s.assertion values.old) result }
{
    let [Value::Bool(holds), _] = &*values else {
        return Err(ValueFault::TypeFault);
    };
    if *holds {
        return Ok(Value::Undefined);
    }
    failed(std::mem::replace(&mut values[1], Value::Undefined))
}

pub fn is_of_kind(kind: Kind, values: &[Value]) -> Result<Value, ValueFault>
    ensures { AlwaysGives (s.is_of_kind kind values.now) result }
{
    let [value] = values else {
        return Err(ValueFault::TypeFault);
    };
    Ok(Value::Bool(value.has_kind(kind)))
}
