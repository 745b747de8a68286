// Operators on values that are no clips.
ghost use Rattle.avs_values.specs.Operators as s;
ghost use Rattle.avs_values.specs.Values.{Gives, AlwaysGives};
ghost use Rattle.avs_values.specs.declared.operators.BinaryOp.TheVariants as o;

use crate::{Value, ValueFault};
use fv_io::Text;
use std::alloc::Global;

/// An operator before one value.
#[derive(Clone, Copy, PartialEq, Eq)]
pub enum UnaryOp {
    Negative,
    Not,
}

/// An operator between two values.
#[derive(Clone, Copy, PartialEq, Eq)]
pub enum BinaryOp {
    Add,
    Subtract,
    Multiply,
    Divide,
    Remainder,
    Equal,
    NotEqual,
    Less,
    LessEqual,
    Greater,
    GreaterEqual,
}

// How many bytes a text has at most.
const TEXT_LIMIT: usize = 1_048_576;

fn quotient(a: i64, b: i64) -> Result<Value, ValueFault>
    ensures { AlwaysGives (s.arithmetic o.Divide a b) result }
{
    if b == 0 {
        return Err(ValueFault::DivZero);
    }
    Ok(Value::Int(a.checked_div(b).ok_or(ValueFault::Overflow)?))
}

fn remainder(a: i64, b: i64) -> Result<Value, ValueFault>
    ensures { AlwaysGives (s.arithmetic o.Remainder a b) result }
{
    if b == 0 {
        return Err(ValueFault::DivZero);
    }
    Ok(Value::Int(a.wrapping_rem(b)))
}

fn arithmetic(op: BinaryOp, a: i64, b: i64) -> Result<Value, ValueFault>
    ensures { AlwaysGives (s.arithmetic op a b) result }
{
    match op {
        BinaryOp::Add => Ok(Value::Int(a.checked_add(b).ok_or(ValueFault::Overflow)?)),
        BinaryOp::Subtract => Ok(Value::Int(a.checked_sub(b).ok_or(ValueFault::Overflow)?)),
        BinaryOp::Multiply => Ok(Value::Int(a.checked_mul(b).ok_or(ValueFault::Overflow)?)),
        BinaryOp::Divide => quotient(a, b),
        BinaryOp::Remainder => remainder(a, b),
        BinaryOp::Equal => Ok(Value::Bool(a == b)),
        BinaryOp::NotEqual => Ok(Value::Bool(a != b)),
        BinaryOp::Less => Ok(Value::Bool(a < b)),
        BinaryOp::LessEqual => Ok(Value::Bool(a <= b)),
        BinaryOp::Greater => Ok(Value::Bool(a > b)),
        BinaryOp::GreaterEqual => Ok(Value::Bool(a >= b)),
    }
}

fn joined(alloc: Global, a: &str, b: &str) -> Result<Value, ValueFault>
    ensures { Gives (s.on_texts o.Add a.now b.now) result }
{
    let size = a.len() + b.len();
    if size > TEXT_LIMIT {
        return Err(ValueFault::TextLimit);
    }
    let mut text = String::with_capacity(alloc, size)?;
    text.push_str(a)?;
    text.push_str(b)?;
    Ok(Value::Text(Text::from(text)))
}

fn on_texts(alloc: Global, op: BinaryOp, a: &str, b: &str) -> Result<Value, ValueFault>
    ensures { Gives (s.on_texts op a.now b.now) result }
{
    match op {
        BinaryOp::Add => joined(alloc, a, b),
        BinaryOp::Equal => Ok(Value::Bool(a.eq_ignore_ascii_case(b))),
        BinaryOp::NotEqual => Ok(Value::Bool(!a.eq_ignore_ascii_case(b))),
        _ => Err(ValueFault::TypeFault),
    }
}

fn on_bools(op: BinaryOp, a: bool, b: bool) -> Result<Value, ValueFault>
    ensures { AlwaysGives (s.on_bools op a b) result }
{
    match op {
        BinaryOp::Equal => Ok(Value::Bool(a == b)),
        BinaryOp::NotEqual => Ok(Value::Bool(a != b)),
        _ => Err(ValueFault::TypeFault),
    }
}

/// The value of an operator between two values. For clips it is `TypeFault`, since no operator here takes them.
pub fn binary(alloc: Global, op: BinaryOp, a: &Value, b: &Value) -> Result<Value, ValueFault>
    ensures { Gives (s.binary op a.now b.now) result }
{
    match (a, b) {
        (Value::Int(a), Value::Int(b)) => arithmetic(op, *a, *b),
        (Value::Text(a), Value::Text(b)) => on_texts(alloc, op, a.as_str(), b.as_str()),
        (Value::Bool(a), Value::Bool(b)) => on_bools(op, *a, *b),
        _ => Err(ValueFault::TypeFault),
    }
}

/// The value of an operator before a value.
pub fn unary(op: UnaryOp, a: &Value) -> Result<Value, ValueFault>
    ensures { AlwaysGives (s.unary op a.now) result }
{
    match (op, a) {
        (UnaryOp::Negative, Value::Int(n)) => Ok(Value::Int(
            n.checked_neg().ok_or(ValueFault::Overflow)?,
        )),
        (UnaryOp::Not, Value::Bool(b)) => Ok(Value::Bool(!*b)),
        _ => Err(ValueFault::TypeFault),
    }
}
