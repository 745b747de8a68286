// The functions on numbers, and between numbers and texts.
ghost use Rattle.std.specs.Prelude.{◌≡◌};
ghost use Rattle.std.specs.Char.{is_ascii_digit, is_ascii_hexdigit};
ghost use Rattle.std.specs.Int.{int_min, int_max};
ghost use Rattle.std.specs.List.{list_all};
ghost use Rattle.avs_values.specs.Functions as s;
ghost use Rattle.avs_values.specs.Values.{Gives, AlwaysGives};

use crate::texts::copied;
use crate::{Value, ValueFault};
use fv_io::Text;
use itoa::Buffer;
use std::alloc::Global;

// How many hexadecimal digits 64 bits have.
const HEXADECIMAL_DIGITS: usize = 16;

pub fn absolute(values: &[Value]) -> Result<Value, ValueFault>
    ensures { AlwaysGives (s.absolute values.now) result }
{
    let [Value::Int(n)] = values else {
        return Err(ValueFault::TypeFault);
    };
    if *n >= 0 {
        return Ok(Value::Int(*n));
    }
    Ok(Value::Int(n.checked_neg().ok_or(ValueFault::Overflow)?))
}

pub fn sign(values: &[Value]) -> Result<Value, ValueFault>
    ensures { AlwaysGives (s.sign values.now) result }
{
    let [Value::Int(n)] = values else {
        return Err(ValueFault::TypeFault);
    };
    Ok(Value::Int(n.signum()))
}

fn least_of(first: i64, rest: &[Value]) -> Result<Value, ValueFault>
    ensures { AlwaysGives (s.folded int_min first rest.now) result }
{
    let mut found = first;
    for value in rest {
        let Value::Int(n) = value else {
            return Err(ValueFault::TypeFault);
        };
        found = found.min(*n);
    }
    Ok(Value::Int(found))
}

fn greatest_of(first: i64, rest: &[Value]) -> Result<Value, ValueFault>
    ensures { AlwaysGives (s.folded int_max first rest.now) result }
{
    let mut found = first;
    for value in rest {
        let Value::Int(n) = value else {
            return Err(ValueFault::TypeFault);
        };
        found = found.max(*n);
    }
    Ok(Value::Int(found))
}

pub fn least(values: &[Value], rest: &[Value]) -> Result<Value, ValueFault>
    ensures { AlwaysGives (s.least values.now rest.now) result }
{
    let [Value::Int(a), Value::Int(b)] = values else {
        return Err(ValueFault::TypeFault);
    };
    least_of((*a).min(*b), rest)
}

pub fn greatest(values: &[Value], rest: &[Value]) -> Result<Value, ValueFault>
    ensures { AlwaysGives (s.greatest values.now rest.now) result }
{
    let [Value::Int(a), Value::Int(b)] = values else {
        return Err(ValueFault::TypeFault);
    };
    greatest_of((*a).max(*b), rest)
}

pub fn bit_and(values: &[Value]) -> Result<Value, ValueFault>
    ensures { AlwaysGives (s.bit_and values.now) result }
{
    let [Value::Int(a), Value::Int(b)] = values else {
        return Err(ValueFault::TypeFault);
    };
    Ok(Value::Int(*a & *b))
}

pub fn bit_or(values: &[Value]) -> Result<Value, ValueFault>
    ensures { AlwaysGives (s.bit_or values.now) result }
{
    let [Value::Int(a), Value::Int(b)] = values else {
        return Err(ValueFault::TypeFault);
    };
    Ok(Value::Int(*a | *b))
}

pub fn bit_xor(values: &[Value]) -> Result<Value, ValueFault>
    ensures { AlwaysGives (s.bit_xor values.now) result }
{
    let [Value::Int(a), Value::Int(b)] = values else {
        return Err(ValueFault::TypeFault);
    };
    Ok(Value::Int(*a ^ *b))
}

pub fn bit_not(values: &[Value]) -> Result<Value, ValueFault>
    ensures { AlwaysGives (s.bit_not values.now) result }
{
    let [Value::Int(n)] = values else {
        return Err(ValueFault::TypeFault);
    };
    Ok(Value::Int(!*n))
}

fn are_digits(bytes: &[u8]) -> bool
    ensures { result ≡ list_all is_ascii_digit bytes.now }
{
    bytes.iter().all(|byte| byte.is_ascii_digit())
}

fn are_hexdigits(bytes: &[u8]) -> bool
    ensures { result ≡ list_all is_ascii_hexdigit bytes.now }
{
    bytes.iter().all(|byte| byte.is_ascii_hexdigit())
}

// Whether a text is an optional `-` and decimal digits.
fn is_decimal(text: &str) -> bool
    ensures { result ≡ s.is_decimal text.now }
{
    let digits = match text.as_bytes() {
        [b'-', digits @ ..] => digits,
        digits => digits,
    };
    !digits.is_empty() && are_digits(digits)
}

pub fn value(values: &[Value]) -> Result<Value, ValueFault>
    ensures { AlwaysGives (s.value values.now) result }
{
    let [Value::Text(text)] = values else {
        return Err(ValueFault::TypeFault);
    };
    let text = text.as_str();
    if !is_decimal(text) {
        return Err(ValueFault::BadText);
    }
    match text.parse::<i64>() {
        Ok(n) => Ok(Value::Int(n)),
        Err(_) => Err(ValueFault::Overflow),
    }
}

// Whether a text is 1 to 16 hexadecimal digits.
fn is_hexadecimal(text: &str) -> bool
    ensures { result ≡ s.is_hexadecimal text.now }
{
    1 <= text.len() && text.len() <= HEXADECIMAL_DIGITS && are_hexdigits(text.as_bytes())
}

pub fn hex_value(values: &[Value]) -> Result<Value, ValueFault>
    ensures { AlwaysGives (s.hex_value values.now) result }
{
    let [Value::Text(text)] = values else {
        return Err(ValueFault::TypeFault);
    };
    let text = text.as_str();
    if !is_hexadecimal(text) {
        return Err(ValueFault::BadText);
    }
    match u64::from_str_radix(text, 16) {
        Ok(bits) => Ok(Value::Int(bits.cast_signed())),
        Err(_) => Err(ValueFault::BadText),
    }
}

pub fn hex(alloc: Global, values: &[Value]) -> Result<Value, ValueFault>
    ensures { Gives (s.hex values.now) result }
{
    let [Value::Int(n)] = values else {
        return Err(ValueFault::TypeFault);
    };
    let bits = n.cast_unsigned();
    let text = format!(in alloc; "{bits:X}")?;
    Ok(Value::Text(Text::from(text)))
}

pub fn string(alloc: Global, values: &[Value]) -> Result<Value, ValueFault>
    ensures { Gives (s.string values.now) result }
{
    let [value] = values else {
        return Err(ValueFault::TypeFault);
    };
    match value {
        Value::Int(n) => copied(alloc, Buffer::new().format(*n)),
        Value::Bool(true) => copied(alloc, "true"),
        Value::Bool(false) => copied(alloc, "false"),
        Value::Text(same) => copied(alloc, same.as_str()),
        Value::Clip(_) | Value::Undefined => Err(ValueFault::TypeFault),
    }
}
