// Functions on texts: lengths, cases, parts, searches and the reversed text.
ghost use Rattle.std.specs.Prelude.{◌≡◌, ◌+◌, ◌≤◌, ◌++◌, length, pos, reverse, Ok, IfOk, string_bytes};
ghost use Rattle.std.specs.Str.{chars, encode_utf8_all};
ghost use Rattle.avs_values.specs.Values as o;
ghost use Rattle.avs_values.specs.Values.{Gives, AlwaysGives};
ghost use Rattle.avs_values.specs.Functions as s;
ghost use Rattle.avs_values.specs.declared.value.Value.TheVariants as v;

use crate::{Value, ValueFault};
use fv_io::Text;
use std::alloc::{AllocError, Global};

// How many characters a text has.
fn characters(text: &str) -> usize
    ensures { result ≡ length (chars text.now) }
{
    text.chars().count()
}

// What is after the first characters.
#[tactic(auto, using(crate::proofs::CharacterLemmas::one_more, crate::proofs::CharacterLemmas::none_left, crate::proofs::CharacterLemmas::whole))]
fn after(text: &str, count: usize) -> &str
    ensures { result.now ≡ s.after count text.now }
{
    let mut rest = text.chars();
    for _turn in 0..count {
        let Some(_) = rest.next() else {
            return "";
        };
    }
    rest.as_str()
}

// The first characters.
#[tactic(auto, using(crate::proofs::CharacterLemmas::ends_first, crate::proofs::CharacterLemmas::takes_first, crate::proofs::CharacterLemmas::is_part))]
fn first(text: &str, count: usize) -> &str
    ensures { result.now ≡ s.first count text.now }
{
    let size = text.len() - after(text, count).len();
    &text[..size]
}

// The characters of a text in reverse order.
#[tactic(auto, using(crate::proofs::CharacterLemmas::all_back))]
fn reversed(alloc: Global, text: &str) -> Result<String, AllocError>
    ensures { IfOk result (λ made. string_bytes made ≡ encode_utf8_all (reverse (chars text.now))) }
{
    let mut made = String::with_capacity(alloc, text.len())?;
    for c in text.chars().rev() {
        made.push(c)?;
    }
    Ok(made)
}

// The first position of a text in another, counted from 1, or 0.
fn position(text: &str, wanted: &str) -> usize
    ensures { result ≡ s.position_from 1 (chars wanted.now) (chars text.now) }
{
    match text.find(wanted) {
        Some(start) => characters(&text[..start]) + 1,
        None => 0,
    }
}

fn number(n: usize) -> Result<Value, ValueFault>
    ensures { AlwaysGives (o.number (pos n)) result }
{
    match i64::try_from(n) {
        Ok(n) => Ok(Value::Int(n)),
        Err(_) => Err(ValueFault::Overflow),
    }
}

// A text as a value.
pub fn copied(alloc: Global, text: &str) -> Result<Value, ValueFault>
    ensures { Gives (Ok (v.Text text.now)) result }
{
    Ok(Value::Text(Text::from_str(alloc, text)?))
}

pub fn str_len(values: &[Value]) -> Result<Value, ValueFault>
    ensures { AlwaysGives (s.str_len values.now) result }
{
    let [Value::Text(text)] = values else {
        return Err(ValueFault::TypeFault);
    };
    number(characters(text.as_str()))
}

pub fn u_case(alloc: Global, values: &[Value]) -> Result<Value, ValueFault>
    ensures { Gives (s.u_case values.now) result }
{
    let [Value::Text(text)] = values else {
        return Err(ValueFault::TypeFault);
    };
    let made = text.as_str().to_ascii_uppercase(alloc)?;
    Ok(Value::Text(Text::from(made)))
}

pub fn l_case(alloc: Global, values: &[Value]) -> Result<Value, ValueFault>
    ensures { Gives (s.l_case values.now) result }
{
    let [Value::Text(text)] = values else {
        return Err(ValueFault::TypeFault);
    };
    let made = text.as_str().to_ascii_lowercase(alloc)?;
    Ok(Value::Text(Text::from(made)))
}

pub fn rev_str(alloc: Global, values: &[Value]) -> Result<Value, ValueFault>
    ensures { Gives (s.rev_str values.now) result }
{
    let [Value::Text(text)] = values else {
        return Err(ValueFault::TypeFault);
    };
    let made = reversed(alloc, text.as_str())?;
    Ok(Value::Text(Text::from(made)))
}

// A text of at most so many characters.
fn at_most(alloc: Global, count: i64, text: &str) -> Result<Value, ValueFault>
    ensures { Gives (s.at_most count text.now) result }
{
    if count < 0 {
        return Err(ValueFault::BadRange);
    }
    copied(alloc, first(text, count.unsigned_abs() as usize))
}

pub fn left_str(alloc: Global, values: &[Value]) -> Result<Value, ValueFault>
    ensures { Gives (s.left_str values.now) result }
{
    let [Value::Text(text), Value::Int(count)] = values else {
        return Err(ValueFault::TypeFault);
    };
    at_most(alloc, *count, text.as_str())
}

pub fn right_str(alloc: Global, values: &[Value]) -> Result<Value, ValueFault>
    ensures { Gives (s.right_str values.now) result }
{
    let [Value::Text(text), Value::Int(count)] = values else {
        return Err(ValueFault::TypeFault);
    };
    if *count < 0 {
        return Err(ValueFault::BadRange);
    }
    let text = text.as_str();
    let before = characters(text).saturating_sub(count.unsigned_abs() as usize);
    copied(alloc, after(text, before))
}

// A text, cut to a length where one is given.
fn cut(alloc: Global, text: &str, size: &Value) -> Result<Value, ValueFault>
    ensures { Gives (s.cut text.now size.now) result }
{
    match size {
        Value::Undefined => copied(alloc, text),
        Value::Int(count) => at_most(alloc, *count, text),
        _ => Err(ValueFault::TypeFault),
    }
}

pub fn mid_str(alloc: Global, values: &[Value]) -> Result<Value, ValueFault>
    ensures { Gives (s.mid_str values.now) result }
{
    let [Value::Text(text), Value::Int(start), size] = values else {
        return Err(ValueFault::TypeFault);
    };
    if *start < 1 {
        return Err(ValueFault::BadRange);
    }
    let before = start.unsigned_abs() as usize - 1;
    cut(alloc, after(text.as_str(), before), size)
}

pub fn find_str(values: &[Value]) -> Result<Value, ValueFault>
    ensures { AlwaysGives (s.find_str values.now) result }
{
    let [Value::Text(text), Value::Text(wanted)] = values else {
        return Err(ValueFault::TypeFault);
    };
    number(position(text.as_str(), wanted.as_str()))
}

pub fn chr(alloc: Global, values: &[Value]) -> Result<Value, ValueFault>
    ensures { Gives (s.chr values.now) result }
{
    let [Value::Int(n)] = values else {
        return Err(ValueFault::TypeFault);
    };
    if !(1 <= *n && *n <= 127) {
        return Err(ValueFault::BadRange);
    }
    let mut made = String::new(alloc);
    made.push(n.unsigned_abs() as u8 as char)?;
    Ok(Value::Text(Text::from(made)))
}

pub fn ord(values: &[Value]) -> Result<Value, ValueFault>
    ensures { AlwaysGives (s.ord values.now) result }
{
    let [Value::Text(text)] = values else {
        return Err(ValueFault::TypeFault);
    };
    match text.as_str().chars().next() {
        Some(c) => Ok(Value::Int(i64::from(u32::from(c)))),
        None => Err(ValueFault::BadText),
    }
}
