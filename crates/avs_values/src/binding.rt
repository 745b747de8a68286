// The binding of arguments to parameters.
ghost use Rattle.std.specs.Prelude.{◌≡◌, ◌<◌, length, Some, None, IfOk, IfSome, option_map, if◌then◌else◌};
ghost use Rattle.avs_values.specs.Binding as b;
ghost use Rattle.avs_values.specs.Binding.{Suits};
ghost use Rattle.avs_values.specs.Views.{bound_view, signature_view};

use crate::{Kind, Param, Signature, Value};
use fv_io::Text;
use std::alloc::{AllocError, Global};
use std::marker::Model;

/// An argument of a call, with the name that it is given by, if any.
#[derive(Drop)]
pub struct Given {
    pub name: Option<Text>,
    pub value: Value,
}

/// The value of each parameter, `Undefined` where it was not given, and the values of the rest.
#[derive(Drop)]
pub struct Bound {
    pub values: Vec<Value>,
    pub rest: Vec<Value>,
}

// What was given so far to each parameter and to the rest, and how many arguments had no name.
#[derive(Drop)]
struct Received {
    slots: Vec<Option<Value>>,
    rest: Vec<Value>,
    unnamed: usize,
}

impl Model for Received {
    ghost use Rattle.avs_values.specs.Binding as b;

    ghost Value = { b.Received };

    ghost view = { λ r. record { slots = r.slots.items; rest = r.rest.items; unnamed = r.unnamed } };
}

fn is_named(param: &Param, name: &str) -> bool
    ensures { result ≡ b.is_named name.now param.now }
{
    param.optional && name.eq_ignore_ascii_case(param.name.as_str())
}

fn is_given(param: &Param, slot: &Option<Value>) -> bool
    ensures { result ≡ b.is_given param.now slot.now }
{
    param.optional || slot.is_some()
}

// The place of the first optional parameter of a name.
fn place_of(params: &[Param], name: &str) -> Option<usize>
    ensures { result ≡ b.place_of name.now 0 params.now }
{
    for (k, param) in params.iter().enumerate() {
        if is_named(param, name) {
            return Some(k);
        }
    }
    None
}

impl Received {
    fn new(alloc: Global, params: usize) -> Result<Received, AllocError>
        ensures { IfOk result (λ made. made ≡ b.nothing params) }
    {
        let mut slots = Vec::new(alloc);
        for _param in 0..params {
            slots.push(None)?;
        }
        Ok(Received {
            slots,
            rest: Vec::new(alloc),
            unnamed: 0,
        })
    }

    // Gives a value to the parameter at a place. The answer is whether it fits.
    fn give(
        &mut self,
        alloc: Global,
        param: &Param,
        place: usize,
        value: &Value,
    ) -> Result<bool, AllocError>
        requires { place < length self.old.slots }
        ensures given { IfOk result (λ fits.
            b.give param.now place value.now self.old ≡ (if fits then Some self.new else None)) }
        ensures len { length self.new.slots ≡ length self.old.slots }
    {
        if param.optional && value.is_undefined() {
            return Ok(true);
        }
        if self.slots[place].is_some() || !value.has_kind(param.kind) {
            return Ok(false);
        }
        self.slots[place] = Some(value.try_clone(alloc)?);
        Ok(true)
    }

    fn give_rest(
        &mut self,
        alloc: Global,
        kind: Option<Kind>,
        value: &Value,
    ) -> Result<bool, AllocError>
        ensures given { IfOk result (λ fits.
            b.give_rest kind value.now self.old ≡ (if fits then Some self.new else None)) }
        ensures len { length self.new.slots ≡ length self.old.slots }
    {
        let Some(kind) = kind else {
            return Ok(false);
        };
        if !value.has_kind(kind) {
            return Ok(false);
        }
        self.rest.push(value.try_clone(alloc)?)?;
        Ok(true)
    }

    // Takes one more argument. The answer is whether it fits.
    fn receive(
        &mut self,
        alloc: Global,
        signature: &Signature,
        arg: &Given,
    ) -> Result<bool, AllocError>
        requires { length self.old.slots ≡ length signature.now.params.items }
        ensures received { IfOk result (λ fits.
            b.receive (signature_view signature.now) arg.now self.old ≡ (if fits then Some self.new else None)) }
        ensures len { length self.new.slots ≡ length self.old.slots }
    {
        if let Some(name) = &arg.name {
            let Some(place) = place_of(&signature.params, name.as_str()) else {
                return Ok(false);
            };
            return match signature.params.get(place) {
                Some(param) => self.give(alloc, param, place, &arg.value),
                None => Ok(false),
            };
        }
        let place = self.unnamed;
        match signature.params.get(place) {
            Some(param) => {
                self.unnamed = place + 1;
                self.give(alloc, param, place, &arg.value)
            }
            None => self.give_rest(alloc, signature.rest, &arg.value),
        }
    }

    // Whether each required parameter was given.
    fn all_given(&self, params: &[Param]) -> bool
        requires { length self.now.slots ≡ length params.now }
        ensures { result ≡ b.all_given params.now self.now.slots }
    {
        for k in 0..params.len() {
            if !is_given(&params[k], &self.slots[k]) {
                return false;
            }
        }
        true
    }

    fn finish(self, alloc: Global, signature: &Signature) -> Result<Option<Bound>, AllocError>
        requires { length self.slots ≡ length signature.now.params.items }
        ensures { IfOk result (λ o. option_map bound_view o ≡ b.finished (signature_view signature.now) self) }
    {
        if !self.all_given(&signature.params) || self.rest.len() < signature.least as usize {
            return Ok(None);
        }
        let mut values = Vec::with_capacity(alloc, self.slots.len())?;
        for slot in self.slots {
            values.push(slot.unwrap_or(Value::Undefined))?;
        }
        Ok(Some(Bound {
            values,
            rest: self.rest,
        }))
    }
}

/// Binds the arguments of a call to the parameters, or answers `None` where they don't fit. The `i`-th argument without a
/// name goes to the `i`-th parameter or, after the last one, to the rest; one with a name goes to the optional parameter of
/// that name, without regard to case. An `Err` means out of memory.
#[tactic(auto, unfolding(crate::specs::Binding::bind))]
pub fn bind(
    alloc: Global,
    signature: &Signature,
    args: &[Given],
) -> Result<Option<Bound>, AllocError>
    ensures bound { IfOk result (λ o. option_map bound_view o ≡ b.bind (signature_view signature.now) args.now) }
    ensures kinds { IfOk result (λ o. IfSome o (λ bound. Suits (signature_view signature.now) (bound_view bound))) }
{
    let mut received = Received::new(alloc, signature.params.len())?;
    for arg in args {
        if !received.receive(alloc, signature, arg)? {
            return Ok(None);
        }
    }
    received.finish(alloc, signature)
}
