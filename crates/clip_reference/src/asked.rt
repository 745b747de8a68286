// The frames that an op asks.
ghost use Rattle.std.specs.Prelude.{◌≡◌, ◌<◌, ◌+◌, ◌-◌, ◌*◌, [], ◌∷◌, length, map, IfOk, IsOkAnd};
ghost use Rattle.std.specs.List.{range_with_len};
ghost use Rattle.fv_plane.specs.declared.format.Info.{Info};
ghost use Rattle.clip_term.specs.Terms.{act_of, AreLawful, IsSound, asked, check};
ghost use Rattle.clip_term.specs.Time.{from_input, in_range, field_asked};
ghost use Rattle.clip_term.specs.Soft.{soft_asked};

use clip_term::{FieldOp, Op, Origin, SoftOp};
use flt_time::source_number;
use fv_plane::Info;
use std::alloc::{AllocError, Global};

/// The frames that the op asks for frame `n`, in order. An `Err` is out of memory, or more clips than can be numbered.
pub fn asked(alloc: Global, op: &Op, infos: &[Info], n: u32) -> Result<Vec<Origin>, AllocError>
    requires sound { IsSound (act_of op.now) (length infos.now) }
    requires lawful { AreLawful infos.now }
    requires shown { IsOkAnd (check (act_of op.now) infos.now) (λ (info : Info). n < info.frames) }
    ensures { IfOk result (λ origins. origins.items ≡ asked (act_of op.now) infos.now n) }
{
    match op {
        Op::Source { .. } | Op::Blank { .. } => Ok(Vec::new(alloc)),
        Op::Time(op) => one(alloc, source_number(op, infos, n)),
        Op::Space(_) => one(alloc, in_range(infos, 0, n as u64)),
        Op::Join(_) | Op::Run(_) => one_of_each(alloc, infos, n),
        Op::Soft(op) => neighbours(alloc, op, infos, n),
        Op::Field(op) => fields(alloc, op, infos, n),
    }
}

fn one(alloc: Global, origin: Origin) -> Result<Vec<Origin>, AllocError>
    ensures { IfOk result (λ origins. origins.items ≡ origin ∷ []) }
{
    let mut origins = Vec::new(alloc);
    origins.push(origin)?;
    Ok(origins)
}

// A frame of an input, by a number that may be past its last.
fn in_range(infos: &[Info], input: u32, number: u64) -> Origin
    requires { input < length infos.now }
    ensures { result ≡ in_range infos.now (from_input input number) }
{
    let last = infos[input as usize].frames.saturating_sub(1);
    Origin {
        input,
        number: number.min(last as u64) as u32,
    }
}

fn one_of_each(alloc: Global, infos: &[Info], n: u32) -> Result<Vec<Origin>, AllocError>
    ensures { IfOk result (λ origins. origins.items
        ≡ map (λ i. in_range infos.now (from_input i n)) (range_with_len 0 (length infos.now))) }
{
    let Ok(count) = u32::try_from(infos.len()) else {
        return Err(AllocError);
    };
    let mut origins = Vec::new(alloc);
    for i in 0..count {
        origins.push(in_range(infos, i, n as u64))?;
    }
    Ok(origins)
}

// The frames of the clip that a filter on fields takes apart or puts together.
fn fields(alloc: Global, op: &FieldOp, infos: &[Info], n: u32) -> Result<Vec<Origin>, AllocError>
    requires { 0 < length infos.now }
    ensures { IfOk result (λ origins. origins.items ≡ field_asked op.now infos.now n) }
{
    match op {
        FieldOp::SeparateFields => one(alloc, in_range(infos, 0, n as u64 / 2)),
        FieldOp::Weave => {
            let mut origins = one(alloc, in_range(infos, 0, 2 * n as u64))?;
            origins.push(in_range(infos, 0, 2 * n as u64 + 1))?;
            Ok(origins)
        }
        FieldOp::SwapFields | FieldOp::AssumeTFF | FieldOp::AssumeBFF | FieldOp::ComplementParity =>
            one(alloc, in_range(infos, 0, n as u64)),
    }
}

fn neighbours(alloc: Global, op: &SoftOp, infos: &[Info], n: u32) -> Result<Vec<Origin>, AllocError>
    requires { 0 < length infos.now }
    ensures { IfOk result (λ origins. origins.items ≡ soft_asked op.now infos.now n) }
{
    match op {
        SoftOp::TemporalSoften { radius, .. } => around(alloc, infos, n, radius.unsigned_abs()),
        SoftOp::GeneralConvolution { .. } => one(alloc, in_range(infos, 0, n as u64)),
    }
}

// The frames from `radius` before `n` to `radius` after it.
fn around(alloc: Global, infos: &[Info], n: u32, radius: u32) -> Result<Vec<Origin>, AllocError>
    requires { 0 < length infos.now }
    ensures { IfOk result (λ origins. origins.items
        ≡ map (λ k. in_range infos.now (from_input 0 (n + k - radius))) (range_with_len 0 (2 * radius + 1))) }
{
    let mut origins = Vec::new(alloc);
    for k in 0..2 * radius as u64 + 1 {
        let number = (n as u64 + k).saturating_sub(radius as u64);
        origins.push(in_range(infos, 0, number))?;
    }
    Ok(origins)
}
