// The filters that count, each as a function of its numbers.
ghost use Rattle.std.specs.Prelude.{◌≡◌, ◌+◌, ◌*◌, ◌/◌, ◌<◌, length, if◌then◌else◌};
ghost use Rattle.clip_term.specs.Refusals.{nat_of};
ghost use Rattle.clip_term.specs.Time.{every_number, is_between, looped, part_length, spliced};
ghost use Rattle.clip_term.specs.Terms.{AreLawful};

use clip_term::Origin;
use fv_plane::Info;

pub(crate) fn is_between(first: i32, last: i32, n: u32) -> bool
    ensures { result ≡ is_between first last n }
{
    first.unsigned_abs() <= n && n <= last.unsigned_abs()
}

// `Trim`
pub(crate) fn trim_number(first: i32, n: u32) -> u64
    ensures { result ≡ nat_of first + n }
{
    first.unsigned_abs() as u64 + n as u64
}

// `FreezeFrame`
pub(crate) fn frozen_number(first: i32, last: i32, source: i32, n: u32) -> u32
    ensures { result ≡ (if is_between first last n then nat_of source else n) }
{
    if is_between(first, last, n) {
        source.unsigned_abs()
    } else {
        n
    }
}

// `SelectEvery`
pub(crate) fn every_number(frames: u32, step: i32, offsets: &[i32], n: u32) -> u64
    requires step { 0 < nat_of step }
    requires some { 0 < length offsets.now }
    ensures { result ≡ every_number frames (nat_of step) offsets.now n }
{
    let count = offsets.len() as u64;
    let step = step.unsigned_abs();
    let offset = offsets[(n as u64 % count) as usize].unsigned_abs();
    let behind = frames.saturating_sub(1).saturating_sub(offset) / step;
    let turn = (n as u64 / count).min(behind as u64);
    offset as u64 + turn * step as u64
}

// `UnalignedSplice`, `AlignedSplice`
pub(crate) fn spliced(infos: &[Info], n: u32) -> Origin
    requires some { 0 < length infos.now }
    requires lawful { AreLawful infos.now }
    ensures { result ≡ spliced 0 infos.now n }
{
    let mut input: u32 = 0;
    let mut number = n;
    while input as usize + 1 < infos.len() && number >= infos[input as usize].frames {
        number -= infos[input as usize].frames;
        input += 1;
    }
    Origin { input, number }
}

// The length of the part that `Loop` repeats.
fn part_length(start: i32, end: i32) -> u64
    ensures { result ≡ part_length start end }
{
    (end.unsigned_abs() as u64 + 1).saturating_sub(start.unsigned_abs() as u64)
}

// `Loop`
pub(crate) fn looped(times: i32, start: i32, end: i32, n: u32) -> u64
    ensures { result ≡ looped (nat_of times) (nat_of start) (part_length start end) n }
{
    let long = part_length(start, end);
    let all = times.unsigned_abs() as u64 * long;
    let start = start.unsigned_abs() as u64;
    let n = n as u64;
    if n < start {
        n
    } else if n < start + all {
        start + (n - start) % long
    } else {
        (n + long).saturating_sub(all)
    }
}

// `ChangeFPS`
pub(crate) fn changed_number(c: &Info, num: i32, denominator: i32, n: u32) -> u128
    requires den { 0 < c.now.den }
    requires num { 0 < nat_of num }
    ensures { result ≡ n * (c.now.num * nat_of denominator) / (c.now.den * nat_of num) }
{
    let a = c.num as u128 * denominator.unsigned_abs() as u128;
    let b = c.den as u128 * num.unsigned_abs() as u128;
    n as u128 * a / b
}
