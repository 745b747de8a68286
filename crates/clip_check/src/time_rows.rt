// The tests and lengths of the group Time.
ghost use Rattle.std.specs.Prelude.{◌≡◌, ◌∷◌, [], ◌||◌, ◌<◌, ◌≤◌, ◌-◌, ◌*◌, ◌+◌, ◌/◌, length, min, not, ◌+ℤ◌, pos, ◌^◌};
ghost use Rattle.std.specs.List.{list_any};
ghost use Rattle.fv_plane.specs.Refusals.{first_fault};
ghost use Rattle.clip_term.specs.declared.fault.FilterFault.TheVariants.{BadRange, EmptyClip};
ghost use Rattle.clip_term.specs.Refusals.{nat_of, below};
ghost use Rattle.clip_term.specs.Time.{last_of, bad_bound, bad_part, bad_loop, bad_freeze, bad_rate, any_outside, part_length, loop_length, steps_behind, every_length, is_named, different};

use clip_term::{FilterFault, TrimBound};

// TESTS

fn below(number: i32, end: u32) -> bool
    ensures { result ≡ below number end }
{
    (number as i64) < end as i64
}

fn bad_bound(bound: TrimBound, first: i32) -> bool
    ensures { result ≡ bad_bound bound first }
{
    match bound {
        TrimBound::Last(last) => 0 < last && last < first,
        TrimBound::Length(length) => length < 0,
        TrimBound::End(end) => end < first,
    }
}

/// Whether `Trim` begins outside of the clip or ends before it begins.
pub fn bad_trim(first: i32, bound: TrimBound, frames: u32) -> bool
    ensures { result ≡ (below first 0 || not (below first frames) || bad_bound bound first) }
{
    first < 0 || !below(first, frames) || bad_bound(bound, first)
}

/// Not 0 <= first <= last < end.
pub fn bad_part(first: i32, last: i32, end: u32) -> bool
    ensures { result ≡ bad_part first last end }
{
    first < 0 || last < first || !below(last, end)
}

pub fn bad_loop(times: i32, start: i32, end: i32, frames: u32) -> bool
    ensures { result ≡ bad_loop times start end frames }
{
    times < 0 || bad_part(start, end, frames)
}

pub fn bad_freeze(first: i32, last: i32, source: i32, frames: u32) -> bool
    ensures { result ≡ bad_freeze first last source frames }
{
    first < 0 || last < first || source < 0 || !below(source, frames)
}

pub fn bad_rate(num: i32, denominator: i32) -> bool
    ensures { result ≡ bad_rate num denominator }
{
    num < 1 || denominator < 1
}

pub fn any_outside(numbers: &[i32], end: u32) -> bool
    ensures { result ≡ any_outside numbers.now end }
{
    numbers
        .iter()
        .any(|number| *number < 0 || *number as i64 >= end as i64)
}

/// Whether the step is below 1 or an offset is below 0.
pub fn bad_every(step: i32, offsets: &[i32]) -> bool
    ensures { result ≡ (below step 1 || list_any (λ o. below o 0) offsets.now) }
{
    step < 1 || any_negative(offsets)
}

fn any_negative(numbers: &[i32]) -> bool
    ensures { result ≡ list_any (λ o. below o 0) numbers.now }
{
    numbers.iter().any(|number| *number < 0)
}

/// Whether an offset is not in the clip.
pub fn any_past(numbers: &[i32], end: u32) -> bool
    ensures { result ≡ list_any (λ o. not (below o end)) numbers.now }
{
    numbers.iter().any(|number| *number as i64 >= end as i64)
}

/// The refusals of `SelectEvery` in order.
pub fn every_fault(bad: bool, past: bool) -> Option<FilterFault>
    ensures { result ≡ first_fault ((BadRange, bad) ∷ (EmptyClip, past) ∷ []) }
{
    if bad {
        Some(FilterFault::BadRange)
    } else if past {
        Some(FilterFault::EmptyClip)
    } else {
        None
    }
}

// LENGTHS, for all numbers, as in the definitions

fn last_of(bound: TrimBound, first: i32, frames: u32) -> i64
    ensures { result ≡ last_of bound first frames }
{
    match bound {
        TrimBound::Last(last) => {
            if last > 0 {
                last as i64
            } else if last < 0 {
                first as i64 - last as i64 - 1
            } else {
                frames.saturating_sub(1) as i64
            }
        }
        TrimBound::Length(length) => first as i64 + length as i64 - 1,
        TrimBound::End(end) => end as i64,
    }
}

pub fn trim_length(first: i32, bound: TrimBound, frames: u32) -> u64
    ensures { result ≡ min (nat_of (last_of bound first frames +ℤ pos 1)) frames - nat_of first }
{
    let end = (last_of(bound, first, frames) as i128 + 1).unsigned_abs();
    (end.min(frames as u128) as u64).saturating_sub(first.unsigned_abs() as u64)
}

// The frames after the offset, divided by the step. A step of 0 is refused before.
fn steps_behind(frames: u32, step: u32, offset: i32) -> u32
    ensures { result ≡ steps_behind frames step offset }
{
    let after = frames
        .saturating_sub(1)
        .saturating_sub(offset.unsigned_abs());
    after.checked_div(step).unwrap_or(0)
}

pub fn every_length(frames: u32, step: u32, offsets: &[i32]) -> u128
    ensures { result ≡ every_length frames step (length offsets.now) 0 offsets.now }
{
    let count = offsets.len() as u128;
    let mut longest: u128 = 0;
    for (i, offset) in offsets.iter().enumerate() {
        longest = longest.max(steps_behind(frames, step, *offset) as u128 * count + i as u128 + 1);
    }
    longest
}

fn part_length(start: i32, end: i32) -> u64
    ensures long { result ≡ part_length start end }
    ensures few { result < 2 ^ 32 }
{
    (end.unsigned_abs() as u64 + 1).saturating_sub(start.unsigned_abs() as u64)
}

/// The frames of a loop: the part once for each time, in place of the part itself.
pub fn loop_length(frames: u32, times: i32, start: i32, end: i32) -> u128
    ensures { result ≡ loop_length frames (nat_of times) (part_length start end) }
{
    let part = part_length(start, end) as u128;
    (frames as u128 + times.unsigned_abs() as u128 * part).saturating_sub(part)
}

fn is_named(numbers: &[i32], number: u32) -> bool
    ensures { result ≡ is_named numbers.now number }
{
    numbers.iter().any(|other| other.unsigned_abs() == number)
}

/// How many numbers the list has, each counted once.
pub fn different(numbers: &[i32]) -> usize
    ensures count { result ≡ different numbers.now }
    ensures few { result ≤ length numbers.now }
{
    let mut count = 0;
    let mut rest = numbers;
    while let Some((number, later)) = rest.split_first() {
        if !is_named(later, number.unsigned_abs()) {
            count += 1;
        }
        rest = later;
    }
    count
}

/// The frames of a clip at another rate: `frames` times `more`, over `less`, rounded up.
pub fn scaled_length(frames: u32, less: u64, more: u64) -> u128
    requires more { more < 2 ^ 63 }
    ensures { result ≡ (frames * more + less - 1) / less }
{
    let total = (frames as u128 * more as u128 + less as u128).saturating_sub(1);
    total.checked_div(less as u128).unwrap_or(0)
}
