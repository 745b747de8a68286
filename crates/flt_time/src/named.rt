// The filters that name frames in a list. The list need not be in order, and a number may stand in it twice.
ghost use Rattle.std.specs.Prelude.{◌≡◌, ◌<◌, ◌≤◌, ◌^◌, length, slice_index, MatchOption, IfSome};
ghost use Rattle.clip_term.specs.Time.{duplicated, kept, mentions};
ghost use Rattle.flt_time.specs.Named.{IsNext, NoneFrom};

// How often the list names a number.
fn mentions(frames: &[i32], number: u32) -> u64
    ensures { result ≡ mentions frames.now number }
{
    frames.iter().filter(|f| f.unsigned_abs() == number).count() as u64
}

// The least named number from low on.
fn next_named(frames: &[i32], low: u32) -> Option<u32>
    ensures next { MatchOption result (NoneFrom frames.now low) (λ f. IsNext frames.now low f) }
    ensures small { IfSome result (λ f. f ≤ 2 ^ 31) }
{
    let mut next: Option<u32> = None;
    for frame in frames.iter() {
        let number = frame.unsigned_abs();
        if number >= low && next.is_none_or(|least| number < least) {
            next = Some(number);
        }
    }
    next
}

// `DeleteFrame`. Each named number, from the least on, that is no greater than the frame's moves it on by one.
pub(crate) fn kept_number(frames: &[i32], count: u32, n: u32) -> u64
    requires shown { n < length (kept frames.now count) }
    ensures { result ≡ slice_index (kept frames.now count) n }
{
    let mut number = n as u64;
    let mut low: u32 = 0;
    while let Some(named) = next_named(frames, low) {
        if named as u64 > number {
            break;
        }
        number += 1;
        low = named + 1;
    }
    number
}

// `DuplicateFrame`. Each named number, from the least on, moves the frame back by its copies that come before.
pub(crate) fn duplicated_number(frames: &[i32], count: u32, n: u32) -> u64
    requires shown { n < length (duplicated frames.now count) }
    ensures { result ≡ slice_index (duplicated frames.now count) n }
{
    let mut number = n as u64;
    let mut low: u32 = 0;
    while let Some(named) = next_named(frames, low) {
        if named as u64 >= number {
            break;
        }
        let more = mentions(frames, named);
        if number <= named as u64 + more {
            return named as u64;
        }
        number -= more;
        low = named + 1;
    }
    number
}
