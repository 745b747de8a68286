// Division of numbers of 31 bits by a multiplication and a shift, which the compiler turns into vector instructions.
ghost use Rattle.std.specs.Prelude.{◌≡◌, ◌*◌, ◌/◌, ◌^◌, ◌<◌, ◌≤◌, int_div, unsigned_abs};
ghost use Rattle.flt_rows.specs.Rows.{IsReciprocal, IsWithin};

/// What a number is multiplied by, and how many bits are then left out, in place of a division.
#[derive(Clone, Copy)]
pub struct Reciprocal {
    pub factor: u32,
    pub bits: u32,
}

// The reciprocal of a divisor beside a power of 2.
fn reciprocal_at(divisor: u32, bits: u32) -> Reciprocal
    requires some { 0 < divisor }
    requires few { bits ≤ 15 }
    requires below { divisor ≤ 2 ^ bits }
    requires above { 2 ^ bits < 2 * divisor }
    ensures { IsReciprocal divisor result.factor result.bits }
{
    let factor = ((1u64 << (31 + bits)) + divisor as u64 - 1) / divisor as u64;
    Reciprocal {
        factor: factor as u32,
        bits: 31 + bits,
    }
}

// The reciprocal of a divisor of more than 128.
fn reciprocal_of_many(divisor: u32) -> Reciprocal
    requires many { 128 < divisor }
    requires small { divisor ≤ 25600 }
    ensures { IsReciprocal divisor result.factor result.bits }
{
    if divisor <= 256 {
        reciprocal_at(divisor, 8)
    } else if divisor <= 512 {
        reciprocal_at(divisor, 9)
    } else if divisor <= 1024 {
        reciprocal_at(divisor, 10)
    } else if divisor <= 2048 {
        reciprocal_at(divisor, 11)
    } else if divisor <= 4096 {
        reciprocal_at(divisor, 12)
    } else if divisor <= 8192 {
        reciprocal_at(divisor, 13)
    } else if divisor <= 16384 {
        reciprocal_at(divisor, 14)
    } else {
        reciprocal_at(divisor, 15)
    }
}

/// The reciprocal of a divisor.
pub fn reciprocal_of(divisor: u32) -> Reciprocal
    requires some { 0 < divisor }
    requires small { divisor ≤ 25600 }
    ensures { IsReciprocal divisor result.factor result.bits }
{
    if divisor == 1 {
        reciprocal_at(divisor, 0)
    } else if divisor == 2 {
        reciprocal_at(divisor, 1)
    } else if divisor <= 4 {
        reciprocal_at(divisor, 2)
    } else if divisor <= 8 {
        reciprocal_at(divisor, 3)
    } else if divisor <= 16 {
        reciprocal_at(divisor, 4)
    } else if divisor <= 32 {
        reciprocal_at(divisor, 5)
    } else if divisor <= 64 {
        reciprocal_at(divisor, 6)
    } else if divisor <= 128 {
        reciprocal_at(divisor, 7)
    } else {
        reciprocal_of_many(divisor)
    }
}

/// A quotient, for numbers below 2^31.
pub fn divide(n: u32, divisor: u32, by: Reciprocal) -> u32
    requires by { IsReciprocal divisor by.factor by.bits }
    requires small { n < 2 ^ 31 }
    ensures { result ≡ n / divisor }
{
    ((n as u64 * by.factor as u64) >> by.bits) as u32
}

/// The same for signed numbers, rounded towards 0.
pub fn divide_signed(n: i32, divisor: i32, by: Reciprocal) -> i32
    requires by { IsReciprocal (unsigned_abs divisor) by.factor by.bits }
    requires size { IsWithin 1677696000 n }
    ensures value { result ≡ int_div n divisor }
    ensures size { IsWithin 1677696000 result }
{
    let size = divide(n.unsigned_abs(), divisor.unsigned_abs(), by) as i32;
    if (n < 0) == (divisor < 0) {
        size
    } else {
        -size
    }
}
