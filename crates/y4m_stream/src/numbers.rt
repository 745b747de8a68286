// Numbers and ratios in the parameters of a stream's head.
ghost use Rattle.std.specs.Prelude.{◌≡◌, ◌<◌, ◌^◌, length, IfSome};
ghost use Rattle.std.specs.Char.{is_ascii_digit};
ghost use Rattle.std.specs.List.{list_all, position, before_first, after_first};
ghost use Rattle.fv_plane.specs.Info.{IsRate};
ghost use Rattle.y4m_stream.specs.Head.{number, is_colon, ratio_in, lowest};

/// The greatest number.
const MAX_NUMBER: u32 = 2_147_483_647;
/// The most digits.
const MAX_DIGITS: usize = 10;

fn are_digits(text: &[u8]) -> bool
    ensures { result ≡ list_all is_ascii_digit text.now }
{
    text.iter().all(|byte| byte.is_ascii_digit())
}

/// The number that 1 to 10 decimal digits write, up to 2,147,483,647.
pub(crate) fn number(digits: &[u8]) -> Option<u32>
    ensures number { result ≡ number digits.now }
    ensures small { IfSome result (λ n. n < 2 ^ 31) }
{
    if digits.len() > MAX_DIGITS || !are_digits(digits) {
        return None;
    }
    let Ok(text) = std::str::from_utf8(digits) else {
        return None;
    };
    let Ok(n) = text.parse::<u32>() else {
        return None;
    };
    if n <= MAX_NUMBER { Some(n) } else { None }
}

fn first_colon(text: &[u8]) -> Option<usize>
    ensures colon { result ≡ position is_colon text.now }
    ensures inside { IfSome result (λ colon. colon < length text.now) }
{
    text.iter().position(|byte| *byte == b':')
}

// The bytes before the first colon, and those after it.
fn around_colon(text: &[u8]) -> (&[u8], &[u8])
    ensures front { result.0.now ≡ before_first is_colon text.now }
    ensures back { result.1.now ≡ after_first is_colon text.now }
{
    match first_colon(text) {
        Some(colon) => (&text[..colon], &text[colon + 1..]),
        None => (text, &[]),
    }
}

/// Two numbers around a colon.
pub(crate) fn ratio(text: &[u8]) -> Option<(u32, u32)>
    ensures ratio { result ≡ ratio_in text.now }
    ensures small { IfSome result (λ r. (r.0 < 2 ^ 31) × (r.1 < 2 ^ 31)) }
{
    let (num, den) = around_colon(text);
    number(num).zip(number(den))
}

/// A rate in lowest terms. `0:0` means 25:1. The answer is None where only one part is 0.
pub(crate) fn lowest(num: u32, den: u32) -> Option<(u32, u32)>
    requires num { num < 2 ^ 31 }
    requires den { den < 2 ^ 31 }
    ensures lowest { result ≡ lowest (num, den) }
    ensures rate { IfSome result (λ rate. IsRate rate.0 rate.1) }
{
    match (num, den) {
        (0, 0) => Some((25, 1)),
        (0, _) | (_, 0) => None,
        _ => {
            let (num, den) = fv_plane::lowest(num as u128, den as u128);
            Some((num as u32, den as u32))
        }
    }
}
