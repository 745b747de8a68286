// Numbers among the words of the command line, within their bounds.
ghost use Rattle.std.specs.Prelude.{◌≡◌};
ghost use Rattle.std.specs.Char.{is_ascii_digit};
ghost use Rattle.std.specs.List.{list_all};
ghost use Rattle.command_line.specs.Command.{is_number, in_range, number_in, number_among};
ghost use Rattle.command_line.specs.Parser.{texts_of};

// Whether all bytes are decimal digits.
fn are_digits(bytes: &[u8]) -> bool
    ensures { result ≡ list_all is_ascii_digit bytes.now }
{
    bytes.iter().all(|byte| byte.is_ascii_digit())
}

// Whether the word is 1 to 10 decimal digits.
fn is_number(word: &str) -> bool
    ensures { result ≡ is_number word.now }
{
    0 < word.len() && word.len() <= 10 && are_digits(word.as_bytes())
}

// The number, where it is from `least` to `most`.
fn in_range(least: u32, most: u32, number: u32) -> Option<u32>
    ensures { result ≡ in_range least most number }
{
    if least <= number && number <= most {
        Some(number)
    } else {
        None
    }
}

/// The number that a word of 1 to 10 decimal digits says, where it is from `least` to `most`.
pub(crate) fn number_in(least: u32, most: u32, word: &str) -> Option<u32>
    ensures { result ≡ number_in least most word.now }
{
    if !is_number(word) {
        return None;
    }
    match word.parse::<u32>() {
        Ok(number) => in_range(least, most, number),
        Err(_) => None,
    }
}

/// The number that an option has, where it was given. None comes where it was given twice, or with a value that is no
/// such number.
pub(crate) fn number_among(least: u32, most: u32, values: Option<&[&str]>) -> Option<Option<u32>>
    ensures { result ≡ number_among least most (texts_of values.entry) }
{
    match values {
        None | Some([]) => Some(None),
        Some([value]) => match number_in(least, most, value) {
            Some(number) => Some(Some(number)),
            None => None,
        },
        Some(_) => None,
    }
}
