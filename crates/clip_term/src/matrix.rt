// The weights of GeneralConvolution, read from a text.
ghost use Rattle.std.specs.Prelude.{◌≡◌, ◌≤◌, IsTrue, IfSome, ◌&&◌, ◌||◌, ◌==◌, min, true, is_some, None, Some, Err, IfOk};
ghost use Rattle.std.specs.Char.{is_ascii_digit};
ghost use Rattle.std.specs.List.{list_all};
ghost use Rattle.clip_term.specs.Filters.{digits_of, entry_of, is_gap, matrix_named, weight_of};
ghost use Rattle.clip_term.specs.Refusals.{is_matrix, is_weight};
ghost use Rattle.clip_term.specs.declared.matrix.MatrixFault.TheVariants.{BadText, Memory};

use crate::arguments::is_weight;
use crate::numbers::Numbers;
use crate::op::Matrix;
use arrayvec::ArrayVec;
use std::alloc::Global;

/// Why a text gives no matrix.
#[derive(Clone, Copy, Debug, PartialEq, Eq)]
pub enum MatrixFault {
    /// The text is not 9 or 25 whole numbers from -1,024 to 1,024 between blanks.
    BadText,
    /// Out of memory.
    Memory,
}

fn is_gap(byte: u8) -> bool
    ensures { result ≡ is_gap byte }
{
    byte == b' ' || byte == b'\t' || byte == b'\n'
}

fn are_digits(digits: &[u8]) -> bool
    ensures { result ≡ list_all is_ascii_digit digits.now }
{
    digits.iter().all(|digit| digit.is_ascii_digit())
}

// The number that decimal digits write, and 1,025 where it is greater.
fn digits_of(digits: &[u8]) -> u32
    ensures { result ≡ min (digits_of digits.now) 1025 }
{
    let mut number = 0;
    for digit in digits {
        number = (number * 10 + digit.saturating_sub(b'0') as u32).min(1025);
    }
    number
}

// A number of up to 1,024.
fn weight_of(digits: &[u8]) -> Option<u32>
    ensures weight { result ≡ weight_of digits.now }
    ensures small { IfSome result (λ weight. weight ≤ 1024) }
{
    let number = digits_of(digits);
    if !digits.is_empty() && are_digits(digits) && is_weight(number as i32) {
        Some(number)
    } else {
        None
    }
}

// The number that a word is.
fn entry_of(word: &[u8]) -> Option<i32>
    ensures entry { result ≡ entry_of word.now }
    ensures small { IfSome result (λ entry. IsTrue (is_weight entry)) }
{
    match word {
        [b'-', digits @ ..] => match weight_of(digits) {
            Some(weight) => Some(-(weight as i32)),
            None => None,
        },
        _ => match weight_of(word) {
            Some(weight) => Some(weight as i32),
            None => None,
        },
    }
}

// Whether entries, as many as these, are a matrix.
fn is_square(are_entries: bool, count: usize) -> bool
    ensures { result ≡ (are_entries && (count == 9 || count == 25)) }
{
    are_entries && (count == 9 || count == 25)
}

/// The matrix that a text writes: 9 or 25 whole numbers between spaces, tabs and newlines. Memory runs out only where it writes
/// one.
pub fn read_matrix(alloc: Global, text: &str) -> Result<Matrix, MatrixFault>
    ensures read { IfOk result (λ matrix. matrix_named text.now ≡ Some matrix.entries) }
    ensures sound { IfOk result (λ matrix. IsTrue (is_matrix matrix.entries)) }
    ensures bad_text { result ≡ Err BadText → matrix_named text.now ≡ None }
    ensures memory { result ≡ Err Memory → is_some (matrix_named text.now) ≡ true }
{
    let mut entries = ArrayVec::<i32, 25>::new();
    let mut are_entries = true;
    for word in text.as_bytes().split(|byte| is_gap(*byte)) {
        match entry_of(word) {
            Some(entry) => are_entries &= entries.try_push(entry).is_ok(),
            None => are_entries &= word.is_empty(),
        }
    }
    let count = entries.len();
    if !is_square(are_entries, count) {
        return Err(MatrixFault::BadText);
    }
    match entries.as_slice().to_vec(alloc) {
        Ok(items) => Ok(Matrix {
            entries: Numbers::from_vec(items),
        }),
        Err(_) => Err(MatrixFault::Memory),
    }
}
