// Classes of characters: letters, digits, blanks.
ghost use Rattle.std.specs.Prelude.{◌≡◌};
ghost use Rattle.avs_lex.specs.Spelling as c;

/// Whether the character is a space, a tab or a carriage return.
pub fn is_blank(byte: u8) -> bool
    ensures { result ≡ c.is_blank byte }
{
    matches!(byte, b' ' | b'\t' | b'\r')
}

/// Whether a name may begin with the character: a letter or `_`.
pub fn begins_name(byte: u8) -> bool
    ensures { result ≡ c.begins_name byte }
{
    byte.is_ascii_alphabetic() || byte == b'_'
}

/// Whether a name may go on with the character: a letter, a digit or `_`.
pub fn continues_name(byte: u8) -> bool
    ensures { result ≡ c.continues_name byte }
{
    byte.is_ascii_alphanumeric() || byte == b'_'
}
