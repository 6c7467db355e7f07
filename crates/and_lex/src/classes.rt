//! Sorts of bytes, and how many of a sort stand at the front.

ghost use Rattle.std.specs.Prelude.{◌≡◌, ◌≤◌, length};
ghost use Rattle.std.specs.List.{prefix_len};
ghost use Rattle.and_model.specs.Lines.{is_small, is_word, is_symbol};
ghost use Rattle.and_language.specs.Tokens.{is_layout, is_capital, is_digit, is_impure_character};
ghost use Rattle.and_lex.specs.Scanning.{is_no_newline};

pub(crate) fn is_layout_byte(byte: u8) -> bool
    ensures { result ≡ is_layout byte }
{
    matches!(byte, b' ' | b'\t' | b'\n' | b'\r')
}

pub(crate) fn is_small_byte(byte: u8) -> bool
    ensures { result ≡ is_small byte }
{
    byte.is_ascii_lowercase()
}

pub(crate) fn is_capital_byte(byte: u8) -> bool
    ensures { result ≡ is_capital byte }
{
    byte.is_ascii_uppercase() || byte == b'_'
}

pub(crate) fn is_digit_byte(byte: u8) -> bool
    ensures { result ≡ is_digit byte }
{
    byte.is_ascii_digit()
}

pub(crate) fn is_word_byte(byte: u8) -> bool
    ensures { result ≡ is_word byte }
{
    byte.is_ascii_alphanumeric() || byte == b'_'
}

pub(crate) fn is_symbol_byte(byte: u8) -> bool
    ensures { result ≡ is_symbol byte }
{
    b"+-*/\\^<>=~:.?@#&$".contains(&byte)
}

pub(crate) fn is_impure_byte(byte: u8) -> bool
    ensures { result ≡ is_impure_character byte }
{
    b"!\"`".contains(&byte)
}

/// How many bytes of a word the text begins with.
pub(crate) fn word_len(bytes: &[u8]) -> usize
    ensures front { result ≡ prefix_len is_word bytes.now }
    ensures within { result ≤ length bytes.now }
{
    for (index, byte) in bytes.iter().enumerate() {
        if !is_word_byte(*byte) {
            return index;
        }
    }
    bytes.len()
}

/// How many digits the text begins with.
pub(crate) fn digits_len(bytes: &[u8]) -> usize
    ensures front { result ≡ prefix_len is_digit bytes.now }
    ensures within { result ≤ length bytes.now }
{
    for (index, byte) in bytes.iter().enumerate() {
        if !is_digit_byte(*byte) {
            return index;
        }
    }
    bytes.len()
}

/// How many symbol characters the text begins with.
pub(crate) fn symbols_len(bytes: &[u8]) -> usize
    ensures front { result ≡ prefix_len is_symbol bytes.now }
    ensures within { result ≤ length bytes.now }
{
    for (index, byte) in bytes.iter().enumerate() {
        if !is_symbol_byte(*byte) {
            return index;
        }
    }
    bytes.len()
}

/// How many bytes stand before the first newline, or the end.
pub(crate) fn line_len(bytes: &[u8]) -> usize
    ensures front { result ≡ prefix_len is_no_newline bytes.now }
    ensures within { result ≤ length bytes.now }
{
    for (index, byte) in bytes.iter().enumerate() {
        if *byte == b'\n' {
            return index;
        }
    }
    bytes.len()
}
