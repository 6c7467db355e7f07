//! Names as they are written: in quotes where they need them (ISO 13211-1, section 7.10.5).
#![tactic(auto)]

ghost use Rattle.std.specs.Prelude.{◌≡◌, ◌++◌, ◌||◌, OnOk};
ghost use Rattle.std.specs.List.{list_all};
ghost use Rattle.and_model.specs.Lines.{is_small, is_word, is_symbol, is_plain_name};
ghost use Rattle.and_model.specs.Lines.{is_symbol_name, is_brackets, escaped, shown_name};

use and_model::Text;
use std::alloc::AllocError;

fn is_small(byte: u8) -> bool
    ensures { result ≡ is_small byte }
{
    byte.is_ascii_lowercase()
}

fn is_word(byte: u8) -> bool
    ensures { result ≡ is_word byte }
{
    byte.is_ascii_alphanumeric() || byte == b'_'
}

fn is_symbol(byte: u8) -> bool
    ensures { result ≡ is_symbol byte }
{
    b"+-*/\\^<>=~:.?@#&$".contains(&byte)
}

fn are_words(bytes: &[u8]) -> bool
    ensures { result ≡ list_all is_word bytes.now }
{
    bytes.iter().all(|byte| is_word(*byte))
}

fn are_symbols(bytes: &[u8]) -> bool
    ensures { result ≡ list_all is_symbol bytes.now }
{
    bytes.iter().all(|byte| is_symbol(*byte))
}

fn is_plain_name(name: &[u8]) -> bool
    ensures { result ≡ is_plain_name name.now }
{
    match name {
        [first, rest @ ..] => is_small(*first) && are_words(rest),
        [] => false,
    }
}

fn is_symbol_name(name: &[u8]) -> bool
    ensures { result ≡ is_symbol_name name.now }
{
    match name {
        [] | [b'.'] | [b'/', b'*', ..] => false,
        _ => are_symbols(name),
    }
}

/// Whether the name is written without quotes.
fn is_bare(name: &[u8]) -> bool
    ensures { let name = name.now in
        result ≡ (is_plain_name name || is_symbol_name name || is_brackets name) }
{
    is_plain_name(name) || is_symbol_name(name) || matches!(name, [b'[', b']'])
}

/// Writes a byte of a name between quotes. After want of memory the text is spent.
fn write_escaped(text: &mut Text, byte: u8) -> Result<(), AllocError>
    ensures { OnOk result (text.new ≡ text.old ++ escaped byte) }
{
    match byte {
        b'\\' => text.append(b"\\\\"),
        b'\'' => text.append(b"\\'"),
        b'\n' => text.append(b"\\n"),
        _ => text.append(&[byte]),
    }
}

/// Puts a name at the end of the text, in quotes where it needs them. After want of memory the text
/// is spent.
pub fn write_name(text: &mut Text, name: &[u8]) -> Result<(), AllocError>
    ensures { OnOk result (text.new ≡ text.old ++ shown_name name.now) }
{
    if is_bare(name) {
        return text.append(name);
    }
    text.append(b"'")?;
    for byte in name {
        write_escaped(text, *byte)?;
    }
    text.append(b"'")
}
