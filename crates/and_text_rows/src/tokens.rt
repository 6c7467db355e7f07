//! Tokens of texts.

use and_lex::{Lexer, quoted_text};
use and_rows::{Untold, line};
use std::alloc::Global;

/// The tokens of a text, the end or the fault behind them, and what the lexer answers then.
pub(crate) fn tokens(alloc: Global, text: &[u8]) -> Result<String, Untold> {
    let mut lexer = Lexer::new(text);
    let mut out = String::new(alloc);
    for _ in 0..=text.len() {
        let found = lexer.next();
        let told = line(alloc, &found)?;
        out.push_str(&told)?;
        if !matches!(found, Ok(Some(_))) {
            break;
        }
    }
    let told = line(alloc, &lexer.next())?;
    out.push_str(&told)?;
    Ok(out)
}

/// What the tokens `'it''s'` and `'\\\n'` name.
pub(crate) fn quoted(alloc: Global) -> Result<String, Untold> {
    let name = quoted_text(alloc, b"'it''s'".as_slice())?;
    let signs = quoted_text(alloc, b"'\\\\\\n'".as_slice())?;
    line(alloc, &(name.bytes(), signs.bytes()))
}
