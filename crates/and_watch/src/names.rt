//! Names that are like a misspelt one.

use crate::places::part;
use and_lex::{Kind, Lexer};
use std::alloc::{AllocError, Global};
use strsim::osa_distance;

/// The most edits that lead from a name to one that is like it.
const MOST_EDITS: usize = 2;

/// The most bytes of a name that is compared.
const LONGEST: usize = 64;

/// The closest name so far, and by how many edits.
#[derive(Drop)]
struct Closest {
    name: String,
    edits: usize,
}

/// A name that clauses begin with, if it is closer than the closest so far.
fn closer(
    alloc: Global,
    wanted: &str,
    name: &[u8],
    most: usize,
) -> Result<Option<Closest>, AllocError> {
    if name.len() > LONGEST {
        return Ok(None);
    }
    let name = String::from_utf8_lossy(alloc, name)?;
    let edits = osa_distance(alloc, wanted, &name)?;
    if edits < most {
        let name = String::from_str(alloc, &name)?;
        return Ok(Some(Closest { name, edits }));
    }
    Ok(None)
}

/// The name that is closest to the wanted one, of those that clauses of a text begin with; `None` where none is close.
pub fn nearest(alloc: Global, text: &[u8], wanted: &[u8]) -> Result<Option<String>, AllocError> {
    if wanted.len() > LONGEST {
        return Ok(None);
    }
    let wanted = String::from_utf8_lossy(alloc, wanted)?;
    let mut closest = None;
    let mut most = wanted.len().min(MOST_EDITS.saturating_add(1));
    let mut lexer = Lexer::new(text);
    let mut is_first = true;
    for _turn in 0..=text.len() {
        let Ok(Some(token)) = lexer.next() else {
            break;
        };
        if is_first && token.kind == Kind::Name {
            let name = part(text, token.start, token.end);
            if let Some(found) = closer(alloc, &wanted, name, most)? {
                most = found.edits;
                closest = Some(found.name);
            }
        }
        is_first = token.kind == Kind::End;
    }
    Ok(closest)
}
