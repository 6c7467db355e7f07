//! The code of a proof, read off its text.

ghost use Rattle.std.specs.Prelude.{◌≡◌, ◌^◌, ◌<◌, ◌++◌, ◌∷◌, [], ℕ, List, map, length, codes, IfOk, IfSome};
ghost use Rattle.std.specs.Prelude.{IsSomeAnd, IsNone, Contains, Some};
ghost use Rattle.std.specs.Fmt.{decimal};
ghost use Rattle.and_model.specs.Lines.{Bytes};
ghost use Rattle.and_proof.specs.Entries.{Entry, IsEntry, entry_text, entry_line, HasEntries};

use and_model::{ClauseNo, Code};
use std::alloc::{AllocError, Global};

const SPACE: u8 = b' ';

const NEWLINE: u8 = b'\n';

/// The numbers of the clauses on the lines of calls, as far as the text has such lines. An error is want of memory.
pub(crate) fn code_of(alloc: Global, text: &[u8]) -> Result<Code, AllocError>
    ensures { IfOk result (λ code. (es : List Entry) → HasEntries text.now es
        → code ≡ map (λ (e : Entry). e.clause) es) }
{
    let mut code = Code::new(alloc);
    let Some((_, mut rest)) = parted(text, NEWLINE) else {
        return Ok(code);
    };
    while let Some((clause, after)) = next_call(rest) {
        code.push(clause)?;
        rest = after;
    }
    Ok(code)
}

/// The clause on a line of a call, and what stands behind the line; `None` where no such line begins. Takes no memory.
fn next_call(rest: &[u8]) -> Option<(ClauseNo, &[u8])>
    ensures call { (e : Entry) (tail : Bytes) → IsEntry e → rest.now ≡ entry_line e ++ tail
        → IsSomeAnd result (λ r. (r.0.0 ≡ e.clause) × (r.1.now ≡ tail)) }
    ensures last { (tail : Bytes) → rest.now ≡ codes "%% line " ++ tail → IsNone result }
    ensures shorter { IfSome result (λ r. length r.1.now < length rest.now) }
{
    if rest.starts_with(b"%% line ") {
        return None;
    }
    let (line, after) = parted(rest, NEWLINE)?;
    Some((clause_on(line)?, after))
}

/// The clause on a line of a call, which is given without its newline; `None` where this is no such line. Takes no
/// memory.
fn clause_on(line: &[u8]) -> Option<ClauseNo>
    ensures { (e : Entry) → IsEntry e → line.now ≡ entry_text e → IsSomeAnd result (λ clause. clause.0 ≡ e.clause) }
{
    let (_, entry) = parted(line, SPACE)?;
    let (_, entry) = parted(entry, SPACE)?;
    let (number, _) = parted(entry, SPACE)?;
    Some(ClauseNo(number_of(number)?))
}

/// A number that is written in decimal; `None` where this is none. Takes no memory.
fn number_of(digits: &[u8]) -> Option<u16>
    ensures { (n : ℕ) → n < 2 ^ 16 → digits.now ≡ decimal n → IsSomeAnd result (λ number. number ≡ n) }
{
    match str::from_utf8(digits) {
        Ok(digits) => digits.parse::<u16>().ok(),
        Err(_) => None,
    }
}

/// What stands before the first such byte, and what stands behind it; `None` where there is none. Takes no memory.
fn parted(bytes: &[u8], at: u8) -> Option<(&[u8], &[u8])>
    ensures parts { (front back : Bytes) → (Contains front at → ⊥) → bytes.now ≡ front ++ at ∷ back
        → IsSomeAnd result (λ r. (r.0.now ≡ front) × (r.1.now ≡ back)) }
    ensures shorter { IfSome result (λ r. length r.1.now < length bytes.now) }
{
    for place in 0..bytes.len() {
        if bytes[place] == at {
            return Some((&bytes[..place], &bytes[place + 1..]));
        }
    }
    None
}
