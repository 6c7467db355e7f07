//! What to write in place of what is not in the language.

/// A token that other Prologs have, and what is said of it.
struct Foreign {
    token: &'static [u8],
    hint: &'static str,
}

/// The tokens that other Prologs have and this language has not.
const FOREIGN: [Foreign; 20] = [
    Foreign {
        token: b"!",
        hint: "there is no cut: let guards, as X < Y and X >= Y, tell which clause is meant",
    },
    Foreign {
        token: b"->",
        hint: "there is no ->: write a clause for each case, or ( X < Y, .. ; X >= Y, .. )",
    },
    Foreign {
        token: b"*->",
        hint: "there is no *->: write a clause for each case, or ( X < Y, .. ; X >= Y, .. )",
    },
    Foreign {
        token: b"\\+",
        hint: "there is no negation: write a predicate for what holds instead",
    },
    Foreign {
        token: b"\\=",
        hint: "there is no \\=: of numbers write =\\=, and else a predicate for what differs",
    },
    Foreign {
        token: b"==",
        hint: "there is no ==: write = for equal terms, or =:= for equal numbers",
    },
    Foreign {
        token: b"\\==",
        hint: "there is no \\==: of numbers write =\\=, and else a predicate for what differs",
    },
    Foreign {
        token: b"=..",
        hint: "there is no =..: write the structure itself",
    },
    Foreign {
        token: b"<=",
        hint: "less or equal is =<",
    },
    Foreign {
        token: b"=>",
        hint: "greater or equal is >=",
    },
    Foreign {
        token: b"!=",
        hint: "of numbers write =\\=",
    },
    Foreign {
        token: b"@<",
        hint: "terms have no order: compare numbers by <",
    },
    Foreign {
        token: b"@>",
        hint: "terms have no order: compare numbers by >",
    },
    Foreign {
        token: b"/",
        hint: "there is no /: the whole part of a division is //, and what is left over is rem or mod",
    },
    Foreign {
        token: b"**",
        hint: "there is no **: multiply by *",
    },
    Foreign {
        token: b"^",
        hint: "there is no ^: multiply by *",
    },
    Foreign {
        token: b"<<",
        hint: "there is no <<: multiply by *",
    },
    Foreign {
        token: b">>",
        hint: "there is no >>: divide by //",
    },
    Foreign {
        token: b"\"",
        hint: "there are no strings: write a name, as 'two words', or a list of its parts",
    },
    Foreign {
        token: b"`",
        hint: "there is no `: write a name, as 'two words', or a list of its parts",
    },
];

/// Whether bytes are a number with digits behind a point.
fn is_float(token: &[u8]) -> bool {
    token.iter().any(|byte| *byte == b'.') && token.iter().any(|byte| byte.is_ascii_digit())
}

/// Whether bytes are a number in another form than that of digits.
fn is_odd_number(token: &[u8]) -> bool {
    match token.first() {
        Some(first) => first.is_ascii_digit() && token.iter().any(|byte| !byte.is_ascii_digit()),
        None => false,
    }
}

/// What is said of a token that is not in the language; `None` where nothing is known of it.
pub fn hint_of(token: &[u8]) -> Option<&'static str> {
    for foreign in &FOREIGN {
        if foreign.token == token {
            return Some(foreign.hint);
        }
    }
    if is_float(token) {
        return Some("there are no floats: numbers are whole, so that 1.5 may be 15 tenths");
    }
    if is_odd_number(token) {
        return Some("a number has digits alone");
    }
    None
}

/// Whether a term may end with such a byte.
fn may_end(byte: u8) -> bool {
    byte.is_ascii_alphanumeric() || b"_')]}".contains(&byte)
}

/// Whether a term may begin with such a byte.
fn may_begin(byte: u8) -> bool {
    byte.is_ascii_alphanumeric() || b"_'([{".contains(&byte)
}

/// Whether two terms meet between a text and a token, without anything between.
pub fn are_terms_met(front: &[u8], token: &[u8]) -> bool {
    match (front.trim_ascii_end().last(), token.first()) {
        (Some(last), Some(first)) => may_end(*last) && may_begin(*first),
        _ => false,
    }
}
