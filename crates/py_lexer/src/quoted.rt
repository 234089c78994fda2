// Where a string ends.
ghost use Rattle.std.specs.Prelude.{◌≡◌, ◌≤◌, ◌<◌, ◌+◌, ◌∷◌, ℕ, false, true, nat_eq, length, IfSome};
ghost use Rattle.std.specs.List.{starts_with};
ghost use Rattle.py_language.specs.TokensStrings as spec;

use crate::bytes::begins_with;

/// Whether the text begins with this byte twice.
pub fn begins_twice(b: u8, text: &[u8]) -> bool
    ensures value { result ≡ spec.is_tripled b text.now }
    ensures within { result ≡ true → 2 ≤ length text.now }
{
    let Some((first, rest)) = text.split_first() else {
        return false;
    };
    *first == b && begins_with(rest, b)
}

pub fn quotes_len(is_long: bool) -> usize
    ensures value { (q : ℕ) → result ≡ length (spec.quotes q is_long) }
    ensures some { 0 < result }
    ensures few { result ≤ 3 }
{
    if is_long { 3 } else { 1 }
}

fn closes_here(quote: u8, is_long: bool, first: u8, rest: &[u8]) -> bool
    ensures { result ≡ starts_with nat_eq (first ∷ rest.now) (spec.quotes quote is_long) }
{
    first == quote && (!is_long || begins_twice(quote, rest))
}

/// Where the closing quotes end, in the bytes after the opening ones.
fn closing(quote: u8, is_long: bool, text: &[u8]) -> Option<usize>
    ensures value { result ≡ spec.closing quote is_long false text.now }
    ensures within { IfSome result (λ n. (0 < n) × (n ≤ length text.now)) }
{
    let mut rest = text;
    let mut len = 0;
    let mut is_hidden = false;
    while let Some((b, more)) = rest.split_first() {
        if is_hidden {
            is_hidden = false;
        } else if closes_here(quote, is_long, *b, more) {
            return Some(if is_long { len + 3 } else { len + 1 });
        } else if *b == b'\n' && !is_long {
            return None;
        } else {
            is_hidden = *b == b'\\';
        }
        len += 1;
        rest = more;
    }
    None
}

/// The length of a string whose first quote is before the text, if it is closed.
pub fn string_len(quote: u8, text: &[u8]) -> Option<usize>
    ensures value { result ≡ spec.string_len quote text.now }
    ensures within { IfSome result (λ n. (1 < n) × (n ≤ length text.now + 1)) }
{
    let is_long = begins_twice(quote, text);
    let width = quotes_len(is_long);
    let len = closing(quote, is_long, text.split_at(width - 1).1)?;
    Some(width + len)
}
