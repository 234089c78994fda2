// Classes of bytes, and the first byte of a text.
ghost use Rattle.std.specs.Prelude.{◌≡◌, ◌==◌, ◌≤◌, ◌<◌, length, take, take_while, nat_le};
ghost use Rattle.std.specs.List.{list_any, prefix_len};
ghost use Rattle.std.specs.Char.{digit_value};
ghost use Rattle.std.specs.Str.{continuation_len};
ghost use Rattle.py_language.specs.TokensCharacters as spec;
ghost use Rattle.py_language.specs.TokensNumbers.{is_digit_below};
ghost use Rattle.py_language.specs.TokensLines.{line_feeds};

pub fn is_letter(b: u8) -> bool
    ensures { result ≡ spec.is_letter b }
{
    matches!(b, b'A'..=b'Z' | b'a'..=b'z' | b'_')
}

pub fn is_word(b: u8) -> bool
    ensures { result ≡ spec.is_word b }
{
    is_letter(b) || b.is_ascii_digit()
}

pub fn is_blank(b: u8) -> bool
    ensures { result ≡ spec.is_blank b }
{
    b == b' ' || b == b'\t'
}

pub fn is_quote(b: u8) -> bool
    ensures { result ≡ spec.is_quote b }
{
    b == b'"' || b == b'\''
}

/// The value of a digit in a base up to 36, or 36.
pub fn digit_value(b: u8) -> u8
    ensures value { result ≡ digit_value b }
    ensures small { result ≤ 36 }
{
    match b {
        b'0'..=b'9' => b - b'0',
        b'A'..=b'Z' => b - b'A' + 10,
        b'a'..=b'z' => b - b'a' + 10,
        _ => 36,
    }
}

pub fn is_digit_below(n: u8, b: u8) -> bool
    ensures { result ≡ is_digit_below n b }
{
    digit_value(b) < n
}

pub fn contains(text: &[u8], b: u8) -> bool
    ensures { result ≡ list_any (λ c. c == b) text.now }
{
    text.iter().any(|c| *c == b)
}

pub fn begins_with(text: &[u8], b: u8) -> bool
    ensures { result ≡ spec.begins (λ c. c == b) text.now }
{
    match text.split_first() {
        Some((c, _)) => *c == b,
        None => false,
    }
}

pub fn begins_quote(text: &[u8]) -> bool
    ensures { result ≡ spec.begins spec.is_quote text.now }
{
    match text.split_first() {
        Some((c, _)) => is_quote(*c),
        None => false,
    }
}

pub fn begins_digit(text: &[u8]) -> bool
    ensures { result ≡ spec.begins spec.is_digit text.now }
{
    match text.split_first() {
        Some((c, _)) => c.is_ascii_digit(),
        None => false,
    }
}

pub fn begins_digit_below(n: u8, text: &[u8]) -> bool
    ensures { result ≡ spec.begins (is_digit_below n) text.now }
{
    match text.split_first() {
        Some((c, _)) => is_digit_below(n, *c),
        None => false,
    }
}

/// How many bytes of a name are at the front.
pub fn word_len(text: &[u8]) -> usize
    ensures value { result ≡ prefix_len spec.is_word text.now }
    ensures within { result ≤ length text.now }
{
    text.iter().take_while(|b| is_word(**b)).count()
}

/// How many spaces and tabs are at the front.
pub fn blank_len(text: &[u8]) -> usize
    ensures value { result ≡ prefix_len spec.is_blank text.now }
    ensures within { result ≤ length text.now }
{
    text.iter().take_while(|b| is_blank(**b)).count()
}

/// How many bytes that are not ASCII are at the front.
fn high_len(text: &[u8]) -> usize
    ensures value { result ≡ prefix_len (λ c. nat_le 128 c) text.now }
    ensures within { result ≤ length text.now }
{
    text.iter().take_while(|b| **b >= 128).count()
}

/// How many bytes follow the first byte of a character.
fn continuation_len(b: u8) -> usize
    ensures { result ≡ continuation_len b }
{
    match b {
        0..=127 => 0,
        128..=223 => 1,
        224..=239 => 2,
        _ => 3,
    }
}

/// How many bytes after the first may belong to its character: no others are looked at.
pub fn more_len(b: u8, rest: &[u8]) -> usize
    ensures value { take result rest.now ≡ spec.more_bytes b rest.now }
    ensures within { result ≤ length rest.now }
{
    let most = continuation_len(b).min(rest.len());
    high_len(rest.split_at(most).0)
}

/// How many line ends a text has.
pub fn line_feeds(text: &[u8]) -> u64
    ensures value { result ≡ line_feeds text.now }
    ensures few { result ≤ length text.now }
{
    let mut count: u64 = 0;
    for b in text {
        if *b == b'\n' {
            count += 1;
        }
    }
    count
}
