// Cutting a text: its first line, and what stands between a beginning and an ending.
ghost use Rattle.std.specs.Prelude.{◌≡◌, ◌≤◌, ◌+◌, length, drop, option_copied};
ghost use Rattle.py_language.specs.FirstForm.{lines_of, after, before, between};
ghost use Rattle.py_first_form.specs.Cut.{to_feed, first_line};

fn to_feed(text: &[u8]) -> usize
    ensures value { result ≡ to_feed text.now }
    ensures bound { result ≤ length text.now }
{
    text.iter().take_while(|c| **c != b'\n').count()
}

/// The first line of a text, with its line feed, and what follows. Both are empty at the end of the text.
pub(crate) fn take_line(text: &[u8]) -> (&[u8], &[u8])
    ensures line { result.0.now ≡ first_line (lines_of text.now) }
    ensures rest { lines_of result.1.now ≡ drop 1 (lines_of text.now) }
    ensures whole { length result.0.now + length result.1.now ≡ length text.now }
{
    let feed = to_feed(text);
    if feed < text.len() {
        text.split_at(feed + 1)
    } else {
        text.split_at(feed)
    }
}

fn after<'a>(start: &[u8], text: &'a [u8]) -> Option<&'a [u8]>
    ensures { option_copied result ≡ after start.now text.now }
{
    text.strip_prefix(start)
}

fn before<'a>(end: &[u8], text: &'a [u8]) -> Option<&'a [u8]>
    ensures { option_copied result ≡ before end.now text.now }
{
    text.strip_suffix(end)
}

/// What stands between a beginning and an ending.
pub(crate) fn between<'a>(start: &[u8], end: &[u8], text: &'a [u8]) -> Option<&'a [u8]>
    ensures { option_copied result ≡ between start.now end.now text.now }
{
    before(end, after(start, text)?)
}
