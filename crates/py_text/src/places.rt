// Where a text is in another, by the method of Knuth, Morris and Pratt.
ghost use Rattle.std.specs.Prelude.{◌≡◌, ◌+◌, ◌≤◌, length, IfOk, IfSome};
ghost use Rattle.py_meaning.specs.Texts.{first_place};
ghost use Rattle.py_text.specs.Borders.{AreBorders};

use pyn_base::Memory;
use std::alloc::Global;

/// The first place at which `part` is in `text`, or `None`. The empty text is at the front. It takes time linear
/// in both, and memory for a number for each character of the part where that isn't longer than the text.
pub fn first_place(alloc: Global, part: &[char], text: &[char]) -> Result<Option<usize>, Memory>
    ensures place { IfOk result (λ place. place ≡ first_place part.now text.now) }
    ensures within { IfOk result (λ place. IfSome place (λ at. at + length part.now ≤ length text.now)) }
{
    if text.len() < part.len() {
        return Ok(None);
    }
    let borders = borders(alloc, part)?;
    Ok(scan(part, borders.as_slice(), text))
}

/// Reads the text once. Where a character doesn't fit, those before it that fit are known to end with a border.
fn scan(part: &[char], borders: &[usize], text: &[char]) -> Option<usize>
    requires are_borders { AreBorders part.now borders.now }
    requires of_each { length borders.now ≡ length part.now }
    ensures place { result ≡ first_place part.now text.now }
    ensures within { IfSome result (λ at. at + length part.now ≤ length text.now) }
{
    let mut at = 0;
    let mut fit = 0;
    while part.len() <= text.len() - at {
        if fit == part.len() {
            return Some(at);
        }
        if text[at + fit] == part[fit] {
            fit += 1;
        } else if fit == 0 {
            at += 1;
        } else {
            let border = borders[fit - 1];
            at += fit - border;
            fit = border;
        }
    }
    None
}

/// For each front of a text but the empty one, how long its longest border is.
fn borders(alloc: Global, text: &[char]) -> Result<Vec<usize>, Memory>
    ensures are_borders { IfOk result (λ all. AreBorders text.now all.items) }
    ensures of_each { IfOk result (λ all. length all.items ≡ length text.now) }
{
    let mut borders = Vec::new(alloc);
    if text.is_empty() {
        return Ok(borders);
    }
    borders.push(0)?;
    let mut at = 1;
    let mut fit = 0;
    while at + fit < text.len() {
        if text[at + fit] == text[fit] {
            fit += 1;
            borders.push(fit)?;
        } else if fit == 0 {
            at += 1;
            borders.push(0)?;
        } else {
            let border = borders[fit - 1];
            at += fit - border;
            fit = border;
        }
    }
    Ok(borders)
}
