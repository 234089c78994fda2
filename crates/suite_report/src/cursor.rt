// A place in a text, and the lines from it on.
ghost use Rattle.std.specs.Prelude.{◌≡◌, ◌+◌, ◌<◌, ◌^◌, length};
ghost use Rattle.suite_report.specs.Places.{IsNextLine, refusal_by};

use crate::fault::Fault;
use crate::fields::cut;
use crate::refusal::ReportRefusal;
use py_syntax::Line;

/// A place in a text.
#[derive(Clone, Copy)]
pub struct Cursor<'t> {
    /// The number of the next line, from 1.
    pub number: Line,
    /// The text from that line on.
    pub rest: &'t [u8],
}

/// The next line that ends with a line feed, without it, and the place after it.
pub fn next_line(at: Cursor) -> Option<(&[u8], Cursor)>
    requires { 0 < length at.rest.now → at.number + 1 < 2 ^ 64 }
    ensures { IsNextLine at.entry result }
{
    match cut(b'\n', at.rest) {
        None => None,
        Some((line, rest)) => Some((
            line,
            Cursor {
                number: at.number + 1,
                rest,
            },
        )),
    }
}

/// Why a text is refused whose line of this number is not read.
pub fn refusal_by(number: Line, fault: Fault) -> ReportRefusal
    ensures { result ≡ refusal_by number fault }
{
    match fault {
        Fault::Form => ReportRefusal::Refused { line: number },
        Fault::Memory => ReportRefusal::Memory,
    }
}
