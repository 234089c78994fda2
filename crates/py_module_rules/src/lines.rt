// Lines that break a rule.
ghost use Rattle.std.specs.Prelude.{◌≡◌, [], ◌++◌, OnOk, Some};
ghost use Rattle.py_scopes.specs.ModuleRows.{line_if};
ghost use Rattle.py_scopes.specs.Refusals.{least, least_with};

use py_syntax::Line;
use pyn_base::Memory;
use std::alloc::Global;
use std::marker::Model;

/// Lines in the order in which they were found.
#[derive(Drop)]
pub struct Lines {
    lines: Vec<Line>,
}

impl Model for Lines {
    ghost use Rattle.std.specs.Prelude.{ℕ, List};

    ghost Value = { List ℕ };

    ghost view = { λ l. l.lines.items };
}

impl Lines {
    /// No lines. It takes no memory.
    pub fn new(alloc: Global) -> Lines
        ensures { result ≡ [] }
    {
        Lines {
            lines: Vec::new(alloc),
        }
    }

    /// Adds a line, if it breaks the rule.
    pub fn add_if(&mut self, breaks: bool, line: Line) -> Result<(), Memory>
        ensures { OnOk result (self.new ≡ self.old ++ line_if breaks line) }
    {
        if breaks {
            self.lines.push(line)?;
        }
        Ok(())
    }

    /// The least of them.
    pub fn least(&self) -> Option<Line>
        ensures { result ≡ least self.now }
    {
        least_of(self.lines.as_slice())
    }
}

fn least_of(lines: &[Line]) -> Option<Line>
    ensures { result ≡ least lines.now }
{
    let mut first = None;
    for line in lines {
        first = Some(earlier(*line, first));
    }
    first
}

fn earlier(line: Line, first: Option<Line>) -> Line
    ensures { Some result ≡ least_with line first }
{
    match first {
        None => line,
        Some(other) => line.min(other),
    }
}
