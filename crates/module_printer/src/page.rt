// A text to which lines are added.
ghost use Rattle.std.specs.Prelude.{◌≡◌, ◌++◌, [], replicate, OnOk};
ghost use Rattle.module_printer.specs.Pages.{added};

use pyn_base::{Memory, Text};
use std::alloc::Global;

/// How much deeper a block is than its header, in columns.
pub const INDENT: usize = 4;

/// A text to which lines are added.
#[derive(Drop)]
pub struct Page {
    pub text: Text,
    /// How many empty lines are before the next line.
    pub blanks: usize,
}

/// Adds a character so many times.
fn push_times(to: &mut Text, count: usize, c: char) -> Result<(), Memory>
    ensures { OnOk result (to.new ≡ to.old ++ replicate count c) }
{
    for _i in 0..count {
        to.push(c)?;
    }
    Ok(())
}

impl Page {
    /// An empty page.
    pub fn new(alloc: Global) -> Self
        ensures { result ≡ record { text = []; blanks = 0 } }
    {
        Page {
            text: Text::new(alloc),
            blanks: 0,
        }
    }

    /// Adds a line at a column.
    #[tactic(auto, using(crate::proofs::Pages::line_added))]
    pub fn line(&mut self, column: usize, line: &Text) -> Result<(), Memory>
        ensures { OnOk result (self.new ≡ added self.old column line.now) }
    {
        push_times(&mut self.text, self.blanks, '\n')?;
        push_times(&mut self.text, column, ' ')?;
        self.text.push_str(line.as_str())?;
        self.text.push('\n')?;
        self.blanks = 0;
        Ok(())
    }
}
