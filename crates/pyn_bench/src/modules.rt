// What is said of a text that is read as a module.
ghost use Rattle.std.specs.Prelude.{◌≡◌, IfOk};
ghost use Rattle.pyn_bench.specs.Refused.{refused_text};
ghost use Rattle.pyn_bench.specs.Reports.{read_text, module_report};

use py_parser::read_module;
use py_syntax::{Line, Refusal};
use pyn_base::{Construct, Memory, Text};
use std::alloc::Global;

/// The most bytes that a module has.
pub(crate) const LONGEST_MODULE: usize = 262144;

fn read_text(alloc: Global, nodes: u32) -> Result<Text, Memory>
    ensures { IfOk result (λ t. t ≡ read_text nodes) }
{
    let mut text = Text::new(alloc);
    text.push_ascii(b"read\nnodes ")?;
    text.push_number(nodes as u64)?;
    text.push_ascii(b"\n")?;
    Ok(text)
}

/// What is said of a text that isn't read.
pub(crate) fn refused_text(alloc: Global, line: Line, construct: Construct) -> Result<Text, Memory>
    ensures { IfOk result (λ t. t ≡ refused_text line construct) }
{
    let mut text = Text::new(alloc);
    text.push_ascii(b"refused line ")?;
    text.push_number(line)?;
    text.push_ascii(b" ")?;
    text.push_str(construct.text())?;
    text.push_ascii(b"\n")?;
    Ok(text)
}

/// What is said of a text that is read as a module: a text of more than 262,144 bytes is none.
pub fn module_report(alloc: Global, text: &[u8]) -> Result<Text, Memory>
    ensures { IfOk result (λ t. t ≡ module_report text.now) }
{
    if text.len() > LONGEST_MODULE {
        return refused_text(alloc, 1, Construct::TooLong);
    }
    match read_module(alloc, text) {
        Ok(made) => read_text(alloc, made.nodes),
        Err(Refusal::Refused { line, construct }) => refused_text(alloc, line, construct),
        Err(Refusal::Memory) => Err(Memory),
    }
}
