// The laws of layout.
ghost use Rattle.py_layout.specs.Blocks.{BlocksReadBack};
ghost use Rattle.py_layout.specs.Headers.{HeadersReadBack};
ghost use Rattle.py_layout.specs.Modules.{ModulesReadBack};
ghost use Rattle.py_layout.specs.Quiet.{ExpressionsAreQuiet};
ghost use Rattle.py_layout.specs.Small.{SmallReadBack};
ghost use Rattle.py_layout.specs.Starts.{ExpressionsBegin};

use py_printing::{laws_of_expressions, laws_of_shapes};

/// No separator of a line stands outside brackets in the tokens of an expression that any tokens are read as, and its brackets close. It
/// begins with no token that begins a statement of another kind.
pub fn laws_of_quiet()
    ensures expressions { ExpressionsAreQuiet }
    ensures starts { ExpressionsBegin }
{
    laws_of_expressions();
    laws_of_shapes();
}

/// A small statement that any tokens are read as is read from the tokens that it is printed as, on any line, where the tokens of annotations
/// are read back.
pub fn law_of_small_statements()
    ensures { SmallReadBack }
{
    laws_of_quiet();
    laws_of_expressions();
}

/// A header of a compound statement that any tokens are read as, with whatever is on its line, is read from the tokens that it is printed as,
/// on any line and with nothing after its colon, where the tokens of annotations are read back.
pub fn law_of_headers()
    ensures { HeadersReadBack }
{
    laws_of_quiet();
    laws_of_expressions();
}

/// What any lines are read as a block is read from the lines that it is printed as, at any column and wherever they are in a text: the same
/// statements, up to lines and node numbers, where the tokens of annotations are read back.
pub fn law_of_blocks()
    ensures { BlocksReadBack }
{
    laws_of_quiet();
    laws_of_expressions();
}

/// What any lines are read as a module, before its nodes are numbered, is read from the lines that it is printed as, wherever they are in a
/// text: the same module, up to lines and node numbers, where the tokens of annotations are read back.
pub fn law_of_modules()
    ensures { ModulesReadBack }
{
    laws_of_quiet();
    laws_of_expressions();
}
