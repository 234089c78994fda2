// The laws of printing: what was read is read back from its text.
ghost use Rattle.printing_laws.specs.ReadBack.{NumbersChangeNothing, PrintedExpressionsReadBack, PrintedModulesReadBack};

use module_printer::law_of_lines;
use py_annotation_layout::laws_of_annotations;
use py_layout::{law_of_modules, laws_of_quiet};
use py_printer::laws_of_printing;
use py_printing::laws_of_expressions;
use py_spelling::laws_of_spelling;

/// The tree of any tokens is read back from its text, where its names are identifiers and no keywords, its integers aren't negative and are
/// of the language, and its strings are characters: the text is one logical line without a fault, and its tokens have the same tree, up to
/// lines and node numbers.
pub fn law_of_printed_expressions()
    ensures { PrintedExpressionsReadBack }
{
    laws_of_expressions();
    laws_of_quiet();
    laws_of_printing();
}

/// A module that any text is read as is read back from its own text, where that opens no more than 50 brackets at once: the same module,
/// up to lines and node numbers.
pub fn law_of_printed_modules()
    ensures { PrintedModulesReadBack }
{
    laws_of_spelling();
    laws_of_expressions();
    laws_of_quiet();
    laws_of_annotations();
    laws_of_printing();
    law_of_modules();
    law_of_lines();
}

/// The numbers of a module's nodes change neither its text nor what it is up to lines and node numbers.
pub fn law_of_numbered_modules()
    ensures { NumbersChangeNothing }
{}
